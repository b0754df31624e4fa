//! What is said of a part that has no type.
use crate::attributes::{absent_words, optional_words};
use crate::joins::joined_words;
use crate::kinds::operand_words;
use crate::literals::{constructor_words, empty_words};
use crate::quoting::Quote;
use crate::refusal::Operand;
use crate::spot::Spot;
use crate::undeclared::undeclared_words;
use base_places::Draft;
use cedar_check_operators::TypeFault;
use std::alloc::{AllocError, Global};

/// What is said of a part that has no type.
#[derive(Drop)]
pub(crate) struct Words {
    /// What the mark under the part's name says.
    pub(crate) says: Draft,
    /// The same, where the part is written with `>=`, `>` or `unless`. Empty where nothing differs.
    pub(crate) turned: Draft,
    /// The operands, with their types.
    pub(crate) operands: Vec<Operand>,
    /// What helps to see why. Empty where nothing does.
    pub(crate) note: Draft,
    /// What to do. Empty where nothing is likely.
    pub(crate) hint: Draft,
    /// What to do, with a part as it is written.
    pub(crate) quote: Option<Quote>,
}

impl Words {
    /// No words yet.
    pub(crate) fn new(alloc: Global) -> Words {
        Words {
            says: Draft::new(alloc),
            turned: Draft::new(alloc),
            operands: Vec::new(alloc),
            note: Draft::new(alloc),
            hint: Draft::new(alloc),
            quote: None,
        }
    }

    /// Hints that this name is meant.
    pub(crate) fn hint_at(&mut self, meant: &str) {
        self.hint.add_all(&["did you mean `", meant, "`?"]);
    }
}

/// Says why a part has no type for a reason.
pub(crate) fn add_words(
    spot: Spot<'_>,
    words: &mut Words,
    fault: TypeFault,
) -> Result<(), AllocError> {
    match fault {
        TypeFault::Undeclared => undeclared_words(spot, words),
        TypeFault::Unguarded => optional_words(spot, words),
        TypeFault::NoAttribute => absent_words(spot, words),
        TypeFault::NoJoin => joined_words(spot, words),
        TypeFault::EmptySet => empty_words(spot, words),
        TypeFault::OperandKind => operand_words(spot, words),
        TypeFault::NoLiteral => constructor_words(spot, words),
    }
}
