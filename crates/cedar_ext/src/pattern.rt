//! Patterns of `like`: characters and stars.
ghost use Rattle.std.specs.Prelude.{◌≡◌, ◌↔◌, ◌∷◌, [], IsTrue, IfOk, MatchOption, IfSome};
ghost use Rattle.std.specs.Str.{chars, IsUtf8};
ghost use Rattle.cedar_ext.specs.Matching.{IsMatch, is_match};
ghost use Rattle.cedar_ext.specs.declared.pattern.Element.TheVariants.{Star};

use std::alloc::{AllocError, Global};
use std::marker::Model;

/// A part of a pattern.
#[derive(Clone, Copy, PartialEq, Eq, Debug)]
pub enum Element {
    /// This character, once.
    Character(char),
    /// Any run of characters, the empty one too.
    Star,
}

/// The pattern of a `like`, which contracts see as the list of its elements
/// (Cedar language reference, like).
#[derive(Drop, Debug)]
pub struct Pattern {
    elements: Vec<Element>,
}

impl Model for Pattern {
    ghost use Rattle.std.specs.Prelude.{List};
    ghost use Rattle.cedar_ext.specs.declared.pattern.Element.{Element};

    ghost Value = { List Element };

    ghost view = { λ p. p.elements.items };
}

impl Pattern {
    /// The pattern of these elements. Takes no memory.
    pub fn new(elements: Vec<Element>) -> Pattern
        ensures { result ≡ elements.items }
    {
        Pattern { elements }
    }

    /// The elements in order, lent.
    pub fn elements(&self) -> &[Element]
        ensures { result.now ≡ self.now }
    {
        &self.elements
    }

    /// A copy, equal to the original.
    pub fn try_clone(&self, alloc: Global) -> Result<Pattern, AllocError>
        ensures { IfOk result (λ p. p ≡ self.now) }
    {
        Ok(Pattern {
            elements: Vec::from_slice(alloc, &self.elements)?,
        })
    }

    /// Whether the text can be cut into pieces, one for each element: a character's piece is that character, a star's piece any
    /// text (Cedar language reference, like). Takes no memory, and at most as many steps as the product of the two lengths.
    pub fn matches(&self, text: &str) -> bool
        ensures cut { IsTrue result ↔ IsMatch self.now (chars text.now) }
        ensures gives { result ≡ is_match self.now (chars text.now) }
    {
        matches_elements(self.elements(), text)
    }
}

impl PartialEq for Pattern {
    ghost use Rattle.std.specs.Cmp.{partial_equiv_from_equiv};
    ghost use Rattle.cedar_ext.specs.Private.SamePattern.{pattern_equivalence};
    ghost use Rattle.cedar_ext.specs.SamePattern.{same_pattern};

    ghost eq = { same_pattern };

    ghost laws = { partial_equiv_from_equiv pattern_equivalence };

    /// Whether the two have the same elements.
    fn eq(&self, other: &Self) -> bool
        ensures gives { result ≡ same_pattern self.now other.now }
        ensures equal { IsTrue result ↔ (self.now ≡ other.now) }
    {
        self.elements == other.elements
    }
}

impl Eq for Pattern {
    ghost use Rattle.cedar_ext.specs.Private.SamePattern.{pattern_equivalence};

    ghost laws = { pattern_equivalence };
}

// Whether the elements match the text: each character up to the first star, and then the elements after the star.
fn matches_elements(elements: &[Element], text: &str) -> bool
    ensures { IsTrue result ↔ IsMatch elements.now (chars text.now) }
{
    let mut todo = elements;
    let mut rest = text;
    'walk: while let Some((element, others)) = todo.split_first() {
        match element {
            Element::Star => return matches_after_star(others, rest),
            Element::Character(c) => match split_first(rest) {
                Some((d, tail)) if d == *c => {
                    todo = others;
                    rest = tail;
                }
                _ => return false,
            },
        }
    }
    rest.is_empty()
}

// Whether the elements match some end of the text. Where they fail at one place, they are tried
// one character further on; a later star makes the earlier one's place final.
fn matches_after_star(elements: &[Element], text: &str) -> bool
    ensures { IsTrue result ↔ IsMatch (Star ∷ elements.now) (chars text.now) }
{
    let mut after_star = elements;
    let mut tried = text;
    let mut todo = after_star;
    let mut rest = tried;
    'search: loop {
        match todo.split_first() {
            Some((Element::Star, others)) => {
                after_star = others;
                tried = rest;
                todo = others;
                continue 'search;
            }
            Some((Element::Character(c), others)) => match split_first(rest) {
                None => return false,
                Some((d, tail)) => {
                    if d == *c {
                        todo = others;
                        rest = tail;
                        continue 'search;
                    }
                }
            },
            None => {
                if rest.is_empty() {
                    return true;
                }
            }
        }
        let Some((_, next)) = split_first(tried) else {
            return false;
        };
        tried = next;
        todo = after_star;
        rest = next;
    }
}

// The first character, and the text after it.
fn split_first(text: &str) -> Option<(char, &str)>
    ensures cut { MatchOption result (chars text.now ≡ []) (λ p. chars text.now ≡ p.0 ∷ chars p.1.now) }
    ensures text { IfSome result (λ p. IsUtf8 p.1.now) }
{
    let mut after = text.chars();
    let first = after.next()?;
    Some((first, after.as_str()))
}
