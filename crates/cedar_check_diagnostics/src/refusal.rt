//! The part of a condition that has no type.
ghost use Rattle.std.specs.Prelude.{◌≡◌, IfNone, IfOk, IfSome, [], None};
ghost use Rattle.cedar_check.specs.Typings.{IsTypingOf};
ghost use Rattle.cedar_check_diagnostics.specs.Refusals.{IsCondition, IsRefusedAt, IsUntypedAt};

use crate::checking::Checking;
use crate::kinds::other_condition;
use crate::parts::around;
use crate::quoting::Quote;
use crate::smallest::{Untyped, smallest};
use crate::spot::Spot;
use crate::words::{Words, add_words};
use base_places::Draft;
use cedar_ast_expressions::Expr;
use cedar_check_operators::{TypeFault, Typing};
use cedar_check_spec::Settings;
use cedar_schema::{Environment, Schema};
use std::alloc::{AllocError, Global};

/// A part of a condition, and what is said of it: one that has no type although each of its own parts that the checker looks at has
/// one, or a part `x has a` that is always false.
#[derive(Drop)]
pub struct ExplainedPart {
    /// From the condition to the part, the number of the child at each step, from 0: of operators the operands from the left, of
    /// `if` the condition and then the branches, of a set its members, of a record its entries.
    pub path: Vec<usize>,
    /// The number of the fault, from 601 to 607; 0 of a part `x has a`, which is not a fault.
    pub number: u16,
    /// What is wrong, for a mark under the part's name: for example that `Shop::Order` has no attribute `totl`.
    pub says: String,
    /// What is wrong in other words, where the part is written with `>=`, `>` or `unless`, which mean a `!`.
    pub says_turned: Option<String>,
    /// For 604 and 606 the operands with their types.
    pub operands: Vec<Operand>,
    /// What helps to see why, for example which attributes `Shop::Order` has.
    pub notes: Vec<String>,
    /// What to do, where one thing is likely.
    pub hint: Option<String>,
    /// What to do in better words, with a part as it is written.
    pub quote: Option<Quote>,
}

/// An operand of a part that has no type.
#[derive(Drop)]
pub struct Operand {
    /// From the condition to the operand, the number of the child at each step, from 0.
    pub path: Vec<usize>,
    /// Its type in words, for example `a Long`.
    pub says: String,
}

/// Why a condition has no type in an environment, or is not a Boolean there; none where it is accepted. `condition` is the whole
/// condition of a policy, with the environment's action in place of the variable (`Expr::with_action`). The part is the first one
/// in the order in which the checker looks at parts, and each of its own parts that the checker looks at has a type. It takes about
/// the time of a dozen typings.
///
/// # Errors
///
/// Fails only when out of memory.
pub fn refused_part<'a>(
    alloc: Global,
    settings: Settings,
    schema: &'a Schema,
    environment: &'a Environment,
    condition: &'a Expr,
) -> Result<Option<ExplainedPart>, AllocError>
    ensures none { IfOk result (λ o. IfNone o (IsCondition settings schema.now environment.now condition.now)) }
    ensures found { IfOk result (λ o. IfSome o (λ r. IsRefusedAt settings schema.now environment.now condition.now r.path.items)) }
{
    let checking = Checking {
        alloc,
        settings,
        schema,
        environment,
    };
    let typing = checking.typing(&[], condition)?;
    match typing {
        Typing::Refused(fault) => {
            let found = untyped_part(checking, condition, fault)?;
            Ok(Some(found))
        }
        Typing::Typed(x) => match x.ty.truth() {
            Some(_) => Ok(None),
            None => {
                let mut words = Words::new(alloc);
                other_condition(&mut words, &x.ty);
                let found = with_words(
                    alloc,
                    Vec::new(alloc),
                    TypeFault::OperandKind.number(),
                    words,
                )?;
                Ok(Some(found))
            }
        },
    }
}

// What a draft has, or none where nothing was added.
fn if_any(draft: Draft) -> Result<Option<String>, AllocError> {
    let text = draft.done()?;
    if text.is_empty() {
        return Ok(None);
    }
    Ok(Some(text))
}

/// The part of a path and a number with its words.
pub(crate) fn with_words(
    alloc: Global,
    path: Vec<usize>,
    number: u16,
    words: Words,
) -> Result<ExplainedPart, AllocError>
    ensures { IfOk result (λ r. r.path.items ≡ path.items) }
{
    let Words {
        says,
        turned,
        operands,
        note,
        hint,
        quote,
    } = words;
    let mut notes = Vec::new(alloc);
    if let Some(note) = if_any(note)? {
        notes.push(note)?;
    }
    Ok(ExplainedPart {
        path,
        number,
        says: says.done()?,
        says_turned: if_any(turned)?,
        operands,
        notes,
        hint: if_any(hint)?,
        quote,
    })
}

// A part that has no type, with its words.
fn explained<'a>(
    checking: Checking<'a>,
    condition: &'a Expr,
    untyped: Untyped<'a>,
) -> Result<ExplainedPart, AllocError>
    ensures { IfOk result (λ r. r.path.items ≡ untyped.entry.path.items) }
{
    let Untyped {
        path,
        held,
        part,
        fault,
    } = untyped;
    let above = around(checking.alloc, condition, &path)?;
    let spot = Spot {
        checking,
        held: &held,
        part,
        above: &above,
        path: &path,
    };
    let mut words = Words::new(checking.alloc);
    add_words(spot, &mut words, fault)?;
    with_words(checking.alloc, path, fault.number(), words)
}

// The smallest part of a condition that has no type, where the condition has none for this reason.
fn untyped_part<'a>(
    checking: Checking<'a>,
    condition: &'a Expr,
    fault: TypeFault,
) -> Result<ExplainedPart, AllocError>
    requires { IsTypingOf checking.settings checking.schema.now checking.environment.now [] condition.now None }
    ensures { IfOk result (λ r. IsUntypedAt checking.entry.settings checking.entry.schema.now checking.entry.environment.now condition.now r.path.items) }
{
    let untyped = smallest(checking, condition, fault)?;
    explained(checking, condition, untyped)
}
