//! Signatures of environments. A condition that does not name the action is typed once for each of them.
ghost use Rattle.std.specs.Prelude.{◌≡◌, IfOk, IfSome, length};
ghost use Rattle.std.specs.List.Sorted.{IsSearchInRange};
ghost use Rattle.std.specs.declared.cmp.Ordering.TheVariants.{Equal};
ghost use Rattle.cedar_check.specs.Private.Signatures.{AreAlike, AreNumbered, IsNumberOf};

use crate::type_order::{order_names, order_types};
use cedar_schema::Environment;
use std::alloc::{AllocError, Global};
use std::cmp::Ordering;

/// How many signatures are distinguished at most. An environment of any other signature has no number, so the time to number
/// the environments grows with their count.
const MOST_SIGNATURES: usize = 4096;

/// The signatures of environments: the types of the principal, of the resource and of the context. A condition that does not
/// name the action has one type in all environments of a signature.
#[derive(Drop)]
pub(crate) struct Signatures<'a> {
    /// An environment of each signature, ascending.
    pub(crate) examples: Vec<&'a Environment>,
    /// For each environment the number of its signature, if it has one.
    pub(crate) numbers: Vec<Option<usize>>,
}

impl<'a> Signatures<'a> {
    /// The signatures of these environments.
    pub(crate) fn new(alloc: Global, environments: &'a [Environment]) -> Result<Self, AllocError>
        ensures { IfOk result (λ s. AreNumbered s.examples.items s.numbers.items environments.now) }
    {
        let examples = examples_of(alloc, environments)?;
        let numbers = numbers_of(alloc, &examples, environments)?;
        Ok(Signatures { examples, numbers })
    }
}

// An environment of each signature, ascending.
fn examples_of<'a>(
    alloc: Global,
    environments: &'a [Environment],
) -> Result<Vec<&'a Environment>, AllocError> {
    let mut examples = Vec::new(alloc);
    for environment in environments {
        if examples.len() == MOST_SIGNATURES {
            break;
        }
        if let Err(place) = search(&examples, environment) {
            examples.insert(place, environment)?;
        }
    }
    Ok(examples)
}

// The number of each environment.
fn numbers_of(
    alloc: Global,
    examples: &[&Environment],
    environments: &[Environment],
) -> Result<Vec<Option<usize>>, AllocError>
    ensures { IfOk result (λ v. AreNumbered examples.now v.items environments.now) }
{
    let mut numbers = Vec::new(alloc);
    for environment in environments {
        numbers.push(number_of(examples, environment))?;
    }
    Ok(numbers)
}

// The number of an environment. What the search finds is compared once more, so no answer depends on the order.
fn number_of(examples: &[&Environment], environment: &Environment) -> Option<usize>
    ensures { IfSome result (IsNumberOf examples.now environment.now) }
{
    let Ok(number) = search(examples, environment) else {
        return None;
    };
    match order(examples[number], environment) {
        Ordering::Equal => Some(number),
        Ordering::Less | Ordering::Greater => None,
    }
}

// The place of the environment's signature, or the place at which to insert it.
fn search(examples: &[&Environment], environment: &Environment) -> Result<usize, usize>
    ensures { IsSearchInRange result (length examples.now) }
{
    examples.binary_search_by(|example| order(example, environment))
}

// The order of the signatures of two environments.
fn order(one: &Environment, two: &Environment) -> Ordering
    ensures { result ≡ Equal → AreAlike one.now two.now }
{
    match order_names(&one.principal, &two.principal) {
        Ordering::Less => return Ordering::Less,
        Ordering::Greater => return Ordering::Greater,
        Ordering::Equal => {}
    }
    match order_names(&one.resource, &two.resource) {
        Ordering::Less => return Ordering::Less,
        Ordering::Greater => return Ordering::Greater,
        Ordering::Equal => {}
    }
    order_types(&one.context, &two.context)
}
