//! What is said of one policy.
use crate::decider::{Joined, way_to_decider, with_ending};
use crate::ending::Ending;
use crate::line_count::LineCount;
use crate::place_of_part::{Placed, place_part};
use crate::section::{Section, section_of};
use crate::words::{joined_words, words_of};
use base_places::{Draft, Place};
use cedar_ast::{Decision, Effect, Policy};
use cedar_ast_expressions::{EvaluationError, Expr};
use cedar_auth::Ready;
use cedar_parser_places::StatementPlaces;
use cedar_value::Request;
use std::alloc::{AllocError, Global};

/// What a policy came to, in the order in which policies are shown.
#[derive(Clone, Copy, PartialEq, Eq)]
pub enum Standing {
    /// It is satisfied, and determines the decision.
    Determining,
    /// It erred, and takes no part.
    Erring(EvaluationError),
    /// It is a satisfied permit, and a forbid overrides it.
    Overridden,
    /// One of its conditions is false.
    Unmet,
    /// Its scope is false.
    OutOfScope,
}

/// What is said of a policy.
#[derive(Drop)]
pub struct Entry {
    /// The policy's id.
    pub id: String,
    /// The policy's effect.
    pub effect: Effect,
    /// What the policy came to.
    pub standing: Standing,
    /// Where the part that decided begins in the policy text, as line and column from 0.
    pub place: Option<Place>,
    /// How the part that decided ends, in words.
    pub says: String,
}

// What is said of the part that decided.
#[derive(Drop)]
struct Reason {
    section: Section,
    // Where it begins in the policy text, in bytes from 0.
    at: Option<usize>,
    says: String,
}

// The effect of the policies that determine a decision.
fn determining_effect(decision: Decision) -> Effect {
    match decision {
        Decision::Allow => Effect::Permit,
        Decision::Deny => Effect::Forbid,
    }
}

fn standing_of(ending: Ending, section: Section, effect: Effect, decision: Decision) -> Standing {
    match (ending, section) {
        (Ending::Errs(error), _) => Standing::Erring(error),
        (Ending::Holds, _) if effect == determining_effect(decision) => Standing::Determining,
        (Ending::Holds, _) => Standing::Overridden,
        (_, Section::Conditions) => Standing::Unmet,
        _ => Standing::OutOfScope,
    }
}

/// What is said of a policy that ends in this way, where the request has this decision. `lines` counts those of the policy text.
pub fn entry_of(
    alloc: Global,
    ready: &Ready,
    request: &Request,
    places: &StatementPlaces<'_>,
    lines: &mut LineCount<'_>,
    policy: &Policy,
    ending: Ending,
    decision: Decision,
) -> Result<Entry, AllocError> {
    let effect = policy.effect();
    let id = String::from_str(alloc, policy.id().as_str())?;
    if standing_of(ending, Section::Conditions, effect, decision) == Standing::Overridden {
        return Ok(Entry {
            id,
            effect,
            standing: Standing::Overridden,
            place: None,
            says: String::new(alloc),
        });
    }
    let reason = reason_of(alloc, ready, request, places, policy, ending)?;
    Ok(Entry {
        id,
        effect,
        standing: standing_of(ending, reason.section, effect, decision),
        place: lines.place(reason.at),
        says: reason.says,
    })
}

// Why a policy ends in this way.
fn reason_of(
    alloc: Global,
    ready: &Ready,
    request: &Request,
    places: &StatementPlaces<'_>,
    policy: &Policy,
    ending: Ending,
) -> Result<Reason, AllocError> {
    let condition = policy.condition(alloc)?;
    let id = policy.id().as_str();
    let reason = reason_within(alloc, ready, request, places, id, &condition, ending);
    drop(condition);
    reason
}

fn reason_within(
    alloc: Global,
    ready: &Ready,
    request: &Request,
    places: &StatementPlaces<'_>,
    id: &str,
    condition: &Expr,
    ending: Ending,
) -> Result<Reason, AllocError> {
    let way = way_to_decider(alloc, ready, request, condition, ending)?;
    let found = place_part(alloc, places, id, way.part, &way.path)?;
    let section = section_of(&way.path);
    let joined = joined_for(ending, way.joined);
    drop(way);
    said_of(alloc, ready, request, found, section, joined)
}

// That all sides of an `&&` are true goes without saying where the policy is satisfied.
fn joined_for(ending: Ending, joined: Joined) -> Joined {
    if ending == Ending::Holds && joined == Joined::ByAnd {
        Joined::Alone
    } else {
        joined
    }
}

fn said_of(
    alloc: Global,
    ready: &Ready,
    request: &Request,
    found: Placed<'_>,
    section: Section,
    joined: Joined,
) -> Result<Reason, AllocError> {
    let mut says = Draft::new(alloc);
    if let Some(ended) = with_ending(alloc, ready, request, found.part)? {
        let words = words_of(alloc, ready, request, ended.part, section, ended.ending);
        says.add_made(words);
        if !says.as_str().is_empty() {
            says.add(joined_words(joined));
        }
    }
    let says = says.done()?;
    let at = if says.is_empty() { None } else { found.at };
    Ok(Reason { section, at, says })
}
