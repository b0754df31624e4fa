//! What is said of the policies.
ghost use Rattle.cedar_schema_spec.specs.Conformance.{Fits};

use crate::entry::{Entry, Standing, entry_of};
use crate::evaluation::policy_ending;
use crate::line_count::LineCount;
use cedar_ast::Decision;
use cedar_auth::Ready;
use cedar_parser_places::StatementPlaces;
use cedar_value::Request;
use std::alloc::{AllocError, Global};

/// What is said of the policies.
#[derive(Drop)]
pub struct Entries {
    /// What is said of those that are shown, in the order of the policies.
    pub shown: Vec<Entry>,
    /// How many are false by their scopes, shown or not.
    pub out_of_scope: usize,
}

impl Entries {
    // Adds the policy of an entry, which is shown unless it is false by its scope.
    fn add(&mut self, entry: Entry, all: bool) -> Result<(), AllocError> {
        let out_of_scope = entry.standing == Standing::OutOfScope;
        if out_of_scope {
            self.out_of_scope = self.out_of_scope.saturating_add(1);
        }
        if out_of_scope && !all {
            drop(entry);
            return Ok(());
        }
        self.shown.push(entry)?;
        Ok(())
    }
}

/// What is said of the policies for a request that has this decision. Those that are false by their scopes are shown with `all`.
pub fn entries_of(
    alloc: Global,
    ready: &Ready,
    request: &Request,
    places: &StatementPlaces<'_>,
    decision: Decision,
    all: bool,
) -> Result<Entries, AllocError>
    requires { Fits ready.now.schema request.now }
{
    let policies = ready.validated().policies();
    let mut entries = Entries {
        shown: Vec::new(alloc),
        out_of_scope: 0,
    };
    let mut lines = LineCount::new(places.text());
    let mut candidates = ready.candidates(request);
    for position in 0..policies.count() {
        let is_candidate = match candidates.split_first() {
            Some((first, others)) if *first == position => {
                candidates = others;
                true
            }
            _ => false,
        };
        if is_candidate || all {
            let ending = policy_ending(alloc, ready, request, position)?;
            if let Some(policy) = policies.policy(position) {
                let entry = entry_of(
                    alloc, ready, request, places, &mut lines, policy, ending, decision,
                )?;
                entries.add(entry, all)?;
            }
        } else {
            entries.out_of_scope = entries.out_of_scope.saturating_add(1);
        }
    }
    Ok(entries)
}
