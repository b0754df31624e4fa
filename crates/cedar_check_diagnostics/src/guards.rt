//! Tests of a condition that are always false.
use crate::checking::Checking;
use crate::guard_places::GuardPlaces;
use crate::guard_walk::{Guard, GuardWalk};
use crate::guard_words::why_false;
use crate::refusal::{ExplainedPart, with_words};
use crate::spot::Spot;
use crate::words::Words;
use cedar_ast_expressions::Expr;
use cedar_check_spec::Settings;
use cedar_schema::{Environment, Schema, Truth};
use std::alloc::{AllocError, Global};

/// The tests of a condition that are always false.
#[derive(Drop)]
pub struct FalseGuards {
    /// The first of them, in the order in which they are written.
    pub parts: Vec<FalseGuard>,
    /// How many more there are.
    pub more: usize,
}

/// A test that is always false.
#[derive(Drop)]
pub struct FalseGuard {
    /// The test, and why it is false.
    pub part: ExplainedPart,
    /// Whether it is `x has a`.
    pub is_has: bool,
}

// What the environments so far say of a test.
#[derive(Clone, Copy, PartialEq, Eq)]
enum Verdict {
    // It was looked at in none.
    Unseen,
    // It was false in each, first in the one at this position.
    False(usize),
    // It may be true in one.
    MayHold,
}

impl Verdict {
    // The verdict after one more environment, at this position, in which the test is looked at.
    fn after(self, is_false: bool, position: usize) -> Verdict {
        match self {
            _ if !is_false => Verdict::MayHold,
            Verdict::Unseen => Verdict::False(position),
            Verdict::False(first) => Verdict::False(first),
            Verdict::MayHold => Verdict::MayHold,
        }
    }
}

// A condition whose tests are judged, and what it is typed against.
#[derive(Clone, Copy)]
struct Judging<'j> {
    alloc: Global,
    settings: Settings,
    schema: &'j Schema,
    condition: &'j Expr,
    places: &'j GuardPlaces,
}

impl<'j> Judging<'j> {
    // What typing in an environment needs.
    fn checking<'a>(self, environment: &'a Environment) -> Checking<'a>
    where
        'j: 'a,
    {
        Checking {
            alloc: self.alloc,
            settings: self.settings,
            schema: self.schema,
            environment,
        }
    }

    // What all environments say of each test.
    fn verdicts(self) -> Result<Vec<Verdict>, AllocError> {
        let mut verdicts = Vec::new(self.alloc);
        for _ in 0..self.places.count() {
            verdicts.push(Verdict::Unseen)?;
        }
        for (position, environment) in self.schema.environments().iter().enumerate() {
            if verdicts.iter().all(|verdict| *verdict == Verdict::MayHold) {
                break;
            }
            self.judge_in(environment, position, &mut verdicts)?;
        }
        Ok(verdicts)
    }

    // Notes what the environment at a position says of each test that is looked at.
    fn judge_in(
        self,
        environment: &Environment,
        position: usize,
        verdicts: &mut [Verdict],
    ) -> Result<(), AllocError> {
        let typed = self.condition.with_action(self.alloc, &environment.action)?;
        judge_all(
            self.checking(environment),
            self.places,
            &typed,
            position,
            verdicts,
        )
    }

    // The test of a number, which is false in an environment, and why it is.
    fn explained(self, environment: &Environment, number: usize) -> Result<FalseGuard, AllocError> {
        let typed = self.condition.with_action(self.alloc, &environment.action)?;
        let path = self.places.path_to(self.alloc, self.condition, number)?;
        let mut words = Words::new(self.alloc);
        let is_has = add_why(
            self.checking(environment),
            self.places,
            &typed,
            number,
            &path,
            &mut words,
        )?;
        drop(typed);
        let part = with_words(self.alloc, path, 0, words)?;
        Ok(FalseGuard { part, is_has })
    }

    // The first tests with the verdict that they are false, at most so many, and how many more there are.
    fn false_ones(self, verdicts: &[Verdict], most: usize) -> Result<FalseGuards, AllocError> {
        let mut found = FalseGuards {
            parts: Vec::new(self.alloc),
            more: 0,
        };
        for (number, verdict) in verdicts.iter().enumerate() {
            let Verdict::False(position) = *verdict else {
                continue;
            };
            match self.schema.environments().get(position) {
                Some(environment) if found.parts.len() < most => {
                    let part = self.explained(environment, number)?;
                    found.parts.push(part)?;
                }
                _ => found.more = found.more.saturating_add(1),
            }
        }
        Ok(found)
    }
}

// Notes what the environment at a position says of each test of a condition that is looked at. The environment's action is in place of
// the variable.
fn judge_all(
    checking: Checking<'_>,
    places: &GuardPlaces,
    condition: &Expr,
    position: usize,
    verdicts: &mut [Verdict],
) -> Result<(), AllocError> {
    let mut walk = GuardWalk::new(checking, places, condition)?;
    for _ in 0..u64::MAX {
        let Some(guard) = walk.next()? else {
            break;
        };
        let is_false = guard.truth == Some(Truth::False);
        if let Some(verdict) = verdicts.get_mut(guard.number) {
            *verdict = verdict.after(is_false, position);
        }
    }
    Ok(())
}

// Where a test is, to which a path leads.
fn spot_of<'s, 'g>(checking: Checking<'s>, guard: &'s Guard<'g>, path: &'s [usize]) -> Spot<'s>
where
    'g: 's,
{
    Spot {
        checking,
        held: &guard.held,
        part: guard.part,
        above: &[],
        path,
    }
}

// Says why the test of a number, to which a path leads, is false in an environment, whose action is in place of the variable. Returns
// whether the test is `x has a`.
fn add_why(
    checking: Checking<'_>,
    places: &GuardPlaces,
    condition: &Expr,
    number: usize,
    path: &[usize],
    words: &mut Words,
) -> Result<bool, AllocError> {
    let mut walk = GuardWalk::new(checking, places, condition)?;
    for _ in 0..u64::MAX {
        let Some(guard) = walk.next()? else {
            break;
        };
        if guard.number == number {
            return why_false(spot_of(checking, &guard, path), words);
        }
    }
    Ok(false)
}

/// The tests of a policy's whole condition that are false in each environment of the schema in which the checker looks at them: `x has a`
/// where no type of `x` declares `a`, and `x is T`, `x == y` and `x in y` that the types decide. Most likely a name or a type is not the
/// one that was meant. Those of the scope are left out, and those that are looked at in no environment. The first ones are explained, at
/// most `most` of them.
///
/// Time is that of a few typings of the condition in each environment, until each test may be true in one, and for each test that is
/// explained that of a few more. A condition without tests is not typed.
///
/// # Errors
///
/// Fails only when out of memory.
pub fn false_guards<'a>(
    alloc: Global,
    settings: Settings,
    schema: &'a Schema,
    condition: &'a Expr,
    most: usize,
) -> Result<FalseGuards, AllocError> {
    let places = GuardPlaces::of(alloc, condition)?;
    let judging = Judging {
        alloc,
        settings,
        schema,
        condition,
        places: &places,
    };
    let verdicts = judging.verdicts()?;
    judging.false_ones(&verdicts, most)
}
