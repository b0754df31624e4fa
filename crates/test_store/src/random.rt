//! A store that is changed again and again, and a plain store that is built anew each time: both answer each question alike.
use crate::choices::{Change, Choices, UIDS};
use crate::entities::{set_of, uids_below};
use crate::questions::assert_none;
use crate::versions::Version;
use cedar_store::StoreFault;
use cedar_value::{Uid, ValueSet};
use std::alloc::{AllocError, Global};
use std::process::Abort;
use std::test::Fail;

const STEPS: u32 = 100000;

/// What is under way, and how many changes came to what.
#[derive(Drop)]
struct Run {
    choices: Choices,
    version: Version,
    accepted: u32,
    repeated: u32,
    cyclic: u32,
    of_attributes: u32,
}

impl Run {
    fn new(alloc: Global) -> Result<Self, StoreFault> {
        Ok(Run {
            choices: Choices::new(42),
            version: Version::new(alloc)?,
            accepted: 0,
            repeated: 0,
            cyclic: 0,
            of_attributes: 0,
        })
    }

    /// The next change, once in four times of an attribute alone.
    fn next_change(&mut self) -> Change {
        if self.choices.below(4) == 0 {
            if let Some(change) = self.choices.attribute_change(&self.version.entries) {
                self.of_attributes = self.of_attributes.wrapping_add(1);
                return change;
            }
        }
        self.choices.change()
    }

    /// Counts a refusal by its number.
    fn note_refused(&mut self, number: u16) {
        match number {
            401 => self.repeated = self.repeated.wrapping_add(1),
            402 => self.cyclic = self.cyclic.wrapping_add(1),
            _ => (),
        }
    }

    /// Each change was accepted or refused, and there were over 1,000 of each.
    fn check_counts(&self, rt: &impl Abort) {
        let counted = self
            .accepted
            .wrapping_add(self.repeated)
            .wrapping_add(self.cyclic);
        assert_eq!(rt; counted, STEPS);
        assert!(rt;
            self.accepted > 1000
                && self.repeated > 1000
                && self.cyclic > 1000
                && self.of_attributes > 1000,
            "{} {} {} {}",
            self.accepted,
            self.repeated,
            self.cyclic,
            self.of_attributes
        );
    }

    /// The version after a change becomes the current one. Gives the first uid that it or the version before answers otherwise than its
    /// plain store, if there is one.
    fn accept<'u>(
        &mut self,
        alloc: Global,
        question: &Question<'u, '_>,
        after: Version,
    ) -> Result<Option<&'u Uid>, AllocError> {
        let differing = self.differing_after(alloc, question, &after);
        self.version = after;
        self.accepted = self.accepted.wrapping_add(1);
        differing
    }

    /// The first uid that the version before or after a change answers otherwise than its plain store. Before it, only the low uid is
    /// compared.
    fn differing_after<'u>(
        &self,
        alloc: Global,
        question: &Question<'u, '_>,
        after: &Version,
    ) -> Result<Option<&'u Uid>, AllocError> {
        let uids = question.uids;
        let before = self
            .version
            .differing(alloc, question.low, uids, question.set)?;
        if before.is_some() {
            return Ok(before);
        }
        after.differing(alloc, uids, uids, question.set)
    }
}

/// What is asked: each of the uids, or the low one alone, and whether it is below one of the set.
#[derive(Clone, Copy)]
struct Question<'u, 's> {
    uids: &'u [Uid],
    low: &'u [Uid],
    set: &'s ValueSet,
}

/// Makes a change. What was there before answers as before, whether the change is refused or not.
fn step(rt: &impl Abort, alloc: Global, uids: &[Uid], run: &mut Run) -> Result<(), Fail> {
    let change = run.next_change();
    let set = set_of(alloc, uids, run.choices.three_uids().as_slice())?;
    let differing = differing_at(rt, alloc, uids, run, &change, &set);
    drop(set);
    assert_none(rt, differing?);
    // The base of the changes is another one from time to time.
    if run.choices.below(32) == 0 {
        run.version.rebuild(alloc, uids)?;
    }
    Ok(())
}

/// Makes a change, and gives the first uid that a version answers otherwise than its plain store, if there is one.
fn differing_at<'u>(
    rt: &impl Abort,
    alloc: Global,
    uids: &'u [Uid],
    run: &mut Run,
    change: &Change,
    set: &ValueSet,
) -> Result<Option<&'u Uid>, AllocError> {
    let low = run.choices.below(UIDS) as usize;
    let low = uids.get(low..low.saturating_add(1)).unwrap_or(&[]);
    let question = Question { uids, low, set };
    match run.version.changed(rt, alloc, uids, change) {
        Ok(after) => run.accept(alloc, &question, after),
        Err(number) => {
            run.note_refused(number);
            run.version.differing(alloc, low, uids, set)
        }
    }
}

/// So many changes, one after another.
fn run_of(rt: &impl Abort, alloc: Global, run: &mut Run) -> Result<(), Fail> {
    let uids = uids_below(alloc, UIDS)?;
    let made = make_steps(rt, alloc, &uids, run);
    drop(uids);
    made
}

fn make_steps(rt: &impl Abort, alloc: Global, uids: &[Uid], run: &mut Run) -> Result<(), Fail> {
    for _step in 0..STEPS {
        step(rt, alloc, uids, run)?;
    }
    run.check_counts(rt);
    Ok(())
}

#[test]
fn random_changes_are_as_in_a_plain_store(rt: HostRuntime) -> Result<(), Fail> {
    let alloc = rt.alloc();
    let mut run = Run::new(alloc)?;
    let made = run_of(&rt, alloc, &mut run);
    drop(run);
    made
}
