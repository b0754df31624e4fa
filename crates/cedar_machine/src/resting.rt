//! The machine that borrows nothing between its steps.
ghost use Rattle.std.specs.Prelude.{◌≡◌, ◌≤◌, IfOk, IsOk, OnOk, OnErr};
ghost use Rattle.cedar_code.specs.Machine.{start};
ghost use Rattle.cedar_machine.specs.Progress.{progress_of, outcome_reached, EndsPlain};
ghost use Rattle.cedar_machine.specs.RestingView.{RestsAfter};

use crate::driving::outcome_at;
use crate::machine::Progress;
use crate::owning::perform_owned;
use crate::state::{State, settle};
use cedar_code::{Code, Outcome, jumps_go_forward};
use cedar_machine_stack::Stack;
use cedar_value::{Hierarchy, Request};
use std::alloc::{AllocError, Global};
use std::marker::Model;

/// An execution that borrows nothing between its steps: where it is, and how many instructions it has executed. Each
/// step is given the code, the request and the hierarchy, and copies what it keeps of them.
#[derive(Drop)]
pub struct Resting {
    stack: Stack<'static>,
    state: State,
    executed: u32,
}

impl Model for Resting {
    ghost use Rattle.std.specs.Coded.{codes};
    ghost use Rattle.cedar_value.specs.Private.DatumCode.{datum_code};
    ghost use Rattle.cedar_machine.specs.RestingView.{RestingView};

    ghost Value = { RestingView };

    ghost coded = { Prim.hlevel (codes, datum_code) };

    ghost use Rattle.cedar_machine.specs.Private.Counted.{IsCounted};
    ghost use Rattle.cedar_machine.specs.Private.State.{configuration_of};

    ghost view = { λ m. record { configuration = configuration_of m.state m.stack.values; executed = m.executed } };

    ghost invariant = { λ m. IsCounted (configuration_of m.state m.stack.values) m.executed };
}

impl Resting {
    /// An execution before its first step, with room for the code's height. A code of height at most 16 takes no memory.
    ///
    /// # Errors
    ///
    /// Fails only when out of memory.
    pub fn new(alloc: Global, code: &Code) -> Result<Self, AllocError>
        ensures configuration { IfOk result (λ m. m.configuration ≡ start) }
        ensures executed { IfOk result (λ m. m.executed ≡ 0) }
        ensures succeeds { code.now.height ≤ 16 → IsOk result }
    {
        let stack = Stack::with_room(alloc, code.height())?;
        Ok(Resting {
            stack,
            state: State::Going(0),
            executed: 0,
        })
    }

    /// Executes one instruction of the code, whichever code the earlier steps executed. Where the code has no instruction at
    /// the place, the execution ends with a fault of the stack. An execution that has ended stays as it is.
    ///
    /// # Errors
    ///
    /// Fails only when out of memory. Nothing is then changed, and nothing is counted.
    pub fn step<H: Hierarchy>(
        &mut self,
        alloc: Global,
        code: &Code,
        request: &Request,
        hierarchy: &H,
    ) -> Result<Progress, AllocError>
        ensures moves { OnOk result (RestsAfter code.now.instructions request.now (H.world hierarchy.now) self.old.configuration self.old self.new) }
        ensures progress { IfOk result (λ p. p ≡ progress_of self.new.configuration) }
        ensures refused { OnErr result (self.new ≡ self.old) }
    {
        // Each jump of a compiled code leads to a later place.
        jumps_go_forward();
        let State::Going(place) = self.state else {
            return Ok(Progress::Ended);
        };
        self.stack.make_room()?;
        let instructions = code.instructions();
        let moved = perform_owned(
            alloc,
            instructions,
            request,
            hierarchy,
            place,
            &mut self.stack,
        )?;
        self.state = settle(instructions, moved, &self.stack);
        self.executed += 1;
        match self.state {
            State::Going(_) => Ok(Progress::Going),
            _ => Ok(Progress::Ended),
        }
    }

    /// How many instructions have been executed.
    pub fn executed(&self) -> u32
        ensures { result ≡ self.now.executed }
    {
        self.executed
    }

    /// A copy of the end, or None before the end. The copy of a Boolean, a number, a decimal or an error takes no memory.
    ///
    /// # Errors
    ///
    /// Fails only when out of memory.
    pub fn outcome(&self, alloc: Global) -> Result<Option<Outcome>, AllocError>
        ensures outcome { IfOk result (λ o. o ≡ outcome_reached self.now.configuration) }
        ensures succeeds { EndsPlain self.now.configuration → IsOk result }
    {
        if let State::Going(_) = self.state {
            return Ok(None);
        }
        let outcome = outcome_at(alloc, self.state, &self.stack)?;
        Ok(Some(outcome))
    }
}
