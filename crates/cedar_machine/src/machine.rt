//! The machine.
ghost use Rattle.std.specs.Prelude.{◌≡◌, ◌+◌, ◌<◌, ◌≤◌, IfOk, IsOk, OnOk, OnErr, length, IsTrue, MatchOption};
ghost use Rattle.cedar_code.specs.Machine.{start, Step, Steps, Executes, going, ended, outcome_of};
ghost use Rattle.cedar_machine.specs.MachineView.{Moves, CameBySteps};
ghost use Rattle.std.specs.Prelude.{slice_get};
ghost use Rattle.cedar_machine.specs.Progress.{progress_of, outcome_reached, EndsPlain, EachEndIsPlain, StepTakesNoMemory, MakesNothing};
ghost use Rattle.cedar_code.specs.Code.{code_of};
ghost use Rattle.cedar_ast_expressions.specs.Evaluation.{eval};
ghost use Rattle.cedar_ast_expressions.specs.Expression.{Expression};

use crate::driving::{drive, outcome_at};
use crate::execution::Run;
use crate::made_sets::MadeSets;
use crate::performing::perform;
use crate::state::{State, settle};
use cedar_code::{Code, Outcome, execution_is_evaluation};
use cedar_machine_stack::Stack;
use cedar_value::{Hierarchy, Request};
use std::alloc::{AllocError, Global};
use std::marker::Model;

/// Whether a machine has ended.
#[derive(Clone, Copy, Debug, PartialEq, Eq)]
pub enum Progress {
    /// There is another instruction.
    Going,
    /// There is an outcome.
    Ended,
}

/// An execution of a code for a request over a hierarchy: where it is, and how many instructions it has executed. It
/// borrows all three.
#[derive(Drop)]
pub struct Machine<'a, H: Hierarchy> {
    alloc: Global,
    code: &'a Code,
    request: &'a Request,
    hierarchy: &'a H,
    made: MadeSets<'a>,
    stack: Stack<'a>,
    state: State,
    executed: u32,
}

impl<'a, H: Hierarchy> Model for Machine<'a, H> {
    ghost use Rattle.cedar_machine.specs.MachineView.{MachineView};
    ghost use Rattle.std.specs.Coded.{codes};
    ghost use Rattle.cedar_value.specs.Private.DatumCode.{datum_code};

    ghost Value = { MachineView };

    ghost coded = { Prim.hlevel (codes, datum_code) };

    ghost use Rattle.cedar_code.specs.Machine.{Steps, start};
    ghost use Rattle.cedar_machine.specs.Private.State.{configuration_of};
    ghost use Rattle.cedar_machine.specs.Private.Sound.{IsSound};

    ghost view = { λ m. record {
      code = m.code.now;
      request = m.request.now;
      world = H.world m.hierarchy.now;
      configuration = configuration_of m.state m.stack.values;
      executed = m.executed;
    } };

    ghost invariant = { λ m. IsSound m.code.now m.request.now (H.world m.hierarchy.now) m.stack.values m.stack.capacity (configuration_of m.state m.stack.values) m.executed };
}

impl<'a, H: Hierarchy> Machine<'a, H> {
    /// A machine at the first place, with room for the code's height. A code of height at most 16 takes no memory.
    ///
    /// # Errors
    ///
    /// Fails only when out of memory.
    pub fn new(
        alloc: Global,
        code: &'a Code,
        request: &'a Request,
        hierarchy: &'a H,
    ) -> Result<Self, AllocError>
        ensures code { IfOk result (λ m. m.code ≡ code.now) }
        ensures request { IfOk result (λ m. m.request ≡ request.now) }
        ensures world { IfOk result (λ m. m.world ≡ H.world hierarchy.now) }
        ensures configuration { IfOk result (λ m. m.configuration ≡ start) }
        ensures executed { IfOk result (λ m. m.executed ≡ 0) }
        ensures succeeds { code.now.height ≤ 16 → IsOk result }
    {
        let stack = Stack::with_room(alloc, code.height())?;
        Ok(Machine {
            alloc,
            code,
            request,
            hierarchy,
            made: MadeSets::of(code),
            stack,
            state: State::Going(0),
            executed: 0,
        })
    }

    /// Executes one instruction. A machine that has ended stays as it is. Only an instruction that makes a set or a record
    /// takes memory.
    ///
    /// # Errors
    ///
    /// Fails only when out of memory. The machine is then as it was, and nothing is counted.
    pub fn step(&mut self) -> Result<Progress, AllocError>
        ensures moves { OnOk result (Moves self.old self.new) }
        ensures progress { IfOk result (λ p. p ≡ progress_of self.new.configuration) }
        ensures refused { OnErr result (self.new ≡ self.old) }
        ensures succeeds { StepTakesNoMemory self.old → IsOk result }
    {
        // The execution of a compiled code meets no stack fault, and ends as its expression evaluates.
        execution_is_evaluation();
        let State::Going(place) = self.state else {
            return Ok(Progress::Ended);
        };
        let instructions = self.code.instructions();
        let moved = perform(
            self.alloc,
            instructions,
            &mut self.made,
            self.request,
            self.hierarchy,
            place,
            &mut self.stack,
        )?;
        self.state = settle(instructions, moved, &self.stack);
        self.executed += 1;
        match self.state {
            State::Going(_) => Ok(Progress::Going),
            _ => Ok(Progress::Ended),
        }
    }

    /// How many instructions have been executed.
    pub fn executed(&self) -> u32
        ensures { result ≡ self.now.executed }
    {
        self.executed
    }

    /// The machine reached its place by as many steps as it counts, and they are no more than its code has instructions. A law:
    /// it runs no code.
    pub fn well_formedness(&self)
        ensures { CameBySteps self.now }
    {
        // The execution of a compiled code takes no more steps than the code has instructions.
        execution_is_evaluation();
        let _state = &self.state;
    }

    /// A copy of the end, or None before the end. The copy of a Boolean, a number, a decimal or an error takes no memory.
    ///
    /// # Errors
    ///
    /// Fails only when out of memory.
    pub fn outcome(&self, alloc: Global) -> Result<Option<Outcome>, AllocError>
        ensures outcome { IfOk result (λ o. o ≡ outcome_reached self.now.configuration) }
        ensures succeeds { EndsPlain self.now.configuration → IsOk result }
    {
        let outcome = match self.state {
            State::Going(_) => return Ok(None),
            State::Finished => match self.stack.top() {
                Some(top) => Outcome::Value(top.to_value(alloc)?),
                None => Outcome::StackFault,
            },
            State::Failed(error) => Outcome::Error(error),
            State::Faulted => Outcome::StackFault,
        };
        Ok(Some(outcome))
    }
}

/// The whole execution of a code for a request over a hierarchy: how it ends, and how many instructions it executed. A code of
/// height at most 16 that makes no set and no record, and whose execution ends with a Boolean, a number, a decimal or an error,
/// takes no memory.
///
/// # Errors
///
/// Fails only when out of memory.
pub fn run<H: Hierarchy>(
    alloc: Global,
    code: &Code,
    request: &Request,
    hierarchy: &H,
) -> Result<Run, AllocError>
    ensures executes { IfOk result (λ r. Executes code.now.instructions request.now (H.world hierarchy.now) r.executed r.outcome) }
    ensures evaluates { IfOk result (λ r. (e : Expression) → code.now.instructions ≡ code_of e → r.outcome ≡ outcome_of (eval e request.now (H.world hierarchy.now))) }
    ensures few { IfOk result (λ r. r.executed ≤ length code.now.instructions) }
    ensures succeeds { code.now.height ≤ 16 → MakesNothing code.now.instructions
        → EachEndIsPlain code.now.instructions request.now (H.world hierarchy.now) → IsOk result }
{
    execution_is_evaluation();
    let mut stack = Stack::with_room(alloc, code.height())?;
    let end = drive(alloc, code, 0, request, hierarchy, &mut stack)?;
    let outcome = outcome_at(alloc, end.state, &stack)?;
    Ok(Run {
        outcome,
        executed: end.executed,
    })
}
