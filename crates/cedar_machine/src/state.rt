//! Where a machine is, and where an instruction leads.
ghost use Rattle.std.specs.Prelude.{◌≡◌};
ghost use Rattle.cedar_code.specs.Machine.{arrive};
ghost use Rattle.cedar_machine.specs.Private.State.{configuration_of, led_to};

use cedar_ast_expressions::EvaluationError;
use cedar_code::Instruction;
use cedar_machine_stack::Stack;

/// Where a machine is.
#[derive(Clone, Copy, PartialEq, Eq, Debug)]
pub enum State {
    /// At an instruction.
    Going(usize),
    /// At the end, with the value on top of the stack.
    Finished,
    Failed(EvaluationError),
    Faulted,
}

/// Where an instruction leads: to a place, which may be the one after the last, or to an end that it makes itself.
#[derive(Clone, Copy)]
pub enum Move {
    To(usize),
    Failed(EvaluationError),
    Faulted,
}

/// The state of a machine after such a move.
#[inline(always)]
pub fn settle(code: &[Instruction], moved: Move, stack: &Stack<'_>) -> State
    ensures { configuration_of result stack.now.values ≡ led_to code.now moved stack.now.values }
{
    match moved {
        Move::To(place) => arrive(code, place, stack),
        Move::Failed(error) => State::Failed(error),
        Move::Faulted => State::Faulted,
    }
}

/// The state after a step to a place: at its instruction, or at an end where there is none.
#[inline(always)]
pub fn arrive(code: &[Instruction], place: usize, stack: &Stack<'_>) -> State
    ensures { configuration_of result stack.now.values ≡ arrive code.now place stack.now.values }
{
    if place < code.len() {
        State::Going(place)
    } else if place == code.len() && stack.len() == 1 {
        State::Finished
    } else {
        State::Faulted
    }
}
