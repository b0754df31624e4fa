//! The laws of the compiler.
ghost use Rattle.std.specs.Prelude.{◌≡◌, ℕ, List, length};
ghost use Rattle.cedar_value.specs.World.{World};
ghost use Rattle.cedar_value.specs.declared.request.Request.{Request};
ghost use Rattle.cedar_ast_expressions.specs.Expression.{Expression};
ghost use Rattle.cedar_code.specs.Code.{code_at, code_of, size};
ghost use Rattle.cedar_code.specs.Jumps.{JumpsForward};
ghost use Rattle.cedar_code.specs.Machine.{RunsAsEvaluated};
ghost use Rattle.cedar_code.specs.TrueSides.{chain_of, size_before, AreTrue, ComesTo};

/// The execution of an expression's code meets no stack fault and ends as the expression evaluates. It takes no more steps than
/// the code has instructions, and the stack never gets higher than stated. This holds for each expression, request and world. A
/// law: it runs no code.
pub fn execution_is_evaluation()
    ensures { (e : Expression) (q : Request) (w : World) → RunsAsEvaluated e q w }
{}

/// The code of an expression has as many instructions as its size says, at any place. So `size`, which the compiler uses to
/// compute the places of jumps, measures the code itself. A law: it runs no code.
pub fn size_is_the_length()
    ensures { (place : ℕ) (e : Expression) → length (code_at place e) ≡ size e }
{}

/// Each jump of an expression's code is to a later place. So each step comes to a later place, whichever code it belongs to. A
/// law: it runs no code.
pub fn jumps_go_forward()
    ensures { (e : Expression) → JumpsForward (code_of e) }
{}

/// Where the first sides of a chain of `&&` are true, the execution comes to the code of what follows them, with an empty
/// stack. So it may begin there where they are known to be true. A law: it runs no code.
pub fn true_sides_are_passed()
    ensures { (sides : List Expression) (last : Expression) (q : Request) (w : World) → AreTrue sides q w
        → ComesTo (code_of (chain_of sides last)) q w (size_before sides) }
{}
