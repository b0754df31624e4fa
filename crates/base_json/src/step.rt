//! One step through the tokens of a text: a scalar, or what nests.
ghost use Rattle.std.specs.Prelude.{◌≡◌, ◌<◌, ◌∷◌, ℕ, List, length, None, Err, IfOk, OnOk};
ghost use Rattle.json.specs.Json.{value};
ghost use Rattle.json.specs.Reads.{token_of};
ghost use Rattle.json.specs.Token.{Token as TokenTree};
ghost use Rattle.serde_json.specs.Read.{of_json, converted};
ghost use Rattle.base_json.specs.Private.Steps.{IsStep};
ghost use Rattle.base_json.specs.declared.tree_fault.TreeFault.TheVariants.{Invalid};

use crate::number::number_of;
use crate::tree_fault::TreeFault;
use json::{Reader, Token};
use serde_json::Value;
use std::alloc::Global;

/// What a bracket or a brace opens.
#[derive(Clone, Copy, Drop)]
pub(crate) enum Opened {
    Array,
    Object,
}

/// The tree of a scalar, or what is opened in its place.
#[derive(Drop)]
pub(crate) enum Step {
    Scalar(Value),
    Nested(Opened),
}

/// The next value where it is a scalar, and otherwise what opens: then its bracket or brace is passed.
#[inline(always)]
pub(crate) fn read_step(alloc: Global, reader: &mut Reader<'_>) -> Result<Step, TreeFault>
    ensures ok { IfOk result (IsStep reader.old reader.new) }
    ensures shorter { OnOk result (length reader.new < length reader.old) }
    ensures err { result ≡ Err Invalid → (depth : ℕ) → converted of_json (value depth reader.old) ≡ None }
{
    let token = reader.next().ok_or(TreeFault::Invalid)?;
    step_of(alloc, token)
}

/// The value that begins with a token, as [`read_step`] gives it.
#[inline(always)]
pub(crate) fn step_of(alloc: Global, token: Token<'_>) -> Result<Step, TreeFault>
    ensures ok { IfOk result (λ step. (rest : List TokenTree) → IsStep (token_of token.entry ∷ rest) rest step) }
    ensures err { result ≡ Err Invalid → (rest : List TokenTree) (depth : ℕ) → converted of_json (value depth (token_of token.entry ∷ rest)) ≡ None }
{
    match token {
        Token::String(text) => Ok(Step::Scalar(Value::String(String::from_str(alloc, text)?))),
        Token::Number(text) => match number_of(text) {
            Some(number) => Ok(Step::Scalar(Value::Number(number))),
            None => Err(TreeFault::Invalid),
        },
        Token::Bool(b) => Ok(Step::Scalar(Value::Bool(b))),
        Token::Null => Ok(Step::Scalar(Value::Null)),
        Token::BeginArray => Ok(Step::Nested(Opened::Array)),
        Token::BeginObject => Ok(Step::Nested(Opened::Object)),
        Token::EndObject | Token::EndArray | Token::Key(_) | Token::Bad => Err(TreeFault::Invalid),
    }
}
