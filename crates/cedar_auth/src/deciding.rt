//! Answers requests one by one.
ghost use Rattle.std.specs.Prelude.{ℕ, List, ◌≡◌, ◌++◌, IfOk, OnErr, OnOk};
ghost use Rattle.cedar_conform.specs.Places.{IsPlacedAt};
ghost use Rattle.cedar_schema_spec.specs.Conformance.{Fits};
ghost use Rattle.cedar_auth.specs.AnswerLine.{AnswersLine};
ghost use Rattle.cedar_auth.specs.AnswerParts.{response_text, response_to};

use crate::answer::append_response;
use crate::ready::Ready;
use crate::serving::append_fault;
use crate::tally::Tally;
use cedar_ast::Decision;
use cedar_auth_candidates::Selection;
use cedar_conform::{FittingRequest, RequestReader};
use std::alloc::{AllocError, Global};

/// Appends the answer to one request line, as [`serve`](crate::serve) writes it but without LF: the response of the policies to
/// the request that the line denotes for the schema, or `{"refused":N}`. The reader keeps its buffers from line to line.
///
/// # Errors
///
/// Fails only when out of memory, which is never a decision. The text is then as before.
pub fn answer_line(
    alloc: Global,
    ready: &Ready,
    reader: &mut RequestReader,
    line: &[u8],
    out: &mut Vec<u8>,
) -> Result<(), AllocError>
    ensures ok { OnOk result ((text : List ℕ) × AnswersLine ready.now line.now text × (out.new.items ≡ out.old.items ++ text)) }
    ensures err { OnErr result (out.new.items ≡ out.old.items) }
{
    match ready.read_fitting(alloc, line, reader) {
        Ok(found) => {
            append_fitting_answer(alloc, ready, &found, out)?;
            reader.keep(found.request);
            Ok(())
        }
        Err(fault) => append_fault(alloc, &fault, out),
    }
}

/// Appends the response to a request that fits, as a line of answers has it, without LF: for example
/// `{"decision":"allow","determining":["policy0"],"erring":[]}`. Returns the decision. The position of its environment is known, as
/// [`Ready::read_fitting_parts`] gives it.
///
/// # Errors
///
/// Fails only when out of memory, which is never a decision. The text is then as before.
pub fn append_fitting_answer(
    alloc: Global,
    ready: &Ready,
    found: &FittingRequest,
    out: &mut Vec<u8>,
) -> Result<Decision, AllocError>
    requires fits { Fits ready.now.schema found.now.request }
    requires placed { IsPlacedAt ready.now.schema found.now.request found.now.environment }
    ensures decided { IfOk result (λ d. d ≡ (response_to ready.now found.now.request).decision) }
    ensures ok { OnOk result (out.new.items ≡ out.old.items ++ response_text ready.now found.now.request) }
    ensures err { OnErr result (out.new.items ≡ out.old.items) }
{
    let mut selection = Selection::new(alloc);
    let mut tally = Tally::new(alloc);
    ready.tally_fitting(alloc, found, &mut selection, &mut tally)?;
    let told = tally.told();
    let decision = told.decision();
    append_response(alloc, &told, out)?;
    Ok(decision)
}

/// The decision on a request that fits (Cedar language reference, authorization). The position of its environment is known, as
/// [`Ready::read_fitting_parts`] gives it.
///
/// # Errors
///
/// Fails only when out of memory, which is never a decision.
pub fn decide_fitting(
    alloc: Global,
    ready: &Ready,
    found: &FittingRequest,
) -> Result<Decision, AllocError>
    requires fits { Fits ready.now.schema found.now.request }
    requires placed { IsPlacedAt ready.now.schema found.now.request found.now.environment }
    ensures { IfOk result (λ d. d ≡ (response_to ready.now found.now.request).decision) }
{
    ready.decide_fitting(alloc, found)
}
