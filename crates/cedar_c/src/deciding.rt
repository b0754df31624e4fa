//! Decides on requests in parts.
ghost use Rattle.std.specs.Prelude.{ℕ, List, ◌≡◌, ◌≢◌, ◌⊎◌, ◌<◌, ◌≤◌, [], ◌∷◌, drop, length, take, IfErr, IfOk};
ghost use Rattle.serde_json.specs.Written.{compact_text};
ghost use Rattle.cedar_schema_spec.specs.Conformance.{Fits};
ghost use Rattle.cedar_conform.specs.Parts.{PartsDenote};
ghost use Rattle.cedar_conform.specs.Places.{IsPlacedAt};
ghost use Rattle.cedar_conform_values.specs.Numbers.{number_of};
ghost use Rattle.cedar_conform_values.specs.declared.conform_fault.ConformFault.TheVariants.{OutOfMemory};
ghost use Rattle.cedar_auth.specs.AnswerParts.{response_text, response_to};
ghost use Rattle.cedar_auth_spec.specs.AnswerJson.{refused_data};
ghost use Rattle.cedar_c.specs.Buffers.{IsTooLong};
ghost use Rattle.cedar_c.specs.Deciding.{AnswersParts, ArePartsRefused, IsDecided, decision_number};
ghost use Rattle.cedar_c.specs.Pieces.{parts_in};
ghost use Rattle.cedar_c.specs.Statuses.{IsOneOf};

use crate::buffer::give;
use crate::decided::{Decided, decision_number};
use crate::engine::Engine;
use crate::parts::{RequestBytes, request_parts};
use crate::status::{MEMORY, NO_REQUEST, OK, ROOM};
use cedar_auth::{Ready, append_fault, append_fitting_answer, decide_fitting};
use cedar_conform::{FittingRequest, RequestReader};
use cedar_conform_values::ConformFault;
use std::alloc::Global;

// The request that the parts denote, and where its environment is. Types and ids that are not UTF-8 are refused with 502.
fn read(
    alloc: Global,
    ready: &Ready,
    reader: &mut RequestReader,
    bytes: &RequestBytes<'_>,
) -> Result<FittingRequest, ConformFault>
    ensures denotes { IfOk result (λ found. PartsDenote ready.now.schema (parts_in bytes.now) found.request) }
    ensures fits { IfOk result (λ found. Fits ready.now.schema found.request) }
    ensures placed { IfOk result (λ found. IsPlacedAt ready.now.schema found.request found.environment) }
    ensures refused { IfErr result (λ fault. fault ≢ OutOfMemory → ArePartsRefused ready.now (parts_in bytes.now) (number_of fault)) }
{
    let Some(parts) = request_parts(bytes) else {
        return Err(ConformFault::Shape);
    };
    ready.read_fitting_parts(alloc, &parts, reader)
}

// Gives the decision on a request, and the text of the response where the buffer has length.
fn give_response(
    alloc: Global,
    ready: &Ready,
    found: &FittingRequest,
    room: &mut Vec<u8>,
    decided: &mut Decided,
    text: &mut [u8],
    written: &mut usize,
) -> u32
    requires fits { Fits ready.now.schema found.now.request }
    requires placed { IsPlacedAt ready.now.schema found.now.request found.now.environment }
    ensures ok { result ≡ 0 → decided.new.allow ≡ decision_number (response_to ready.now found.now.request).decision }
    ensures told { result ≡ 0 → 0 < length text.old → take written.new text.new ≡ response_text ready.now found.now.request }
    ensures rest { result ≡ 0 → drop written.new text.new ≡ drop written.new text.old }
    ensures fits { result ≡ 0 → 0 < length text.old → written.new ≤ length text.old }
    ensures room { result ≡ 6 → IsTooLong (response_text ready.now found.now.request) text.old written.new }
    ensures denied { result ≢ 0 → decided.new.allow ≡ decided.old.allow }
    ensures unrefused { decided.new.refused ≡ decided.old.refused }
    ensures untouched { result ≢ 0 → text.new ≡ text.old }
    ensures unwritten { result ≡ 1 → written.new ≡ written.old }
    ensures unwanted { length text.old ≡ 0 → written.new ≡ written.old }
    ensures known { IsOneOf (0 ∷ 1 ∷ 6 ∷ []) result }
{
    if text.len() == 0 {
        return match decide_fitting(alloc, ready, found) {
            Ok(decision) => {
                decided.allow = decision_number(decision);
                OK
            }
            Err(_) => MEMORY,
        };
    }
    room.clear();
    let Ok(decision) = append_fitting_answer(alloc, ready, found, room) else {
        return MEMORY;
    };
    if give(room, text, written) != OK {
        return ROOM;
    }
    decided.allow = decision_number(decision);
    OK
}

// Gives the number by which parts are refused, and the text of the refusal where the buffer has length.
fn give_fault(
    alloc: Global,
    fault: &ConformFault,
    room: &mut Vec<u8>,
    decided: &mut Decided,
    text: &mut [u8],
    written: &mut usize,
) -> u32
    ensures fault { (result ≡ 6) ⊎ (result ≡ 7) → fault.now ≢ OutOfMemory }
    ensures refused { result ≡ 7 → decided.new.refused ≡ number_of fault.now }
    ensures told { result ≡ 7 → 0 < length text.old → take written.new text.new ≡ compact_text (refused_data (number_of fault.now)) }
    ensures rest { result ≡ 7 → drop written.new text.new ≡ drop written.new text.old }
    ensures fits { result ≡ 7 → 0 < length text.old → written.new ≤ length text.old }
    ensures room { result ≡ 6 → IsTooLong (compact_text (refused_data (number_of fault.now))) text.old written.new }
    ensures denied { decided.new.allow ≡ decided.old.allow }
    ensures unrefused { result ≢ 7 → decided.new.refused ≡ decided.old.refused }
    ensures untouched { result ≢ 7 → text.new ≡ text.old }
    ensures unwritten { result ≡ 1 → written.new ≡ written.old }
    ensures unwanted { length text.old ≡ 0 → written.new ≡ written.old }
    ensures known { IsOneOf (1 ∷ 6 ∷ 7 ∷ []) result }
{
    let number = fault.number();
    if number == 1 {
        return MEMORY;
    }
    if text.len() == 0 {
        decided.refused = u32::from(number);
        return NO_REQUEST;
    }
    room.clear();
    if append_fault(alloc, fault, room).is_err() {
        return MEMORY;
    }
    if give(room, text, written) != OK {
        return ROOM;
    }
    decided.refused = u32::from(number);
    NO_REQUEST
}

// Gives what policies that are ready answer to parts.
fn give_decision(
    alloc: Global,
    ready: &Ready,
    reader: &mut RequestReader,
    room: &mut Vec<u8>,
    bytes: &RequestBytes<'_>,
    decided: &mut Decided,
    text: &mut [u8],
    written: &mut usize,
) -> u32
    ensures ok { result ≡ 0 → (answer : List ℕ) × IsDecided ready.now (parts_in bytes.now) decided.new.allow answer
        × (0 < length text.old → take written.new text.new ≡ answer) }
    ensures refused { result ≡ 7 → ArePartsRefused ready.now (parts_in bytes.now) decided.new.refused
        × (0 < length text.old → take written.new text.new ≡ compact_text (refused_data decided.new.refused)) }
    ensures room { result ≡ 6 → (answer : List ℕ) × AnswersParts ready.now (parts_in bytes.now) answer × IsTooLong answer text.old written.new }
    ensures denied { result ≢ 0 → decided.new.allow ≡ decided.old.allow }
    ensures unrefused { result ≢ 7 → decided.new.refused ≡ decided.old.refused }
    ensures rest { (result ≡ 0) ⊎ (result ≡ 7) → drop written.new text.new ≡ drop written.new text.old }
    ensures fits { (result ≡ 0) ⊎ (result ≡ 7) → 0 < length text.old → written.new ≤ length text.old }
    ensures untouched { result ≢ 0 → result ≢ 7 → text.new ≡ text.old }
    ensures unwritten { result ≡ 1 → written.new ≡ written.old }
    ensures unwanted { length text.old ≡ 0 → written.new ≡ written.old }
    ensures known { IsOneOf (0 ∷ 1 ∷ 6 ∷ 7 ∷ []) result }
{
    match read(alloc, ready, reader, bytes) {
        Ok(found) => {
            let status = give_response(alloc, ready, &found, room, decided, text, written);
            reader.keep(found.request);
            status
        }
        Err(fault) => give_fault(alloc, &fault, room, decided, text, written),
    }
}

impl Engine {
    /// Gives the decision on the request that the parts denote, or the number by which they are refused, and the text of either where
    /// the buffer has length.
    pub(crate) fn decide(
        &mut self,
        alloc: Global,
        bytes: &RequestBytes<'_>,
        decided: &mut Decided,
        text: &mut [u8],
        written: &mut usize,
    ) -> u32
        ensures same { self.new ≡ self.old }
        ensures ok { result ≡ 0 → (answer : List ℕ) × IsDecided self.old (parts_in bytes.now) decided.new.allow answer
            × (0 < length text.old → take written.new text.new ≡ answer) }
        ensures refused { result ≡ 7 → ArePartsRefused self.old (parts_in bytes.now) decided.new.refused
            × (0 < length text.old → take written.new text.new ≡ compact_text (refused_data decided.new.refused)) }
        ensures room { result ≡ 6 → (answer : List ℕ) × AnswersParts self.old (parts_in bytes.now) answer × IsTooLong answer text.old written.new }
        ensures denied { result ≢ 0 → decided.new.allow ≡ decided.old.allow }
        ensures unrefused { result ≢ 7 → decided.new.refused ≡ decided.old.refused }
        ensures rest { (result ≡ 0) ⊎ (result ≡ 7) → drop written.new text.new ≡ drop written.new text.old }
        ensures fits { (result ≡ 0) ⊎ (result ≡ 7) → 0 < length text.old → written.new ≤ length text.old }
        ensures untouched { result ≢ 0 → result ≢ 7 → text.new ≡ text.old }
        ensures unwritten { result ≡ 1 → written.new ≡ written.old }
        ensures unwanted { length text.old ≡ 0 → written.new ≡ written.old }
        ensures known { IsOneOf (0 ∷ 1 ∷ 6 ∷ 7 ∷ []) result }
    {
        give_decision(
            alloc,
            &self.ready,
            &mut self.reader,
            &mut self.text,
            bytes,
            decided,
            text,
            written,
        )
    }
}
