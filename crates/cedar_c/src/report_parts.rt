//! Gives a report on texts in parts.
ghost use Rattle.std.specs.Prelude.{List, ℕ, ◌≡◌, ◌≢◌, ◌≤◌, true, false, [], ◌∷◌, drop, length, take, Some};
ghost use Rattle.cedar_files.specs.Standing.{IsRefusalLine};
ghost use Rattle.cedar_c.specs.Buffers.{IsTooLong};
ghost use Rattle.cedar_c.specs.ReportPlaces.{HaveLastPart, HaveNoPlace, HavePart, IsPartReported, place_of};
ghost use Rattle.cedar_c.specs.Statuses.{IsOneOf};
ghost use Rattle.cedar_c.specs.Texts.{held_by};
ghost use Rattle.cedar_c.specs.Validating.{IsRefusedIn};

use crate::buffer::give;
use crate::report_place::ReportPlace;
use crate::status::{ARGUMENT, FAULTS, MEMORY, MORE, OK, REFUSED};
use crate::texts::Texts;
use cedar_check_spec::Settings;
use cedar_files::{FileRefusal, ReportPart, Role, Unprepared, refusal_line, report_part};
use std::alloc::Global;

// The status of a part that is given.
fn status_of(part: &ReportPart) -> u32
    ensures more { result ≡ 9 → part.now.has_ended ≡ false }
    ensures ok { result ≡ 0 → (part.now.has_ended ≡ true) × (part.now.place.faults ≡ 0) }
    ensures faults { result ≡ 3 → (part.now.has_ended ≡ true) × (part.now.place.faults ≢ 0) }
    ensures known { IsOneOf (0 ∷ 3 ∷ 9 ∷ []) result }
{
    if !part.has_ended {
        return MORE;
    }
    if part.place.faults == 0 { OK } else { FAULTS }
}

// Gives a part, and moves the place on, if the buffer has room for it.
fn give_part(part: ReportPart, place: &mut ReportPlace, text: &mut [u8], written: &mut usize) -> u32
    ensures given { result ≢ 6 → (take written.new text.new ≡ part.text.items) × (part.place.lines ≢ Some 18446744073709551615 → place_of place.new ≡ part.place) }
    ensures more { result ≡ 9 → part.has_ended ≡ false }
    ensures ok { result ≡ 0 → (part.has_ended ≡ true) × (place.new.faults ≡ 0) }
    ensures faults { result ≡ 3 → (part.has_ended ≡ true) × (place.new.faults ≢ 0) }
    ensures room { result ≡ 6 → IsTooLong part.text.items text.old written.new × (place.new ≡ place.old) × (text.new ≡ text.old) }
    ensures rest { result ≢ 6 → drop written.new text.new ≡ drop written.new text.old }
    ensures fits { result ≢ 6 → written.new ≤ length text.old }
    ensures known { IsOneOf (0 ∷ 3 ∷ 6 ∷ 9 ∷ []) result }
{
    let given = give(&part.text, text, written);
    if given != OK {
        return given;
    }
    *place = ReportPlace::of(part.place);
    status_of(&part)
}

// Gives the line that refuses a file, if the buffer has room for it.
fn give_line(
    alloc: Global,
    role: Role,
    why: FileRefusal,
    text: &mut [u8],
    written: &mut usize,
) -> u32
    ensures refused { result ≡ 2 → IsRefusalLine role why (take written.new text.new) }
    ensures room { result ≡ 6 → (line : List ℕ) × IsRefusalLine role why line × IsTooLong line text.old written.new × (text.new ≡ text.old) }
    ensures rest { result ≡ 2 → drop written.new text.new ≡ drop written.new text.old }
    ensures fits { result ≡ 2 → written.new ≤ length text.old }
    ensures memory { result ≡ 1 → (text.new ≡ text.old) × (written.new ≡ written.old) }
    ensures known { IsOneOf (1 ∷ 2 ∷ 6 ∷ []) result }
{
    let Ok(line) = refusal_line(alloc, role, why) else {
        return MEMORY;
    };
    let given = give(&line, text, written);
    if given != OK {
        return given;
    }
    REFUSED
}

/// Gives the next part of the report on the policies against the schema, and moves the place on; or the line that refuses a file.
pub(crate) fn report_next(
    alloc: Global,
    texts: &Texts<'_>,
    settings: Settings,
    place: &mut ReportPlace,
    text: &mut [u8],
    written: &mut usize,
) -> u32
    ensures more { result ≡ 9 → HavePart settings (held_by texts.now) place.old place.new (take written.new text.new) }
    ensures ok { result ≡ 0 → HaveLastPart settings (held_by texts.now) place.old place.new (take written.new text.new) × (place.new.faults ≡ 0) }
    ensures faults { result ≡ 3 → HaveLastPart settings (held_by texts.now) place.old place.new (take written.new text.new) × (place.new.faults ≢ 0) }
    ensures refused { result ≡ 2 → IsRefusedIn settings (held_by texts.now) (take written.new text.new) }
    ensures room { result ≡ 6 → (told : List ℕ) × IsPartReported settings (held_by texts.now) place.old told × IsTooLong told text.old written.new × (text.new ≡ text.old) }
    ensures argument { result ≡ 4 → HaveNoPlace settings (held_by texts.now) place.old }
    ensures same { IsOneOf (1 ∷ 2 ∷ 4 ∷ 6 ∷ []) result → place.new ≡ place.old }
    ensures rest { IsOneOf (0 ∷ 2 ∷ 3 ∷ 9 ∷ []) result → drop written.new text.new ≡ drop written.new text.old }
    ensures fits { IsOneOf (0 ∷ 2 ∷ 3 ∷ 9 ∷ []) result → written.new ≤ length text.old }
    ensures unwritten { IsOneOf (1 ∷ 4 ∷ []) result → (text.new ≡ text.old) × (written.new ≡ written.old) }
    ensures known { IsOneOf (0 ∷ 1 ∷ 2 ∷ 3 ∷ 4 ∷ 6 ∷ 9 ∷ []) result }
{
    match report_part(alloc, texts, settings, place.place()) {
        Ok(Some(part)) => give_part(part, place, text, written),
        Ok(None) => ARGUMENT,
        Err(Unprepared::Refused(role, why)) => give_line(alloc, role, why, text, written),
        Err(Unprepared::Memory) => MEMORY,
        // Both the schema and the policies are there, memory has no device, and nothing is judged before its turn.
        Err(Unprepared::Faults(_) | Unprepared::Unnamed | Unprepared::Device) => unreachable!(),
    }
}
