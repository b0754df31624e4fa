//! The library for C: handles that lead to engines, and the calls that publish to a handle, share it, and answer requests.
//!
//! `c/cedar.h` is the header, and says what a caller owes. A handle is an address that C keeps. Contracts see the slot at that address:
//! `place.old.value` before a call, and `place.new.value` after it. An engine is seen as the policies that are ready to answer.
#![tactic(auto)]

ghost use Rattle.std.specs.Prelude.{ℕ, List, ◌≡◌, ◌≢◌, ◌⊎◌, ◌<◌, ◌≤◌, [], ◌∷◌, codes, drop, length, take, Some};
ghost use Rattle.serde_json.specs.Written.{compact_text};
ghost use Rattle.cedar_auth_spec.specs.AnswerJson.{refused_data};
ghost use Rattle.cedar_c.specs.declared.slot.Slot.TheVariants.{Empty};
ghost use Rattle.cedar_c.specs.Answers.{AnswersLines, AnswersLinesWithEntities, AnswersOne, LeadsTo};
ghost use Rattle.cedar_c.specs.Buffers.{IsGiven, IsTooLong};
ghost use Rattle.cedar_c.specs.Deciding.{AnswersParts, ArePartsRefused, IsDecided, parts};
ghost use Rattle.cedar_c.specs.Publishing.{AreChangesRefused, AreRefusedOver, HaveFaults, IsChanged, IsOver, IsRefusedFirst, no_refusal};
ghost use Rattle.cedar_c.specs.ReportPlaces.{HaveLastPart, HaveNoPlace, HavePart, IsPartReported};
ghost use Rattle.cedar_c.specs.SettingBits.{AreSettings};
ghost use Rattle.cedar_c.specs.Statuses.{IsOneOf};
ghost use Rattle.cedar_c.specs.Texts.{held};
ghost use Rattle.cedar_c.specs.Validating.{HaveNoFaults, IsRefusedIn, IsReported};
ghost use Rattle.cedar_check_spec.specs.declared.settings.Settings.{Settings as SettingsTree};
ghost use Rattle.cedar_files.specs.Authorization.{AreAnsweredSoundlyWithEntities, HoldAll};

mod answering;
mod buffer;
mod crossing;
mod decided;
mod deciding;
mod engine;
mod explaining;
mod handle;
mod new_handle;
mod parts;
mod publishing;
mod refusal;
mod report_parts;
mod report_place;
mod setting_bits;
mod slot;
mod status;
mod texts;
mod validating;
mod version;

use base_loose::Loose;
use buffer::give;
use cedar_ext::Language;
pub use crossing::handle_crosses;
use decided::Decided;
use explaining::{explanation, explanation_of_changes, explanation_of_line, format_of};
use handle::Handle;
use new_handle::NewHandle;
use parts::{RequestBytes, UidBytes};
use publishing::{engine_of, say_why};
use refusal::Refusal;
use report_parts::report_next;
use report_place::ReportPlace;
use setting_bits::settings_of;
use slot::Slot;
use status::{ARGUMENT, MEMORY, NO_ENGINE, OK};
use std::alloc::Global;
use texts::Texts;
use validating::report_on;
use version::{ABI, VERSION};

/// Makes a handle that leads nowhere yet.
#[unsafe(no_mangle)]
pub extern "C" fn cedar_raw_new(alloc: Global, out: &mut NewHandle) -> u32
    ensures ok { result ≡ 0 → out.new.value ≡ Some Empty }
    ensures same { result ≢ 0 → out.new ≡ out.old }
    ensures known { IsOneOf (0 ∷ 1 ∷ []) result }
{
    match Box::new(alloc, Slot::Empty) {
        Ok(slot) => {
            *out = NewHandle::of(Loose::of(slot));
            OK
        }
        Err(_) => MEMORY,
    }
}

/// Frees a handle, and its engine where no other handle shares it.
#[unsafe(no_mangle)]
pub extern "C" fn cedar_raw_free(place: Handle) {
    let _slot = place.into_loose().into_box();
}

/// Reads a schema, policies, links and entities, validates the policies strictly, and has the handle lead to the engine of these. What
/// it led to before is freed, where no other handle shares it. Otherwise the handle is as before, and the text says why.
#[unsafe(no_mangle)]
pub extern "C" fn cedar_raw_publish(
    alloc: Global,
    place: &mut Handle,
    schema: &[u8],
    policies: &[u8],
    links: &[u8],
    entities: &[u8],
    settings: u32,
    refusal: &mut Refusal,
    text: &mut [u8],
    written: &mut usize,
) -> u32
    ensures ok { result ≡ 0 → (chosen : SettingsTree) × AreSettings settings chosen
        × LeadsTo (HoldAll chosen (held schema.now policies.now links.now entities.now)) place.new.value }
    ensures same { result ≢ 0 → place.new.value ≡ place.old.value }
    ensures refused { result ≡ 2 → (chosen : SettingsTree) × (line : List ℕ) × AreSettings settings chosen
        × IsRefusedFirst chosen (held schema.now policies.now links.now entities.now) refusal.new line
        × IsGiven line text.old text.new written.new }
    ensures faults { result ≡ 3 → (chosen : SettingsTree) × (report : List ℕ) × AreSettings settings chosen
        × HaveFaults chosen (held schema.now policies.now links.now entities.now) report
        × IsGiven report text.old text.new written.new }
    ensures argument { result ≡ 4 → (chosen : SettingsTree) → ¬ AreSettings settings chosen }
    ensures unrefused { result ≢ 2 → refusal.new ≡ no_refusal }
    ensures untouched { result ≢ 2 → result ≢ 3 → (text.new ≡ text.old) × (written.new ≡ 0) }
    ensures known { IsOneOf (0 ∷ 1 ∷ 2 ∷ 3 ∷ 4 ∷ []) result }
{
    *written = 0;
    *refusal = Refusal::none();
    let Some(settings) = settings_of(settings) else {
        return ARGUMENT;
    };
    let texts = Texts {
        schema,
        policies,
        links,
        entities,
    };
    match engine_of(alloc, &texts, settings) {
        Ok(engine) => {
            *place.slot() = Slot::Full(engine);
            OK
        }
        Err(why) => say_why(alloc, &texts, settings, &why, refusal, text, written),
    }
}

/// Reads entities, and has the handle lead to an engine of the same policies over them. The policies are not read again, and other handles
/// that share the old engine keep it. Otherwise the handle is as before, and the text says why.
#[unsafe(no_mangle)]
pub extern "C" fn cedar_raw_publish_entities(
    alloc: Global,
    place: &mut Handle,
    entities: &[u8],
    refusal: &mut Refusal,
    text: &mut [u8],
    written: &mut usize,
) -> u32
    ensures ok { result ≡ 0 → LeadsTo (λ old. LeadsTo (IsOver entities.now old) place.new.value) place.old.value }
    ensures same { result ≢ 0 → place.new.value ≡ place.old.value }
    ensures refused { result ≡ 2 → LeadsTo (λ old. (line : List ℕ) × AreRefusedOver entities.now old refusal.new line
        × IsGiven line text.old text.new written.new) place.old.value }
    ensures none { result ≡ 5 → place.old.value ≡ Empty }
    ensures unrefused { result ≢ 2 → refusal.new ≡ no_refusal }
    ensures untouched { result ≢ 2 → (text.new ≡ text.old) × (written.new ≡ 0) }
    ensures known { IsOneOf (0 ∷ 1 ∷ 2 ∷ 5 ∷ []) result }
{
    *written = 0;
    *refusal = Refusal::none();
    let slot = place.slot();
    let Slot::Full(engine) = slot else {
        return NO_ENGINE;
    };
    match engine.over(alloc, entities) {
        Ok(new) => {
            *slot = Slot::Full(new);
            OK
        }
        Err(why) => engine.refuse_entities(alloc, entities, why, refusal, text, written),
    }
}

/// Reads changes of entities, and has the handle lead to an engine of the same policies over the entities after them. The policies are not
/// read again, and other handles that share the old engine keep it. Otherwise the handle is as before, and the text says why.
#[unsafe(no_mangle)]
pub extern "C" fn cedar_raw_publish_changes(
    alloc: Global,
    place: &mut Handle,
    changes: &[u8],
    refusal: &mut Refusal,
    text: &mut [u8],
    written: &mut usize,
) -> u32
    ensures ok { result ≡ 0 → LeadsTo (λ old. LeadsTo (IsChanged changes.now old) place.new.value) place.old.value }
    ensures same { result ≢ 0 → place.new.value ≡ place.old.value }
    ensures refused { result ≡ 2 → LeadsTo (λ old. (line : List ℕ) × AreChangesRefused changes.now old refusal.new line
        × IsGiven line text.old text.new written.new) place.old.value }
    ensures none { result ≡ 5 → place.old.value ≡ Empty }
    ensures unrefused { result ≢ 2 → refusal.new ≡ no_refusal }
    ensures untouched { result ≢ 2 → (text.new ≡ text.old) × (written.new ≡ 0) }
    ensures known { IsOneOf (0 ∷ 1 ∷ 2 ∷ 5 ∷ []) result }
{
    *written = 0;
    *refusal = Refusal::none();
    let slot = place.slot();
    let Slot::Full(current) = slot else {
        return NO_ENGINE;
    };
    match current.changed(alloc, changes) {
        Ok(changed) => {
            *slot = Slot::Full(changed);
            OK
        }
        Err(why) => current.refuse_changes(alloc, changes, why, refusal, text, written),
    }
}

/// Gives the report on policies against a schema, or the line that refuses a file, as `cedar validate` prints them.
#[unsafe(no_mangle)]
pub extern "C" fn cedar_raw_validate(
    alloc: Global,
    schema: &[u8],
    policies: &[u8],
    links: &[u8],
    settings: u32,
    text: &mut [u8],
    written: &mut usize,
) -> u32
    ensures ok { result ≡ 0 → (chosen : SettingsTree) × AreSettings settings chosen
        × HaveNoFaults chosen (held schema.now policies.now links.now []) (take written.new text.new) }
    ensures refused { result ≡ 2 → (chosen : SettingsTree) × AreSettings settings chosen
        × IsRefusedIn chosen (held schema.now policies.now links.now []) (take written.new text.new) }
    ensures faults { result ≡ 3 → (chosen : SettingsTree) × AreSettings settings chosen
        × HaveFaults chosen (held schema.now policies.now links.now []) (take written.new text.new) }
    ensures room { result ≡ 6 → (chosen : SettingsTree) × (told : List ℕ) × AreSettings settings chosen
        × IsReported chosen (held schema.now policies.now links.now []) told × IsTooLong told text.old written.new }
    ensures argument { result ≡ 4 → (chosen : SettingsTree) → ¬ AreSettings settings chosen }
    ensures rest { result ≢ 1 → result ≢ 4 → result ≢ 6 → drop written.new text.new ≡ drop written.new text.old }
    ensures fits { result ≢ 1 → result ≢ 4 → result ≢ 6 → written.new ≤ length text.old }
    ensures untouched { result ≡ 6 → text.new ≡ text.old }
    ensures unwritten { IsOneOf (1 ∷ 4 ∷ []) result → (text.new ≡ text.old) × (written.new ≡ 0) }
    ensures known { IsOneOf (0 ∷ 1 ∷ 2 ∷ 3 ∷ 4 ∷ 6 ∷ []) result }
{
    *written = 0;
    let Some(settings) = settings_of(settings) else {
        return ARGUMENT;
    };
    let texts = Texts {
        schema,
        policies,
        links,
        entities: &[],
    };
    report_on(alloc, &texts, settings, text, written)
}

/// Gives the next part of the report on policies against a schema, from a place on, and moves the place on: `MORE` where the report goes
/// on, `OK` or `FAULTS` where it has ended. Then the text ends with the line of totals, which counts what the place counts. Otherwise the
/// place is as before. The texts of the parts from a place of zeros without a limit of lines are the text of `cedar_raw_validate`, as
/// `parts_are_the_report` of `cedar_files` says.
#[unsafe(no_mangle)]
pub extern "C" fn cedar_raw_validate_part(
    alloc: Global,
    schema: &[u8],
    policies: &[u8],
    links: &[u8],
    settings: u32,
    place: &mut ReportPlace,
    text: &mut [u8],
    written: &mut usize,
) -> u32
    ensures more { result ≡ 9 → (chosen : SettingsTree) × AreSettings settings chosen
        × HavePart chosen (held schema.now policies.now links.now []) place.old place.new (take written.new text.new) }
    ensures ok { result ≡ 0 → (chosen : SettingsTree) × AreSettings settings chosen
        × HaveLastPart chosen (held schema.now policies.now links.now []) place.old place.new (take written.new text.new) × (place.new.faults ≡ 0) }
    ensures refused { result ≡ 2 → (chosen : SettingsTree) × AreSettings settings chosen
        × IsRefusedIn chosen (held schema.now policies.now links.now []) (take written.new text.new) }
    ensures faults { result ≡ 3 → (chosen : SettingsTree) × AreSettings settings chosen
        × HaveLastPart chosen (held schema.now policies.now links.now []) place.old place.new (take written.new text.new) × (place.new.faults ≢ 0) }
    ensures room { result ≡ 6 → (chosen : SettingsTree) × (told : List ℕ) × AreSettings settings chosen
        × IsPartReported chosen (held schema.now policies.now links.now []) place.old told × IsTooLong told text.old written.new }
    ensures argument { result ≡ 4 → ((chosen : SettingsTree) → ¬ AreSettings settings chosen)
        ⊎ ((chosen : SettingsTree) × AreSettings settings chosen × HaveNoPlace chosen (held schema.now policies.now links.now []) place.old) }
    ensures same { IsOneOf (1 ∷ 2 ∷ 4 ∷ 6 ∷ []) result → place.new ≡ place.old }
    ensures rest { IsOneOf (0 ∷ 2 ∷ 3 ∷ 9 ∷ []) result → drop written.new text.new ≡ drop written.new text.old }
    ensures fits { IsOneOf (0 ∷ 2 ∷ 3 ∷ 9 ∷ []) result → written.new ≤ length text.old }
    ensures untouched { result ≡ 6 → text.new ≡ text.old }
    ensures unwritten { IsOneOf (1 ∷ 4 ∷ []) result → (text.new ≡ text.old) × (written.new ≡ 0) }
    ensures known { IsOneOf (0 ∷ 1 ∷ 2 ∷ 3 ∷ 4 ∷ 6 ∷ 9 ∷ []) result }
{
    *written = 0;
    let Some(settings) = settings_of(settings) else {
        return ARGUMENT;
    };
    let texts = Texts {
        schema,
        policies,
        links,
        entities: &[],
    };
    report_next(alloc, &texts, settings, place, text, written)
}

/// Explains to a person, or in JSON lines, why a file is refused or which faults the policies have. The text has length 0 where nothing
/// is refused.
#[unsafe(no_mangle)]
pub extern "C" fn cedar_raw_explain(
    alloc: Global,
    schema: &[u8],
    policies: &[u8],
    links: &[u8],
    entities: &[u8],
    settings: u32,
    format: u32,
    text: &mut [u8],
    written: &mut usize,
) -> u32
    ensures rest { result ≡ 0 → drop written.new text.new ≡ drop written.new text.old }
    ensures fits { result ≡ 0 → written.new ≤ length text.old }
    ensures room { result ≡ 6 → length text.old < written.new }
    ensures known_arguments { result ≢ 4 → (chosen : SettingsTree) × AreSettings settings chosen × (format < 2) }
    ensures argument { result ≡ 4 → ((chosen : SettingsTree) → ¬ AreSettings settings chosen) ⊎ (1 < format) }
    ensures untouched { result ≢ 0 → text.new ≡ text.old }
    ensures unwritten { IsOneOf (1 ∷ 4 ∷ []) result → written.new ≡ 0 }
    ensures known { IsOneOf (0 ∷ 1 ∷ 4 ∷ 6 ∷ []) result }
{
    *written = 0;
    let Some(settings) = settings_of(settings) else {
        return ARGUMENT;
    };
    let Some(format) = format_of(format) else {
        return ARGUMENT;
    };
    let texts = Texts {
        schema,
        policies,
        links,
        entities,
    };
    match explanation(alloc, &texts, settings, format) {
        Ok(told) => give(&told, text, written),
        Err(_) => MEMORY,
    }
}

/// Explains to a person, or in JSON lines, why changes of entities are refused with a number for a schema of the default language. The text
/// has length 0 where changes do not get the number.
#[unsafe(no_mangle)]
pub extern "C" fn cedar_raw_explain_changes(
    alloc: Global,
    schema: &[u8],
    changes: &[u8],
    number: u32,
    format: u32,
    text: &mut [u8],
    written: &mut usize,
) -> u32
    ensures rest { result ≡ 0 → drop written.new text.new ≡ drop written.new text.old }
    ensures fits { result ≡ 0 → written.new ≤ length text.old }
    ensures room { result ≡ 6 → length text.old < written.new }
    ensures known_argument { result ≢ 4 → format < 2 }
    ensures argument { result ≡ 4 → 1 < format }
    ensures untouched { result ≢ 0 → text.new ≡ text.old }
    ensures unwritten { IsOneOf (1 ∷ 4 ∷ []) result → written.new ≡ 0 }
    ensures known { IsOneOf (0 ∷ 1 ∷ 4 ∷ 6 ∷ []) result }
{
    *written = 0;
    let Some(format) = format_of(format) else {
        return ARGUMENT;
    };
    match explanation_of_changes(alloc, Language::Profile, schema, changes, number, format) {
        Ok(told) => give(&told, text, written),
        Err(_) => MEMORY,
    }
}

/// Explains to a person, or in JSON lines, why changes of entities are refused with a number for a schema of the language of these settings.
/// The text has length 0 where changes do not get the number.
#[unsafe(no_mangle)]
pub extern "C" fn cedar_raw_explain_changes_in(
    alloc: Global,
    schema: &[u8],
    changes: &[u8],
    settings: u32,
    number: u32,
    format: u32,
    text: &mut [u8],
    written: &mut usize,
) -> u32
    ensures rest { result ≡ 0 → drop written.new text.new ≡ drop written.new text.old }
    ensures fits { result ≡ 0 → written.new ≤ length text.old }
    ensures room { result ≡ 6 → length text.old < written.new }
    ensures known_arguments { result ≢ 4 → (chosen : SettingsTree) × AreSettings settings chosen × (format < 2) }
    ensures argument { result ≡ 4 → ((chosen : SettingsTree) → ¬ AreSettings settings chosen) ⊎ (1 < format) }
    ensures untouched { result ≢ 0 → text.new ≡ text.old }
    ensures unwritten { IsOneOf (1 ∷ 4 ∷ []) result → written.new ≡ 0 }
    ensures known { IsOneOf (0 ∷ 1 ∷ 4 ∷ 6 ∷ []) result }
{
    *written = 0;
    let Some(settings) = settings_of(settings) else {
        return ARGUMENT;
    };
    let Some(format) = format_of(format) else {
        return ARGUMENT;
    };
    match explanation_of_changes(alloc, settings.language, schema, changes, number, format) {
        Ok(told) => give(&told, text, written),
        Err(_) => MEMORY,
    }
}

/// Explains to a person, or in JSON lines, why a request line is refused: kind 0, or one that may bring entities: kind 1. The text has
/// length 0 where the line is not refused, or not with the number. Number 0 is for each.
#[unsafe(no_mangle)]
pub extern "C" fn cedar_raw_explain_line(
    alloc: Global,
    place: &mut Handle,
    line: &[u8],
    kind: u32,
    number: u32,
    format: u32,
    text: &mut [u8],
    written: &mut usize,
) -> u32
    ensures same { place.new.value ≡ place.old.value }
    ensures rest { result ≡ 0 → drop written.new text.new ≡ drop written.new text.old }
    ensures fits { result ≡ 0 → written.new ≤ length text.old }
    ensures room { result ≡ 6 → length text.old < written.new }
    ensures none { result ≡ 5 → place.old.value ≡ Empty }
    ensures known_arguments { result ≢ 4 → (kind < 2) × (format < 2) }
    ensures argument { result ≡ 4 → (1 < kind) ⊎ (1 < format) }
    ensures untouched { result ≢ 0 → text.new ≡ text.old }
    ensures unwritten { IsOneOf (1 ∷ 4 ∷ 5 ∷ []) result → written.new ≡ 0 }
    ensures known { IsOneOf (0 ∷ 1 ∷ 4 ∷ 5 ∷ 6 ∷ []) result }
{
    *written = 0;
    let Some(format) = format_of(format) else {
        return ARGUMENT;
    };
    if kind > 1 {
        return ARGUMENT;
    }
    match place.slot() {
        Slot::Empty => NO_ENGINE,
        Slot::Full(engine) => {
            match explanation_of_line(alloc, &engine.ready, line, kind == 1, number, format) {
                Ok(told) => give(&told, text, written),
                Err(_) => MEMORY,
            }
        }
    }
}

/// Has the other handle lead to the engine of this one. What the other led to before is freed. Policies are not copied, and this
/// handle is as before.
#[unsafe(no_mangle)]
pub extern "C" fn cedar_raw_share(alloc: Global, place: &mut Handle, other: &mut Handle) -> u32
    ensures ok { result ≡ 0 → other.new.value ≡ place.old.value }
    ensures full { result ≡ 0 → place.old.value ≢ Empty }
    ensures same { place.new.value ≡ place.old.value }
    ensures kept { result ≢ 0 → other.new.value ≡ other.old.value }
    ensures none { result ≡ 5 → place.old.value ≡ Empty }
    ensures known { IsOneOf (0 ∷ 1 ∷ 5 ∷ []) result }
{
    match place.slot() {
        Slot::Empty => NO_ENGINE,
        Slot::Full(engine) => match engine.share(alloc) {
            Ok(shared) => {
                *other.slot() = Slot::Full(shared);
                OK
            }
            Err(_) => MEMORY,
        },
    }
}

/// Gives how many changes of entities are kept over the entities that were read whole.
#[unsafe(no_mangle)]
pub extern "C" fn cedar_raw_kept_changes(place: &mut Handle, count: &mut u64) -> u32
    ensures same { place.new.value ≡ place.old.value }
    ensures counted { result ≡ 0 → place.old.value ≢ Empty }
    ensures none { result ≡ 5 → place.old.value ≡ Empty }
    ensures uncounted { result ≡ 5 → count.new ≡ 0 }
    ensures known { IsOneOf (0 ∷ 5 ∷ []) result }
{
    *count = 0;
    match place.slot() {
        Slot::Empty => NO_ENGINE,
        Slot::Full(engine) => {
            *count = engine.ready.kept_changes() as u64;
            OK
        }
    }
}

/// Gives the answers to request lines, a line for each, as `cedar authorize` prints them.
#[unsafe(no_mangle)]
pub extern "C" fn cedar_raw_answer(
    alloc: Global,
    place: &mut Handle,
    lines: &[u8],
    text: &mut [u8],
    written: &mut usize,
) -> u32
    ensures same { place.new.value ≡ place.old.value }
    ensures ok { result ≡ 0 → AnswersLines place.old.value lines.now (take written.new text.new) }
    ensures rest { result ≡ 0 → drop written.new text.new ≡ drop written.new text.old }
    ensures fits { result ≡ 0 → written.new ≤ length text.old }
    ensures room { result ≡ 6 → (answer : List ℕ) × AnswersLines place.old.value lines.now answer
        × IsTooLong answer text.old written.new }
    ensures untouched { result ≢ 0 → text.new ≡ text.old }
    ensures unwritten { result ≢ 0 → result ≢ 6 → written.new ≡ 0 }
    ensures none { result ≡ 5 → place.old.value ≡ Empty }
    ensures known { IsOneOf (0 ∷ 1 ∷ 5 ∷ 6 ∷ []) result }
{
    *written = 0;
    match place.slot() {
        Slot::Empty => NO_ENGINE,
        Slot::Full(engine) => engine.answer(alloc, lines, text, written),
    }
}

/// Gives the answers to request lines that may bring entities, a line for each, as `cedar authorize --entities-in-lines` prints them. What
/// a line brings is upserted into the entities of the engine for this line alone.
#[unsafe(no_mangle)]
pub extern "C" fn cedar_raw_answer_with_entities(
    alloc: Global,
    place: &mut Handle,
    lines: &[u8],
    text: &mut [u8],
    written: &mut usize,
) -> u32
    ensures same { place.new.value ≡ place.old.value }
    ensures sound { result ≢ 5 → LeadsTo AreAnsweredSoundlyWithEntities place.old.value }
    ensures ok { result ≡ 0 → AnswersLinesWithEntities place.old.value lines.now (take written.new text.new) }
    ensures rest { result ≡ 0 → drop written.new text.new ≡ drop written.new text.old }
    ensures fits { result ≡ 0 → written.new ≤ length text.old }
    ensures room { result ≡ 6 → (answer : List ℕ) × AnswersLinesWithEntities place.old.value lines.now answer
        × IsTooLong answer text.old written.new }
    ensures untouched { result ≢ 0 → text.new ≡ text.old }
    ensures unwritten { result ≢ 0 → result ≢ 6 → written.new ≡ 0 }
    ensures none { result ≡ 5 → place.old.value ≡ Empty }
    ensures known { IsOneOf (0 ∷ 1 ∷ 5 ∷ 6 ∷ []) result }
{
    *written = 0;
    match place.slot() {
        Slot::Empty => NO_ENGINE,
        Slot::Full(engine) => engine.answer_with_entities(alloc, lines, text, written),
    }
}

/// Gives the answer to one request line, without LF.
#[unsafe(no_mangle)]
pub extern "C" fn cedar_raw_answer_line(
    alloc: Global,
    place: &mut Handle,
    line: &[u8],
    text: &mut [u8],
    written: &mut usize,
) -> u32
    ensures same { place.new.value ≡ place.old.value }
    ensures ok { result ≡ 0 → AnswersOne place.old.value line.now (take written.new text.new) }
    ensures rest { result ≡ 0 → drop written.new text.new ≡ drop written.new text.old }
    ensures fits { result ≡ 0 → written.new ≤ length text.old }
    ensures room { result ≡ 6 → (answer : List ℕ) × AnswersOne place.old.value line.now answer
        × IsTooLong answer text.old written.new }
    ensures untouched { result ≢ 0 → text.new ≡ text.old }
    ensures unwritten { result ≢ 0 → result ≢ 6 → written.new ≡ 0 }
    ensures none { result ≡ 5 → place.old.value ≡ Empty }
    ensures known { IsOneOf (0 ∷ 1 ∷ 5 ∷ 6 ∷ []) result }
{
    *written = 0;
    match place.slot() {
        Slot::Empty => NO_ENGINE,
        Slot::Full(engine) => engine.answer_line(alloc, line, text, written),
    }
}

/// Gives the decision on the request that the parts denote, or the number by which they are refused. Where the buffer has length, it
/// gets the text of the response or of the refusal, without LF.
#[unsafe(no_mangle)]
pub extern "C" fn cedar_raw_decide(
    alloc: Global,
    place: &mut Handle,
    principal_type: &[u8],
    principal_id: &[u8],
    action_type: &[u8],
    action_id: &[u8],
    resource_type: &[u8],
    resource_id: &[u8],
    context: &[u8],
    decision: &mut Decided,
    text: &mut [u8],
    written: &mut usize,
) -> u32
    ensures same { place.new.value ≡ place.old.value }
    ensures ok { result ≡ 0 → LeadsTo (λ r. (answer : List ℕ) × IsDecided r (parts principal_type.now principal_id.now action_type.now
        action_id.now resource_type.now resource_id.now context.now) decision.new.allow answer
        × (0 < length text.old → take written.new text.new ≡ answer)) place.old.value }
    ensures refused { result ≡ 7 → LeadsTo (λ r. ArePartsRefused r (parts principal_type.now principal_id.now action_type.now
        action_id.now resource_type.now resource_id.now context.now) decision.new.refused) place.old.value }
    ensures told { result ≡ 7 → 0 < length text.old → take written.new text.new ≡ compact_text (refused_data decision.new.refused) }
    ensures room { result ≡ 6 → LeadsTo (λ r. (answer : List ℕ) × AnswersParts r (parts principal_type.now principal_id.now action_type.now
        action_id.now resource_type.now resource_id.now context.now) answer × IsTooLong answer text.old written.new) place.old.value }
    ensures denied { result ≢ 0 → decision.new.allow ≡ 0 }
    ensures unrefused { result ≢ 7 → decision.new.refused ≡ 0 }
    ensures rest { (result ≡ 0) ⊎ (result ≡ 7) → drop written.new text.new ≡ drop written.new text.old }
    ensures fits { (result ≡ 0) ⊎ (result ≡ 7) → written.new ≤ length text.old }
    ensures untouched { result ≢ 0 → result ≢ 7 → text.new ≡ text.old }
    ensures unwritten { IsOneOf (1 ∷ 5 ∷ []) result → written.new ≡ 0 }
    ensures unwanted { length text.old ≡ 0 → written.new ≡ 0 }
    ensures none { result ≡ 5 → place.old.value ≡ Empty }
    ensures known { IsOneOf (0 ∷ 1 ∷ 5 ∷ 6 ∷ 7 ∷ []) result }
{
    *written = 0;
    *decision = Decided::none();
    let bytes = RequestBytes {
        principal: UidBytes {
            ty: principal_type,
            id: principal_id,
        },
        action: UidBytes {
            ty: action_type,
            id: action_id,
        },
        resource: UidBytes {
            ty: resource_type,
            id: resource_id,
        },
        context,
    };
    match place.slot() {
        Slot::Empty => NO_ENGINE,
        Slot::Full(engine) => engine.decide(alloc, &bytes, decision, text, written),
    }
}

/// Gives the number of this interface.
#[unsafe(no_mangle)]
pub extern "C" fn cedar_raw_abi_version() -> u32
    ensures { result ≡ 1 }
{
    ABI
}

/// Gives the version of the engine.
#[unsafe(no_mangle)]
pub extern "C" fn cedar_raw_version(text: &mut [u8], written: &mut usize) -> u32
    ensures given { IsGiven (codes "0.1.0") text.old text.new written.new }
    ensures ok { result ≡ 0 → written.new ≤ length text.old }
    ensures room { result ≡ 6 → length text.old < written.new }
    ensures known { IsOneOf (0 ∷ 6 ∷ []) result }
{
    give(VERSION.as_bytes(), text, written)
}
