//! Reads what is published, and says why nothing is.
ghost use Rattle.std.specs.Prelude.{List, ℕ, ◌≡◌, ◌≢◌, [], ◌∷◌, Some, IfErr, IfOk};
ghost use Rattle.cedar_files.specs.Authorization.{HoldAll};
ghost use Rattle.cedar_files.specs.ChangesText.{HoldNoChanges};
ghost use Rattle.cedar_files.specs.EntitiesFile.{HoldsNoWorld};
ghost use Rattle.cedar_files.specs.Faulty.{AreFaulty};
ghost use Rattle.cedar_files.specs.Standing.{IsRefusalLine};
ghost use Rattle.cedar_files.specs.Unprepared.{IsUnprepared};
ghost use Rattle.cedar_files.specs.Unread.{IfRefused};
ghost use Rattle.cedar_c.specs.Buffers.{IsGiven};
ghost use Rattle.cedar_c.specs.Publishing.{AreChangesRefused, AreRefusedOver, HaveFaults, IsChanged, IsOver, IsRefusalOf, IsRefusedFirst};
ghost use Rattle.cedar_c.specs.Statuses.{IsOneOf};
ghost use Rattle.cedar_c.specs.Texts.{held_by};

use crate::buffer::give;
use crate::engine::Engine;
use crate::refusal::Refusal;
use crate::status::{FAULTS, MEMORY, REFUSED};
use crate::texts::Texts;
use cedar_auth::{NotValidated, ValidationFault};
use cedar_check_spec::Settings;
use cedar_files::{
    FileRefusal, Role, Unprepared, Unread, read_all, read_changed, read_over, refusal_line,
    report_text,
};
use std::alloc::Global;

/// The engine of what the texts hold.
pub(crate) fn engine_of(
    alloc: Global,
    texts: &Texts<'_>,
    settings: Settings,
) -> Result<Engine, Unprepared>
    ensures held { IfOk result (λ engine. HoldAll settings (held_by texts.now) engine) }
    ensures unprepared { IfErr result (IsUnprepared settings (held_by texts.now)) }
{
    let ready = read_all(alloc, texts, settings)?;
    match Engine::new(alloc, ready) {
        Ok(engine) => Ok(engine),
        Err(_) => Err(Unprepared::Memory),
    }
}

// Gives the line that refuses a file.
fn give_refusal(
    alloc: Global,
    role: Role,
    why: FileRefusal,
    refusal: &mut Refusal,
    text: &mut [u8],
    written: &mut usize,
) -> u32
    ensures refused { result ≡ 2 → (line : List ℕ) × IsRefusalOf role why refusal.new × IsRefusalLine role why line
        × IsGiven line text.old text.new written.new }
    ensures others { result ≢ 2 → (refusal.new ≡ refusal.old) × (text.new ≡ text.old) × (written.new ≡ written.old) }
    ensures known { IsOneOf (1 ∷ 2 ∷ []) result }
{
    match refusal_line(alloc, role, why) {
        Ok(line) => {
            *refusal = Refusal::of(role, why);
            let _room = give(&line, text, written);
            REFUSED
        }
        Err(_) => MEMORY,
    }
}

// Gives the line that refuses the entities.
fn give_entities_refusal(
    alloc: Global,
    why: FileRefusal,
    refusal: &mut Refusal,
    text: &mut [u8],
    written: &mut usize,
) -> u32
    ensures refused { result ≡ 2 → (line : List ℕ) × IsRefusalOf Role.Entities why refusal.new × IsRefusalLine Role.Entities why line
        × IsGiven line text.old text.new written.new }
    ensures others { result ≢ 2 → (refusal.new ≡ refusal.old) × (text.new ≡ text.old) × (written.new ≡ written.old) }
    ensures known { IsOneOf (1 ∷ 2 ∷ []) result }
{
    give_refusal(alloc, Role::Entities, why, refusal, text, written)
}

// Gives the report on policies that have faults.
fn give_report(
    alloc: Global,
    texts: &Texts<'_>,
    settings: Settings,
    refused: &NotValidated,
    text: &mut [u8],
    written: &mut usize,
) -> u32
    requires { AreFaulty settings (held_by texts.now) refused.now }
    ensures faults { result ≡ 3 → (report : List ℕ) × HaveFaults settings (held_by texts.now) report
        × IsGiven report text.old text.new written.new }
    ensures others { result ≢ 3 → (text.new ≡ text.old) × (written.new ≡ written.old) }
    ensures known { IsOneOf (1 ∷ 3 ∷ []) result }
{
    let ValidationFault::Faults(report) = &refused.fault else {
        unreachable!()
    };
    match report_text(alloc, &refused.policies, report) {
        Ok(told) => {
            let _room = give(&told, text, written);
            FAULTS
        }
        Err(_) => MEMORY,
    }
}

/// Says why the texts make no engine: which file is refused, or which faults the policies have.
pub(crate) fn say_why(
    alloc: Global,
    texts: &Texts<'_>,
    settings: Settings,
    why: &Unprepared,
    refusal: &mut Refusal,
    text: &mut [u8],
    written: &mut usize,
) -> u32
    requires { IsUnprepared settings (held_by texts.now) why.now }
    ensures refused { result ≡ 2 → (line : List ℕ) × IsRefusedFirst settings (held_by texts.now) refusal.new line
        × IsGiven line text.old text.new written.new }
    ensures faults { result ≡ 3 → (report : List ℕ) × HaveFaults settings (held_by texts.now) report
        × IsGiven report text.old text.new written.new }
    ensures unrefused { result ≢ 2 → refusal.new ≡ refusal.old }
    ensures untouched { result ≢ 2 → result ≢ 3 → (text.new ≡ text.old) × (written.new ≡ written.old) }
    ensures known { IsOneOf (1 ∷ 2 ∷ 3 ∷ []) result }
{
    match why {
        Unprepared::Refused(role, why) => give_refusal(alloc, *role, *why, refusal, text, written),
        Unprepared::Faults(refused) => give_report(alloc, texts, settings, refused, text, written),
        Unprepared::Memory => MEMORY,
        // Each text but the links is a file, and memory has no device.
        Unprepared::Unnamed | Unprepared::Device => unreachable!(),
    }
}

impl Engine {
    /// An engine of the same policies over the entities of these bytes.
    pub(crate) fn over(&self, alloc: Global, entities: &[u8]) -> Result<Engine, Unread>
        ensures ok { IfOk result (IsOver entities.now self.now) }
        ensures refused { IfErr result (λ unread. IfRefused unread (λ why. HoldsNoWorld self.now.schema (Some entities.now) why)) }
        ensures others { IfErr result (λ unread. (unread ≢ Unread.Unnamed) × (unread ≢ Unread.Device)) }
    {
        let ready = read_over(alloc, &self.ready, entities)?;
        // The world conforms to the schema, and each request that a line denotes is answered soundly.
        ready.premises();
        ready.lines_are_answered_soundly();
        match Engine::new(alloc, ready) {
            Ok(engine) => Ok(engine),
            Err(_) => Err(Unread::Memory),
        }
    }

    /// Says why the bytes are not entities for the schema.
    pub(crate) fn refuse_entities(
        &self,
        alloc: Global,
        entities: &[u8],
        why: Unread,
        refusal: &mut Refusal,
        text: &mut [u8],
        written: &mut usize,
    ) -> u32
        requires refused { IfRefused why (λ why. HoldsNoWorld self.now.schema (Some entities.now) why) }
        requires others { (why ≢ Unread.Unnamed) × (why ≢ Unread.Device) }
        ensures refused { result ≡ 2 → (line : List ℕ) × AreRefusedOver entities.now self.now refusal.new line
            × IsGiven line text.old text.new written.new }
        ensures unrefused { result ≢ 2 → refusal.new ≡ refusal.old }
        ensures untouched { result ≢ 2 → (text.new ≡ text.old) × (written.new ≡ written.old) }
        ensures known { IsOneOf (1 ∷ 2 ∷ []) result }
    {
        match why {
            Unread::Refused(why) => give_entities_refusal(alloc, why, refusal, text, written),
            Unread::Memory => MEMORY,
            Unread::Unnamed | Unread::Device => unreachable!(),
        }
    }

    /// An engine of the same policies over the entities after the changes of these bytes.
    pub(crate) fn changed(&self, alloc: Global, changes: &[u8]) -> Result<Engine, Unread>
        ensures ok { IfOk result (IsChanged changes.now self.now) }
        ensures refused { IfErr result (λ unread. IfRefused unread (λ why. HoldNoChanges self.now.schema changes.now self.now.world why)) }
        ensures others { IfErr result (λ unread. (unread ≢ Unread.Unnamed) × (unread ≢ Unread.Device)) }
    {
        let ready = read_changed(alloc, &self.ready, changes)?;
        // The world conforms to the schema, and each request that a line denotes is answered soundly.
        ready.premises();
        ready.lines_are_answered_soundly();
        match Engine::new(alloc, ready) {
            Ok(engine) => Ok(engine),
            Err(_) => Err(Unread::Memory),
        }
    }

    /// Says why the bytes are not changes for the schema and the entities. The file of the refusal is that of the entities.
    pub(crate) fn refuse_changes(
        &self,
        alloc: Global,
        changes: &[u8],
        why: Unread,
        refusal: &mut Refusal,
        text: &mut [u8],
        written: &mut usize,
    ) -> u32
        requires refused { IfRefused why (λ why. HoldNoChanges self.now.schema changes.now self.now.world why) }
        requires others { (why ≢ Unread.Unnamed) × (why ≢ Unread.Device) }
        ensures refused { result ≡ 2 → (line : List ℕ) × AreChangesRefused changes.now self.now refusal.new line
            × IsGiven line text.old text.new written.new }
        ensures unrefused { result ≢ 2 → refusal.new ≡ refusal.old }
        ensures untouched { result ≢ 2 → (text.new ≡ text.old) × (written.new ≡ written.old) }
        ensures known { IsOneOf (1 ∷ 2 ∷ []) result }
    {
        match why {
            Unread::Refused(why) => give_entities_refusal(alloc, why, refusal, text, written),
            Unread::Memory => MEMORY,
            Unread::Unnamed | Unread::Device => unreachable!(),
        }
    }
}
