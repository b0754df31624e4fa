//! Reads the schema, the policies and the entities from their files.
ghost use Rattle.std.specs.Prelude.{◌≡◌, ◌≢◌, None, Some, IfOk, IfErr, IfSome, IsErrOf};
ghost use Rattle.cedar_conform_values.specs.Numbers.{number_of};
ghost use Rattle.cedar_conform_values.specs.declared.conform_fault.ConformFault.TheVariants.{OutOfMemory};
ghost use Rattle.cedar_files.specs.ChangesText.{HoldChanges, HoldNoChanges};
ghost use Rattle.cedar_files.specs.EntitiesFile.{HoldsNoWorld, HoldsWorld};
ghost use Rattle.cedar_files.specs.PolicyFile.{HoldsNoPolicies, HoldsPolicies};
ghost use Rattle.cedar_files.specs.SchemaFile.{HoldsNoSchema, HoldsSchema};
ghost use Rattle.cedar_files.specs.Unread.{IfRefused};

use crate::files::{FileFault, Files, Role};
use crate::reading_policies::policies_of;
use crate::reading_schema::schema_of;
use crate::refusal::FileRefusal;
use cedar_ast::PolicySet;
use cedar_auth::{NotReady, Ready, Validated};
use cedar_conform_values::ConformFault;
use cedar_ext::Language;
use cedar_schema::Schema;
use std::alloc::Global;
use thiserror::Error;

/// 1: out of memory.
pub(crate) const OUT_OF_MEMORY: u16 = 1;

/// Why the program cannot go on after reading a file.
#[derive(Clone, Copy, Debug, PartialEq, Eq, Error)]
pub enum Unread {
    /// It is refused.
    #[error("the file is refused")]
    Refused(FileRefusal),
    /// The command line names none.
    #[error("no file is named")]
    Unnamed,
    /// It can't be read.
    #[error("the file cannot be read")]
    Device,
    /// Memory ran out.
    #[error("out of memory")]
    Memory,
}

// The bytes of a file.
pub(crate) fn read_file<F: Files>(alloc: Global, files: &F, role: Role) -> Result<Vec<u8>, Unread>
    ensures held { IfOk result (λ bytes. IfSome (F.holds files.now role) (λ held. held ≡ Some bytes.items)) }
    ensures refused { IfErr result (λ unread. IfRefused unread (λ _. ⊥)) }
    ensures unnamed { IsErrOf result Unread.Unnamed → IfSome (F.holds files.now role) (λ held. held ≡ None) }
    ensures device { IsErrOf result Unread.Device → F.holds files.now role ≡ None }
{
    match files.read(alloc, role) {
        Ok(Some(bytes)) => Ok(bytes),
        Ok(None) => Err(Unread::Unnamed),
        Err(FileFault::Device) => Err(Unread::Device),
        Err(FileFault::Memory) => Err(Unread::Memory),
    }
}

/// The schema of the schema file, in a language: JSON, or with the language of Cedar 4 also a text in the Cedar schema syntax.
///
/// # Errors
///
/// `Refused` where the file's bytes write no schema: 301 to 309, with no place; or 310 or 311, with its place, for a text.
/// Otherwise `Unnamed`, `Device` or `Memory`.
pub fn read_schema<F: Files>(alloc: Global, files: &F, language: Language) -> Result<Schema, Unread>
    ensures found { IfOk result (λ s. IfSome (F.holds files.now Role.Schema) (λ held. HoldsSchema language held s)) }
    ensures refused { IfErr result (λ unread. IfRefused unread (λ refusal.
        IfSome (F.holds files.now Role.Schema) (λ held. HoldsNoSchema language held refusal))) }
    ensures unnamed { IsErrOf result Unread.Unnamed → IfSome (F.holds files.now Role.Schema) (λ held. held ≡ None) }
    ensures device { IsErrOf result Unread.Device → F.holds files.now Role.Schema ≡ None }
{
    match read_file(alloc, files, Role::Schema) {
        Ok(bytes) => schema_of(alloc, language, &bytes),
        Err(unread) => Err(unread),
    }
}

/// The policies of the policy file, in a language: a policy text, or with the language of Cedar 4 also JSON, which begins with `{`.
///
/// # Errors
///
/// `Refused` where the file is a text that is not UTF-8 (105, with no place) or has a fault (101 to 104 and 201 to 209, with
/// its place), or where it is JSON that has a fault (104, 202 to 214, with no place). Otherwise `Unnamed`, `Device` or `Memory`.
pub fn read_policies<F: Files>(
    alloc: Global,
    files: &F,
    language: Language,
) -> Result<PolicySet, Unread>
    ensures found { IfOk result (λ set. IfSome (F.holds files.now Role.Policies) (λ held. HoldsPolicies language held set)) }
    ensures refused { IfErr result (λ unread. IfRefused unread (λ refusal.
        IfSome (F.holds files.now Role.Policies) (λ held. HoldsNoPolicies language held refusal))) }
    ensures unnamed { IsErrOf result Unread.Unnamed → IfSome (F.holds files.now Role.Policies) (λ held. held ≡ None) }
    ensures device { IsErrOf result Unread.Device → F.holds files.now Role.Policies ≡ None }
{
    match read_file(alloc, files, Role::Policies) {
        Ok(bytes) => policies_of(alloc, language, &bytes),
        Err(unread) => Err(unread),
    }
}

// Why entities or links are refused.
pub(crate) fn refusal_of(fault: &ConformFault) -> Unread
    ensures refused { IfRefused result (λ refusal. (fault.now ≢ OutOfMemory) × (refusal ≡ record { number = number_of fault.now; offset = None })) }
    ensures others { (result ≢ Unread.Unnamed) × (result ≢ Unread.Device) }
{
    match fault.number() {
        OUT_OF_MEMORY => Unread::Memory,
        number => Unread::Refused(FileRefusal::whole(number)),
    }
}

/// The policies, ready to answer over the entities of the entities file.
///
/// # Errors
///
/// `Refused` where the file's bytes denote no entities for the schema: 401, 402, 501 to 509, with no place. Otherwise
/// `Unnamed`, `Device` or `Memory`.
pub fn read_ready<F: Files>(alloc: Global, files: &F, validated: Validated) -> Result<Ready, Unread>
    ensures holds { IfOk result (λ ready. (ready.schema ≡ validated.schema) × (ready.policies ≡ validated.policies)) }
    ensures settings { IfOk result (λ ready. ready.settings ≡ validated.settings) }
    ensures found { IfOk result (λ ready. IfSome (F.holds files.now Role.Entities) (λ held. HoldsWorld validated.schema held ready.world)) }
    ensures refused { IfErr result (λ unread. IfRefused unread (λ refusal.
        IfSome (F.holds files.now Role.Entities) (λ held. HoldsNoWorld validated.schema held refusal))) }
    ensures unnamed { IsErrOf result Unread.Unnamed → IfSome (F.holds files.now Role.Entities) (λ held. held ≡ None) }
    ensures device { IsErrOf result Unread.Device → F.holds files.now Role.Entities ≡ None }
{
    let bytes = read_file(alloc, files, Role::Entities)?;
    match Ready::new_owned(alloc, validated, bytes) {
        Ok(ready) => Ok(ready),
        Err(NotReady { fault, .. }) => Err(refusal_of(&fault)),
    }
}

/// The policies that are ready, over the entities of these bytes instead. The policies are shared, and what is ready stays as it is.
///
/// # Errors
///
/// `Refused` where the bytes denote no entities for the schema: 401, 402, 501 to 509, with no place. Otherwise `Memory`.
pub fn read_over(alloc: Global, ready: &Ready, entities: &[u8]) -> Result<Ready, Unread>
    ensures holds { IfOk result (λ new. (new.schema ≡ ready.now.schema) × (new.policies ≡ ready.now.policies)) }
    ensures settings { IfOk result (λ new. new.settings ≡ ready.now.settings) }
    ensures found { IfOk result (λ new. HoldsWorld ready.now.schema (Some entities.now) new.world) }
    ensures refused { IfErr result (λ unread. IfRefused unread (λ refusal. HoldsNoWorld ready.now.schema (Some entities.now) refusal)) }
    ensures others { IfErr result (λ unread. (unread ≢ Unread.Unnamed) × (unread ≢ Unread.Device)) }
{
    match ready.with_entities(alloc, entities) {
        Ok(new) => Ok(new),
        Err(fault) => Err(refusal_of(&fault)),
    }
}

/// The policies that are ready, over the entities after the changes that these bytes write, `{"upsert":[entry, ..],"remove":[uid, ..]}`.
/// The policies are shared, and what is ready stays as it is.
///
/// # Errors
///
/// `Refused` where the bytes denote no changes for the schema and the entities: 401, 402, 501 to 509, with no place. Otherwise `Memory`.
pub fn read_changed(alloc: Global, ready: &Ready, changes: &[u8]) -> Result<Ready, Unread>
    ensures holds { IfOk result (λ new. (new.schema ≡ ready.now.schema) × (new.policies ≡ ready.now.policies)) }
    ensures settings { IfOk result (λ new. new.settings ≡ ready.now.settings) }
    ensures found { IfOk result (λ new. HoldChanges ready.now.schema changes.now ready.now.world new.world) }
    ensures refused { IfErr result (λ unread. IfRefused unread (λ refusal.
        HoldNoChanges ready.now.schema changes.now ready.now.world refusal)) }
    ensures others { IfErr result (λ unread. (unread ≢ Unread.Unnamed) × (unread ≢ Unread.Device)) }
{
    match ready.with_changes(alloc, changes) {
        Ok(new) => Ok(new),
        Err(refused) => Err(refusal_of(&refused)),
    }
}
