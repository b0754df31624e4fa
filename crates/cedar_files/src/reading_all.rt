//! Reads all files until policies are ready to answer, and writes nothing.
ghost use Rattle.std.specs.Prelude.{◌≡◌, IfErr, IfOk};
ghost use Rattle.cedar_auth_spec.specs.Validation.{IsValidatedWith};
ghost use Rattle.cedar_files.specs.Authorization.{HoldAll};
ghost use Rattle.cedar_files.specs.Unprepared.{IsUnprepared};
ghost use Rattle.cedar_files.specs.Validation.{Hold, HoldText};
ghost use Rattle.cedar_files.specs.Private.Unusable.{unaccepted_of};

use crate::files::{Files, Role};
use crate::linking::enter_links;
use crate::reading::{read_policies, read_ready, read_schema};
use crate::refusal::FileRefusal;
use crate::unprepared::{Unprepared, unusable};
use cedar_ast::PolicySet;
use cedar_auth::{NotValidated, Ready, Validated, ValidationFault};
use cedar_check_spec::Settings;
use cedar_schema::Schema;
use std::alloc::Global;

/// 701: the code of a policy is too long.
pub(crate) const TOO_LONG: u16 = 701;

// Why policies that strict validation does not accept are not ready.
fn not_accepted(refused: NotValidated) -> Unprepared
    ensures { result ≡ unaccepted_of refused }
{
    match &refused.fault {
        ValidationFault::OutOfMemory => Unprepared::Memory,
        ValidationFault::Faults(_) => Unprepared::Faults(refused),
        ValidationFault::TooLong => {
            Unprepared::Refused(Role::Policies, FileRefusal::whole(TOO_LONG))
        }
    }
}

// Reads the entities.
fn with_validated<F: Files>(
    alloc: Global,
    files: &F,
    validated: Validated,
) -> Result<Ready, Unprepared>
    requires held { Hold validated.settings.language (F.holds files.now) validated.schema validated.policies }
    requires accepted { IsValidatedWith validated.settings validated.schema validated.policies.policies }
    ensures held { IfOk result (λ ready. HoldAll validated.settings (F.holds files.now) ready) }
    ensures unprepared { IfErr result (IsUnprepared validated.settings (F.holds files.now)) }
{
    let ready = match read_ready(alloc, files, validated) {
        Ok(ready) => ready,
        Err(unread) => return Err(unusable(Role::Entities, unread)),
    };
    // The premises of the theorem hold of what was read, and each request that a line denotes is answered soundly.
    ready.premises();
    ready.lines_are_answered_soundly();
    Ok(ready)
}

// Validates the policies against the schema under these settings, and reads the entities.
fn with_policies<F: Files>(
    alloc: Global,
    files: &F,
    schema: Schema,
    policies: PolicySet,
    settings: Settings,
) -> Result<Ready, Unprepared>
    requires held { Hold settings.language (F.holds files.now) schema policies }
    ensures held { IfOk result (λ ready. HoldAll settings (F.holds files.now) ready) }
    ensures unprepared { IfErr result (IsUnprepared settings (F.holds files.now)) }
{
    match Validated::new_with(alloc, schema, policies, settings) {
        Ok(validated) => with_validated(alloc, files, validated),
        Err(refused) => Err(not_accepted(refused)),
    }
}

// Enters the links after the policies, validates all of them, and reads the entities.
fn with_text<F: Files>(
    alloc: Global,
    files: &F,
    schema: Schema,
    mut policies: PolicySet,
    settings: Settings,
) -> Result<Ready, Unprepared>
    requires held { HoldText settings.language (F.holds files.now) schema policies }
    ensures held { IfOk result (λ ready. HoldAll settings (F.holds files.now) ready) }
    ensures unprepared { IfErr result (IsUnprepared settings (F.holds files.now)) }
{
    match enter_links(alloc, files, &mut policies) {
        Ok(()) => with_policies(alloc, files, schema, policies, settings),
        Err(unread) => Err(unusable(Role::Links, unread)),
    }
}

/// Reads the schema, the policies, the links and the entities, in this order, and validates the policies under these settings.
/// Writes nothing.
///
/// # Errors
///
/// `Refused` at the first file that is refused, also with 701 for a code that is too long, which is a refusal of the policy file.
/// `Faults` where strict validation finds faults in the policies: the entities are then not read. `Unnamed` where no schema, no
/// policies or no entities are named, `Device` where a file can't be read, and `Memory` when out of memory.
pub fn read_all<F: Files>(alloc: Global, files: &F, settings: Settings) -> Result<Ready, Unprepared>
    ensures held { IfOk result (λ ready. HoldAll settings (F.holds files.now) ready) }
    ensures unprepared { IfErr result (IsUnprepared settings (F.holds files.now)) }
{
    let schema = match read_schema(alloc, files, settings.language) {
        Ok(schema) => schema,
        Err(unread) => return Err(unusable(Role::Schema, unread)),
    };
    let policies = match read_policies(alloc, files, settings.language) {
        Ok(policies) => policies,
        Err(unread) => return Err(unusable(Role::Policies, unread)),
    };
    with_text(alloc, files, schema, policies, settings)
}
