//! Reads the files on which a report is made, and writes nothing.
ghost use Rattle.std.specs.Prelude.{◌≡◌, IfErr, IfOk};
ghost use Rattle.cedar_files.specs.Unprepared.{IsUnreported};
ghost use Rattle.cedar_files.specs.Validation.{Hold};

use crate::files::{Files, Role};
use crate::linking::enter_links;
use crate::reading::{read_policies, read_schema};
use crate::unprepared::{Unprepared, unusable};
use cedar_ast::PolicySet;
use cedar_ext::Language;
use cedar_schema::Schema;
use std::alloc::Global;

/// Reads the schema, the policies and the links in a language, in this order, and gives the schema and the policies, those that the links give
/// after the others. Writes nothing.
///
/// # Errors
///
/// `Refused` at the first file that is refused, `Unnamed` where no schema or no policies are named, `Device` where a file can't be
/// read, and `Memory` when out of memory. Never `Faults`, since nothing is validated.
pub fn read_linked<F: Files>(
    alloc: Global,
    files: &F,
    language: Language,
) -> Result<(Schema, PolicySet), Unprepared>
    ensures held { IfOk result (λ read. Hold language (F.holds files.now) read.0 read.1) }
    ensures unprepared { IfErr result (IsUnreported language (F.holds files.now)) }
{
    let schema = match read_schema(alloc, files, language) {
        Ok(schema) => schema,
        Err(unread) => return Err(unusable(Role::Schema, unread)),
    };
    let mut policies = match read_policies(alloc, files, language) {
        Ok(policies) => policies,
        Err(unread) => return Err(unusable(Role::Policies, unread)),
    };
    match enter_links(alloc, files, &mut policies) {
        Ok(()) => Ok((schema, policies)),
        Err(unread) => Err(unusable(Role::Links, unread)),
    }
}
