//! Reads schemas, which are JSON or in the Cedar schema syntax.
ghost use Rattle.std.specs.Prelude.{◌≡◌, ◌≢◌, false, true, IfOk, IfErr, MatchOption, None};
ghost use Rattle.cedar_files.specs.SchemaFile.{IsNoSchemaFile, IsNoSchemaJson, IsNoSchemaText, IsSchemaFile, TextDenotes, is_schema_text};
ghost use Rattle.cedar_files.specs.Unread.{IfRefused};
ghost use Rattle.cedar_ext.specs.declared.language.Language.TheVariants.{Cedar4};
ghost use Rattle.cedar_schema.specs.Denotes.{BytesDenote};
ghost use Rattle.cedar_schema_json.specs.Numbers.{number_of};
ghost use Rattle.cedar_schema_json.specs.declared.schema_fault.SchemaFault.TheVariants.{OutOfMemory};
ghost use Rattle.cedar_schema_text.specs.Faults.{number_of as text_fault_number, offset_of};

use crate::brace::begins_with_brace;
use crate::reading::{OUT_OF_MEMORY, Unread};
use crate::refusal::FileRefusal;
use base_json::read_json;
use cedar_ext::Language;
use cedar_schema::{Schema, SchemaFault};
use cedar_schema_text::{SchemaTextFault, read_schema_text};
use std::alloc::{AllocError, Global};

/// The schema that the bytes denote in a language: in the Cedar schema syntax where they are a text that is not JSON and the
/// language is that of Cedar 4, and else as JSON.
pub(crate) fn schema_of(alloc: Global, language: Language, bytes: &[u8]) -> Result<Schema, Unread>
    ensures found { IfOk result (IsSchemaFile language bytes.now) }
    ensures refused { IfErr result (λ unread. IfRefused unread (IsNoSchemaFile language bytes.now)) }
    ensures others { IfErr result (λ unread. (unread ≢ Unread.Unnamed) × (unread ≢ Unread.Device)) }
{
    match schema_text(alloc, language, bytes) {
        Ok(Some(text)) => schema_of_text(alloc, text),
        Ok(None) => schema_of_json(alloc, language, bytes),
        Err(AllocError) => Err(Unread::Memory),
    }
}

// The bytes as a text, if they are read in the Cedar schema syntax.
fn schema_text(alloc: Global, language: Language, bytes: &[u8]) -> Result<Option<&str>, AllocError>
    ensures { IfOk result (λ found. MatchOption found
        (is_schema_text language bytes.now ≡ false)
        (λ text. (is_schema_text language bytes.now ≡ true) × (text.now ≡ bytes.now))) }
{
    match language {
        Language::Profile => Ok(None),
        Language::Cedar4 => text_in_cedar4(alloc, bytes),
    }
}

fn text_in_cedar4(alloc: Global, bytes: &[u8]) -> Result<Option<&str>, AllocError>
    ensures { IfOk result (λ found. MatchOption found
        (is_schema_text Cedar4 bytes.now ≡ false)
        (λ text. (is_schema_text Cedar4 bytes.now ≡ true) × (text.now ≡ bytes.now))) }
{
    if begins_with_brace(bytes) {
        return Ok(None);
    }
    let Ok(text) = str::from_utf8(bytes) else {
        return Ok(None);
    };
    let json = read_json(alloc, bytes)?;
    let is_json = json.is_some();
    drop(json);
    if is_json { Ok(None) } else { Ok(Some(text)) }
}

fn schema_of_text(alloc: Global, text: &str) -> Result<Schema, Unread>
    ensures found { IfOk result (TextDenotes text.now) }
    ensures refused { IfErr result (λ unread. IfRefused unread (IsNoSchemaText text.now)) }
    ensures others { IfErr result (λ unread. (unread ≢ Unread.Unnamed) × (unread ≢ Unread.Device)) }
{
    let json = match read_schema_text(alloc, text) {
        Ok(json) => json,
        Err(fault) => return Err(refusal_of_text(fault)),
    };
    match Schema::of_json(alloc, Language::Cedar4, &json) {
        Ok(schema) => Ok(schema),
        Err(fault) => Err(refusal_of_json(fault)),
    }
}

fn schema_of_json(alloc: Global, language: Language, bytes: &[u8]) -> Result<Schema, Unread>
    ensures found { IfOk result (BytesDenote language bytes.now) }
    ensures refused { IfErr result (λ unread. IfRefused unread (IsNoSchemaJson language bytes.now)) }
    ensures others { IfErr result (λ unread. (unread ≢ Unread.Unnamed) × (unread ≢ Unread.Device)) }
{
    match Schema::read_in(alloc, language, bytes) {
        Ok(schema) => Ok(schema),
        Err(fault) => Err(refusal_of_json(fault)),
    }
}

// Why the grammar of schemas refuses a text.
fn refusal_of_text(fault: SchemaTextFault) -> Unread
    ensures refused { IfRefused result (λ refusal. (text_fault_number fault ≢ 1)
        × (refusal ≡ record { number = text_fault_number fault; offset = offset_of fault })) }
    ensures others { (result ≢ Unread.Unnamed) × (result ≢ Unread.Device) }
{
    let number = fault.number();
    if number == OUT_OF_MEMORY {
        return Unread::Memory;
    }
    let offset = fault.offset();
    Unread::Refused(FileRefusal { number, offset })
}

// Why the JSON of a schema is refused.
fn refusal_of_json(fault: SchemaFault) -> Unread
    ensures refused { IfRefused result (λ refusal. (fault ≢ OutOfMemory) × (refusal ≡ record { number = number_of fault; offset = None })) }
    ensures others { (result ≢ Unread.Unnamed) × (result ≢ Unread.Device) }
{
    match fault {
        SchemaFault::OutOfMemory => Unread::Memory,
        fault => Unread::Refused(FileRefusal::whole(fault.number())),
    }
}
