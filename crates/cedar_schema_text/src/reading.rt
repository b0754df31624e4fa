//! The JSON of a schema text.
ghost use Rattle.std.specs.Prelude.{◌≡◌, IfOk, IfErr};
ghost use Rattle.serde_json.specs.Data.{Data};
ghost use Rattle.serde_json.specs.View.{view};
ghost use Rattle.cedar_schema_text.specs.SchemaText.{IsSchemaText, HasJson, HasFault};

use crate::cursor::Cursor;
use crate::declaration::read_schema;
use crate::fault::SchemaTextFault;
use crate::tokens::tokens;
use cedar_text::one_spelling;
use serde_json::Value;
use std::alloc::Global;

/// The JSON that a text in the Cedar schema syntax denotes, in the form that a schema's JSON has (Cedar documentation, schema
/// grammar, JSON schema format). Whether it is that of a schema is another matter: types need not be declared. The time is linear
/// in the text, but for a declaration of several names, of which each gets a copy. A type has at most 100 levels.
///
/// # Errors
///
/// - [`SchemaTextFault::Syntax`]: 310 where the grammar does not allow what is there.
/// - [`SchemaTextFault::Twice`]: 311 where a name, a key or a namespace is declared for the second time.
/// - [`SchemaTextFault::OutOfMemory`]: 1.
pub fn read_schema_text(alloc: Global, text: &str) -> Result<Value, SchemaTextFault>
    // The result is the JSON that the text denotes.
    ensures found { IfOk result (λ v. IsSchemaText text.now (view v)) }
    // If the text denotes a JSON, it is the result, unless memory runs out.
    ensures only { (d : Data) → IsSchemaText text.now d → HasJson d result }
    // Each fault is reported only where the text has it.
    ensures fault { IfErr result (HasFault text.now) }
{
    // A string has one list of letters.
    one_spelling();
    let tokens = tokens(alloc, text)?;
    read_schema(alloc, &mut Cursor::new(&tokens))
}
