//! JSON values whose strings are lent.
ghost use Rattle.std.specs.Prelude.{◌≡◌, ◌<◌, length, None, Some, Err, IfOk, OnOk};
ghost use Rattle.json.specs.Json.{value};
ghost use Rattle.serde_json.specs.Read.{of_json, converted};
ghost use Rattle.base_json.specs.Members.{lent_view};
ghost use Rattle.base_json.specs.Private.Whole.{IsWhole};
ghost use Rattle.base_json.specs.declared.tree_fault.TreeFault.TheVariants.{Invalid};

use crate::lent_object::{LentObject, read_object};
use crate::quoted_text::QuotedText;
use crate::tree::tree_after;
use crate::tree_fault::TreeFault;
use json::{Reader, Token};
use serde_json::Value;
use std::alloc::Global;

/// A JSON value (RFC 8259, section 3). A string is lent by what was read, and takes no memory. The same string may come in either form.
/// So may the same object.
#[derive(Drop)]
pub enum LentValue<'t> {
    /// A string, without quotation marks and escapes.
    String(&'t str),
    /// A string in two parts, of which the second is in quotation marks.
    Quoted(QuotedText<'t>),
    /// An object, whose keys and strings are lent.
    Object(LentObject<'t>),
    /// Any other value.
    Tree(Value),
}

/// The next value, whose arrays and objects may nest `depth` deep.
#[inline(always)]
pub(crate) fn read_lent<'t>(
    alloc: Global,
    reader: &mut Reader<'t>,
    depth: usize,
) -> Result<LentValue<'t>, TreeFault>
    ensures ok { IfOk result (λ v. converted of_json (value depth reader.old) ≡ Some (lent_view v, reader.new)) }
    ensures whole { IfOk result IsWhole }
    ensures shorter { OnOk result (length reader.new < length reader.old) }
    ensures err { result ≡ Err Invalid → converted of_json (value depth reader.old) ≡ None }
{
    let Some(token) = reader.next() else {
        return Err(TreeFault::Invalid);
    };
    match token {
        Token::String(text) => Ok(LentValue::String(text)),
        Token::BeginObject => {
            if depth == 0 {
                return Err(TreeFault::Invalid);
            }
            match read_object(alloc, reader, depth - 1) {
                Ok(object) => Ok(LentValue::Object(object)),
                Err(fault) => Err(fault),
            }
        }
        other => match tree_after(alloc, reader, other, depth) {
            Ok(tree) => Ok(LentValue::Tree(tree)),
            Err(fault) => Err(fault),
        },
    }
}
