//! Request lines that are refused.
ghost use Rattle.std.specs.Prelude.{◌≡◌, IfNone, IfOk, IfSome};
ghost use Rattle.cedar_conform.specs.Requests.{LineDenotes};
ghost use Rattle.cedar_conform_diagnostics.specs.Refused.{LineIsRefusedWith};
ghost use Rattle.cedar_conform_values.specs.Numbers.{number_of};
ghost use Rattle.cedar_value.specs.declared.request.Request.{Request as RequestTree};

use crate::data_fault::DataFault;
use crate::request_words::{line_words, request_words};
use crate::words::Words;
use base_json::read_json;
use cedar_conform::read_request;
use cedar_conform_values::ConformFault;
use cedar_schema::Schema;
use std::alloc::{AllocError, Global};

/// Why a request line is refused for a schema, or none where it is a request. The line is without the line feed that ends it.
///
/// # Errors
///
/// Fails only when out of memory.
pub fn refused_request(
    alloc: Global,
    schema: &Schema,
    line: &[u8],
) -> Result<Option<DataFault>, AllocError>
    ensures fault { IfOk result (λ o. IfSome o (λ found. LineIsRefusedWith schema.now line.now found.number)) }
    ensures none { IfOk result (λ o. IfNone o ((q : RequestTree) × LineDenotes schema.now line.now q)) }
{
    match read_request(alloc, schema, line) {
        Ok(request) => {
            drop(request);
            Ok(None)
        }
        Err(ConformFault::OutOfMemory) => Err(AllocError),
        Err(fault) => Ok(Some(explained(alloc, schema, line, fault)?)),
    }
}

// The words for a fault of a line.
fn explained(
    alloc: Global,
    schema: &Schema,
    line: &[u8],
    fault: ConformFault,
) -> Result<DataFault, AllocError>
    ensures { IfOk result (λ found. found.number ≡ number_of fault) }
{
    let number = fault.number();
    drop(fault);
    let mut words = Words::new(alloc);
    add_words(alloc, &mut words, schema, line, number)?;
    words.numbered(number)
}

fn add_words(
    alloc: Global,
    words: &mut Words,
    schema: &Schema,
    line: &[u8],
    number: u16,
) -> Result<(), AllocError> {
    match read_json(alloc, line)? {
        Some(json) => {
            let added = request_words(alloc, words, schema, &json, number);
            drop(json);
            added
        }
        None => line_words(alloc, words, line),
    }
}
