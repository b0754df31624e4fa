//! What is said of a request line.
ghost use Rattle.cedar_schema_spec.specs.Conformance.{Fits};

use crate::entries::entries_of;
use crate::json_text::json_of;
use crate::layout::text_of;
use crate::options::WhyOptions;
use base_places::Draft;
use cedar_auth::{Ready, Response};
use cedar_conform_diagnostics::{DataFault, refused_request};
use cedar_parser_places::StatementPlaces;
use cedar_schema::Schema;
use cedar_value::Request;
use std::alloc::{AllocError, Global};

/// What is said of one request line: text of whole lines, each ended by `\n`. `text` is the policy text that the policies were read
/// from, `line` the request line without its end, and `number` its number, from 1.
///
/// As text it is the decision and what it is due to, the entities of the request, and a line for each policy that matters. As JSON it
/// is one object. Of a line that is not a request the number of its refusal is said, and as text what is wrong with it.
///
/// # Errors
///
/// Fails only when out of memory.
pub fn why_line(
    alloc: Global,
    ready: &Ready,
    text: &str,
    line: &[u8],
    number: usize,
    options: WhyOptions,
) -> Result<String, AllocError> {
    let places = StatementPlaces::of(alloc, text)?;
    let says = line_with_places(alloc, ready, &places, line, number, options);
    drop(places);
    says
}

/// What [`why_line`] says of one request line, where the places of the policy text are found already.
pub(crate) fn line_with_places(
    alloc: Global,
    ready: &Ready,
    places: &StatementPlaces<'_>,
    line: &[u8],
    number: usize,
    options: WhyOptions,
) -> Result<String, AllocError> {
    match ready.read(alloc, line) {
        Ok(request) => {
            let says = of_request(alloc, ready, places, &request, number, options);
            drop(request);
            says
        }
        Err(fault) => {
            let refusal = fault.number();
            drop(fault);
            if refusal == 1 {
                return Err(AllocError);
            }
            if options.json {
                format!(in alloc; "{{\"line\":{number},\"refused\":{refusal}}}\n")
            } else {
                of_refusal(alloc, ready.validated().schema(), line, number, refusal)
            }
        }
    }
}

// What is said of a line that is refused with a number: on lines of their own, which part is wrong, and what to do about it.
fn of_refusal(
    alloc: Global,
    schema: &Schema,
    line: &[u8],
    number: usize,
    refusal: u16,
) -> Result<String, AllocError> {
    let fault = refused_request(alloc, schema, line)?;
    let mut says = Draft::new(alloc);
    says.add("line ");
    says.add_display(number);
    says.add(": refused ");
    says.add_display(refusal);
    says.add_char('\n');
    if let Some(fault) = &fault {
        add_fault(&mut says, fault);
    }
    says.done()
}

// Adds which part of a line is wrong, and what to do about it.
fn add_fault(says: &mut Draft, fault: &DataFault) {
    says.add("  ");
    if !fault.path.is_empty() {
        says.add_shown(fault.path.as_str());
        says.add(": ");
    }
    says.add_shown(fault.says.as_str());
    says.add_char('\n');
    if let Some(hint) = &fault.hint {
        says.add("  hint: ");
        says.add_shown(hint.as_str());
        says.add_char('\n');
    }
}

// What is said of a request.
fn of_request(
    alloc: Global,
    ready: &Ready,
    places: &StatementPlaces<'_>,
    request: &Request,
    number: usize,
    options: WhyOptions,
) -> Result<String, AllocError>
    requires { Fits ready.now.schema request.now }
{
    match ready.answer(alloc, request) {
        Ok(response) => {
            let says = of_response(alloc, ready, places, request, &response, number, options);
            drop(response);
            says
        }
        Err(error) => Err(error),
    }
}

// What is said of a request with this response.
fn of_response(
    alloc: Global,
    ready: &Ready,
    places: &StatementPlaces<'_>,
    request: &Request,
    response: &Response<'_>,
    number: usize,
    options: WhyOptions,
) -> Result<String, AllocError>
    requires { Fits ready.now.schema request.now }
{
    let all = options.all;
    let decision = response.decision;
    let entries = entries_of(alloc, ready, request, places, decision, all)?;
    let says = if options.json {
        json_of(alloc, ready, request, response, &entries, number)
    } else {
        text_of(alloc, ready, request, response, &entries, number, all)
    };
    drop(entries);
    says
}
