//! The request line that the words of a command line write.
use cedar_cli::AskedRequest;
use serde_json::{Map, Value};
use std::alloc::{AllocError, Global};

// Sets a key of an object to a text, if there is one.
fn put(
    alloc: Global,
    object: &mut Map<String, Value>,
    key: &str,
    text: Option<&str>,
) -> Result<(), AllocError> {
    if let Some(text) = text {
        let value = Value::try_from_str(alloc, text)?;
        drop(object.insert(String::from_str(alloc, key)?, value)?);
    }
    Ok(())
}

/// The line: a JSON object of `principal`, `action`, `resource` and perhaps `context`, without a line feed (Cedar documentation,
/// entities and context in JSON).
pub fn request_line(
    alloc: Global,
    request: AskedRequest<'_>,
    context: Option<Value>,
) -> Result<String, AllocError> {
    let mut object = Map::new(alloc);
    put(alloc, &mut object, "principal", request.principal)?;
    put(alloc, &mut object, "action", request.action)?;
    put(alloc, &mut object, "resource", request.resource)?;
    if let Some(context) = context {
        drop(object.insert(String::from_str(alloc, "context")?, context)?);
    }
    Value::Object(object).to_string(alloc)
}
