//! `ask`: one request, from the command line.
use crate::host_files::{HostFiles, NAME, STANDARD_INPUT, standard_input};
use crate::output::{Output, output_failed};
use crate::request_line::request_line;
use crate::running::{ended, say};
use cedar_ast::Decision;
use cedar_cli::{AskedRequest, Words, ask};
use cedar_files::{End, read_schema};
use cedar_files_diagnostics::{
    CountingSink, Explanation, Format, explain_json, explain_request, unreadable,
};
use cedar_schema::Schema;
use serde_json::Value;
use std::alloc::{AllocError, Global};
use std::{fs, io};

/// The exit status of a request that is denied.
const DENIED: u8 = 5;

/// The number of a request in which a uid is none.
const WRONG_FORM: u16 = 502;

/// How a uid is written on a command line.
const AT_A_SHELL: &str = "at a shell, single quotes go around a uid: 'User::\"ann\"'";

/// The number of a context, or a request, that is not JSON.
const NOT_JSON: u16 = 501;

/// The line for a context that is not JSON.
const CONTEXT_REFUSED: &str = "{\"file\":\"context\",\"refused\":501}";

/// The line for a request that is not JSON, as `authorize` answers such a line.
const REQUEST_REFUSED: &str = "{\"refused\":501}";

// Prints what was explained, if there was memory for it.
fn explain(rt: &HostRuntime, says: Result<String, AllocError>) {
    if let Ok(says) = says {
        // Where standard error is gone, the explanation is lost.
        let _ = rt.eprint(says.as_str());
    }
}

// What a file is called.
fn shown(name: &str) -> &str {
    if name == STANDARD_INPUT { NAME } else { name }
}

// Says that the file of an option cannot be read, and gives the exit status.
fn refuse_unreadable(
    rt: &HostRuntime,
    format: Option<Format>,
    option: &str,
    name: &str,
    error: &io::Error,
) -> u8 {
    let alloc = rt.alloc();
    say(rt, End::Device);
    if let Some(format) = format {
        if let Ok(reason) = error.to_string(alloc) {
            explain(rt, unreadable(alloc, format, option, name, reason.as_str()));
        }
    }
    End::Device.status()
}

// Says with a line that a file is not JSON, and gives the exit status.
fn refuse_json(
    rt: &HostRuntime,
    format: Option<Format>,
    line: &str,
    name: &str,
    bytes: Vec<u8>,
) -> u8 {
    let alloc = rt.alloc();
    if let Err(error) = rt.println(line) {
        return output_failed(rt, &error);
    }
    if let Some(format) = format {
        if let Ok(Some(explained)) = explain_json(alloc, name, NOT_JSON, bytes) {
            explain(rt, explained.to_text(alloc, format));
        }
    }
    End::Refused.status()
}

// What the file of an option holds; or the exit status where it cannot be read.
fn file_bytes(
    rt: &HostRuntime,
    format: Option<Format>,
    option: &str,
    name: &str,
) -> Result<Vec<u8>, u8> {
    if name == STANDARD_INPUT {
        return standard_input(rt).map_err(|end| {
            say(rt, end);
            end.status()
        });
    }
    match fs::read(rt, name) {
        Ok(bytes) => Ok(bytes),
        Err(error) => Err(refuse_unreadable(rt, format, option, name, &error)),
    }
}

// The JSON of the file of an option; or the exit status where it cannot be used, and for one that is not JSON this line.
fn file_json(
    rt: &HostRuntime,
    format: Option<Format>,
    option: &str,
    line: &str,
    name: &str,
) -> Result<Value, u8> {
    let bytes = file_bytes(rt, format, option, name)?;
    match Value::from_slice(rt.alloc(), &bytes) {
        Ok(value) => Ok(value),
        Err(error) if error.is_memory() => {
            say(rt, End::Memory);
            Err(End::Memory.status())
        }
        Err(_) => Err(refuse_json(rt, format, line, shown(name), bytes)),
    }
}

// The context of the request, if a file is named; or the exit status where it cannot be used.
fn read_context(
    rt: &HostRuntime,
    format: Option<Format>,
    name: Option<&str>,
) -> Result<Option<Value>, u8> {
    match name {
        Some(name) => file_json(rt, format, "--context", CONTEXT_REFUSED, name).map(Some),
        None => Ok(None),
    }
}

// The request as one line, from its file or else from the other options; or the exit status where it cannot be used.
fn read_line(
    rt: &HostRuntime,
    format: Option<Format>,
    request: AskedRequest<'_>,
) -> Result<String, u8> {
    let line = match request.request {
        Some(name) => {
            file_json(rt, format, "--request", REQUEST_REFUSED, name)?.to_string(rt.alloc())
        }
        None => {
            let context = read_context(rt, format, request.context)?;
            request_line(rt.alloc(), request, context)
        }
    };
    line.map_err(|_| {
        say(rt, End::Memory);
        End::Memory.status()
    })
}

// What is explained of the request. A uid comes from a shell here, and not from JSON, as in a line.
fn text_of_request(
    alloc: Global,
    schema: &Schema,
    format: Format,
    line: &[u8],
) -> Result<String, AllocError> {
    match explain_request(alloc, schema, line, "")? {
        Some(mut diagnostic) => {
            if diagnostic.number == WRONG_FORM {
                diagnostic.hint = Some(String::from_str(alloc, AT_A_SHELL)?);
            }
            Explanation::of_one(alloc, "the request", diagnostic)?.to_text(alloc, format)
        }
        None => Ok(String::new(alloc)),
    }
}

// Explains why the request is refused.
fn explain_refused(
    rt: &HostRuntime,
    files: &HostFiles<'_>,
    words: &Words<'_>,
    format: Format,
    line: &[u8],
) {
    let alloc = rt.alloc();
    if let Ok(schema) = read_schema(alloc, files, words.settings.language) {
        explain(rt, text_of_request(alloc, &schema, format, line));
        drop(schema);
    }
}

/// Answers the request of a command line: the exit status is 0 for allow and 5 for deny.
pub fn run_ask(
    rt: &HostRuntime,
    files: &HostFiles<'_>,
    words: &Words<'_>,
    format: Option<Format>,
) -> u8 {
    let alloc = rt.alloc();
    let line = match read_line(rt, format, words.request) {
        Ok(line) => line,
        Err(status) => return status,
    };
    let mut fault = None;
    let mut sink = CountingSink::new(Output::new(io::writer(rt), &mut fault));
    let answered = ask(alloc, files, line.as_bytes(), &mut sink, words.settings);
    let counts = sink.counts();
    drop(sink);
    if let Some(error) = &fault {
        return output_failed(rt, error);
    }
    match answered {
        Ok(Decision::Allow) => End::Done.status(),
        Ok(Decision::Deny) => DENIED,
        Err(end) if counts.refused > 0 => {
            if let Some(format) = format {
                explain_refused(rt, files, words, format, line.as_bytes());
            }
            end.status()
        }
        Err(end) => ended(rt, files, words, format, end, counts.refused_file),
    }
}
