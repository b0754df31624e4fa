//! What is said beside explanations: of files that cannot be read, and of request lines that were refused.
use crate::counting_sink::LineCounts;
use crate::format::Format;
use crate::json_lines::{add_line, add_shown};
use base_places::{Draft, JsonDraft};
use std::alloc::{AllocError, Global};

/// The number of a request line that is not JSON.
const NOT_JSON: usize = 501;

/// What is said where the files that were refused are accepted, or cannot be read, the second time.
const NOT_AGAIN: &str = "this is not explained, since a file is a pipe or has changed";

/// What to do where the first line that is refused is not JSON.
const ONE_LINE: &str =
    "each request is one line: `jq -c .` writes a request of several lines on one";

// A message as a JSON object of a line.
fn json_line(alloc: Global, severity: &str, reason: &str) -> Result<String, AllocError> {
    let mut json = JsonDraft::new(alloc);
    json.begin_object();
    add_shown(alloc, &mut json, "reason", reason);
    add_shown(alloc, &mut json, "severity", severity);
    json.end_object();
    let mut line = Draft::new(alloc);
    add_line(&mut line, json);
    line.done()
}

// A message as a line in a form.
fn line_of(
    alloc: Global,
    format: Format,
    severity: &str,
    reason: &str,
) -> Result<String, AllocError> {
    match format {
        Format::Human => format!(in alloc; "cedar: {reason}\n"),
        Format::Json => json_line(alloc, severity, reason),
    }
}

/// Says that a refusal is not explained, since the files cannot be read again.
pub fn not_again(alloc: Global, format: Format) -> Result<String, AllocError> {
    line_of(alloc, format, "note", NOT_AGAIN)
}

/// Says which file cannot be read: the option that names it, its name, and what the system says.
pub fn unreadable(
    alloc: Global,
    format: Format,
    option: &str,
    file: &str,
    reason: &str,
) -> Result<String, AllocError> {
    let mut line = Draft::new(alloc);
    match format {
        Format::Human => {
            line.add_all(&["  ", option, " "]);
            line.add_shown(file);
            line.add_all(&[": ", reason, "\n"]);
        }
        Format::Json => {
            let mut json = JsonDraft::new(alloc);
            json.begin_object();
            add_shown(alloc, &mut json, "file", file);
            add_shown(alloc, &mut json, "option", option);
            add_shown(alloc, &mut json, "reason", reason);
            add_shown(alloc, &mut json, "severity", "error");
            json.end_object();
            add_line(&mut line, json);
        }
    }
    line.done()
}

/// Says how many policies no request can satisfy; nothing if there is none.
pub fn impossible_policies(
    alloc: Global,
    format: Format,
    count: usize,
) -> Result<String, AllocError> {
    if count == 0 {
        return Ok(String::new(alloc));
    }
    let mut says = Draft::new(alloc);
    says.add("no request can satisfy ");
    says.add_display(count);
    says.add(if count == 1 { " policy" } else { " policies" });
    says.add(" (650): `cedar validate` says which");
    let says = says.done()?;
    line_of(alloc, format, "warning", says.as_str())
}

/// Says how many templates were not validated, since they have no link; nothing if each has one.
pub fn unlinked_templates(
    alloc: Global,
    format: Format,
    count: usize,
) -> Result<String, AllocError> {
    if count == 0 {
        return Ok(String::new(alloc));
    }
    let mut says = Draft::new(alloc);
    says.add_display(count);
    says.add(if count == 1 {
        " template has no link, so it was not validated"
    } else {
        " templates have no link, so they were not validated"
    });
    let says = says.done()?;
    line_of(alloc, format, "note", says.as_str())
}

/// Says how many request lines were refused, and which was the first; nothing if none was.
pub fn refused_lines(
    alloc: Global,
    format: Format,
    counts: LineCounts,
) -> Result<String, AllocError> {
    let Some(first) = counts.first else {
        return Ok(String::new(alloc));
    };
    let refused = counts.refused;
    let lines = counts.lines;
    let line = first.line;
    let number = first.number;
    let reason = format!(in alloc;
        "{refused} of {lines} lines refused, the first is line {line} ({number})"
    )?;
    if format == Format::Json {
        return json_line(alloc, "note", reason.as_str());
    }
    let mut says = Draft::new(alloc);
    says.add_all(&["cedar: ", reason.as_str(), "\n  hint: "]);
    if number == NOT_JSON {
        says.add(ONE_LINE);
    } else {
        says.add("`cedar explain ");
        says.add_display(number);
        says.add("`, or `--explain-lines` for each line");
    }
    says.add_char('\n');
    says.done()
}
