//! The forms in which the command line wants explanations and reports.
use cedar_cli::Words;
use cedar_files_diagnostics::Format;

/// The forms in which the program writes.
#[derive(Clone, Copy)]
pub struct Forms {
    /// That of explanations on standard error; none where none are wanted.
    pub explanations: Option<Format>,
    /// That of a report on standard output.
    pub report: Format,
}

/// A value that its option does not take.
#[derive(Clone, Copy)]
pub struct WrongValue<'a> {
    /// The value.
    pub value: &'a str,
    /// The option, as the help writes it.
    pub option: &'static str,
    /// The values that it takes.
    pub values: &'static str,
}

// The form of explanations.
fn explanations_of<'a>(words: &Words<'a>) -> Result<Option<Format>, WrongValue<'a>> {
    match words.diagnostics {
        Some("human") | None if words.quiet => Ok(None),
        Some("human") | None => Ok(Some(Format::Human)),
        Some("json") => Ok(if words.quiet {
            None
        } else {
            Some(Format::Json)
        }),
        Some("none") => Ok(None),
        Some(value) => Err(WrongValue {
            value,
            option: "--diagnostics <FORMAT>",
            values: "human, json, none",
        }),
    }
}

// The form of a report.
fn report_of<'a>(words: &Words<'a>) -> Result<Format, WrongValue<'a>> {
    match words.report {
        Some("human") => Ok(Format::Human),
        Some("json") | None => Ok(Format::Json),
        Some(value) => Err(WrongValue {
            value,
            option: "--report <FORM>",
            values: "human, json",
        }),
    }
}

// The error where the words ask for a language that there is not.
fn check_language<'a>(words: &Words<'a>) -> Result<(), WrongValue<'a>> {
    match words.language {
        Some("3" | "4") | None => Ok(()),
        Some(value) => Err(WrongValue {
            value,
            option: "--language <N>",
            values: "3, 4",
        }),
    }
}

/// The forms that the words want. The error is a word that names no form, or a language that there is not.
pub fn forms_of<'a>(words: &Words<'a>) -> Result<Forms, WrongValue<'a>> {
    check_language(words)?;
    Ok(Forms {
        explanations: explanations_of(words)?,
        report: report_of(words)?,
    })
}
