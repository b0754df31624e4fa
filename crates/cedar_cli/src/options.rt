//! What a command line says.
use cedar_check_spec::Settings;
use cedar_files::FileNames;

/// The subcommands.
#[derive(Clone, Copy, Debug, PartialEq, Eq)]
pub enum Subcommand {
    /// Report on the policies, against the schema.
    Validate,
    /// Answer the request lines of standard input.
    Authorize,
    /// Say why the request lines of standard input are allowed or denied.
    Why,
    /// Answer the one request of the command line.
    Ask,
    /// Read the policies without a schema, and count them.
    CheckParse,
    /// Explain a number of a refusal.
    Explain,
}

/// The request of a command line: of `ask`. A text is None where its option isn't used.
#[derive(Clone, Copy, Debug)]
pub struct AskedRequest<'a> {
    /// The principal as a policy writes it, after `--principal`.
    pub principal: Option<&'a str>,
    /// The action, after `--action`.
    pub action: Option<&'a str>,
    /// The resource, after `--resource`.
    pub resource: Option<&'a str>,
    /// The file of the context, after `--context`.
    pub context: Option<&'a str>,
    /// The file of the whole request, after `--request`.
    pub request: Option<&'a str>,
}

/// What a command line says: the subcommand, the names of files, the settings, and what to write. A text is None where its option
/// isn't used.
#[derive(Clone, Copy, Debug)]
pub struct Words<'a> {
    /// The subcommand.
    pub subcommand: Subcommand,
    /// The names of files.
    pub files: FileNames<'a>,
    /// The request of `ask`.
    pub request: AskedRequest<'a>,
    /// The number that `explain` explains.
    pub number: Option<&'a str>,
    /// The form of what is explained on standard error, after `--diagnostics`.
    pub diagnostics: Option<&'a str>,
    /// The form of the report of `validate`, after `--report`.
    pub report: Option<&'a str>,
    /// The language that is read, as it is written after `--language`.
    pub language: Option<&'a str>,
    /// The language that is read, which is that of Cedar 4 after `--language 4`; and the choices beyond strict validation:
    /// `--any-decimal` turns `any_decimal` on.
    pub settings: Settings,
    /// `--quiet`: nothing is explained on standard error.
    pub quiet: bool,
    /// `--deny-warnings`: `validate` ends with 3 where there are warnings alone.
    pub deny_warnings: bool,
    /// `--explain-lines`: `authorize` explains each refused request line.
    pub explain_lines: bool,
    /// `--entities-in-lines`: `authorize` takes request lines that bring entities, and needs no entities file.
    pub entities_in_lines: bool,
    /// `--all`: `why` shows each policy.
    pub all: bool,
    /// `--json`: `why` writes JSON.
    pub json: bool,
}
