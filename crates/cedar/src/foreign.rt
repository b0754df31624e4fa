//! What is said of subcommands and options that other tools have, or other subcommands.

/// What is said of the parts of a request, for `authorize` and `why`.
const ASK: &str =
    "'cedar ask' takes '--principal', '--action' and '--resource'; 'authorize' and 'why' read request lines";

/// What is said of a subcommand that Cedar's own tools have.
const CEDARS_OWN: &str =
    "Cedar's own command line has it, and this program has not; docs/FROM_CEDAR.md says more";

/// How a request line is given.
const LINES: &str = "request lines are read from standard input: write '< <FILE>'";

/// What to write in place of a subcommand that there is not, if that is known.
pub fn for_subcommand(name: &str) -> Option<&'static str> {
    match name {
        "version" | "language-version" => Some("'cedar --version' prints the version"),
        "test" | "run-tests" => {
            Some("tests of policies are run by 'cedar-test', or by './cedar test' in a checkout")
        }
        "check" | "lint" => Some("'cedar validate' checks policies"),
        "parse" => Some("'cedar check-parse' reads policies without a schema"),
        "eval" | "is-authorized" => Some("'cedar ask' answers one request"),
        "link" => Some("links are read from a file: write '--links <FILE>'"),
        "translate-policy" | "translate-schema" => {
            Some("use that of Cedar's own command line, and then 'tools/from_cedar'")
        }
        "evaluate" | "format" | "new" | "partially-authorize" | "symcc" | "visualize" => {
            Some(CEDARS_OWN)
        }
        _ => None,
    }
}

// What to write in place of an option that no subcommand has.
fn for_unknown(option: &str) -> Option<&'static str> {
    match option {
        "--request-json" => {
            Some(
                "request lines are read from standard input: 'jq -c . <FILE> | cedar authorize ..'",
            )
        }
        "--request" | "--requests" | "--input" | "-i" => Some(LINES),
        "--error-format" | "-f" => Some("write '--diagnostics' with 'human', 'json' or 'none'"),
        "--schema-format" => Some(
            "the content says whether a schema is JSON: leave '--schema-format' out",
        ),
        "--policy-format" => {
            Some("the content says whether policies are JSON: leave '--policy-format' out")
        }
        "--template-linked" | "-k" => Some("write '--links <FILE>'"),
        "--request-validation" => {
            Some("requests are always checked with the schema: leave '--request-validation' out")
        }
        "--validation-mode" | "--level" => {
            Some("policies are always validated strictly: leave it out")
        }
        "--timing" | "-t" => Some("no times are measured: leave it out"),
        "--version" | "-V" => Some("'cedar --version' prints the version"),
        _ => None,
    }
}

// What to write in place of an option that asks for more words.
fn for_verbose(subcommand: &str) -> Option<&'static str> {
    match subcommand {
        "authorize" | "ask" => Some("'cedar why' explains each answer"),
        "why" => Some("'--all' shows each policy"),
        "validate" | "check-parse" => Some("what is wrong is always explained: leave it out"),
        _ => None,
    }
}

// What to write in place of an option that other subcommands have.
fn for_other(subcommand: &str, option: &str) -> Option<&'static str> {
    match (subcommand, option) {
        (_, "--principal" | "--action" | "--resource" | "--context" | "-a" | "-r" | "-c")
            if subcommand != "ask" => Some(ASK),
        ("ask", "--request-json") => Some("write '--request <FILE>'"),
        ("ask", "-a" | "-r") => {
            Some("write '--principal', '--action' and '--resource'; '-l' names the links")
        }
        ("why", "--explain-lines") => {
            Some("'why' always explains refused lines: leave '--explain-lines' out")
        }
        ("ask", "--explain-lines") => {
            Some("'ask' always explains a refused request: leave '--explain-lines' out")
        }
        ("validate" | "authorize" | "ask" | "check-parse", "--json") => {
            Some("standard output always has JSON: leave '--json' out")
        }
        ("validate", "--all") => Some("all faults are always shown: leave '--all' out"),
        ("authorize" | "ask", "--all") => Some("'cedar why --all' shows each policy"),
        ("validate" | "check-parse", "--entities" | "-e") => {
            Some("entities are read by 'authorize', 'why' and 'ask': leave them out")
        }
        ("check-parse", "--schema" | "-s") => {
            Some("'check-parse' reads policies alone; 'cedar validate' takes a schema")
        }
        ("authorize" | "why" | "ask" | "check-parse", "--deny-warnings" | "--report") => {
            Some("it is an option of 'cedar validate'")
        }
        ("why" | "ask", "--entities-in-lines") => Some("it is an option of 'cedar authorize'"),
        _ => None,
    }
}

/// What to write in place of an option that a subcommand does not have, if that is known.
pub fn for_option(subcommand: &str, option: &str) -> Option<&'static str> {
    if option == "--verbose" || option == "-v" {
        return for_verbose(subcommand);
    }
    match for_other(subcommand, option) {
        Some(tip) => Some(tip),
        None => for_unknown(option),
    }
}
