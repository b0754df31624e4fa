//! What is said where a subcommand lacks an option that the command line does not require of it by itself.
use cedar_cli::AskedRequest;
use cedar_files::End;
use std::alloc::{AllocError, Global};

/// What is said, as the command line says it of another option that is missing.
const SAYS: &str = "\
error: the following required arguments were not provided:
  --entities <FILE>

Usage: cedar authorize --schema <FILE> --policies <FILE> --entities <FILE>

For more information, try '--help'.";

/// How what is said of missing options begins.
const MISSING: &str = "error: the following required arguments were not provided:\n";

/// How what is said of missing options of `ask` ends.
const USAGE: &str = "
Usage: cedar ask --schema <FILE> --policies <FILE> --entities <FILE> --principal <UID> --action <UID> --resource <UID>
       cedar ask --schema <FILE> --policies <FILE> --entities <FILE> --request <FILE>

For more information, try '--help'.
";

/// What is said of `--request` beside the options that it replaces.
const BESIDE: &str = "\
error: '--request <FILE>' has the whole request, so '--principal', '--action', '--resource' and '--context' cannot be used with it

Usage: cedar ask --schema <FILE> --policies <FILE> --entities <FILE> --request <FILE>

For more information, try '--help'.
";

/// Refuses a command line of `authorize` without `--entities` and `--entities-in-lines`, and gives the exit status.
pub fn refuse_unnamed_entities(rt: &HostRuntime) -> u8 {
    // Where standard error is gone, the refusal is lost.
    let _ = rt.eprintln(SAYS);
    End::CommandLine.status()
}

// What is said of the options that are missing.
fn missing(alloc: Global, options: &[(&str, bool); 3]) -> Result<String, AllocError> {
    let mut says = String::from_str(alloc, MISSING)?;
    for (option, is_given) in options {
        if !*is_given {
            says.push_str("  ")?;
            says.push_str(option)?;
            says.push_str(" <UID>\n")?;
        }
    }
    says.push_str(USAGE)?;
    Ok(says)
}

/// Why the options of `ask` say no request: some of the three uids are missing, or there is `--request` beside them; or none
/// where they say one.
///
/// # Errors
///
/// Fails only when out of memory.
pub fn refused_request(
    alloc: Global,
    request: AskedRequest<'_>,
) -> Result<Option<String>, AllocError> {
    let options = [
        ("--principal", request.principal.is_some()),
        ("--action", request.action.is_some()),
        ("--resource", request.resource.is_some()),
    ];
    let given = options[0].1 || options[1].1 || options[2].1 || request.context.is_some();
    match request.request {
        Some(_) if given => Ok(Some(String::from_str(alloc, BESIDE)?)),
        Some(_) => Ok(None),
        None if options[0].1 && options[1].1 && options[2].1 => Ok(None),
        None => missing(alloc, &options).map(Some),
    }
}
