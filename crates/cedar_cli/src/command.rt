//! The command line, as `clap` reads it.
ghost use Rattle.std.specs.Prelude.{◌≡◌, ◌∷◌, [], false, IfOk};
ghost use Rattle.clap.specs.Words.{app_of, rule_of};
ghost use Rattle.clap.specs.declared.builder.Command.TheViews.{out-Command as fields_of};
ghost use Rattle.cedar_cli.specs.CommandLine.{ask_app, authorize_app, check_parse_app, explain_app, explained, file_rule, flag_rule, option_rule, over_entities, over_policies, over_request, program, top, validate_app, why_app, word_rule};

use crate::help;
use clap::{Arg, ArgAction, Command};
use std::alloc::{AllocError, Global};

/// The version of the program, and the toolchain that proved and built it.
const VERSION: &str = "0.1.0 (rattle-kit-13f logic dac8208d650f15bf)";

// `--name VALUE`
fn option<'a>(
    alloc: Global,
    name: &'a str,
    value: &'a str,
    help: &'a str,
    required: bool,
) -> Arg<'a>
    ensures rule { rule_of result ≡ option_rule name.entry.now required }
    ensures local { result.global ≡ false }
{
    Arg::new(alloc, name)
        .long(name)
        .value_name(value)
        .help(help)
        .required(required)
}

// `-L FILE` or `--name FILE`, where `L` is the letter
fn file<'a>(alloc: Global, letter: char, name: &'a str, help: &'a str, required: bool) -> Arg<'a>
    ensures rule { rule_of result ≡ file_rule (letter ∷ []) name.entry.now required }
    ensures local { result.global ≡ false }
{
    option(alloc, name, "FILE", help, required).short(letter)
}

// `--name`
fn flag<'a>(alloc: Global, name: &'a str, help: &'a str) -> Arg<'a>
    ensures rule { rule_of result ≡ flag_rule name.entry.now }
    ensures local { result.global ≡ false }
{
    Arg::new(alloc, name)
        .long(name)
        .action(ArgAction::SetTrue)
        .help(help)
}

// `NAME`
fn word<'a>(alloc: Global, name: &'a str, value: &'a str, help: &'a str) -> Arg<'a>
    ensures rule { rule_of result ≡ word_rule name.entry.now }
    ensures local { result.global ≡ false }
{
    Arg::new(alloc, name)
        .value_name(value)
        .help(help)
        .required(true)
}

// A subcommand with the options on what is explained.
fn explained<'a>(alloc: Global, command: Command<'a>) -> Result<Command<'a>, AllocError>
    requires { (fields_of command).has_globals ≡ false }
    ensures app { IfOk result (λ c. app_of c ≡ explained (app_of command.entry)) }
    ensures local { IfOk result (λ c. (fields_of c).has_globals ≡ false) }
{
    let command = command.arg(flag(alloc, "quiet", help::QUIET))?.arg(option(
        alloc,
        "diagnostics",
        "FORMAT",
        help::DIAGNOSTICS,
        false,
    ))?;
    Ok(command)
}

// A subcommand with the options on a request.
fn over_request<'a>(alloc: Global, command: Command<'a>) -> Result<Command<'a>, AllocError>
    requires { (fields_of command).has_globals ≡ false }
    ensures app { IfOk result (λ c. app_of c ≡ over_request (app_of command.entry)) }
    ensures local { IfOk result (λ c. (fields_of c).has_globals ≡ false) }
{
    let command = command
        .arg(option(alloc, "principal", "UID", help::PRINCIPAL, false))?
        .arg(option(alloc, "action", "UID", help::ACTION, false))?
        .arg(option(alloc, "resource", "UID", help::RESOURCE, false))?
        .arg(file(alloc, 'c', "context", help::CONTEXT, false))?
        .arg(option(alloc, "request", "FILE", help::REQUEST, false))?;
    Ok(command)
}

// A subcommand over a schema, policies and links, with the language of the first two.
fn over_policies<'a>(alloc: Global, name: &'a str) -> Result<Command<'a>, AllocError>
    ensures app { IfOk result (λ c. app_of c ≡ over_policies name.entry.now) }
    ensures local { IfOk result (λ c. (fields_of c).has_globals ≡ false) }
{
    let command = Command::new(alloc, name)
        .arg(file(alloc, 's', "schema", help::SCHEMA, true))?
        .arg(file(alloc, 'p', "policies", help::POLICIES, true))?
        .arg(file(alloc, 'l', "links", help::LINKS, false))?
        .arg(option(alloc, "language", "N", help::LANGUAGE, false))?;
    Ok(command)
}

// A subcommand over a schema, policies, links and entities.
fn over_entities<'a>(
    alloc: Global,
    name: &'a str,
    required: bool,
) -> Result<Command<'a>, AllocError>
    ensures app { IfOk result (λ c. app_of c ≡ over_entities name.entry.now required) }
    ensures local { IfOk result (λ c. (fields_of c).has_globals ≡ false) }
{
    let command = over_policies(alloc, name)?
        .arg(file(alloc, 'e', "entities", help::ENTITIES, required))?
        .arg(flag(alloc, "any-decimal", help::ANY_DECIMAL))?;
    Ok(command)
}

fn validate<'a>(alloc: Global) -> Result<Command<'a>, AllocError>
    ensures app { IfOk result (λ c. app_of c ≡ validate_app) }
    ensures local { IfOk result (λ c. (fields_of c).has_globals ≡ false) }
{
    let command = over_policies(alloc, "validate")?
        .about(help::VALIDATE)
        .after_help(help::VALIDATE_EXAMPLE)
        .arg(flag(alloc, "any-decimal", help::ANY_DECIMAL))?
        .arg(flag(alloc, "deny-warnings", help::DENY_WARNINGS))?
        .arg(option(alloc, "report", "FORM", help::REPORT, false))?;
    explained(alloc, command)
}

fn authorize<'a>(alloc: Global) -> Result<Command<'a>, AllocError>
    ensures app { IfOk result (λ c. app_of c ≡ authorize_app) }
    ensures local { IfOk result (λ c. (fields_of c).has_globals ≡ false) }
{
    let command = over_entities(alloc, "authorize", false)?
        .about(help::AUTHORIZE)
        .after_help(help::AUTHORIZE_EXAMPLE)
        .arg(flag(alloc, "entities-in-lines", help::ENTITIES_IN_LINES))?
        .arg(flag(alloc, "explain-lines", help::EXPLAIN_LINES))?;
    explained(alloc, command)
}

fn why<'a>(alloc: Global) -> Result<Command<'a>, AllocError>
    ensures app { IfOk result (λ c. app_of c ≡ why_app) }
    ensures local { IfOk result (λ c. (fields_of c).has_globals ≡ false) }
{
    let command = over_entities(alloc, "why", true)?
        .about(help::WHY)
        .after_help(help::WHY_EXAMPLE)
        .arg(flag(alloc, "all", help::ALL))?
        .arg(flag(alloc, "json", help::JSON))?;
    explained(alloc, command)
}

fn ask<'a>(alloc: Global) -> Result<Command<'a>, AllocError>
    ensures app { IfOk result (λ c. app_of c ≡ ask_app) }
    ensures local { IfOk result (λ c. (fields_of c).has_globals ≡ false) }
{
    let command = over_entities(alloc, "ask", true)?
        .about(help::ASK)
        .after_help(help::ASK_EXAMPLE);
    let command = over_request(alloc, command)?;
    explained(alloc, command)
}

fn check_parse<'a>(alloc: Global) -> Result<Command<'a>, AllocError>
    ensures app { IfOk result (λ c. app_of c ≡ check_parse_app) }
    ensures local { IfOk result (λ c. (fields_of c).has_globals ≡ false) }
{
    let command = Command::new(alloc, "check-parse")
        .about(help::CHECK_PARSE)
        .after_help(help::CHECK_PARSE_EXAMPLE)
        .arg(file(alloc, 'p', "policies", help::POLICIES, true))?
        .arg(option(alloc, "language", "N", help::LANGUAGE, false))?;
    explained(alloc, command)
}

fn explain<'a>(alloc: Global) -> Result<Command<'a>, AllocError>
    ensures app { IfOk result (λ c. app_of c ≡ explain_app) }
    ensures local { IfOk result (λ c. (fields_of c).has_globals ≡ false) }
{
    let command = Command::new(alloc, "explain")
        .about(help::EXPLAIN)
        .after_help(help::EXPLAIN_EXAMPLE)
        .arg(word(alloc, "number", "NUMBER", help::NUMBER))?;
    Ok(command)
}

// The program without its subcommands.
fn top<'a>(alloc: Global) -> Result<Command<'a>, AllocError>
    ensures { IfOk result (λ c. app_of c ≡ top) }
{
    let top = Command::new(alloc, "cedar")
        .bin_name("cedar")?
        .about(help::ABOUT)
        .after_help(help::EXAMPLE)
        .version(VERSION)
        .subcommand_required(true);
    Ok(top)
}

/// The program's command line.
pub(crate) fn command<'a>(alloc: Global) -> Result<Command<'a>, AllocError>
    ensures { IfOk result (λ c. app_of c ≡ program) }
{
    let program = top(alloc)?
        .subcommand(validate(alloc)?)?
        .subcommand(authorize(alloc)?)?
        .subcommand(why(alloc)?)?
        .subcommand(ask(alloc)?)?
        .subcommand(check_parse(alloc)?)?
        .subcommand(explain(alloc)?)?;
    Ok(program)
}
