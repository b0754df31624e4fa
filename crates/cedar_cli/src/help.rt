//! What `cedar --help` says.

/// Of the program.
pub(crate) const ABOUT: &str =
    "Validates policies of the Cedar language, and answers authorization requests with them";

/// After the program's options.
pub(crate) const EXAMPLE: &str = "\
Examples:
  cedar validate --schema schema.json --policies policies.cedar
  cedar authorize --schema schema.json --policies policies.cedar --entities entities.json < requests.jsonl

Statuses:
  0  the work was done, whatever was decided or warned of
  1  a file or a device failed, or memory ran out
  2  a file was refused; a line on standard output says which, where and with which number
  3  the policies have faults; the report on standard output says which
  4  the command line was refused
  5  ask: the request is denied";

/// Of `validate`.
pub(crate) const VALIDATE: &str =
    "Reports on standard output where policies break the rules of a schema";

/// After the options of `validate`.
pub(crate) const VALIDATE_EXAMPLE: &str = "\
Example:
  cedar validate --schema schema.json --policies policies.cedar

The report has a line for each fault: a policy, and an environment in which its condition has no type, with the number that
says why (601 to 607):
  {\"action\":{\"id\":\"view\",\"type\":\"Action\"},\"fault\":602,\"policy\":\"policy0\",\"principal\":\"User\",\"resource\":\"Album\"}

It has a line for each policy that no request can satisfy:
  {\"policy\":\"policy1\",\"warning\":650}

Its last line counts both:
  {\"faults\":1,\"warnings\":1}

Statuses:
  0  the policies have no fault, whatever was warned of
  1  a file or a device failed, or memory ran out
  2  a file was refused; a line on standard output says which, where and with which number
  3  the policies have faults, or warnings with --deny-warnings
  4  the command line was refused";

/// Of `authorize`.
pub(crate) const AUTHORIZE: &str =
    "Answers each request line of standard input with a line on standard output";

/// After the options of `authorize`.
pub(crate) const AUTHORIZE_EXAMPLE: &str = "\
Example:
  cedar authorize --schema schema.json --policies policies.cedar --entities entities.json < requests.jsonl

A request line:
  {\"principal\":\"User::\\\"ann\\\"\",\"action\":\"Action::\\\"write\\\"\",\"resource\":\"Notebook::\\\"plans\\\"\"}

Its answer names the policies that determine the decision, and those that erred:
  {\"decision\":\"allow\",\"determining\":[\"policy0\"],\"erring\":[]}

A line that is not a valid request for the schema gets {\"refused\":502}, or another number that says why (501 to 511).

With --entities-in-lines a line may bring entities, in the form of the entities file. For this line they replace those of the
file with their uids:
  {\"principal\":\"User::\\\"ann\\\"\",\"action\":..,\"resource\":..,\"entities\":[{\"uid\":..,\"attrs\":{},\"parents\":[]}]}

Policies with faults answer nothing: the report on them is written instead, as validate writes it.

Statuses:
  0  each line was answered, whatever was decided or refused
  1  a file or a device failed, or memory ran out
  2  a file was refused; a line on standard output says which, where and with which number
  3  the policies have faults; the report on standard output says which
  4  the command line was refused";

/// Of `why`.
pub(crate) const WHY: &str = "Says why each request line of standard input is allowed or denied";

/// After the options of `why`.
pub(crate) const WHY_EXAMPLE: &str = "\
Example:
  cedar why --schema schema.json --policies policies.cedar --entities entities.json < requests.jsonl

It says for each line what was decided, and what each policy came to: satisfied, false or erred, and the part of the policy that
decided.

Statuses:
  0  each line was explained, whatever was decided or refused
  1  a file or a device failed, or memory ran out
  2  a file was refused; a line on standard output says which, where and with which number
  3  the policies have faults; the report on standard output says which
  4  the command line was refused";

/// Of `ask`.
pub(crate) const ASK: &str = "Answers one request, and ends with 0 for allow and 5 for deny";

/// After the options of `ask`.
pub(crate) const ASK_EXAMPLE: &str = "\
Example:
  cedar ask --schema schema.json --policies policies.cedar --entities entities.json \
    --principal 'User::\"ann\"' --action 'Action::\"write\"' --resource 'Notebook::\"plans\"'

Statuses:
  0  the request is allowed
  1  a file or a device failed, or memory ran out
  2  a file or the request was refused; a line on standard output says with which number
  3  the policies have faults; the report on standard output says which
  4  the command line was refused
  5  the request is denied";

/// Of `check-parse`.
pub(crate) const CHECK_PARSE: &str =
    "Reads a policy file without a schema, and counts its policies";

/// After the options of `check-parse`.
pub(crate) const CHECK_PARSE_EXAMPLE: &str = "\
Example:
  cedar check-parse --policies policies.cedar

Its line counts the policies and the templates:
  {\"policies\":6,\"templates\":1}

Statuses:
  0  the file holds policies
  1  a file or a device failed, or memory ran out
  2  the file was refused; a line on standard output says where and with which number
  4  the command line was refused";

/// Of `explain`.
pub(crate) const EXPLAIN: &str = "Explains the number of a refusal, a fault or a warning";

/// After the options of `explain`.
pub(crate) const EXPLAIN_EXAMPLE: &str = "\
Example:
  cedar explain 602

Statuses:
  0  the number was explained
  1  standard output failed
  4  the command line was refused, or there is no such number";

/// Of `--schema`.
pub(crate) const SCHEMA: &str =
    "The schema: JSON of the format that the Cedar language defines; with --language 4 also its schema syntax";

/// Of `--policies`.
pub(crate) const POLICIES: &str =
    "The policies: a text of the Cedar language, in UTF-8; with --language 4 also JSON";

/// Of `--links`.
pub(crate) const LINKS: &str =
    "The links: JSON that gives uids for the slots of templates, each link a policy of its own";

/// Of `--entities`.
pub(crate) const ENTITIES: &str =
    "The entities: JSON of the format that the Cedar language defines";

/// Of `--language`.
pub(crate) const LANGUAGE: &str =
    "Read the language of Cedar 3 (the default) or 4: 4 adds IP addresses, datetimes, durations and other forms of files";

/// Of `--any-decimal`.
pub(crate) const ANY_DECIMAL: &str =
    "Accept decimal(..) of any text, which may then err when a request is answered";

/// Of `--deny-warnings`.
pub(crate) const DENY_WARNINGS: &str = "End with 3 where there are warnings, too";

/// Of `--report`.
pub(crate) const REPORT: &str =
    "The report on standard output: json (an object a line) or human, which says all there [default: json]";

/// Of `--entities-in-lines`.
pub(crate) const ENTITIES_IN_LINES: &str =
    "Take request lines with a key entities, a list of entities for that line alone; --entities may then be left out";

/// Of `--explain-lines`.
pub(crate) const EXPLAIN_LINES: &str =
    "Explain each refused request line on standard error, after all lines were read";

/// Of `--all`.
pub(crate) const ALL: &str = "Show each policy, also those whose scopes the request does not meet";

/// Of `--json`.
pub(crate) const JSON: &str = "Write a JSON object for each line";

/// Of `--principal`.
pub(crate) const PRINCIPAL: &str = "Who asks, as a policy writes it: User::\"ann\"";

/// Of `--action`.
pub(crate) const ACTION: &str = "What is to be done: Action::\"write\"";

/// Of `--resource`.
pub(crate) const RESOURCE: &str = "On what: Notebook::\"plans\"";

/// Of `--context`.
pub(crate) const CONTEXT: &str = "The context of the request: a JSON object";

/// Of `--request`.
pub(crate) const REQUEST: &str =
    "The request in place of these four: a JSON object, which may go over several lines";

/// Of the number that `explain` explains.
pub(crate) const NUMBER: &str = "The number: 602";

/// Of `--quiet`.
pub(crate) const QUIET: &str = "Explain nothing on standard error";

/// Of `--diagnostics`.
pub(crate) const DIAGNOSTICS: &str =
    "How to explain on standard error: human, json (an object a line) or none [default: human]";
