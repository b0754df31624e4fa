//! Reads policies, which are a text or JSON.
ghost use Rattle.std.specs.Prelude.{◌≡◌, ◌≢◌, None, IfOk, IfErr};
ghost use Rattle.cedar_parser_tokens.specs.Faults.{number_of as text_fault_number, offset_of};
ghost use Rattle.cedar_policies_json.specs.Numbers.{number_of as json_fault_number};
ghost use Rattle.cedar_files.specs.PolicyFile.{IsJsonFile, IsNoJsonFile, IsNoPolicyFile, IsNoTextFile, IsPolicyFile, IsTextFile, is_json};
ghost use Rattle.cedar_files.specs.Unread.{IfRefused};

use crate::brace::begins_with_brace;
use crate::linking::enter_links_of;
use crate::reading::{OUT_OF_MEMORY, Unread};
use crate::refusal::FileRefusal;
use cedar_ast::PolicySet;
use cedar_ext::Language;
use cedar_parser::parse_in;
use cedar_parser_tokens::ParseFault;
use cedar_policies_json::PolicyFileFault;
use std::alloc::Global;

/// 105: a policy text that is not UTF-8.
const NO_UTF8: u16 = 105;

/// The policies that the bytes hold in a language: as JSON where they begin with `{` and the language is that of Cedar 4, and
/// else as a policy text.
pub(crate) fn policies_of(
    alloc: Global,
    language: Language,
    bytes: &[u8],
) -> Result<PolicySet, Unread>
    ensures found { IfOk result (IsPolicyFile language bytes.now) }
    ensures refused { IfErr result (λ unread. IfRefused unread (IsNoPolicyFile language bytes.now)) }
    ensures others { IfErr result (λ unread. (unread ≢ Unread.Unnamed) × (unread ≢ Unread.Device)) }
{
    if is_json(language, bytes) {
        policies_of_json(alloc, language, bytes)
    } else {
        policies_of_text(alloc, language, bytes)
    }
}

fn is_json(language: Language, bytes: &[u8]) -> bool
    ensures { result ≡ is_json language bytes.now }
{
    match language {
        Language::Profile => false,
        Language::Cedar4 => begins_with_brace(bytes),
    }
}

fn policies_of_text(alloc: Global, language: Language, bytes: &[u8]) -> Result<PolicySet, Unread>
    ensures found { IfOk result (IsTextFile language bytes.now) }
    ensures refused { IfErr result (λ unread. IfRefused unread (IsNoTextFile language bytes.now)) }
    ensures others { IfErr result (λ unread. (unread ≢ Unread.Unnamed) × (unread ≢ Unread.Device)) }
{
    let Ok(text) = str::from_utf8(bytes) else {
        return Err(Unread::Refused(FileRefusal::whole(NO_UTF8)));
    };
    match parse_in(alloc, language, text) {
        Ok(policies) => Ok(policies),
        Err(fault) => Err(refusal_of_text(&fault)),
    }
}

// Why a policy text is refused.
fn refusal_of_text(fault: &ParseFault) -> Unread
    ensures refused { IfRefused result (λ refusal. (text_fault_number fault.now ≢ 1)
        × (refusal ≡ record { number = text_fault_number fault.now; offset = offset_of fault.now })) }
    ensures others { (result ≢ Unread.Unnamed) × (result ≢ Unread.Device) }
{
    let number = fault.number();
    if number == OUT_OF_MEMORY {
        return Unread::Memory;
    }
    let offset = fault.offset();
    Unread::Refused(FileRefusal { number, offset })
}

fn policies_of_json(alloc: Global, language: Language, bytes: &[u8]) -> Result<PolicySet, Unread>
    ensures found { IfOk result (IsJsonFile language bytes.now) }
    ensures refused { IfErr result (λ unread. IfRefused unread (IsNoJsonFile language bytes.now)) }
    ensures others { IfErr result (λ unread. (unread ≢ Unread.Unnamed) × (unread ≢ Unread.Device)) }
{
    let file = match cedar_policies_json::read_policies(alloc, language, bytes) {
        Ok(file) => file,
        Err(fault) => return Err(refusal_of_json(fault)),
    };
    let mut policies = file.policies;
    match enter_links_of(&mut policies, &file.links) {
        Ok(()) => Ok(policies),
        Err(unread) => Err(unread),
    }
}

// Why policies in JSON are refused.
fn refusal_of_json(fault: PolicyFileFault) -> Unread
    ensures refused { IfRefused result (λ refusal. (json_fault_number fault ≢ 1) × (refusal ≡ record { number = json_fault_number fault; offset = None })) }
    ensures others { (result ≢ Unread.Unnamed) × (result ≢ Unread.Device) }
{
    match fault.number() {
        OUT_OF_MEMORY => Unread::Memory,
        number => Unread::Refused(FileRefusal::whole(number)),
    }
}
