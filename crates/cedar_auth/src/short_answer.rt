//! The texts of short answers, which name no error and at most one policy. All of such a text is known but the policy's id.
ghost use Rattle.std.specs.Prelude.{◌≡◌, ◌++◌, [], ◌∷◌, length, take, OnOk, OnErr};
ghost use Rattle.std.specs.Bool.{OnTrue};
ghost use Rattle.json.specs.Written.{PlainBetween};
ghost use Rattle.serde_json.specs.Written.{compact_text};
ghost use Rattle.cedar_auth_spec.specs.AnswerJson.{response_data};
ghost use Rattle.cedar_auth.specs.Private.ShortAnswers.{beginning_of};

use cedar_ast::Decision;
use std::alloc::AllocError;

/// What follows the id of the only policy.
const END: &[u8] = b"\"],\"erring\":[]}";

/// The answer that names no policy.
pub(crate) fn text_of_none(decision: Decision) -> &'static [u8]
    ensures { result.now ≡ compact_text (response_data (record { decision = decision; determining = []; erring = [] })) }
{
    match decision {
        Decision::Allow => b"{\"decision\":\"allow\",\"determining\":[],\"erring\":[]}",
        Decision::Deny => b"{\"decision\":\"deny\",\"determining\":[],\"erring\":[]}",
    }
}

// What is before the id of the only policy.
fn beginning(decision: Decision) -> &'static [u8]
    ensures { result.now ≡ beginning_of decision }
{
    match decision {
        Decision::Allow => b"{\"decision\":\"allow\",\"determining\":[\"",
        Decision::Deny => b"{\"decision\":\"deny\",\"determining\":[\"",
    }
}

/// Whether a JSON string of these bytes has no escape.
pub(crate) fn is_plain(bytes: &[u8]) -> bool
    ensures { OnTrue result (PlainBetween bytes.now 0 (length bytes.now)) }
{
    for byte in bytes {
        if *byte == b'"' || *byte == b'\\' || *byte < b' ' {
            return false;
        }
    }
    true
}

// Appends three texts. After an error some of them may be there.
fn append_three(
    out: &mut Vec<u8>,
    first: &[u8],
    second: &[u8],
    third: &[u8],
) -> Result<(), AllocError>
    ensures ok { OnOk result (out.new.items ≡ out.old.items ++ (first.now ++ (second.now ++ third.now))) }
    ensures front { take (length out.old.items) out.new.items ≡ out.old.items }
{
    out.extend_from_slice(first)?;
    out.extend_from_slice(second)?;
    out.extend_from_slice(third)
}

/// Appends the answer that names this policy alone. Its id needs no escape. Where memory runs out, `out` is as before.
pub(crate) fn append_one(decision: Decision, id: &[u8], out: &mut Vec<u8>) -> Result<(), AllocError>
    requires { PlainBetween id.now 0 (length id.now) }
    ensures ok { OnOk result (out.new.items ≡ out.old.items
        ++ compact_text (response_data (record { decision = decision; determining = id.now ∷ []; erring = [] }))) }
    ensures err { OnErr result (out.new.items ≡ out.old.items) }
{
    let before = out.len();
    let appended = append_three(out, beginning(decision), id, END);
    if appended.is_err() {
        out.truncate(before);
    }
    appended
}
