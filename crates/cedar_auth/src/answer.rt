//! The texts of answers: compact JSON as `serde_json` writes it, appended to a buffer.
ghost use Rattle.std.specs.Prelude.{◌≡◌, ℕ, List, ◌++◌, length, map, OnOk, OnErr, vec_len};
ghost use Rattle.json.specs.Print.{print};
ghost use Rattle.serde_json.specs.Data.{string, array};
ghost use Rattle.serde_json.specs.View.{items_of};
ghost use Rattle.serde_json.specs.Written.{compact_text};
ghost use Rattle.cedar_auth_spec.specs.AnswerJson.{decision_name, error_name, erring_data, response_data, refused_data};
ghost use Rattle.cedar_auth.specs.Private.Tokens.{data_tokens};

use crate::response::Erring;
use crate::short_answer::{append_one, is_plain, text_of_none};
use crate::told::Told;
use cedar_ast::Decision;
use cedar_ast_expressions::EvaluationError;
use json::Writer;
use std::alloc::{AllocError, Global};
use std::mem;

fn decision_name(decision: Decision) -> &'static str
    ensures { result.now ≡ decision_name decision }
{
    match decision {
        Decision::Allow => "allow",
        Decision::Deny => "deny",
    }
}

fn error_name(error: EvaluationError) -> &'static str
    ensures { result.now ≡ error_name error }
{
    match error {
        EvaluationError::Overflow => "overflow",
        EvaluationError::MissingEntity => "missing_entity",
        EvaluationError::MissingAttribute => "missing_attribute",
        EvaluationError::Type => "type",
        EvaluationError::Decimal => "decimal",
    }
}

fn write_ids(writer: &mut Writer, ids: &[&str]) -> Result<(), AllocError>
    ensures tokens { OnOk result (writer.new.tokens
        ≡ writer.old.tokens ++ data_tokens (array (items_of (map string (map (λ id. id.now) ids.now))))) }
    ensures before { writer.new.before ≡ writer.old.before }
{
    writer.begin_array()?;
    for id in ids {
        writer.string(id)?;
    }
    writer.end_array()?;
    Ok(())
}

fn write_erring(writer: &mut Writer, erring: &Erring) -> Result<(), AllocError>
    ensures tokens { OnOk result (writer.new.tokens ≡ writer.old.tokens ++ data_tokens (erring_data erring.now)) }
    ensures before { writer.new.before ≡ writer.old.before }
{
    writer.begin_object()?;
    writer.key("error")?;
    writer.string(error_name(erring.error))?;
    writer.key("policy")?;
    writer.string(erring.policy)?;
    writer.end_object()?;
    Ok(())
}

fn write_errings(writer: &mut Writer, errings: &[Erring]) -> Result<(), AllocError>
    ensures tokens { OnOk result (writer.new.tokens
        ≡ writer.old.tokens ++ data_tokens (array (items_of (map erring_data errings.now)))) }
    ensures before { writer.new.before ≡ writer.old.before }
{
    writer.begin_array()?;
    for erring in errings {
        write_erring(writer, erring)?;
    }
    writer.end_array()?;
    Ok(())
}

fn write_response(writer: &mut Writer, response: &Told<'_, '_>) -> Result<(), AllocError>
    ensures tokens { OnOk result (writer.new.tokens ≡ writer.old.tokens ++ data_tokens (response_data response.now)) }
    ensures before { writer.new.before ≡ writer.old.before }
{
    writer.begin_object()?;
    writer.key("decision")?;
    writer.string(decision_name(response.decision))?;
    writer.key("determining")?;
    write_ids(writer, response.determining)?;
    writer.key("erring")?;
    write_errings(writer, response.erring)?;
    writer.end_object()?;
    Ok(())
}

fn write_refusal(writer: &mut Writer, number: u16) -> Result<(), AllocError>
    ensures tokens { OnOk result (writer.new.tokens ≡ writer.old.tokens ++ data_tokens (refused_data number)) }
    ensures before { writer.new.before ≡ writer.old.before }
{
    writer.begin_object()?;
    writer.key("refused")?;
    writer.u64(u64::from(number))?;
    writer.end_object()?;
    Ok(())
}

/// Gives the buffer back to `out`: with what was written where that went well, and otherwise cut to its first `before` bytes.
fn hand_back(
    out: &mut Vec<u8>,
    writer: Writer,
    before: usize,
    written: Result<(), AllocError>,
) -> Result<(), AllocError>
    requires { before ≡ length writer.before }
    ensures same { result ≡ written }
    ensures ok { OnOk result (out.new.items ≡ writer.before ++ print writer.tokens) }
    ensures err { OnErr result (out.new.items ≡ writer.before) }
{
    *out = writer.into_inner();
    if written.is_err() {
        out.truncate(before);
    }
    written
}

// Appends a response of any length to `out`. Where memory runs out, `out` is as before.
fn append_long(alloc: Global, response: &Told<'_, '_>, out: &mut Vec<u8>) -> Result<(), AllocError>
    ensures ok { OnOk result (out.new.items ≡ out.old.items ++ compact_text (response_data response.now)) }
    ensures err { OnErr result (out.new.items ≡ out.old.items) }
{
    let before = out.len();
    let mut writer = Writer::new(mem::replace(out, Vec::new(alloc)));
    let written = write_response(&mut writer, response);
    hand_back(out, writer, before, written)
}

/// Appends the response to a request to `out`. Where memory runs out, `out` is as before.
pub(crate) fn append_response(
    alloc: Global,
    response: &Told<'_, '_>,
    out: &mut Vec<u8>,
) -> Result<(), AllocError>
    ensures ok { OnOk result (out.new.items ≡ out.old.items ++ compact_text (response_data response.now)) }
    ensures err { OnErr result (out.new.items ≡ out.old.items) }
{
    match (response.determining, response.erring) {
        ([], []) => out.extend_from_slice(text_of_none(response.decision)),
        _ => match response.only_id() {
            Some(id) if is_plain(id.as_bytes()) => append_one(
                response.decision,
                id.as_bytes(),
                out,
            ),
            _ => append_long(alloc, response, out),
        },
    }
}

/// Appends the answer to a line that was refused to `out`: the refusal's number. Where memory runs out, `out` is as before.
pub(crate) fn append_refusal(
    alloc: Global,
    number: u16,
    out: &mut Vec<u8>,
) -> Result<(), AllocError>
    ensures ok { OnOk result (out.new.items ≡ out.old.items ++ compact_text (refused_data number)) }
    ensures err { OnErr result (out.new.items ≡ out.old.items) }
{
    let before = out.len();
    let mut writer = Writer::new(mem::replace(out, Vec::new(alloc)));
    let written = write_refusal(&mut writer, number);
    hand_back(out, writer, before, written)
}
