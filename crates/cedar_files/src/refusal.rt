//! The line that says which file is refused.
ghost use Rattle.std.specs.Prelude.{◌≡◌, ◌-◌, ◌<◌, ◌^◌, List, ◌++◌, [], ◌∷◌, None, Some, IfOk, OnOk};
ghost use Rattle.std.specs.Io.KnownBytes.{Keeps};
ghost use Rattle.serde_json.specs.Written.{compact_text};
ghost use Rattle.base_lines.specs.AnswerText.{Writes};
ghost use Rattle.base_lines.specs.Lines.{line_feed};
ghost use Rattle.cedar_files.specs.Refusal.{file_name, refusal_of};
ghost use Rattle.cedar_files.specs.Standing.{BeginsRefusal, IsRefusalLine};
ghost use Rattle.cedar_files.specs.Private.Tokens.{data_tokens};

use crate::ending::End;
use crate::files::Role;
use base_lines::{Sink, flush};
use json::Writer;
use std::alloc::{AllocError, Global};

/// Why a file is refused.
#[derive(Clone, Copy, Debug, PartialEq, Eq)]
pub struct FileRefusal {
    /// The number of the refusal.
    pub number: u16,
    /// Where in the file the fault is, in bytes from 0, if it has a place.
    pub offset: Option<usize>,
}

impl FileRefusal {
    /// A refusal of the whole file.
    pub fn whole(number: u16) -> Self
        ensures { result ≡ record { number = number; offset = None } }
    {
        FileRefusal {
            number,
            offset: None,
        }
    }
}

fn file_name(role: Role) -> &'static str
    ensures { result.now ≡ file_name role }
{
    match role {
        Role::Schema => "schema",
        Role::Policies => "policies",
        Role::Links => "links",
        Role::Entities => "entities",
    }
}

// `{"file":F,"refused":N}`
fn write_whole(writer: &mut Writer, role: Role, number: u16) -> Result<(), AllocError>
    ensures tokens { OnOk result (writer.new.tokens ≡ writer.old.tokens ++ data_tokens (refusal_of role None number)) }
    ensures before { writer.new.before ≡ writer.old.before }
{
    writer.begin_object()?;
    writer.key("file")?;
    writer.string(file_name(role))?;
    writer.key("refused")?;
    writer.u64(u64::from(number))?;
    writer.end_object()?;
    Ok(())
}

// `{"file":F,"offset":O,"refused":N}`
fn write_placed(
    writer: &mut Writer,
    role: Role,
    offset: usize,
    number: u16,
) -> Result<(), AllocError>
    ensures tokens { OnOk result (writer.new.tokens ≡ writer.old.tokens ++ data_tokens (refusal_of role (Some offset) number)) }
    ensures before { writer.new.before ≡ writer.old.before }
{
    writer.begin_object()?;
    writer.key("file")?;
    writer.string(file_name(role))?;
    writer.key("offset")?;
    writer.u64(offset as u64)?;
    writer.key("refused")?;
    writer.u64(u64::from(number))?;
    writer.end_object()?;
    Ok(())
}

fn write_refusal(writer: &mut Writer, role: Role, refusal: FileRefusal) -> Result<(), AllocError>
    ensures tokens { OnOk result (writer.new.tokens ≡ writer.old.tokens ++ data_tokens (refusal_of role refusal.offset refusal.number)) }
    ensures before { writer.new.before ≡ writer.old.before }
{
    match refusal.offset {
        None => write_whole(writer, role, refusal.number),
        Some(offset) => write_placed(writer, role, offset, refusal.number),
    }
}

/// The line that says that a file is refused, why and where: `{"file":"policies","offset":43,"refused":104}` and LF.
pub fn refusal_line(alloc: Global, role: Role, refusal: FileRefusal) -> Result<Vec<u8>, AllocError>
    ensures { IfOk result (λ line. line.items ≡ compact_text (refusal_of role refusal.offset refusal.number) ++ line_feed ∷ []) }
{
    let mut writer = Writer::new(Vec::new(alloc));
    write_refusal(&mut writer, role, refusal)?;
    let mut line = writer.into_inner();
    line.push(b'\n')?;
    Ok(line)
}

/// Writes to the sink that a file is refused. It ends with:
///
/// - `Refused`: the whole line was written.
/// - `Device`: the sink failed during the call, which may leave a part of the line.
/// - `Memory`: memory ran out, which leaves nothing.
pub fn refuse<K: Sink>(alloc: Global, role: Role, refusal: FileRefusal, sink: &mut K) -> End
    requires { K.failed sink.old < 2 ^ 64 - 1 }
    ensures refused { result ≡ End.Refused → Writes (K.written sink.old) (K.written sink.new) (IsRefusalLine role refusal) }
    ensures device { result ≡ End.Device → K.failed sink.old < K.failed sink.new }
    ensures stands { result ≡ End.Device → Writes (K.written sink.old) (K.written sink.new) (BeginsRefusal role refusal) }
    ensures stands_whole { result ≡ End.Memory → Keeps (K.written sink.old) (K.written sink.new) }
    ensures others { (result ≡ End.Done → ⊥) × (result ≡ End.Faults → ⊥) × (result ≡ End.CommandLine → ⊥) }
{
    let Ok(mut line) = refusal_line(alloc, role, refusal) else {
        return End::Memory;
    };
    match flush(&mut line, sink) {
        Ok(()) => End::Refused,
        Err(_) => End::Device,
    }
}
