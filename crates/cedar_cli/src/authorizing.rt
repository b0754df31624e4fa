//! The subcommand `authorize`.
ghost use Rattle.std.specs.Prelude.{◌≡◌, ◌⊎◌, ◌-◌, ◌<◌, ◌^◌};
ghost use Rattle.cedar_auth.specs.AnswerLine.{AnswersLine};
ghost use Rattle.cedar_cli.specs.Authorization.{Authorizes, EndsAnswering};

use base_lines::{ServeFault, Sink, Source};
use cedar_auth::{Ready, serve};
use cedar_check_spec::Settings;
use cedar_files::{End, FileRefusal, Files, Role, prepare};
use std::alloc::Global;

/// Answers each request line.
pub(crate) fn answer<S: Source, K: Sink>(
    alloc: Global,
    ready: &Ready,
    source: &mut S,
    sink: &mut K,
) -> End
    requires source_count { S.failed source.old < 2 ^ 64 - 1 }
    requires sink_count { K.failed sink.old < 2 ^ 64 - 1 }
    ensures { EndsAnswering (AnswersLine ready.now) (S.left source.old)
        ((S.failed source.old < S.failed source.new) ⊎ (K.failed sink.old < K.failed sink.new)) (K.written sink.old) (K.written sink.new) result }
{
    match serve(alloc, ready, source, sink) {
        Ok(()) => End::Done,
        Err(ServeFault::OutOfMemory) => End::Memory,
        Err(ServeFault::ReadFailed) => End::Device,
        Err(ServeFault::WriteFailed) => End::Device,
    }
}

/// Sees what is ready when all files are read, before the first request line is, and takes it after the last.
pub trait Observer {
    /// Sees the policies that are ready to answer.
    fn is_ready(&mut self, ready: &Ready);

    /// Takes what was ready, after the last answer. A program that ends then need not free it.
    fn take(&mut self, ready: Ready);
}

/// Reads the schema, the policies, the links and the entities, in this order, and answers each request line of the source by an
/// answer line to the sink. The policies are validated under these settings. It ends with:
///
/// - `Done`: all lines were answered.
/// - `Faults`: strict validation finds faults in the policies. The report on them was written, and the entities were not read.
/// - `Refused`: a file is refused. One line such as `{"file":"policies","offset":43,"refused":104}` gives the file, the number and,
///   for a policy text, the place of the fault.
/// - `CommandLine`: the command line does not name a schema, policies and entities. Nothing is written.
/// - `Device`: a file can't be read, or the source or the sink failed.
/// - `Memory`: memory ran out.
///
/// What was answered before stays written: whole lines after `Memory`, and after `Device` perhaps a part of a line too. The observer
/// sees what is ready.
pub fn authorize<F: Files, S: Source, K: Sink, O: Observer>(
    alloc: Global,
    files: &F,
    source: &mut S,
    sink: &mut K,
    settings: Settings,
    observer: &mut O,
) -> End
    requires source_count { S.failed source.old < 2 ^ 64 - 1 }
    requires sink_count { K.failed sink.old < 2 ^ 64 - 1 }
    ensures ends { Authorizes settings (F.holds files.now) (S.left source.old) (S.failed source.old < S.failed source.new)
        (K.failed sink.old < K.failed sink.new) (K.written sink.old) (K.written sink.new) result }
    ensures unread { (result ≡ End.Refused) ⊎ (result ≡ End.Faults) → source.new ≡ source.old }
    ensures untouched { result ≡ End.CommandLine → (source.new ≡ source.old) × (sink.new ≡ sink.old) }
{
    let ready = match prepare(alloc, files, sink, settings) {
        Ok(ready) => ready,
        Err(end) => return end,
    };
    observer.is_ready(&ready);
    let end = answer(alloc, &ready, source, sink);
    observer.take(ready);
    end
}
