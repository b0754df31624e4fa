//! The subcommand `authorize` for request lines that bring entities.
ghost use Rattle.std.specs.Prelude.{◌≡◌, ◌⊎◌, ◌-◌, ◌<◌, ◌^◌};
ghost use Rattle.cedar_auth.specs.AnswerLineWithEntities.{AnswersLineWithEntities};
ghost use Rattle.cedar_cli.specs.Authorization.{AuthorizesWithEntities, EndsAnswering};

use crate::authorizing::Observer;
use base_lines::{ServeFault, Sink, Source};
use cedar_auth::{Ready, serve_with_entities};
use cedar_check_spec::Settings;
use cedar_files::{End, FileRefusal, Files, Role, prepare};
use std::alloc::Global;

// Answers each request line, which may bring entities.
fn answer_with_entities<S: Source, K: Sink>(
    alloc: Global,
    ready: &Ready,
    source: &mut S,
    sink: &mut K,
) -> End
    requires source_count { S.failed source.old < 2 ^ 64 - 1 }
    requires sink_count { K.failed sink.old < 2 ^ 64 - 1 }
    ensures { EndsAnswering (AnswersLineWithEntities ready.now) (S.left source.old)
        ((S.failed source.old < S.failed source.new) ⊎ (K.failed sink.old < K.failed sink.new)) (K.written sink.old) (K.written sink.new) result }
{
    match serve_with_entities(alloc, ready, source, sink) {
        Ok(()) => End::Done,
        Err(ServeFault::OutOfMemory) => End::Memory,
        Err(ServeFault::ReadFailed) => End::Device,
        Err(ServeFault::WriteFailed) => End::Device,
    }
}

/// Like [`authorize`](crate::authorize), but a request line may have a fifth key `entities`: a list of entities in
/// the form of the entities file. For this line they replace those of the file with their uids, or come beside them. No other line
/// sees them. It ends as [`authorize`](crate::authorize) does.
pub fn authorize_with_entities<F: Files, S: Source, K: Sink, O: Observer>(
    alloc: Global,
    files: &F,
    source: &mut S,
    sink: &mut K,
    settings: Settings,
    observer: &mut O,
) -> End
    requires source_count { S.failed source.old < 2 ^ 64 - 1 }
    requires sink_count { K.failed sink.old < 2 ^ 64 - 1 }
    ensures ends { AuthorizesWithEntities settings (F.holds files.now) (S.left source.old) (S.failed source.old < S.failed source.new)
        (K.failed sink.old < K.failed sink.new) (K.written sink.old) (K.written sink.new) result }
    ensures unread { (result ≡ End.Refused) ⊎ (result ≡ End.Faults) → source.new ≡ source.old }
    ensures untouched { result ≡ End.CommandLine → (source.new ≡ source.old) × (sink.new ≡ sink.old) }
{
    let ready = match prepare(alloc, files, sink, settings) {
        Ok(ready) => ready,
        Err(end) => return end,
    };
    // Each request that a line denotes is answered soundly.
    ready.lines_with_entities_are_answered_soundly();
    observer.is_ready(&ready);
    let end = answer_with_entities(alloc, &ready, source, sink);
    observer.take(ready);
    end
}
