//! The note of `authorize` on policies that no request can satisfy.
ghost use Rattle.std.specs.Prelude.{◌-◌, ◌<◌, ◌^◌};

use crate::host_files::HostFiles;
use base_lines::{Sink, Source};
use cedar_auth::Ready;
use cedar_cli::{Observer, Words, authorize, authorize_with_entities};
use cedar_files::End;
use cedar_files_diagnostics::{Format, impossible_policies};
use std::mem::forget;

// Says on standard error, once all files are read, how many policies no request can satisfy. Without a form it says nothing.
#[derive(Drop)]
struct Warner<'a> {
    rt: &'a HostRuntime,
    format: Option<Format>,
}

impl<'a> Observer for Warner<'a> {
    fn is_ready(&mut self, ready: &Ready) {
        let Some(format) = self.format else {
            return;
        };
        let count = ready.validated().warnings().len();
        if count == 0 {
            return;
        }
        if let Ok(says) = impossible_policies(self.rt.alloc(), format, count) {
            // Where standard error is gone, the line is lost.
            let _ = self.rt.eprint(says.as_str());
        }
    }

    // The program ends soon, and the system then takes all its memory at once.
    fn take(&mut self, ready: Ready) {
        forget(ready);
    }
}

/// Does what `authorize` does, with entities in lines if these are wanted, and says in a form, if one is wanted, how many policies no
/// request can satisfy.
pub fn authorize_and_warn<S: Source, K: Sink>(
    rt: &HostRuntime,
    files: &HostFiles<'_>,
    source: &mut S,
    sink: &mut K,
    words: &Words<'_>,
    format: Option<Format>,
) -> End
    requires source_count { S.failed source.old < 2 ^ 64 - 1 }
    requires sink_count { K.failed sink.old < 2 ^ 64 - 1 }
{
    let alloc = rt.alloc();
    let mut warner = Warner { rt, format };
    if words.entities_in_lines {
        authorize_with_entities(alloc, files, source, sink, words.settings, &mut warner)
    } else {
        authorize(alloc, files, source, sink, words.settings, &mut warner)
    }
}
