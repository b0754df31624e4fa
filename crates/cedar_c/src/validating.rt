//! Reports on texts, in place of publishing them.
ghost use Rattle.std.specs.Prelude.{List, ℕ, ◌≡◌, ◌≢◌, ◌≤◌, [], ◌∷◌, drop, length, take};
ghost use Rattle.cedar_c.specs.Buffers.{IsTooLong};
ghost use Rattle.cedar_c.specs.Publishing.{HaveFaults};
ghost use Rattle.cedar_c.specs.Statuses.{IsOneOf};
ghost use Rattle.cedar_c.specs.Texts.{held_by};
ghost use Rattle.cedar_c.specs.Validating.{HaveNoFaults, IsRefusedIn, IsReported};

use crate::buffer::give;
use crate::status::{FAULTS, MEMORY, OK, REFUSED};
use crate::texts::Texts;
use base_lines::VecSink;
use cedar_check_spec::Settings;
use cedar_files::{End, validate};
use std::alloc::Global;

// The status of a text that is as it should be, where the buffer has room for it.
fn unless_too_long(status: u32, given: u32) -> u32
    ensures fits { given ≡ 0 → result ≡ status }
    ensures room { given ≢ 0 → result ≡ given }
{
    if given == OK { status } else { given }
}

/// Gives the report on the policies against the schema, or the line that refuses a file.
pub(crate) fn report_on(
    alloc: Global,
    texts: &Texts<'_>,
    settings: Settings,
    text: &mut [u8],
    written: &mut usize,
) -> u32
    ensures ok { result ≡ 0 → HaveNoFaults settings (held_by texts.now) (take written.new text.new) }
    ensures refused { result ≡ 2 → IsRefusedIn settings (held_by texts.now) (take written.new text.new) }
    ensures faults { result ≡ 3 → HaveFaults settings (held_by texts.now) (take written.new text.new) }
    ensures room { result ≡ 6 → (told : List ℕ) × IsReported settings (held_by texts.now) told × IsTooLong told text.old written.new }
    ensures rest { result ≢ 1 → result ≢ 6 → drop written.new text.new ≡ drop written.new text.old }
    ensures fits { result ≢ 1 → result ≢ 6 → written.new ≤ length text.old }
    ensures untouched { result ≡ 6 → text.new ≡ text.old }
    ensures memory { result ≡ 1 → (text.new ≡ text.old) × (written.new ≡ written.old) }
    ensures known { IsOneOf (0 ∷ 1 ∷ 2 ∷ 3 ∷ 6 ∷ []) result }
{
    let mut sink = VecSink::new(alloc);
    match validate(alloc, texts, &mut sink, settings) {
        End::Done => give(sink.bytes(), text, written),
        End::Refused => unless_too_long(REFUSED, give(sink.bytes(), text, written)),
        End::Faults => unless_too_long(FAULTS, give(sink.bytes(), text, written)),
        End::Device | End::Memory => MEMORY,
        // Both the schema and the policies are there.
        End::CommandLine => unreachable!(),
    }
}
