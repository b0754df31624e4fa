//! The text of a duration: its parts, and their sum.
ghost use Rattle.std.specs.Prelude.{◌≡◌, take, true, false, IfSome, IfNone};
ghost use Rattle.cedar_ext_time.specs.DurationOf.{sum_of, begins_with, after_part, digits_len};
ghost use Rattle.cedar_ext_time.specs.Digits.{number_of};
ghost use Rattle.cedar_ext_time.specs.Private.Capped.{capped, capped_some};

use crate::digits::{capped_number, leading_digits, leading_letters};
use crate::unit::Unit;

// The number of the part with this unit at the beginning of the text, and what follows the part. None where there is none.
fn first_part<'a>(unit: Unit, text: &'a [u8]) -> Option<(u64, &'a [u8])>
    ensures some { IfSome result (λ part. (begins_with unit text.now ≡ true)
        × (part.0 ≡ capped (number_of (take (digits_len text.now) text.now))) × (part.1.now ≡ after_part text.now)) }
    ensures none { IfNone result (begins_with unit text.now ≡ false) }
{
    let (digits, after) = text.split_at(leading_digits(text));
    let (letters, rest) = after.split_at(leading_letters(after));
    if !digits.is_empty() && letters == unit.name() {
        Some((capped_number(digits), rest))
    } else {
        None
    }
}

// The milliseconds that the text writes in these units, or the greatest number of 64 bits where they are more.
#[tactic(auto, unfolding(crate::specs::DurationOf::sum_of))]
pub(crate) fn sum(units: &[Unit], text: &[u8]) -> Option<u64>
    ensures { result ≡ capped_some (sum_of units.now text.now) }
{
    match units.split_first() {
        None => if text.is_empty() { Some(0) } else { None },
        Some((unit, later)) => match first_part(*unit, text) {
            None => sum(later, text),
            Some((number, rest)) => match sum(later, rest) {
                None => None,
                Some(others) => Some(
                    number
                        .saturating_mul(unit.milliseconds())
                        .saturating_add(others),
                ),
            },
        },
    }
}
