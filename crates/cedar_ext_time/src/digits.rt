//! Runs of digits, and the numbers that they write.
ghost use Rattle.std.specs.Prelude.{◌≡◌, ◌≤◌, ◌<◌, length, not, true, IfSome};
ghost use Rattle.std.specs.List.{position, list_all};
ghost use Rattle.std.specs.Char.{is_ascii_digit};
ghost use Rattle.cedar_ext_time.specs.Digits.{number_of, are_digits};
ghost use Rattle.cedar_ext_time.specs.DurationOf.{digits_len, letters_len};
ghost use Rattle.cedar_ext_time.specs.Private.Capped.{capped};

// The place of the first byte that is not a digit.
fn first_letter(text: &[u8]) -> Option<usize>
    ensures place { result ≡ position (λ b. not (is_ascii_digit b)) text.now }
    ensures within { IfSome result (λ i. i < length text.now) }
{
    text.iter().position(|b| !b.is_ascii_digit())
}

// The place of the first digit.
fn first_digit(text: &[u8]) -> Option<usize>
    ensures place { result ≡ position is_ascii_digit text.now }
    ensures within { IfSome result (λ i. i < length text.now) }
{
    text.iter().position(|b| b.is_ascii_digit())
}

// How many digits the text begins with.
pub(crate) fn leading_digits(text: &[u8]) -> usize
    ensures count { result ≡ digits_len text.now }
    ensures within { result ≤ length text.now }
{
    first_letter(text).unwrap_or(text.len())
}

// How many bytes the text begins with that are not digits.
pub(crate) fn leading_letters(text: &[u8]) -> usize
    ensures count { result ≡ letters_len text.now }
    ensures within { result ≤ length text.now }
{
    first_digit(text).unwrap_or(text.len())
}

// The number that digits write, or the greatest of 64 bits where it is greater.
pub(crate) fn capped_number(digits: &[u8]) -> u64
    ensures { result ≡ capped (number_of digits.now) }
{
    let mut number: u64 = 0;
    for digit in digits {
        number = number
            .saturating_mul(10)
            .saturating_add(u64::from(digit.saturating_sub(b'0')));
    }
    number
}

// Whether all are digits.
pub(crate) fn all_digits(text: &[u8]) -> bool
    ensures { result ≡ list_all is_ascii_digit text.now }
{
    text.iter().all(|b| b.is_ascii_digit())
}

// Whether these are so many digits.
pub(crate) fn are_digits(count: usize, text: &[u8]) -> bool
    ensures { result ≡ are_digits count text.now }
{
    text.len() == count && all_digits(text)
}

// The number that up to four digits write.
pub(crate) fn small_number(digits: &[u8]) -> u64
    requires all { list_all is_ascii_digit digits.now ≡ true }
    requires few { length digits.now ≤ 4 }
    ensures number { result ≡ number_of digits.now }
    ensures within { result ≤ 9999 }
{
    capped_number(digits)
}
