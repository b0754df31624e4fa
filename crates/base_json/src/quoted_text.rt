//! Strings with a part in quotation marks at their end.
ghost use Rattle.std.specs.Prelude.{◌≡◌, true};
ghost use Rattle.std.specs.List.{list_all};
ghost use Rattle.base_json.specs.Quoted.{is_plain, with_quoted};

use std::marker::Model;

/// A string with a part in quotation marks at its end, for example `User::"ann"`, lent in two parts. Contracts see the string.
#[derive(Drop)]
pub struct QuotedText<'t> {
    before: &'t str,
    quoted: &'t str,
}

impl<'t> Model for QuotedText<'t> {
    ghost use Rattle.std.specs.Prelude.{◌≡◌, ℕ, List, true};
    ghost use Rattle.std.specs.List.{list_all};
    ghost use Rattle.base_json.specs.Quoted.{is_plain, with_quoted};

    ghost Value = { List ℕ };

    ghost view = { λ q. with_quoted q.before.now q.quoted.now };

    ghost invariant = { λ q. list_all is_plain q.quoted.now ≡ true };
}

impl<'t> QuotedText<'t> {
    /// The string of these parts, of which the second is plain.
    pub(crate) fn new(before: &'t str, quoted: &'t str) -> QuotedText<'t>
        requires { list_all is_plain quoted.now ≡ true }
        ensures { result ≡ with_quoted before.now quoted.now }
    {
        QuotedText { before, quoted }
    }

    /// The part before the quotation marks, and the part between them. The second has neither a quotation mark, a backslash nor a control
    /// character.
    pub fn parts(&self) -> (&'t str, &'t str)
        ensures whole { self.now ≡ with_quoted result.0.now result.1.now }
        ensures plain { list_all is_plain result.1.now ≡ true }
    {
        (self.before, self.quoted)
    }
}
