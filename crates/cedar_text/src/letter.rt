ghost use Rattle.std.specs.Prelude.{◌≡◌, ◌↔◌, true, IsSome, IfSome};

/// A character as a string token writes it.
///
/// A pattern and a string read `*` differently, so it is a letter of its own (Cedar language reference, "Operators": `like`).
#[derive(Clone, Copy, Debug, PartialEq, Eq)]
pub enum Letter {
    /// A character, written plainly or by an escape other than `\*`.
    Character(char),
    /// A bare `*`: in a string the character, in a pattern any run of characters.
    Star,
    /// The escape `\*`: in a pattern the character `*`; a string may not hold it.
    EscapedStar,
}

impl Letter {
    ghost use Rattle.cedar_text.specs.Letters.{is_plain, character_of};

    /// The character that the letter is in a string, which may not hold the escape `\*`.
    pub fn plain(self) -> Option<char>
        ensures plain { IsSome result ↔ (is_plain self ≡ true) }
        ensures value { IfSome result (λ c. c ≡ character_of self) }
    {
        match self {
            Letter::Character(c) => Some(c),
            Letter::Star => Some('*'),
            Letter::EscapedStar => None,
        }
    }
}
