/// What a token is (Cedar language reference, "Grammar"). A reserved word is a kind of its own.
#[derive(Clone, Copy, Debug, PartialEq, Eq)]
pub enum TokenKind {
    /// The reserved word `true`.
    True,
    /// The reserved word `false`.
    False,
    /// The reserved word `if`.
    If,
    /// The reserved word `then`.
    Then,
    /// The reserved word `else`.
    Else,
    /// The reserved word `in`.
    In,
    /// The reserved word `is`.
    Is,
    /// The reserved word `like`.
    Like,
    /// The reserved word `has`.
    Has,
    /// A word that is not reserved.
    Identifier,
    /// Digits, whose value the token holds.
    Number,
    /// A string with its quotes.
    String,
    /// A `?` and the word after it.
    Slot,
    /// `::`
    DoubleColon,
    /// `==`
    Equal,
    /// `!=`
    NotEqual,
    /// `<=`
    LessEqual,
    /// `>=`
    GreaterEqual,
    /// `&&`
    AndAnd,
    /// `||`
    OrOr,
    /// `@`
    At,
    /// `(`
    LeftParen,
    /// `)`
    RightParen,
    /// `{`
    LeftBrace,
    /// `}`
    RightBrace,
    /// `[`
    LeftBracket,
    /// `]`
    RightBracket,
    /// `,`
    Comma,
    /// `;`
    Semicolon,
    /// `.`
    Dot,
    /// `:`
    Colon,
    /// `<`
    Less,
    /// `>`
    Greater,
    /// `+`
    Plus,
    /// `-`
    Minus,
    /// `*`
    Star,
    /// `!`
    Not,
}
