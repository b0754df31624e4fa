//! What the tests that evaluation uses decide. Each law is proved by its contract, and runs no code.
ghost use Rattle.std.specs.Prelude.{◌≡◌, ◌↔◌, ℕ, ℤ, List, Some};
ghost use Rattle.std.specs.Bool.{Decides};
ghost use Rattle.cedar_ext.specs.Decimals.{IsDecimal};
ghost use Rattle.cedar_ext.specs.DecimalOf.{decimal_of};
ghost use Rattle.cedar_ext.specs.Matching.{IsMatch, is_match};
ghost use Rattle.cedar_ext.specs.declared.pattern.Element.{Element as Part};

/// The test of matching holds exactly where the characters can be cut into pieces, one for each element (Cedar language
/// reference, like). A law: it runs no code.
pub fn is_match_tells_cuts()
    ensures { (parts : List Part) (characters : List ℕ) → Decides (is_match parts characters) (IsMatch parts characters) }
{}

/// The number found in a text is that of the decimal that the text writes, and there is none where the text writes no decimal
/// (Cedar language reference, decimal). A law: it runs no code.
pub fn decimal_of_tells_decimals()
    ensures { (text : List ℕ) (units : ℤ) → (decimal_of text ≡ Some units) ↔ IsDecimal text units }
{}
