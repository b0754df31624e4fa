//! Laws of digits.
ghost use Rattle.std.specs.Prelude.{◌≡◌, ℕ, List};
ghost use Rattle.cedar_ext.specs.Decimals.{number_after};
ghost use Rattle.cedar_text.specs.Numbers.{decimal_from};

/// Decimal digits have one value: the number that the text of a decimal writes with them is the number that a policy text
/// writes with them (Cedar language reference, decimal; grammar: INT). A law: it runs no code.
#[tactic(auto, using(crate::proofs::DigitsWorth::one_worth))]
pub fn digits_have_one_worth()
    ensures { (n : ℕ) (digits : List ℕ) → number_after n digits ≡ decimal_from n digits }
{}
