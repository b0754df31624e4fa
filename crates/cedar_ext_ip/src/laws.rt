//! What the functions and tests that evaluation is to use decide. Each law is proved by its contract, and runs no code.
ghost use Rattle.std.specs.Prelude.{◌≡◌, ◌↔◌, ℕ, List, Some};
ghost use Rattle.std.specs.Bool.{Decides};
ghost use Rattle.cedar_ext_ip.specs.Values.{IpValue, IsIpValue};
ghost use Rattle.cedar_ext_ip.specs.Texts.{IsIp};
ghost use Rattle.cedar_ext_ip.specs.IpOf.{ip_of};
ghost use Rattle.cedar_ext_ip.specs.Ranges.{IsWithin, is_within};

/// The value found in a text is the value that the text has, and there is none where the text is not an IP address (Cedar
/// language reference, extension functions: ip). A law: it runs no code.
pub fn ip_of_tells_ips()
    ensures { (text : List ℕ) (ip : IpValue) → (ip_of text ≡ Some ip) ↔ IsIp text ip }
{}

/// A text is of one value at most (Cedar language reference, extension functions: ip). A law: it runs no code.
pub fn text_is_of_one_value()
    ensures { (text : List ℕ) (a b : IpValue) → IsIp text a → IsIp text b → a ≡ b }
{}

/// The test of ranges holds exactly where the versions are the same, and each address of the one range is in the other (Cedar
/// language reference, extension functions: ip, isInRange). A law: it runs no code.
pub fn is_within_tells_ranges()
    ensures { (ip range : IpValue) → IsIpValue ip → IsIpValue range → Decides (is_within ip range) (IsWithin ip range) }
{}
