//! The two versions of IP addresses.
ghost use Rattle.std.specs.Prelude.{◌≡◌, ◌≤◌};
ghost use Rattle.cedar_ext_ip.specs.Values.{width_of};

/// The version of an IP address (Cedar language reference, extension functions: ip).
#[derive(Clone, Copy, PartialEq, Eq, Debug)]
pub enum IpVersion {
    /// Addresses of 32 bits.
    V4,
    /// Addresses of 128 bits.
    V6,
}

impl IpVersion {
    /// The number of bits of an address: 32 or 128.
    pub fn width(self) -> u8
        ensures { result ≡ width_of self }
    {
        match self {
            IpVersion::V4 => 32,
            IpVersion::V6 => 128,
        }
    }
}
