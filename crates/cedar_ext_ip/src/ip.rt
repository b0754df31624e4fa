//! IP addresses: version, address and prefix.
ghost use Rattle.std.specs.Prelude.{◌≡◌, ◌↔◌, ◌+◌, ◌*◌, ◌/◌, ◌^◌, ◌<◌, ◌≤◌, IsTrue, IfOk, IfSome, IfNone, Some, string_bytes};
ghost use Rattle.cedar_ext_ip.specs.Values.{IpValue, IsIpValue, width_of};
ghost use Rattle.cedar_ext_ip.specs.Texts.{IsIp, number_after};
ghost use Rattle.cedar_ext_ip.specs.IpOf.{ip_of, of_octets};
ghost use Rattle.cedar_ext_ip.specs.Order.{ip_cmp, same_ip};
ghost use Rattle.cedar_ext_ip.specs.Ranges.{IsWithin, is_within, is_four, is_six, first_bits, loopback_of, multicast_of};
ghost use Rattle.cedar_ext_ip.specs.declared.ip_version.IpVersion.TheVariants.{V4, V6};

use crate::ip_version::IpVersion;
use crate::text::read_bytes;
use crate::written::{four_text, six_text};
use std::alloc::{AllocError, Global};
use std::cmp::Ordering;
use std::marker::Model;

/// An IP address with a prefix: one address, or the range of the addresses that begin with the same bits, as many as the prefix
/// says (Cedar language reference, extension functions: ip). Two are equal if versions, addresses and prefixes are, so
/// `10.0.0.1/8` is not `10.0.0.0/8`. They are ordered by version, then by address, then by prefix.
#[derive(Clone, Copy, Debug)]
pub struct Ip {
    version: IpVersion,
    prefix: u8,
    // The address in four parts of 32 bits, the highest first. With parts of 64 bits, what holds an address would grow by a word.
    first: u32,
    second: u32,
    third: u32,
    fourth: u32,
}

impl Model for Ip {
    ghost use Rattle.cedar_ext_ip.specs.Values.{IpValue};

    ghost Value = { IpValue };

    ghost use Rattle.cedar_ext_ip.specs.Private.Inside.{value_of, fields_of, IsInside, fields_of-value_of};

    ghost view = { value_of };

    ghost invariant = { IsInside };

    ghost inverse = { fields_of };

    ghost inverse_ok = { fields_of-value_of };
}

impl Ip {
    /// The IP address that the text is: an address of version 4 or 6, and perhaps a slash and a prefix. None for another text
    /// (Cedar language reference, extension functions: ip).
    pub fn read(text: &str) -> Option<Ip>
        ensures some { IfSome result (λ ip. IsIp text.now ip) }
        ensures none { IfNone result ((ip : IpValue) → ¬ IsIp text.now ip) }
        ensures gives { result ≡ ip_of text.now }
    {
        read_bytes(text.as_bytes())
    }

    // The address of version 4 with these octets.
    pub(crate) fn of_octets(octets: [u8; 4]) -> Ip
        ensures { of_octets octets ≡ Some result }
    {
        let [a, b, c, d] = octets;
        Ip {
            version: IpVersion::V4,
            prefix: 32,
            first: 0,
            second: 0,
            third: 0,
            fourth: ((u32::from(a) * 256 + u32::from(b)) * 256 + u32::from(c)) * 256 + u32::from(d),
        }
    }

    // The address of version 6 with these groups.
    pub(crate) fn of_groups(groups: [u16; 8]) -> Ip
        ensures { result ≡ record { version = V6; address = number_after 0 groups; prefix = 128 } }
    {
        let [a, b, c, d, e, f, g, h] = groups;
        Ip {
            version: IpVersion::V6,
            prefix: 128,
            first: two_groups(a, b),
            second: two_groups(c, d),
            third: two_groups(e, f),
            fourth: two_groups(g, h),
        }
    }

    /// A text of the value: the address in lower case, with its longest run of zeros as `::`, and the prefix where it is not 32
    /// or 128. Fails only when out of memory.
    pub fn to_text(&self, alloc: Global) -> Result<String, AllocError>
        ensures { IfOk result (λ text. IsIp (string_bytes text) self.now) }
    {
        match self.version {
            IpVersion::V4 => four_text(alloc, self.fourth, self.prefix),
            IpVersion::V6 => six_text(
                alloc,
                joined(self.first, self.second),
                joined(self.third, self.fourth),
                self.prefix,
            ),
        }
    }

    // The same address with another prefix.
    pub(crate) fn with_prefix(self, prefix: u8) -> Ip
        requires { prefix ≤ width_of self.version }
        ensures { result ≡ record self { prefix = prefix } }
    {
        Ip {
            version: self.version,
            prefix,
            first: self.first,
            second: self.second,
            third: self.third,
            fourth: self.fourth,
        }
    }

    /// The version of the address.
    pub fn version(&self) -> IpVersion
        ensures { result ≡ self.now.version }
    {
        self.version
    }

    /// The address as a number: below 2^32 or 2^128, as the version says.
    pub fn address(&self) -> u128
        ensures number { result ≡ self.now.address }
        ensures fits { IsIpValue self.now }
    {
        u128::from(joined(self.first, self.second)) * (1 << 64)
            + u128::from(joined(self.third, self.fourth))
    }

    /// How many of the first bits of the address its range has: at most 32 or 128, as the version says.
    pub fn prefix(&self) -> u8
        ensures { result ≡ self.now.prefix }
    {
        self.prefix
    }

    /// Whether it is of version 4 (Cedar language reference, extension functions: ip, isIpv4).
    pub fn is_ipv4(&self) -> bool
        ensures { result ≡ is_four self.now.version }
    {
        match self.version {
            IpVersion::V4 => true,
            IpVersion::V6 => false,
        }
    }

    /// Whether it is of version 6 (Cedar language reference, extension functions: ip, isIpv6).
    pub fn is_ipv6(&self) -> bool
        ensures { result ≡ is_six self.now.version }
    {
        match self.version {
            IpVersion::V4 => false,
            IpVersion::V6 => true,
        }
    }

    /// Whether its range is within 127.0.0.0/8 or ::1/128 (Cedar language reference, extension functions: ip, isLoopback).
    pub fn is_loopback(&self) -> bool
        ensures meaning { IsTrue result ↔ IsWithin self.now (loopback_of self.now.version) }
        ensures gives { result ≡ is_within self.now (loopback_of self.now.version) }
    {
        self.is_in_range(loopback(self.version))
    }

    /// Whether its range is within 224.0.0.0/4 or ff00::/8 (Cedar language reference, extension functions: ip, isMulticast).
    pub fn is_multicast(&self) -> bool
        ensures meaning { IsTrue result ↔ IsWithin self.now (multicast_of self.now.version) }
        ensures gives { result ≡ is_within self.now (multicast_of self.now.version) }
    {
        self.is_in_range(multicast(self.version))
    }

    /// Whether both are of one version, and each address in the range of this one is in the other range (Cedar language
    /// reference, extension functions: ip, isInRange).
    pub fn is_in_range(&self, range: Ip) -> bool
        ensures meaning { IsTrue result ↔ IsWithin self.now range }
        ensures gives { result ≡ is_within self.now range }
    {
        self.has_its_first_bits(range)
    }

    // Whether it begins with the first bits of the other range.
    fn has_its_first_bits(&self, range: Ip) -> bool
        ensures gives { result ≡ is_within self.now range }
        ensures valid { IsIpValue range }
    {
        let last = range.version.width() - range.prefix;
        let same_version = self.version.width() == range.version.width();
        same_version
            && range.prefix <= self.prefix
            && without_last(self.address(), last) == without_last(range.address(), last)
    }
}

impl PartialEq for Ip {
    ghost use Rattle.std.specs.Cmp.{partial_equiv_from_equiv};
    ghost use Rattle.cedar_ext_ip.specs.Private.Laws.{ip_equivalence};
    ghost use Rattle.cedar_ext_ip.specs.Order.{same_ip};

    ghost eq = { same_ip };

    ghost laws = { partial_equiv_from_equiv ip_equivalence };

    /// Whether versions, addresses and prefixes are equal.
    fn eq(&self, other: &Self) -> bool
        ensures gives { result ≡ same_ip self.now other.now }
        ensures equal { IsTrue result ↔ (self.now ≡ other.now) }
    {
        let same_version = self.version.width() == other.version.width();
        same_version && self.address() == other.address() && self.prefix == other.prefix
    }
}

impl Eq for Ip {
    ghost use Rattle.cedar_ext_ip.specs.Private.Laws.{ip_equivalence};

    ghost laws = { ip_equivalence };
}

impl PartialOrd for Ip {
    ghost use Rattle.std.specs.Ordering.{as_partial_cmp};
    ghost use Rattle.cedar_ext_ip.specs.Order.{ip_cmp};
    ghost use Rattle.cedar_ext_ip.specs.Private.Laws.{ip_partial_order};

    ghost partial_cmp = { as_partial_cmp ip_cmp };

    ghost laws = { ip_partial_order };

    fn partial_cmp(&self, other: &Self) -> Option<Ordering> {
        Some(self.cmp(other))
    }
}

impl Ord for Ip {
    ghost use Rattle.std.specs.Prelude.{refl};
    ghost use Rattle.cedar_ext_ip.specs.Order.{ip_cmp};
    ghost use Rattle.cedar_ext_ip.specs.Private.Laws.{ip_total, ip_ties};

    ghost cmp = { ip_cmp };

    ghost total = { ip_total };

    ghost matches_partial_cmp = { λ x y. refl };

    ghost matches_eq = { ip_ties };

    fn cmp(&self, other: &Self) -> Ordering {
        let by_version = self.version.width().cmp(&other.version.width());
        let by_address = self.address().cmp(&other.address());
        by_version.then(by_address.then(self.prefix.cmp(&other.prefix)))
    }
}

// The number of two parts of 32 bits.
fn joined(high: u32, low: u32) -> u64
    ensures number { result ≡ high * 2 ^ 32 + low }
    ensures fits { result < 2 ^ 64 }
{
    u64::from(high) * 0x1_0000_0000 + u64::from(low)
}

// The number of two groups of 16 bits.
fn two_groups(a: u16, b: u16) -> u32
    ensures number { result ≡ a * 65536 + b }
    ensures fits { result < 2 ^ 32 }
{
    u32::from(a) * 65536 + u32::from(b)
}

// The bits of an address without so many of the last ones.
fn without_last(address: u128, last: u8) -> u128
    requires { last ≤ 128 }
    ensures { result ≡ address / 2 ^ last }
{
    if last == 128 { 0 } else { address >> last }
}

// The range of the addresses of this host.
fn loopback(version: IpVersion) -> Ip
    ensures { result ≡ loopback_of version }
{
    match version {
        IpVersion::V4 => Ip {
            version: IpVersion::V4,
            prefix: 8,
            first: 0,
            second: 0,
            third: 0,
            fourth: 127 << 24,
        },
        IpVersion::V6 => Ip {
            version: IpVersion::V6,
            prefix: 128,
            first: 0,
            second: 0,
            third: 0,
            fourth: 1,
        },
    }
}

// The range of the addresses of groups.
fn multicast(version: IpVersion) -> Ip
    ensures { result ≡ multicast_of version }
{
    match version {
        IpVersion::V4 => Ip {
            version: IpVersion::V4,
            prefix: 4,
            first: 0,
            second: 0,
            third: 0,
            fourth: 224 << 24,
        },
        IpVersion::V6 => Ip {
            version: IpVersion::V6,
            prefix: 8,
            first: 255 << 24,
            second: 0,
            third: 0,
            fourth: 0,
        },
    }
}
