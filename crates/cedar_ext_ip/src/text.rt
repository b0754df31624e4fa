//! Texts of IP addresses.
ghost use Rattle.std.specs.Prelude.{◌≡◌, ◌<◌, ◌≤◌, ◌==◌, position, length, IfSome};
ghost use Rattle.cedar_ext_ip.specs.Values.{IsIpValue, width_of};
ghost use Rattle.cedar_ext_ip.specs.IpOf.{ip_of, ip_around, address_of, four_of, six_of, with_prefix, digits_of, prefix_of};

use crate::ip::Ip;
use std::net::{Ipv4Addr, Ipv6Addr};

// The IP address that these bytes are, cut at the first slash.
pub(crate) fn read_bytes(bytes: &[u8]) -> Option<Ip>
    ensures { result ≡ ip_of bytes.now }
{
    match first_slash(bytes) {
        None => read_address(bytes),
        Some(slash) => read_prefix(read_address(&bytes[..slash])?, &bytes[slash + 1..]),
    }
}

// The place of the first slash.
fn first_slash(bytes: &[u8]) -> Option<usize>
    ensures place { result ≡ position (λ b. b == 47) bytes.now }
    ensures within { IfSome result (λ i. i < length bytes.now) }
{
    bytes.iter().position(|b| *b == b'/')
}

// The address that these bytes are, of either version.
fn read_address(bytes: &[u8]) -> Option<Ip>
    ensures { result ≡ address_of bytes.now }
{
    match read_four(bytes) {
        Some(ip) => Some(ip),
        None => read_six(bytes),
    }
}

// The address of version 4 that these bytes are.
fn read_four(bytes: &[u8]) -> Option<Ip>
    ensures { result ≡ four_of bytes.now }
{
    match Ipv4Addr::parse_ascii(bytes) {
        Ok(address) => Some(Ip::of_octets(address.octets())),
        Err(_) => None,
    }
}

// The address of version 6 that these bytes are, without a part that is written as of version 4.
fn read_six(bytes: &[u8]) -> Option<Ip>
    ensures { result ≡ six_of bytes.now }
{
    if bytes.contains(&b'.') {
        return None;
    }
    match Ipv6Addr::parse_ascii(bytes) {
        Ok(address) => Some(Ip::of_groups(address.segments())),
        Err(_) => None,
    }
}

// The address with the prefix that these bytes after the slash are.
fn read_prefix(address: Ip, bytes: &[u8]) -> Option<Ip>
    ensures { result ≡ with_prefix bytes.now address }
{
    let prefix = read_digits(bytes)?;
    if prefix <= u32::from(address.version().width()) {
        Some(address.with_prefix(prefix as u8))
    } else {
        None
    }
}

// The number that one to three decimal digits are, without a leading zero.
fn read_digits(bytes: &[u8]) -> Option<u32>
    ensures { result ≡ digits_of bytes.now }
{
    match bytes {
        [a] if a.is_ascii_digit() => Some(u32::from(*a - b'0')),
        [a, b] if a.is_ascii_digit() && b.is_ascii_digit() && *a != b'0' => {
            Some(u32::from(*a - b'0') * 10 + u32::from(*b - b'0'))
        }
        [a, b, c] if a.is_ascii_digit() && b.is_ascii_digit() && c.is_ascii_digit() && *a != b'0' =>
            { Some(u32::from(*a - b'0') * 100 + u32::from(*b - b'0') * 10 + u32::from(*c - b'0')) }
        _ => None,
    }
}
