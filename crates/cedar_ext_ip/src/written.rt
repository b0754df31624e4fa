//! Texts of IP addresses that are written.
ghost use Rattle.std.specs.Prelude.{◌≡◌, ◌<◌, ◌^◌, IfOk, string_bytes};
ghost use Rattle.std.specs.Net.Addr.{ipv6_segments};
ghost use Rattle.std.specs.Net.Text.{ipv4_text, hex_groups_text};
ghost use Rattle.cedar_ext_ip.specs.Private.Written.{octets_of, groups_of, written};

use std::alloc::{AllocError, Global};
use std::net::{Ipv4Addr, Ipv6Addr};

// The text of an address of version 4, with the prefix where it is not 32.
pub(crate) fn four_text(alloc: Global, address: u32, prefix: u8) -> Result<String, AllocError>
    ensures { IfOk result (λ s. string_bytes s ≡ written 32 prefix (ipv4_text (octets_of address))) }
{
    let octets = Ipv4Addr::new(
        (address / 0x100_0000) as u8,
        (address / 0x1_0000 % 0x100) as u8,
        (address / 0x100 % 0x100) as u8,
        (address % 0x100) as u8,
    );
    if prefix == 32 {
        format!(in alloc; "{octets}")
    } else {
        format!(in alloc; "{octets}/{prefix}")
    }
}

// The text of an address of version 6, which is given in two halves, with the prefix where it is not 128.
pub(crate) fn six_text(alloc: Global, high: u64, low: u64, prefix: u8) -> Result<String, AllocError>
    ensures { IfOk result (λ s. string_bytes s ≡ written 128 prefix (hex_groups_text (groups_of high low))) }
{
    let groups = six_address(high, low).hex_groups();
    if prefix == 128 {
        format!(in alloc; "{groups}")
    } else {
        format!(in alloc; "{groups}/{prefix}")
    }
}

// The address of version 6 with these two halves.
fn six_address(high: u64, low: u64) -> Ipv6Addr
    ensures { ipv6_segments result ≡ groups_of high low }
{
    Ipv6Addr::new(
        (high / 0x1_0000_0000_0000) as u16,
        (high / 0x1_0000_0000 % 0x1_0000) as u16,
        (high / 0x1_0000 % 0x1_0000) as u16,
        (high % 0x1_0000) as u16,
        (low / 0x1_0000_0000_0000) as u16,
        (low / 0x1_0000_0000 % 0x1_0000) as u16,
        (low / 0x1_0000 % 0x1_0000) as u16,
        (low % 0x1_0000) as u16,
    )
}
