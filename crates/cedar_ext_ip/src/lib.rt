//! IP addresses of the Cedar policy language.
//!
//! ```rust
//! use cedar_ext_ip::Ip;
//!
//! let host = Ip::read("10.1.2.3").unwrap();
//! let network = Ip::read("10.0.0.0/8").unwrap();
//! assert!(rt; host.is_in_range(network));
//! assert!(rt; !network.is_loopback());
//! ```
//!
//! A contract sees an IP address as its version, its address as a number, and its prefix.
#![tactic(auto)]

mod ip;
mod ip_version;
mod laws;
mod text;
mod written;

pub use ip::Ip;
pub use ip_version::IpVersion;
pub use laws::{ip_of_tells_ips, is_within_tells_ranges, text_is_of_one_value};
