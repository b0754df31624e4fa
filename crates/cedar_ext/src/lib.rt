//! Extension types and patterns of the Cedar policy language.
//!
//! ```rust
//! use cedar_ext::{Decimal, Element, Pattern};
//!
//! let price = Decimal::read("1.5").unwrap();
//! assert_eq!(rt; price.units(), 15000);
//! let jpg = Pattern::new(vec![in alloc; Element::Star, Element::Character('j'), Element::Character('p')]?);
//! assert!(rt; jpg.matches("a.jp"));
//! ```
//!
//! A contract sees a decimal as its number of ten-thousandths, and a pattern as the list of its elements. Only the copy of a
//! pattern takes memory.
#![tactic(auto)]

mod comparison;
mod constructor;
mod decimal;
mod extension;
mod language;
mod laws;
mod method;
mod method_error;
mod pattern;
mod scalar;
mod unary_method;
mod words;

pub use cedar_ext_ip::Ip;
pub use cedar_ext_time::{Datetime, Duration};
pub use comparison::ordered_are_typed;
pub use decimal::Decimal;
pub use extension::{Extension, ExtensionType};
pub use language::Language;
pub use laws::{decimal_of_tells_decimals, is_match_tells_cuts};
pub use method::{BinaryMethod, Row, rows_are_typed};
pub use method_error::MethodError;
pub use pattern::{Element, Pattern};
pub use scalar::{Scalar, ScalarType};
pub use unary_method::{UnaryMethod, UnaryRow, unary_rows_are_typed};
