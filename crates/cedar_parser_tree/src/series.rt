//! Arguments and members as they are written.
ghost use Rattle.std.specs.Prelude.{◌≡◌};

use crate::written::Written;
use std::marker::Model;

/// Expressions with commas between them, which contracts see as the list of them.
#[cycle(written)]
#[derive(Drop)]
pub struct Series {
    items: Vec<Written>,
}

impl Model for Series {
    ghost use Rattle.std.specs.Prelude.{List};
    ghost use Rattle.std.specs.Coded.{coded_list};
    ghost use Rattle.cedar_parser_tree.specs.Written.{Written};
    ghost use Rattle.cedar_parser_tree.specs.Private.WrittenCode.{written_code};

    ghost Value = { List Written };

    ghost coded = { coded_list written_code };

    ghost use Rattle.cedar_parser_tree.specs.Private.WrittenSize.{series_parts, most_items};

    ghost view = { λ s. s.items.items };

    ghost size = { series_parts };

    ghost use Rattle.std.specs.Prelude.{max};
    ghost use Rattle.std.proofs.Common.{arith};

    ghost size_decreases = { λ s _. omega (arith, most_items s.items.items) };
}

impl Series {
    /// These expressions. Takes no memory.
    pub fn new(items: Vec<Written>) -> Series
        ensures { result ≡ items.items }
    {
        Series { items }
    }

    /// The expressions in order, lent.
    pub fn items(&self) -> &[Written]
        ensures { result.now ≡ self.now }
    {
        &self.items
    }
}
