//! Chains, made of their first operands and the links after them.
ghost use Rattle.std.specs.Prelude.{List};
ghost use Rattle.cedar_parser_tree.specs.declared.written.Link.{Link};
ghost use Rattle.cedar_parser_expressions.specs.Reading as reading;
ghost use Rattle.cedar_parser_tokens.specs.Marks.{Marks};
ghost use Rattle.cedar_parser_tokens.specs.Reading.{Outcome};
ghost use Rattle.cedar_parser_tokens.specs.Contract.{ReadsItems};
ghost use Rattle.cedar_parser_expressions.specs.Private.Boxed.{ReadsBoxed};

use crate::constructors::chain;
use cedar_parser_tokens::ParseFault;
use cedar_parser_tree::{Link, Span, Written};
use std::alloc::Global;

/// A first operand with the links that were parsed after it, or their fault.
#[inline(never)]
pub fn finish_chain(
    alloc: Global,
    first: Box<Written>,
    links: Result<Vec<Link>, ParseFault>,
    span: Span,
) -> Result<Box<Written>, ParseFault>
    ensures { (o : Outcome (List Link)) (us : Marks) → ReadsItems o links us → ReadsBoxed (reading.behind first.value o) result us }
{
    match links {
        Ok(links) => Ok(chain(alloc, first, links, span)?),
        Err(fault) => {
            drop(first);
            Err(fault)
        }
    }
}
