//! The size of the tests of `has` along a path of attributes.
ghost use Rattle.std.specs.Prelude.{◌≡◌, List, ℕ};
ghost use Rattle.cedar_ast_expressions.specs.Expression.{Expression};
ghost use Rattle.cedar_parser_limits.specs.Meaning.{asked_of};
ghost use Rattle.cedar_parser_limits.specs.Limits.{size_of};
ghost use Rattle.cedar_parser_limits.specs.Private.Capped.{capped};

use crate::size::Size;
use cedar_value::Text;

/// The size of the tests of an operand of this size, with these attributes after the first one.
pub fn attribute_path_size(operand: Size, more: &[Text]) -> Size
    ensures { (a : Expression) (first : List ℕ) → operand ≡ capped (size_of a) → result ≡ capped (size_of (asked_of a first more.now)) }
{
    let mut asked = operand.above();
    let mut place = operand.above();
    for _name in more {
        let next = place.above();
        asked = asked.above_both(next);
        place = next;
    }
    asked
}
