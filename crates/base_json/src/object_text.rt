//! The text of the object that begins what is left of a list.
ghost use Rattle.std.specs.Prelude.{IfSome};
ghost use Rattle.base_json.specs.Lists.{ComesNext};

use crate::behind::left_behind;
use crate::object_end::object_end;

/// The text of an object that comes next in a list. Whether it is JSON is not tested.
#[derive(Clone, Copy, Drop)]
pub struct ObjectText<'t> {
    /// The object, from brace to brace.
    pub text: &'t str,
    /// How many bytes of the list come before the items that are after the object.
    pub passed: usize,
}

/// The object that begins the text. None where the text does not begin with an object, or where neither an object nor the end of the
/// list follows it.
pub(crate) fn first_object(text: &str) -> Option<ObjectText<'_>>
    ensures { IfSome result (λ o. ComesNext o.text.now o.passed text.now) }
{
    let bytes = text.as_bytes();
    let end = object_end(bytes)?;
    let passed = left_behind(bytes, end)?;
    let (object, _behind) = text.split_at_checked(end)?;
    Some(ObjectText {
        text: object,
        passed,
    })
}
