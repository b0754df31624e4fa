//! The values of the members of items.
ghost use Rattle.std.specs.Prelude.{◌≡◌};
ghost use Rattle.base_json.specs.LentItems.{value_view};
ghost use Rattle.base_json.specs.LentObjects.{part_view};
ghost use Rattle.base_json.specs.Members.{lent_view};
ghost use Rattle.base_json.specs.Private.Whole.{IsWhole};

use crate::lent_object::{LentObject, LentPart};
use crate::lent_value::LentValue;
use serde_json::Value;

/// The value of a member of an item. A string is lent by what was read, and takes no memory. The same list of objects may come in either
/// form.
#[derive(Drop)]
pub enum ItemValue<'t> {
    /// A string, without quotation marks and escapes.
    Text(&'t str),
    /// An object, whose keys and strings are lent.
    Object(LentObject<'t>),
    /// A list of objects, whose keys and strings are lent.
    Objects(Vec<LentObject<'t>>),
    /// Any other value.
    Other(Value),
}

impl<'t> ItemValue<'t> {
    /// The value that a member has, where it is not a string in two parts.
    pub(crate) fn of_lent(value: LentValue<'t>) -> ItemValue<'t>
        requires { IsWhole value }
        ensures { value_view result ≡ lent_view value.entry }
    {
        match value {
            LentValue::String(text) => ItemValue::Text(text),
            LentValue::Object(object) => ItemValue::Object(object),
            LentValue::Tree(tree) => ItemValue::Other(tree),
            LentValue::Quoted(_) => unreachable!(),
        }
    }

    /// The value that is a string or a tree.
    pub(crate) fn of_part(part: LentPart<'t>) -> ItemValue<'t>
        ensures { value_view result ≡ part_view part.entry }
    {
        match part {
            LentPart::Text(text) => ItemValue::Text(text),
            LentPart::Other(tree) => ItemValue::Other(tree),
        }
    }
}
