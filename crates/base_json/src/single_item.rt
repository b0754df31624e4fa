//! Items of a list, each read from a text of its own.
ghost use Rattle.std.specs.Prelude.{◌≡◌, None, Some, IfOk, IfSome};
ghost use Rattle.serde_json.specs.View.{view};
ghost use Rattle.base_json.specs.LentItems.{item_of, item_view};

use crate::items::ITEM_DEPTH;
use crate::lent_item::{LentItem, read_item_members};
use crate::tree::read_tree;
use crate::tree_fault::TreeFault;
use json::{Reader, Scratch, Token};
use serde_json::Value;
use std::alloc::{AllocError, Global};

/// The tree of the text as an item of a list, where the text is one item.
pub(crate) fn read_item(
    alloc: Global,
    text: &str,
    scratch: &mut Scratch,
) -> Result<Option<Value>, AllocError>
    ensures { IfOk result (λ found. IfSome found (λ v. item_of text.now ≡ Some (view v))) }
{
    let mut reader = Reader::new(text, scratch)?;
    match read_tree(alloc, &mut reader, ITEM_DEPTH) {
        Ok(item) => {
            if reader.next().is_some() {
                return Ok(None);
            }
            Ok(Some(item))
        }
        Err(fault) => none_unless_refused(fault),
    }
}

/// The members of the text as an item of a list, where the text is one item and an object.
pub(crate) fn read_lent_item<'r>(
    alloc: Global,
    text: &'r str,
    scratch: &'r mut Scratch,
) -> Result<Option<LentItem<'r>>, AllocError>
    ensures { IfOk result (λ found. IfSome found (λ o. item_of text.now ≡ Some (item_view o))) }
{
    let mut reader = Reader::new(text, scratch)?;
    let Some(token) = reader.next() else {
        return Ok(None);
    };
    let Token::BeginObject = token else {
        return Ok(None);
    };
    match read_item_members(alloc, &mut reader, ITEM_DEPTH - 1) {
        Ok(item) => {
            if reader.next().is_some() {
                return Ok(None);
            }
            Ok(Some(item))
        }
        Err(fault) => none_unless_refused(fault),
    }
}

// None for a text that is not JSON.
fn none_unless_refused<T>(fault: TreeFault) -> Result<Option<T>, AllocError>
    ensures { IfOk result (λ found. found ≡ None) }
{
    match fault {
        TreeFault::OutOfMemory => Err(AllocError),
        TreeFault::Invalid => Ok(None),
    }
}
