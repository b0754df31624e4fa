//! JSON texts one after another.
ghost use Rattle.std.specs.Prelude.{◌≡◌, ◌≢◌, Some, None, IfOk, IfSome, MatchOption, MatchResult, option_and_then, option_map};
ghost use Rattle.json.specs.Lex.{tokens};
ghost use Rattle.serde_json.specs.Data.{array, no_members, object};
ghost use Rattle.serde_json.specs.Find.{as_array, as_object};
ghost use Rattle.serde_json.specs.Read.{read as tree_of_text};
ghost use Rattle.serde_json.specs.View.{view};
ghost use Rattle.base_json.specs.JsonTree.{json_of};
ghost use Rattle.base_json.specs.Items.{to_come};
ghost use Rattle.base_json.specs.LentItems.{item_of, item_view};
ghost use Rattle.base_json.specs.Members.{members_to_come};
ghost use Rattle.base_json.specs.declared.tree_fault.TreeFault.TheVariants.{OutOfMemory};

use crate::items::ItemReader;
use crate::lent_item::LentItem;
use crate::list_text::ListText;
use crate::members::MemberReader;
use crate::single_item::{read_item, read_lent_item};
use crate::tree::read_tree;
use crate::tree_fault::TreeFault;
use json::{Reader, Scratch};
use serde_json::Value;
use std::alloc::{AllocError, Global};

// How deep arrays and objects may nest.
const MAX_DEPTH: usize = 127;

/// Reads JSON texts with buffers that are kept from text to text: one for strings with escapes, as long as the longest text,
/// and one of 16 KiB for the places of a text's tokens. Both are on the heap.
#[derive(Drop)]
pub struct JsonReader {
    scratch: Box<Scratch, Global>,
}

impl JsonReader {
    /// A reader with room for no string yet.
    ///
    /// # Errors
    ///
    /// Fails only when out of memory.
    // It is not inlined, so that the buffer is on the call stack only while it is made.
    #[inline(never)]
    pub fn new(alloc: Global) -> Result<JsonReader, AllocError> {
        Ok(JsonReader {
            scratch: Box::new(alloc, Scratch::new(alloc))?,
        })
    }

    /// The JSON tree of the bytes. None exactly where they are not UTF-8, not JSON, or nest deeper than 127 (RFC 8259).
    ///
    /// # Errors
    ///
    /// Fails only when out of memory.
    pub fn read(&mut self, alloc: Global, bytes: &[u8]) -> Result<Option<Value>, AllocError>
        ensures { IfOk result (λ found. option_map view found ≡ json_of bytes.now) }
    {
        let Ok(text) = std::str::from_utf8(bytes) else {
            return Ok(None);
        };
        match read_text(alloc, text, &mut *self.scratch) {
            Ok(json) => Ok(Some(json)),
            Err(fault) => match fault {
                TreeFault::OutOfMemory => Err(AllocError),
                TreeFault::Invalid => Ok(None),
            },
        }
    }

    /// The items of the bytes, to be read one after another, where the bytes begin as a list does (RFC 8259, section 5). None
    /// where they do not begin so, or are not UTF-8: then they are not a JSON list.
    ///
    /// # Errors
    ///
    /// Fails only when out of memory.
    pub fn items<'r>(&'r mut self, bytes: &'r [u8]) -> Result<Option<ItemReader<'r>>, AllocError>
        ensures { IfOk result (λ found. MatchOption found (option_and_then as_array (json_of bytes.now) ≡ None)
            (λ items. json_of bytes.now ≡ option_map array (to_come items))) }
    {
        let Ok(text) = std::str::from_utf8(bytes) else {
            return Ok(None);
        };
        ItemReader::open(text, &mut *self.scratch)
    }

    /// The members of the bytes, to be read one after another, where the bytes begin as an object does (RFC 8259, section 4). None
    /// where they do not begin so, or are not UTF-8: then they are not a JSON object.
    ///
    /// # Errors
    ///
    /// Fails only when out of memory.
    pub fn members<'r>(
        &'r mut self,
        bytes: &'r [u8],
    ) -> Result<Option<MemberReader<'r>>, AllocError>
        ensures { IfOk result (λ found. MatchOption found (option_and_then as_object (json_of bytes.now) ≡ None)
            (λ members. json_of bytes.now ≡ option_map object (members_to_come no_members members))) }
    {
        let Ok(text) = std::str::from_utf8(bytes) else {
            return Ok(None);
        };
        MemberReader::open(text, &mut *self.scratch)
    }

    /// The tree of an item of a list, from the item's own text. None where the text is not JSON, or nests deeper than an item may.
    ///
    /// # Errors
    ///
    /// Fails only when out of memory.
    pub fn item(&mut self, alloc: Global, text: &str) -> Result<Option<Value>, AllocError>
        ensures { IfOk result (λ found. IfSome found (λ v. item_of text.now ≡ Some (view v))) }
    {
        read_item(alloc, text, &mut *self.scratch)
    }

    /// The members of an item of a list that is an object, from the item's own text. None where the text is not an object, or nests
    /// deeper than an item may.
    ///
    /// # Errors
    ///
    /// Fails only when out of memory.
    pub fn lent_item<'r>(
        &'r mut self,
        alloc: Global,
        text: &'r str,
    ) -> Result<Option<LentItem<'r>>, AllocError>
        ensures { IfOk result (λ found. IfSome found (λ o. item_of text.now ≡ Some (item_view o))) }
    {
        read_lent_item(alloc, text, &mut *self.scratch)
    }

    /// The items of a list that are left, to be read one after another.
    ///
    /// # Errors
    ///
    /// Fails only when out of memory.
    pub fn items_left<'r>(&'r mut self, list: &'r ListText) -> Result<ItemReader<'r>, AllocError>
        ensures { IfOk result (λ items. items ≡ tokens list.now) }
    {
        ItemReader::over(list.left(), &mut *self.scratch)
    }
}

fn read_text(alloc: Global, text: &str, scratch: &mut Scratch) -> Result<Value, TreeFault>
    ensures { MatchResult result
        (λ v. tree_of_text text.now ≡ Some (view v))
        (λ e. e ≢ OutOfMemory → tree_of_text text.now ≡ None) }
{
    let mut reader = Reader::new(text, scratch)?;
    let value = read_tree(alloc, &mut reader, MAX_DEPTH)?;
    if reader.next().is_some() {
        return Err(TreeFault::Invalid);
    }
    Ok(value)
}
