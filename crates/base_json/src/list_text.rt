//! A JSON text that is a list, of which the first items were passed.
ghost use Rattle.std.specs.Prelude.{◌≡◌, drop, IfOk, IfSome, MatchResult, option_map};
ghost use Rattle.std.specs.Str.{IsCharBoundary};
ghost use Rattle.serde_json.specs.Data.{array};
ghost use Rattle.base_json.specs.JsonTree.{json_of};
ghost use Rattle.base_json.specs.LentItems.{item_view};
ghost use Rattle.base_json.specs.Lists.{ComesNext, IsNext, left_in};

use crate::behind::{items_start, left_behind};
use crate::lent_item::LentItem;
use crate::object_text::{ObjectText, first_object};
use crate::plain_item::item_at;
use std::alloc::{AllocError, Global};
use std::marker::Model;

// How many bytes are passed at least before they are freed, so that the rest is not moved often.
const LET_GO: usize = 65536;

/// An object in the plain form that comes next in a list.
#[derive(Drop)]
pub struct PlainItem<'t> {
    /// The object.
    pub item: LentItem<'t>,
    /// How many bytes of the list come before the items that are after the object.
    pub passed: usize,
}

/// A JSON text that is a list, of which the first items were passed (RFC 8259, section 5). What was passed is freed, so memory depends
/// on what is left of the text. Contracts see the bytes that the list goes on with.
#[derive(Drop)]
pub struct ListText {
    text: String,
    // The position at which the rest begins.
    offset: usize,
}

impl Model for ListText {
    ghost use Rattle.std.specs.Prelude.{ℕ, List, drop, string_bytes};
    ghost use Rattle.std.specs.Str.{IsCharBoundary};

    ghost Value = { List ℕ };

    ghost view = { λ a. drop a.offset (string_bytes a.text) };

    ghost invariant = { λ a. IsCharBoundary (string_bytes a.text) a.offset };
}

impl ListText {
    /// The list of the bytes where they begin as a list does. Hands the bytes back where they are not UTF-8 or do not begin so. Takes no
    /// memory.
    pub fn open(bytes: Vec<u8>) -> Result<ListText, Vec<u8>>
        ensures { MatchResult result (λ list. json_of bytes.items ≡ option_map array (left_in list))
            (λ handed. handed.items ≡ bytes.items) }
    {
        let text = match String::from_utf8(bytes) {
            Ok(text) => text,
            Err(fault) => return Err(fault.into_bytes()),
        };
        match items_start(text.as_str()) {
            Some(offset) => Ok(ListText { text, offset }),
            None => Err(text.into_bytes()),
        }
    }

    /// The text of the next item, where that item is an object and more follows it. Takes no memory.
    pub fn object(&self) -> Option<ObjectText<'_>>
        ensures { IfSome result (λ o. ComesNext o.text.now o.passed self.now) }
    {
        first_object(self.left())
    }

    /// The next item, where it is an object in the plain form and more follows it: its members are strings without escapes, whole numbers
    /// and truths, objects of such members, and lists of such objects. None for another item. Nothing is passed yet.
    ///
    /// # Errors
    ///
    /// Fails only when out of memory.
    pub fn plain_item(&self, alloc: Global) -> Result<Option<PlainItem<'_>>, AllocError>
        ensures { IfOk result (λ found. IfSome found (λ o. IsNext (item_view o.item) o.passed self.now)) }
    {
        let text = self.left();
        let Some((item, end)) = item_at(alloc, text, 0)? else {
            return Ok(None);
        };
        match left_behind(text.as_bytes(), end) {
            Some(passed) => Ok(Some(PlainItem { item, passed })),
            None => Ok(None),
        }
    }

    /// Passes the first bytes, as many as [`ObjectText`] or [`PlainItem`] says.
    ///
    /// # Errors
    ///
    /// Fails only when out of memory.
    pub fn pass(&mut self, passed: usize) -> Result<(), AllocError>
        requires { IsCharBoundary self.old passed }
        ensures { IfOk result (λ _. self.new ≡ drop passed self.old) }
    {
        self.offset += passed;
        self.let_go()
    }

    /// The text that is left.
    pub(crate) fn left(&self) -> &str
        ensures { result.now ≡ self.now }
    {
        &self.text[self.offset..]
    }

    // Frees what was passed where it is more than half of a long text, so all that is ever moved is less than the text. What is
    // left is moved to the front of its buffer, and the room after it is given back.
    fn let_go(&mut self) -> Result<(), AllocError>
        ensures { IfOk result (λ _. self.new ≡ self.old) }
    {
        let passed = self.offset;
        if passed > LET_GO && passed > self.text.len() / 2 {
            self.text.replace_range(..passed, "")?;
            self.offset = 0;
            self.text.shrink_to_fit();
        }
        Ok(())
    }
}
