//! The items of a JSON text that is a list, one after another.
ghost use Rattle.std.specs.Prelude.{◌≡◌, ◌<◌, length, Some, None, IfOk, IsSome, IsTrue, MatchOption, MatchResult, OnSome, is_some, option_and_then, option_map};
ghost use Rattle.std.specs.Bool.{MatchBool};
ghost use Rattle.json.specs.Lex.{tokens};
ghost use Rattle.serde_json.specs.Data.{array, no_items, item};
ghost use Rattle.serde_json.specs.Find.{as_array};
ghost use Rattle.serde_json.specs.Read.{read as tree_of_text};
ghost use Rattle.serde_json.specs.View.{view};
ghost use Rattle.base_json.specs.Items.{to_come};
ghost use Rattle.base_json.specs.Private.Trees.{tree_of_tokens};
ghost use Rattle.base_json.specs.declared.tree_fault.TreeFault.TheVariants.{Invalid};

use crate::tree::read_tree;
use crate::tree_fault::TreeFault;
use json::{Reader, Scratch, Token};
use serde_json::Value;
use std::alloc::{AllocError, Global};
use std::marker::Model;

/// How deep arrays and objects may nest in an item: the list itself is one of a text's 127 levels.
pub(crate) const ITEM_DEPTH: usize = 126;

/// The items of a JSON text that is a list, one after another, so that the tree of one can be freed before the next is read
/// (RFC 8259, section 5). Contracts see the tokens that are to come.
#[derive(Drop)]
pub struct ItemReader<'r> {
    reader: Reader<'r>,
}

impl<'r> Model for ItemReader<'r> {
    ghost use Rattle.std.specs.Prelude.{List};
    ghost use Rattle.json.specs.Token.{Token, tokens_code};

    ghost Value = { List Token };

    ghost coded = { tokens_code };

    ghost view = { λ items. items.reader };
}

impl<'r> ItemReader<'r> {
    /// The items of the text where it begins as a list does. The memory that it takes grows with the length of the text.
    pub(crate) fn open(
        text: &'r str,
        scratch: &'r mut Scratch,
    ) -> Result<Option<ItemReader<'r>>, AllocError>
        ensures { IfOk result (λ found. MatchOption found (option_and_then as_array (tree_of_text text.now) ≡ None)
            (λ items. tree_of_text text.now ≡ option_map array (to_come items))) }
    {
        let mut reader = Reader::new(text, scratch)?;
        if opens_list(&mut reader) {
            Ok(Some(ItemReader { reader }))
        } else {
            Ok(None)
        }
    }

    /// The items that the text begins with, as if the bracket of their list had been passed. The memory that it takes grows
    /// with the length of the text.
    pub(crate) fn over(
        text: &'r str,
        scratch: &'r mut Scratch,
    ) -> Result<ItemReader<'r>, AllocError>
        ensures { IfOk result (λ items. items ≡ tokens text.now) }
    {
        Ok(ItemReader {
            reader: Reader::new(text, scratch)?,
        })
    }

    /// The next item's tree, or None where the list ended and the text with it.
    ///
    /// # Errors
    ///
    /// `Invalid` where the rest of the text is not the items of a list up to its end: at the item where that shows. Fails
    /// otherwise only when out of memory.
    pub fn next(&mut self, alloc: Global) -> Result<Option<Value>, TreeFault>
        ensures items { MatchResult result
            (λ found. MatchOption found (to_come self.old ≡ Some no_items)
            (λ v. to_come self.old ≡ option_map (item (view v)) (to_come self.new)))
            (λ e. e ≡ Invalid → to_come self.old ≡ None) }
        ensures shorter { IfOk result (λ found. OnSome found (length self.new < length self.old)) }
    {
        next_item(alloc, &mut self.reader)
    }

    /// Reads the rest of the text, and keeps nothing of it.
    ///
    /// # Errors
    ///
    /// `Invalid` exactly where the rest is not the items of a list up to the end of the list and of the text. Fails otherwise
    /// only when out of memory.
    pub fn skip_rest(&mut self, alloc: Global) -> Result<(), TreeFault>
        ensures { MatchResult result (λ _. IsSome (to_come self.old)) (λ e. e ≡ Invalid → to_come self.old ≡ None) }
    {
        'rest: while self.skip_item(alloc)? {}
        Ok(())
    }

    // Whether there was a next item. The item is read and freed.
    fn skip_item(&mut self, alloc: Global) -> Result<bool, TreeFault>
        ensures items { MatchResult result
            (λ found. MatchBool found (is_some (to_come self.old) ≡ is_some (to_come self.new)) (IsSome (to_come self.old)))
            (λ e. e ≡ Invalid → to_come self.old ≡ None) }
        ensures shorter { IfOk result (λ found. IsTrue found → length self.new < length self.old) }
    {
        match self.next(alloc) {
            Ok(Some(item)) => {
                drop(item);
                Ok(true)
            }
            Ok(None) => Ok(false),
            Err(fault) => Err(fault),
        }
    }
}

// Whether the text begins as a list does. If so, its bracket is passed.
fn opens_list(reader: &mut Reader<'_>) -> bool
    ensures { MatchBool result (tree_of_tokens reader.old ≡ option_map array (to_come reader.new))
        (option_and_then as_array (tree_of_tokens reader.old) ≡ None) }
{
    let Some(token) = reader.next() else {
        return false;
    };
    match token {
        Token::BeginArray => true,
        _ => false,
    }
}

fn next_item(alloc: Global, reader: &mut Reader<'_>) -> Result<Option<Value>, TreeFault>
    ensures items { MatchResult result
        (λ found. MatchOption found (to_come reader.old ≡ Some no_items)
        (λ v. to_come reader.old ≡ option_map (item (view v)) (to_come reader.new)))
        (λ e. e ≡ Invalid → to_come reader.old ≡ None) }
    ensures shorter { IfOk result (λ found. OnSome found (length reader.new < length reader.old)) }
{
    if reader.take_end_array() {
        if reader.next().is_some() {
            return Err(TreeFault::Invalid);
        }
        return Ok(None);
    }
    match read_tree(alloc, reader, ITEM_DEPTH) {
        Ok(item) => Ok(Some(item)),
        Err(fault) => Err(fault),
    }
}
