//! The objects of a JSON text that is a list, each read from its own bytes.
ghost use Rattle.std.specs.Prelude.{◌≡◌, ◌<◌, length, IfOk, MatchOption, MatchResult, OnSome, option_map};
ghost use Rattle.serde_json.specs.Data.{array, item};
ghost use Rattle.serde_json.specs.View.{view};
ghost use Rattle.base_json.specs.JsonTree.{json_of};
ghost use Rattle.base_json.specs.Items.{to_come};

use crate::items::ItemReader;
use crate::list_text::ListText;
use crate::single_item::read_item;
use json::Scratch;
use serde_json::Value;
use std::alloc::{AllocError, Global};
use std::marker::Model;

/// The objects of a JSON text that is a list, one after another, each read from its own bytes (RFC 8259, sections 4 and 5).
/// What has been read is freed, so memory depends on the longest object and on what is left of the text. Contracts see the
/// tokens that are to come.
#[derive(Drop)]
pub struct ObjectReader {
    list: ListText,
    scratch: Scratch,
}

impl Model for ObjectReader {
    ghost use Rattle.std.specs.Prelude.{List};
    ghost use Rattle.json.specs.Token.{Token, tokens_code};
    ghost use Rattle.json.specs.Lex.{tokens};

    ghost Value = { List Token };

    ghost coded = { tokens_code };

    ghost view = { λ a. tokens a.list };
}

impl ObjectReader {
    /// The objects of the bytes where they begin as a list does. Hands the bytes back where they are not UTF-8 or do not begin
    /// so. Takes no memory.
    pub fn open(alloc: Global, bytes: Vec<u8>) -> Result<ObjectReader, Vec<u8>>
        ensures { MatchResult result (λ objects. json_of bytes.items ≡ option_map array (to_come objects))
            (λ handed. handed.items ≡ bytes.items) }
    {
        match ListText::open(bytes) {
            Ok(list) => Ok(ObjectReader {
                list,
                scratch: Scratch::new(alloc),
            }),
            Err(handed) => Err(handed),
        }
    }

    /// The tree of the next item, where that item is an object that is read from its own bytes and more follows it. Otherwise
    /// None, and nothing has changed: `rest` goes on.
    ///
    /// # Errors
    ///
    /// Fails only when out of memory.
    pub fn next(&mut self, alloc: Global) -> Result<Option<Value>, AllocError>
        ensures items { IfOk result (λ found. MatchOption found (self.new ≡ self.old)
            (λ v. to_come self.old ≡ option_map (item (view v)) (to_come self.new))) }
        ensures shorter { IfOk result (λ found. OnSome found (length self.new < length self.old)) }
    {
        let Some(object) = self.list.object() else {
            return Ok(None);
        };
        let passed = object.passed;
        let Some(item) = read_item(alloc, object.text, &mut self.scratch)? else {
            return Ok(None);
        };
        self.list.pass(passed)?;
        Ok(Some(item))
    }

    /// The rest, item by item, from a reader with room for all of it.
    pub fn rest(&mut self) -> Result<ItemReader<'_>, AllocError>
        ensures { IfOk result (λ items. items ≡ self.old) }
    {
        ItemReader::over(self.list.left(), &mut self.scratch)
    }
}
