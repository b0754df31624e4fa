//! The statements of a policy text, by their ids.
use crate::statement::{id_of, next_statement, normal_spelled};
use cedar_parser_tokens::Cursor;
use cedar_parser_tree::WrittenStatement;
use std::alloc::{AllocError, Global};
use std::collections::BTreeMap;

/// Where a statement is in its text.
#[derive(Clone, Copy)]
pub struct Bounds {
    /// Where it begins, in bytes from 0.
    pub start: usize,
    /// Where the next one begins, or what can be read ends.
    pub end: usize,
    /// The position, from 0, of the first statement with its id.
    first: usize,
}

/// Where the statements of a text are, in order, up to the first that cannot be read.
#[derive(Drop)]
pub struct Statements {
    all: Vec<Bounds>,
    // The position of the first statement with each id.
    positions: BTreeMap<String, usize>,
}

impl Statements {
    /// Those of a text. One that has no tokens has none.
    pub fn of(alloc: Global, text: &str) -> Result<Statements, AllocError> {
        let mut statements = Statements {
            all: Vec::new(alloc),
            positions: BTreeMap::new(alloc),
        };
        if let Some(spelled) = normal_spelled(alloc, text)? {
            let mut cursor = spelled.cursor(text.len());
            statements.read(alloc, &mut cursor, text.len())?;
        }
        Ok(statements)
    }

    // Enters the statements of the tokens that are left, of a text of this many bytes.
    fn read(
        &mut self,
        alloc: Global,
        tokens: &mut Cursor<'_>,
        size: usize,
    ) -> Result<(), AllocError> {
        for _turn in 0..tokens.left() {
            let Some(statement) = next_statement(alloc, tokens)? else {
                break;
            };
            let end = if tokens.left() == 0 {
                size
            } else {
                tokens.start()
            };
            let entered = self.enter(alloc, &statement, end);
            drop(statement);
            entered?;
        }
        Ok(())
    }

    // Enters a statement, up to this end, as the last one.
    fn enter(
        &mut self,
        alloc: Global,
        statement: &WrittenStatement,
        end: usize,
    ) -> Result<(), AllocError> {
        let position = self.all.len();
        let id = id_of(alloc, statement, position)?;
        let first = self.first_with(id, position)?;
        self.all.push(Bounds {
            start: statement.start,
            end,
            first,
        })?;
        Ok(())
    }

    // The position of the first statement with an id, which the one at a position has.
    fn first_with(&mut self, id: String, position: usize) -> Result<usize, AllocError> {
        if let Some(first) = self.positions.get(id.as_str()) {
            return Ok(*first);
        }
        self.positions.insert(id, position)?;
        Ok(position)
    }

    /// The first statement with an id.
    pub fn with_id(&self, id: &str) -> Option<Bounds> {
        self.all.get(*self.positions.get(id)?).copied()
    }

    /// The first statement with the id of the one that begins at a byte.
    pub fn first_like(&self, start: usize) -> Option<Bounds> {
        let like = self.all.iter().find(|bounds| bounds.start == start)?;
        self.all.get(like.first).copied()
    }
}
