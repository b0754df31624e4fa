//! Expressions as they are written, which contracts see as trees with no pointers.
ghost use Rattle.std.specs.Prelude.{◌≡◌};
ghost use Rattle.cedar_parser_tree.specs.WrittenKind.{written_of};

use crate::attribute_path::AttributePath;
use crate::series::Series;
use crate::sign::{ChainSign, RelationSign};
use cedar_ast_expressions::Variable;
use cedar_ext::Pattern;
use cedar_parser_tokens::{Content, Word, WrittenUid};
use cedar_value::Name;
use std::marker::Model;

/// The form of an expression as it is written. Chains are lists, so a tree is never deeper than the brackets of its text nest.
#[cycle(written)]
#[derive(Drop)]
pub enum WrittenKind {
    /// `true` or `false`.
    Truth(bool),
    /// Where the digits begin, in bytes from 0, and their value.
    Number(usize, u64),
    /// A number with the sign right before it: where the digits begin, and their value.
    Negative(usize, u64),
    /// A string.
    Text(Content),
    /// The uid of an entity.
    Entity(WrittenUid),
    /// A part of the request.
    Variable(Variable),
    /// `?principal` or `?resource`, and where it is.
    Slot(usize, Variable),
    /// An expression in brackets.
    Group(Box<Written>),
    /// `!`
    Not(Box<Written>),
    /// `-`
    Negated(Box<Written>),
    /// A relation between two operands.
    Relation(RelationSign, Box<Written>, Box<Written>),
    /// `has`
    Has(Box<Written>, AttributePath),
    /// `like`
    Like(Box<Written>, Pattern),
    /// `is`
    Is(Box<Written>, Name),
    /// `is .. in`
    IsIn(Box<Written>, Name, Box<Written>),
    /// A first operand and the links after it, at least one.
    Chain(Box<Written>, Vec<Link>),
    /// `if .. then .. else`
    If(Box<Written>, Box<Written>, Box<Written>),
    /// The members in square brackets.
    Set(Series),
    /// The entries in braces.
    Record(Vec<Field>),
    /// Where a function's name begins, the name, and the arguments.
    Call(usize, Name, Series),
}

/// What follows an operand of a chain.
#[cycle(written)]
#[derive(Drop)]
pub enum Link {
    /// A sign, and the operand after it.
    Operand(ChainSign, Written),
    /// `.a` or `["a"]`
    Attribute(Content),
    /// A method's name after a dot, and the arguments.
    Method(Word, Series),
}

/// An entry of a record as it is written.
#[cycle(written)]
#[derive(Drop)]
pub struct Field {
    /// The key.
    pub key: Content,
    /// The value after the colon.
    pub value: Written,
}

/// An expression as it is written, which contracts see as a tree.
#[cycle(written)]
#[derive(Drop)]
pub struct Written {
    kind: WrittenKind,
    span: Span,
}

/// Where an expression is written: where its first token begins and where its last token begins, in bytes from 0.
#[derive(Clone, Copy, Debug, PartialEq, Eq)]
pub struct Span {
    /// Where the first token begins.
    pub start: usize,
    /// Where the last token begins.
    pub last: usize,
}

impl Model for Written {
    ghost use Rattle.cedar_parser_tree.specs.Written as tree;
    ghost use Rattle.cedar_parser_tree.specs.Private.WrittenCode.{written_code};

    ghost Value = { tree.Written };

    ghost coded = { written_code };

    ghost use Rattle.cedar_parser_tree.specs.WrittenKind.{written_of};

    ghost view = { λ w. written_of w.kind };

    ghost size = { tree.parts };

    ghost use Rattle.cedar_parser_tree.specs.Private.WrittenParts.{deep_le-parts};

    ghost size_decreases = { λ w _. deep_le-parts w.kind };
}

impl Written {
    /// The expression of this form, with no place yet. Takes no memory.
    pub fn new(kind: WrittenKind) -> Self
        ensures { result ≡ written_of kind }
    {
        let span = Span { start: 0, last: 0 };
        Written { kind, span }
    }

    /// The same expression, written at this place. Takes no memory.
    pub fn spanning(self, span: Span) -> Self
        ensures { result ≡ self }
    {
        Written {
            kind: self.kind,
            span,
        }
    }

    /// Where it is written. Contracts do not see it.
    pub fn span(&self) -> Span {
        self.span
    }

    /// The form, with its parts, lent.
    pub fn kind(&self) -> &WrittenKind
        ensures { written_of result.now ≡ self.now }
    {
        &self.kind
    }
}
