//! Statements as they are written.

use crate::written::Written;
use cedar_ast::{ActionScope, ConditionKind, Effect, EntityScope, Scope};
use cedar_ast_expressions::Variable;
use cedar_parser_tokens::{Content, Word, WrittenUid};
use std::marker::Model;

/// An annotation as it is written (Cedar language reference, annotations).
#[derive(Drop)]
pub struct WrittenAnnotation {
    /// Where its `@` is, in bytes from 0.
    pub start: usize,
    /// The name after it.
    pub name: Word,
    /// The text that the string in brackets denotes.
    pub value: Content,
}

/// One `when` or `unless` as it is written.
#[derive(Drop)]
pub struct WrittenCondition {
    /// Whether the expression is to hold.
    pub kind: ConditionKind,
    /// The expression between the braces.
    pub body: Written,
}

/// An entity, or a slot.
#[derive(Drop)]
pub enum Reference {
    /// An entity.
    Entity(WrittenUid),
    /// Where `?principal` or `?resource` is, in bytes from 0, and its variable.
    Slot(usize, Variable),
}

/// What a scope requires of the principal or the resource, as it is written.
pub type WrittenEntityScope = EntityScope<Reference>;

/// What a scope requires of the action, as it is written.
pub type WrittenActionScope = ActionScope<WrittenUid>;

/// A scope as it is written.
pub type WrittenScope = Scope<Reference, WrittenUid>;

/// A statement as it is written, which contracts see as a `StatementTree`.
#[derive(Drop)]
pub struct WrittenStatement {
    /// Where its first token begins, in bytes from 0.
    pub start: usize,
    /// Its annotations, in order.
    pub annotations: Vec<WrittenAnnotation>,
    /// Its effect, which is its first word after the annotations.
    pub effect: Effect,
    /// The scope between the round brackets.
    pub scope: WrittenScope,
    /// The conditions after them, in order.
    pub conditions: Vec<WrittenCondition>,
}

impl Model for WrittenStatement {
    ghost use Rattle.std.specs.Coded.{codes};
    ghost use Rattle.cedar_parser_tree.specs.Private.WrittenCode.{written_code};
    ghost use Rattle.cedar_parser_tree.specs.StatementTree.{StatementTree};

    ghost Value = { StatementTree };

    ghost coded = { Prim.hlevel (codes, written_code) };

    ghost view = { λ s. record {
      start = s.start;
      annotations = s.annotations.items;
      effect = s.effect;
      scope = s.scope;
      conditions = s.conditions.items;
    } };
}
