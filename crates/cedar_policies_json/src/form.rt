//! The forms of expressions, by the one key that each has.
ghost use Rattle.std.specs.Prelude.{◌≡◌};
ghost use Rattle.cedar_policies_json.specs.Forms.{form_named, method_named, other_named, slot_named, two_named, variable_named};

use cedar_ast_expressions::Variable;
use cedar_parser_tree::{ChainSign, RelationSign};

/// The form of an expression.
#[derive(Clone, Copy, PartialEq, Eq, Debug)]
pub(crate) enum Form {
    Value,
    Variable,
    Slot,
    One(OneForm),
    Two(TwoForm),
    Attribute(AttributeForm),
    Like,
    Is,
    If,
    Set,
    Record,
    Call,
}

/// A form with one operand, at `arg`.
#[derive(Clone, Copy, PartialEq, Eq, Debug)]
pub(crate) enum OneForm {
    Not,
    Negated,
    /// The method `isEmpty`.
    Empty,
}

/// A form with two operands, at `left` and `right`.
#[derive(Clone, Copy, PartialEq, Eq, Debug)]
pub(crate) enum TwoForm {
    Relation(RelationSign),
    Chain(ChainSign),
    /// A method of this name, of sets or of tags.
    Method,
}

/// A form with an operand and the name of an attribute, at `left` and `attr`.
#[derive(Clone, Copy, PartialEq, Eq, Debug)]
pub(crate) enum AttributeForm {
    Has,
    Get,
}

/// The form that a key names.
pub(crate) fn form_named(key: &str) -> Form
    ensures { result ≡ form_named key.now }
{
    match two_named(key) {
        Some(form) => form,
        None => match method_named(key) {
            Some(form) => form,
            None => other_named(key),
        },
    }
}

#[tactic(auto, unfolding(crate::specs::Forms::two_named))]
fn two_named(key: &str) -> Option<Form>
    ensures { result ≡ two_named key.now }
{
    let form = match key {
        "==" => TwoForm::Relation(RelationSign::Equal),
        "!=" => TwoForm::Relation(RelationSign::NotEqual),
        "<" => TwoForm::Relation(RelationSign::Less),
        "<=" => TwoForm::Relation(RelationSign::LessEqual),
        ">" => TwoForm::Relation(RelationSign::Greater),
        ">=" => TwoForm::Relation(RelationSign::GreaterEqual),
        "in" => TwoForm::Relation(RelationSign::In),
        "&&" => TwoForm::Chain(ChainSign::And),
        "||" => TwoForm::Chain(ChainSign::Or),
        "+" => TwoForm::Chain(ChainSign::Plus),
        "-" => TwoForm::Chain(ChainSign::Minus),
        "*" => TwoForm::Chain(ChainSign::Times),
        _ => return None,
    };
    Some(Form::Two(form))
}

#[tactic(auto, unfolding(crate::specs::Forms::method_named))]
fn method_named(key: &str) -> Option<Form>
    ensures { result ≡ method_named key.now }
{
    match key {
        "contains" | "containsAll" | "containsAny" | "getTag" | "hasTag" => {
            Some(Form::Two(TwoForm::Method))
        }
        "isEmpty" => Some(Form::One(OneForm::Empty)),
        _ => None,
    }
}

#[tactic(auto, unfolding(crate::specs::Forms::other_named))]
fn other_named(key: &str) -> Form
    ensures { result ≡ other_named key.now }
{
    match key {
        "Value" => Form::Value,
        "Var" => Form::Variable,
        "Slot" => Form::Slot,
        "!" => Form::One(OneForm::Not),
        "neg" => Form::One(OneForm::Negated),
        "has" => Form::Attribute(AttributeForm::Has),
        "." => Form::Attribute(AttributeForm::Get),
        "like" => Form::Like,
        "is" => Form::Is,
        "if-then-else" => Form::If,
        "Set" => Form::Set,
        "Record" => Form::Record,
        _ => Form::Call,
    }
}

/// The variable that a string names.
#[tactic(auto, unfolding(crate::specs::Forms::variable_named))]
pub(crate) fn variable_named(text: &str) -> Option<Variable>
    ensures { result ≡ variable_named text.now }
{
    match text {
        "principal" => Some(Variable::Principal),
        "action" => Some(Variable::Action),
        "resource" => Some(Variable::Resource),
        "context" => Some(Variable::Context),
        _ => None,
    }
}

/// The variable of the slot that a string names.
#[tactic(auto, unfolding(crate::specs::Forms::slot_named))]
pub(crate) fn slot_named(text: &str) -> Option<Variable>
    ensures { result ≡ slot_named text.now }
{
    match text {
        "?principal" => Some(Variable::Principal),
        "?resource" => Some(Variable::Resource),
        _ => None,
    }
}
