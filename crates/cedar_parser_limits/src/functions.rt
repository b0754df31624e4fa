//! Functions and methods, found by their names.
ghost use Rattle.std.specs.Prelude.{◌≡◌, codes, is_some};
ghost use Rattle.std.specs.Str.{bytes_eq};
ghost use Rattle.cedar_ext.specs.Extensions.{constructor_in, constructor_named};
ghost use Rattle.cedar_parser_limits.specs.Meaning.{method_of, method_or_empty};
ghost use Rattle.cedar_parser_limits.specs.Limits.{arity_of, function_arity, has_meaning, has_operator, method_arity, method_in, only_in};

use cedar_ast_expressions::{BinaryMethod, BinaryOperator, ExtensionType, UnaryMethod};
use cedar_ext::Language;

/// What a method requires of the operand before it (Cedar language reference, functions).
#[derive(Clone, Copy)]
pub enum Method {
    /// `isEmpty`: whether the set has no members. It takes no arguments.
    IsEmpty,
    /// A method of an extension type that takes no arguments.
    Unary(UnaryMethod),
    /// An operator whose right operand is the one argument.
    Binary(BinaryOperator),
}

impl Method {
    // Whether a language has the method.
    fn is_in(self, language: Language) -> bool
        ensures { result ≡ has_meaning language self }
    {
        match self {
            Method::IsEmpty => true,
            Method::Unary(method) => method.is_in(language),
            Method::Binary(operator) => is_operator_in(operator, language),
        }
    }

    // How many arguments the method takes.
    fn arity(self) -> usize
        ensures { result ≡ arity_of self }
    {
        match self {
            Method::IsEmpty | Method::Unary(_) => 0,
            Method::Binary(_) => 1,
        }
    }
}

/// Whether a language has a function of this name.
pub fn is_function_in(language: Language, name: &str) -> bool
    ensures { result ≡ is_some (constructor_in language name.now) }
{
    ExtensionType::of_constructor_in(language, name).is_some()
}

/// Whether there is a function of this name.
pub fn is_function(name: &str) -> bool
    ensures { result ≡ is_some (constructor_named name.now) }
{
    ExtensionType::of_constructor(name).is_some()
}

/// How many arguments the function of this name has.
pub fn function_arity(name: &str) -> Option<usize>
    ensures { result ≡ function_arity name.now }
{
    match ExtensionType::of_constructor(name) {
        None => None,
        Some(_) => Some(1),
    }
}

/// The method of this name (Cedar language reference, functions).
pub fn method_of(name: &str) -> Option<Method>
    ensures { result ≡ method_of name.now }
{
    match name {
        "contains" => Some(Method::Binary(BinaryOperator::Contains)),
        "containsAll" => Some(Method::Binary(BinaryOperator::ContainsAll)),
        "containsAny" => Some(Method::Binary(BinaryOperator::ContainsAny)),
        _ => method_or_empty(name, UnaryMethod::named(name), BinaryMethod::named(name)),
    }
}

/// The method of this name in a language (Cedar language reference, functions).
pub fn method_in(language: Language, name: &str) -> Option<Method>
    ensures { result ≡ method_in language name.now }
{
    only_in(language, method_of(name))
}

/// How many arguments the method of this name has.
pub fn method_arity(name: &str) -> Option<usize>
    ensures { result ≡ method_arity name.now }
{
    match method_of(name) {
        None => None,
        Some(method) => Some(method.arity()),
    }
}

// Whether a language has an operator.
fn is_operator_in(operator: BinaryOperator, language: Language) -> bool
    ensures { result ≡ has_operator language operator }
{
    match operator {
        BinaryOperator::Call(method) => method.is_in(language),
        _ => true,
    }
}

// The method, if the language has it.
fn only_in(language: Language, method: Option<Method>) -> Option<Method>
    ensures { result ≡ only_in language method }
{
    match method {
        Some(method) => {
            if method.is_in(language) {
                Some(method)
            } else {
                None
            }
        }
        None => None,
    }
}

// The method of an extension type, or else `isEmpty`, where that is the name.
fn method_or_empty(
    name: &str,
    alone: Option<UnaryMethod>,
    method: Option<BinaryMethod>,
) -> Option<Method>
    ensures { result ≡ method_or_empty (bytes_eq name.now (codes "isEmpty")) alone method }
{
    if let Some(method) = method {
        return Some(Method::Binary(BinaryOperator::Call(method)));
    }
    match alone {
        Some(method) => Some(Method::Unary(method)),
        None => {
            if name == "isEmpty" {
                Some(Method::IsEmpty)
            } else {
                None
            }
        }
    }
}
