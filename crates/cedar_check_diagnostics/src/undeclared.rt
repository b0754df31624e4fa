//! Entity types and actions that are not declared, and uids that their enumerated types do not have.
use crate::listing::{add_more, is_listed};
use crate::spot::Spot;
use crate::unlisted::unlisted_words;
use crate::words::Words;
use crate::written::add_uid;
use base_names::Nearest;
use cedar_ast_expressions::{ExprKind, UnaryOperator};
use cedar_schema::Schema;
use cedar_value::{Name, Uid, ValueKind};
use std::alloc::{AllocError, Global};
use std::collections::BTreeSet;

/// What is said of an entity type or an action that the schema does not declare, or of a uid that its enumerated type does not have.
pub(crate) fn undeclared_words(spot: Spot<'_>, words: &mut Words) -> Result<(), AllocError> {
    match spot.part.kind() {
        ExprKind::Literal(value) => {
            if let ValueKind::Uid(uid) = value.kind() {
                return words_of_uid(spot, words, uid);
            }
        }
        ExprKind::Unary(operator, _) => {
            if let UnaryOperator::Is(name) = operator {
                return words_of_type(spot, words, name);
            }
        }
        _ => {}
    }
    words.says.add("this is not declared");
    Ok(())
}

// What is said of a uid.
fn words_of_uid(spot: Spot<'_>, words: &mut Words, uid: &Uid) -> Result<(), AllocError> {
    if let Some(enumeration) = spot.checking.schema.enumeration(&uid.ty) {
        unlisted_words(words, uid, enumeration);
        return Ok(());
    }
    if spot.checking.schema.has_action_type(&uid.ty) || last_of(uid.ty.as_str()) == "Action" {
        words_of_action(spot, words, uid);
        Ok(())
    } else {
        words_of_type(spot, words, &uid.ty)
    }
}

// The last identifier of a name.
fn last_of(name: &str) -> &str {
    match name.rsplit_once("::") {
        Some((_, last)) => last,
        None => name,
    }
}

// What is said of an entity type.
fn words_of_type(spot: Spot<'_>, words: &mut Words, name: &Name) -> Result<(), AllocError> {
    let wanted = name.as_str();
    words
        .says
        .add_all(&["there is no entity type `", wanted, "`"]);
    let types = types_of_actions(spot.alloc(), spot.checking.schema)?;
    if !types.is_empty() {
        words.note.add("declared types include: ");
    }
    let mut nearest = Nearest::new(last_of(wanted));
    for (position, declared) in types.iter().enumerate() {
        if is_listed(&mut words.note, position) {
            words.note.add(*declared);
        }
        nearest = nearest.compare(last_of(*declared), *declared);
    }
    add_more(&mut words.note, types.len());
    match nearest.name() {
        Some(meant) => {
            words.hint_at(meant);
            Ok(())
        }
        None => hint_in_namespace(spot, words, last_of(wanted)),
    }
}

// The types that actions apply to, ascending.
fn types_of_actions<'a>(
    alloc: Global,
    schema: &'a Schema,
) -> Result<BTreeSet<&'a str>, AllocError> {
    let mut types = BTreeSet::new(alloc);
    for (_, action) in schema.actions() {
        for name in action.principals().iter() {
            types.insert(name.as_str())?;
        }
        for name in action.resources().iter() {
            types.insert(name.as_str())?;
        }
    }
    Ok(types)
}

// Hints at the type of the principal's namespace, where that type is declared.
fn hint_in_namespace(spot: Spot<'_>, words: &mut Words, last: &str) -> Result<(), AllocError> {
    let alloc = spot.alloc();
    let principal = spot.checking.environment.principal.as_str();
    let Some((namespace, _)) = principal.rsplit_once("::") else {
        return Ok(());
    };
    let meant = format!(in alloc; "{namespace}::{last}")?;
    if let Some(name) = Name::read(alloc, meant.as_str())? {
        if spot.checking.schema.attributes(&name).is_some() {
            words.hint_at(meant.as_str());
        }
    }
    Ok(())
}

// What is said of an action.
fn words_of_action(spot: Spot<'_>, words: &mut Words, uid: &Uid) {
    words.says.add("there is no action `");
    add_uid(&mut words.says, uid);
    words.says.add_char('`');
    words.note.add("declared actions: ");
    let mut nearest = Nearest::new(uid.id.as_str());
    let mut count = 0usize;
    for (declared, _) in spot.checking.schema.actions() {
        if is_listed(&mut words.note, count) {
            add_uid(&mut words.note, declared);
        }
        count = count.saturating_add(1);
        nearest = nearest.compare(declared.id.as_str(), declared);
    }
    add_more(&mut words.note, count);
    if let Some(meant) = nearest.name() {
        words.hint.add("did you mean `");
        add_uid(&mut words.hint, meant);
        words.hint.add("`?");
    }
}
