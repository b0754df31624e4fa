//! Whose attributes a record has.
use crate::shown::{add_name, add_uid};
use base_places::Draft;
use cedar_schema_types::Attribute;
use cedar_value::{Name, Uid};

// How many names are listed at most.
const MOST_NAMES: usize = 20;

/// Whose attributes a record has.
#[derive(Clone, Copy)]
pub(crate) enum Owner<'o> {
    /// The entities of a type.
    Type(&'o Name),
    /// The context of an action.
    Action(&'o Uid),
    /// A record inside of another value.
    Inner,
}

impl Owner<'_> {
    // Adds who wants attributes.
    fn add_wanting(self, out: &mut Draft) {
        match self {
            Owner::Type(name) => out.add_all(&["`", name.as_str(), "`"]),
            Owner::Action(uid) => {
                out.add("the action ");
                add_uid(out, uid);
            }
            Owner::Inner => out.add("the record"),
        }
    }

    // Adds what has attributes.
    fn add_having(self, out: &mut Draft) {
        match self {
            Owner::Action(uid) => {
                out.add("the context of ");
                add_uid(out, uid);
            }
            _ => self.add_wanting(out),
        }
    }

    /// Says of a required attribute that is missing which attributes are wanted.
    pub(crate) fn say_missing(self, says: &mut Draft, attributes: &[Attribute]) {
        says.add("missing; ");
        self.add_wanting(says);
        says.add(" needs ");
        add_names(says, attributes, "", Some(true));
        add_names(says, attributes, ", and optionally ", Some(false));
    }

    /// Says of an attribute that is not declared which attributes are.
    pub(crate) fn say_undeclared(self, says: &mut Draft, attributes: &[Attribute]) {
        self.add_having(says);
        if attributes.is_empty() {
            says.add(" has no attributes");
        } else {
            says.add(" has ");
            add_names(says, attributes, "", None);
        }
    }
}

// Adds the names of attributes, at most twenty: all of them, or those that are required or are not. What comes before the
// names is left out where there are none.
fn add_names(out: &mut Draft, attributes: &[Attribute], before: &str, required: Option<bool>) {
    let mut listed = 0usize;
    for attribute in attributes {
        if is_listed(attribute, required) {
            if listed == MOST_NAMES {
                out.add(", ..");
                return;
            }
            out.add(if listed == 0 { before } else { ", " });
            add_name(out, attribute.name.as_str());
            listed = listed.saturating_add(1);
        }
    }
}

fn is_listed(attribute: &Attribute, required: Option<bool>) -> bool {
    match required {
        Some(wanted) => attribute.required == wanted,
        None => true,
    }
}
