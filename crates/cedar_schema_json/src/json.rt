//! The parts of a schema's JSON: objects of known keys, names in namespaces, flat lists of entries.

pub(crate) mod annotations;
pub(crate) mod entry;
pub(crate) mod enumeration;
pub(crate) mod name_table;
pub(crate) mod names_list;
pub(crate) mod naming;
pub(crate) mod part;
pub(crate) mod scope;
