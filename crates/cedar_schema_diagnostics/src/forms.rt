//! The common types of a schema, as they are written.
use cedar_ext::Language;
use cedar_schema_json::{
    Entry, Form, NameTable, Position, SchemaFault, Scope, ends_of, entries_of, names_of, read_type,
    text_at,
};
use serde_json::{Map, Value};
use std::alloc::{AllocError, Global};

/// The limits of a type with its common types expanded.
const MOST_NODES: u32 = 10_000;

const MOST_LEVELS: u32 = 100;

/// The language of a schema, and its common types as they are written, by their places in the order of the JSON, and for each of them the place that
/// names alone lead to.
#[derive(Drop)]
pub(crate) struct Forms {
    language: Language,
    entities: NameTable,
    commons: NameTable,
    forms: Vec<Form>,
    ends: Vec<(usize, usize)>,
}

// A form that is still to be looked at, and how many forms it is in, with itself.
#[derive(Clone, Copy)]
struct Pending<'f> {
    form: &'f Form,
    level: u32,
}

fn left_of(form: &Form, level: u32) -> Pending<'_> {
    Pending { form, level }
}

impl Forms {
    /// The common types of a schema of a language, or none if one of them cannot be read.
    pub(crate) fn read(
        alloc: Global,
        language: Language,
        root: &Map<String, Value>,
    ) -> Result<Option<Forms>, AllocError> {
        let entities = table_of(alloc, root, "entityTypes")?;
        let commons = table_of(alloc, root, "commonTypes")?;
        let entries = entries_of(alloc, root, "commonTypes")?;
        let Some(forms) = read_all(alloc, language, &entities, &commons, &entries)? else {
            return Ok(None);
        };
        let ends = ends_of(alloc, &forms)?;
        Ok(Some(Forms {
            language,
            entities,
            commons,
            forms,
            ends,
        }))
    }

    // The form that a type in a namespace writes, or none if it cannot be read.
    fn form(
        &self,
        alloc: Global,
        namespace: &str,
        json: &Value,
    ) -> Result<Option<Form>, AllocError> {
        let scope = Scope {
            language: self.language,
            namespace,
            entities: &self.entities,
            commons: &self.commons,
        };
        read_form(alloc, &scope, json)
    }

    // The form that names alone lead to; in a circle it is a name.
    fn end<'f>(&'f self, form: &'f Form) -> Option<&'f Form> {
        match form {
            Form::Common(place) => match self.ends.get(*place) {
                Some(end) => self.forms.get(end.0),
                None => None,
            },
            _ => Some(form),
        }
    }

    /// Whether a type in a namespace is not a record, with its common types expanded. False if it cannot be read.
    pub(crate) fn is_other(
        &self,
        alloc: Global,
        namespace: &str,
        json: &Value,
    ) -> Result<bool, AllocError> {
        if text_at(json, "type").unwrap_or("") == "Record" {
            return Ok(false);
        }
        let Some(form) = self.form(alloc, namespace, json)? else {
            return Ok(false);
        };
        let is_other = match self.end(&form) {
            Some(Form::Record(_)) => false,
            Some(_) => true,
            None => false,
        };
        drop(form);
        Ok(is_other)
    }

    /// Why a type in a namespace is too large with its common types expanded, or none.
    pub(crate) fn excess(
        &self,
        alloc: Global,
        namespace: &str,
        json: &Value,
    ) -> Result<Option<&'static str>, AllocError> {
        let Some(form) = self.form(alloc, namespace, json)? else {
            return Ok(None);
        };
        let excess = self.excess_of(alloc, &form);
        drop(form);
        excess
    }

    fn excess_of<'f>(
        &'f self,
        alloc: Global,
        form: &'f Form,
    ) -> Result<Option<&'static str>, AllocError> {
        let mut left = Vec::new(alloc);
        left.push(left_of(form, 1))?;
        for _ in 0..MOST_NODES {
            let Some(next) = left.pop() else {
                return Ok(None);
            };
            if next.level > MOST_LEVELS {
                return Ok(Some("it is more than 100 levels deep"));
            }
            if let Some(end) = self.end(next.form) {
                push_parts(&mut left, end, next.level.saturating_add(1))?;
            }
        }
        if left.is_empty() {
            Ok(None)
        } else {
            Ok(Some("it has more than 10,000 nodes"))
        }
    }

    /// For each common type, the places of the common types that it names.
    pub(crate) fn links(&self, alloc: Global) -> Result<Vec<Vec<usize>>, AllocError> {
        let mut links = Vec::new(alloc);
        for form in &self.forms {
            let named = named_in(alloc, form)?;
            links.push(named)?;
        }
        Ok(links)
    }
}

fn push_parts<'f>(
    left: &mut Vec<Pending<'f>>,
    form: &'f Form,
    level: u32,
) -> Result<(), AllocError> {
    match form {
        Form::Set(element) => {
            left.push(left_of(element, level))?;
            Ok(())
        }
        Form::Record(fields) => {
            for i in 0..fields.len() {
                left.push(left_of(&fields[i].form, level))?;
            }
            Ok(())
        }
        _ => Ok(()),
    }
}

// The places of the common types that a form names.
fn named_in(alloc: Global, form: &Form) -> Result<Vec<usize>, AllocError> {
    let mut named = Vec::new(alloc);
    let mut left = Vec::new(alloc);
    left.push(left_of(form, 1))?;
    for _ in 0..u64::MAX {
        let Some(next) = left.pop() else {
            return Ok(named);
        };
        match next.form {
            Form::Common(place) => named.push(*place)?,
            other => push_parts(&mut left, other, 1)?,
        }
    }
    Ok(named)
}

fn table_of(
    alloc: Global,
    root: &Map<String, Value>,
    section: &str,
) -> Result<NameTable, AllocError> {
    let entries = entries_of(alloc, root, section)?;
    let names = names_of(alloc, &entries)?;
    NameTable::new(alloc, names)
}

fn read_all(
    alloc: Global,
    language: Language,
    entities: &NameTable,
    commons: &NameTable,
    entries: &[Entry<'_>],
) -> Result<Option<Vec<Form>>, AllocError> {
    let mut forms = Vec::new(alloc);
    for entry in entries {
        let scope = Scope {
            language,
            namespace: entry.namespace,
            entities,
            commons,
        };
        match read_form(alloc, &scope, entry.body)? {
            Some(form) => forms.push(form)?,
            None => return Ok(None),
        }
    }
    Ok(Some(forms))
}

// The form of a type, or none if it cannot be read. Annotations are read wherever they are.
fn read_form(alloc: Global, scope: &Scope<'_>, json: &Value) -> Result<Option<Form>, AllocError> {
    match read_type(alloc, scope, json, Position::CommonType) {
        Ok(form) => Ok(Some(form)),
        Err(SchemaFault::OutOfMemory) => Err(AllocError),
        Err(_) => Ok(None),
    }
}
