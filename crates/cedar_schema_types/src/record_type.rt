//! Record types.
ghost use Rattle.std.specs.Prelude.{◌≡◌, ◌↔◌, IfOk, OnOk, OnErr, IfSome, IsSome, IsTrue, option_copied};
ghost use Rattle.cedar_schema_types.specs.Lookup.{attribute_at};
ghost use Rattle.cedar_schema_types.specs.Ordered.{AllAscend, AreNamesAscending, AreNamesDistinct, Ascends, IsRecordOf, with_attribute};
ghost use Rattle.cedar_schema_types.specs.TypeKind.{attributes_of};
ghost use Rattle.cedar_schema_types.specs.Types.{no_attributes, record_of};

use crate::attribute::Attribute;
use std::alloc::{AllocError, Global};
use std::marker::Model;

/// The attributes of a record type, which contracts see as `Attributes`. They ascend by the bytes of their names, and no name
/// is repeated.
#[cycle(types)]
#[derive(Drop)]
pub struct RecordType {
    attributes: Vec<Attribute>,
}

impl Model for RecordType {
    ghost use Rattle.cedar_schema_types.specs.Types.{Attributes, record_of};
    ghost use Rattle.cedar_schema_types.specs.Private.TypeCode.{attributes_code};

    ghost Value = { Attributes };

    ghost coded = { attributes_code };

    ghost use Rattle.cedar_schema_types.specs.TypeKind.{attributes_of};
    ghost use Rattle.cedar_schema_types.specs.Ordered.{Ascends};
    ghost use Rattle.cedar_schema_types.specs.Private.Weight.{attributes_weight};

    ghost view = { λ r. attributes_of r.attributes.items };

    ghost invariant = { λ r. Ascends (record_of (attributes_of r.attributes.items)) };

    ghost use Rattle.std.specs.Prelude.{◌+◌};

    ghost size = { λ a. attributes_weight a + 2 };

    ghost use Rattle.std.proofs.Common.{arith};
    ghost use Rattle.cedar_schema_types.specs.Private.Falls.{deep_attributes};

    ghost size_decreases = { λ r _. omega (arith, deep_attributes r.attributes.items) };
}

impl RecordType {
    /// The type of the record without attributes.
    pub fn new(alloc: Global) -> Self
        ensures { result ≡ no_attributes }
    {
        RecordType {
            attributes: Vec::new(alloc),
        }
    }

    /// The record type of these attributes, in whatever order they come. None where a name is repeated (Cedar documentation,
    /// JSON schema format: Record).
    pub fn from_attributes(mut attributes: Vec<Attribute>) -> Result<Option<Self>, AllocError>
        ensures distinct { IfOk result (λ o. IsSome o ↔ AreNamesDistinct attributes.items) }
        ensures attributes { IfOk result (λ o. IfSome o (IsRecordOf attributes.items)) }
    {
        attributes.sort_by(|one, two| one.name.cmp(&two.name))?;
        if names_ascend(&attributes) {
            Ok(Some(RecordType::from_ascending(attributes)))
        } else {
            Ok(None)
        }
    }

    /// The record type of attributes that ascend already.
    pub fn from_ascending(attributes: Vec<Attribute>) -> Self
        requires { AreNamesAscending attributes.items }
        ensures { result ≡ attributes_of attributes.items }
    {
        order_all(&attributes);
        RecordType { attributes }
    }

    /// The attribute of a name. Takes no memory, and as many comparisons as the logarithm of the number of attributes.
    pub fn attribute(&self, name: &str) -> Option<&Attribute>
        ensures { option_copied result ≡ attribute_at name.now self.now }
    {
        match self
            .attributes
            .binary_search_by(|attribute| attribute.name.as_str().cmp(name))
        {
            Ok(place) => Some(&self.attributes[place]),
            Err(_) => None,
        }
    }

    /// What every record type keeps: its attributes ascend, at every depth. A law: it runs no code.
    pub fn order(&self)
        ensures { Ascends (record_of self.now) }
    {
        let _kept = &self.attributes;
    }

    /// Adds the attribute. It replaces one of the same name, where there is one.
    ///
    /// # Errors
    ///
    /// Fails only when out of memory, and nothing is changed then.
    pub fn insert(&mut self, attribute: Attribute) -> Result<(), AllocError>
        ensures added { OnOk result (self.new ≡ with_attribute attribute.name attribute.required attribute.ty self.old) }
        ensures refused { OnErr result (self.new ≡ self.old) }
    {
        // The attributes in the attribute's type ascend.
        attribute.ty.order();
        put(&mut self.attributes, attribute)
    }

    /// The attributes, ascending by their names. Takes no memory.
    pub fn attributes(&self) -> &[Attribute]
        ensures attributes { attributes_of result.now ≡ self.now }
        ensures ascending { AreNamesAscending result.now }
    {
        &self.attributes
    }

    /// A copy, equal to the original.
    #[cycle(copy)]
    pub fn try_clone(&self, alloc: Global) -> Result<Self, AllocError>
        ensures { IfOk result (λ r. r ≡ self.now) }
    {
        Ok(RecordType {
            attributes: clone_attributes(alloc, &self.attributes)?,
        })
    }
}

// Adds the attribute at its place.
fn put(attributes: &mut Vec<Attribute>, attribute: Attribute) -> Result<(), AllocError>
    requires { AreNamesAscending attributes.old.items }
    ensures added { OnOk result (attributes_of attributes.new.items ≡ with_attribute attribute.name attribute.required attribute.ty (attributes_of attributes.old.items)) }
    ensures refused { OnErr result (attributes.new.items ≡ attributes.old.items) }
{
    match attributes.binary_search_by(|held| held.name.cmp(&attribute.name)) {
        Ok(place) => attributes[place] = attribute,
        Err(place) => attributes.insert(place, attribute)?,
    }
    Ok(())
}

// Whether the names ascend strictly.
fn names_ascend(attributes: &[Attribute]) -> bool
    ensures { IsTrue result ↔ AreNamesAscending attributes.now }
{
    let Some((first, others)) = attributes.split_first() else {
        return true;
    };
    let mut last = first;
    let mut later = others;
    'walk: while let Some((attribute, others)) = later.split_first() {
        if last.name >= attribute.name {
            return false;
        }
        last = attribute;
        later = others;
    }
    true
}

// The attributes in each attribute's type ascend. A law, whose loop only serves its proof.
fn order_all(attributes: &[Attribute])
    ensures { AllAscend (attributes_of attributes.now) }
{
    for attribute in attributes {
        attribute.ty.order();
    }
}

#[cycle(copy)]
fn clone_attributes(alloc: Global, attributes: &[Attribute]) -> Result<Vec<Attribute>, AllocError>
    ensures { IfOk result (λ v. v.items ≡ attributes.now) }
{
    let mut copies = Vec::new(alloc);
    for attribute in attributes {
        copies.push(Attribute {
            name: attribute.name.share()?,
            ty: attribute.ty.try_clone(alloc)?,
            required: attribute.required,
        })?;
    }
    Ok(copies)
}
