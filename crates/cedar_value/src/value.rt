//! Values, which contracts see as a `Datum`.
ghost use Rattle.std.specs.Prelude.{◌≡◌, IsOk, IfOk, ◌↔◌, IsTrue};
ghost use Rattle.cedar_value.specs.Datum.{boolean, long, text, uid, set, record_of, extension, members_of, fields_of};
ghost use Rattle.cedar_value.specs.Memory.{IsPlain};
ghost use Rattle.cedar_value.specs.Values.{IsValue};
ghost use Rattle.cedar_value.specs.ValueKind.{datum_of};
ghost use Rattle.cedar_value.specs.Glance.{datum_seen};
ghost use Rattle.cedar_value.specs.Datum.{same};

use crate::glance::Glance;
use crate::order::order_glance;
use crate::text::Text;
use crate::uid::Uid;
use crate::value_record::Record;
use crate::value_set::ValueSet;
use cedar_ext::Extension;
use std::alloc::{AllocError, Global};
use std::cmp::Ordering;
use std::marker::Model;

/// What a value is made of (Cedar language reference, data types).
#[cycle(value)]
#[derive(Drop)]
pub enum ValueKind {
    /// A Boolean.
    Boolean(bool),
    /// A whole number of 64 bits.
    Long(i64),
    /// A string.
    String(Text),
    /// A reference to an entity.
    Uid(Box<Uid>),
    /// A set of values.
    Set(ValueSet),
    /// A record: values under keys.
    Record(Record),
    /// A value of an extension type.
    Extension(Extension),
}

/// A value, which contracts see as a `Datum`. At every depth of it numbers are of 64 bits, the members of
/// a set ascend in the order of values, and the keys of a record ascend by their bytes.
#[cycle(value)]
#[derive(Drop)]
pub struct Value {
    kind: ValueKind,
}

impl Model for Value {
    ghost use Rattle.cedar_value.specs.Datum.{Datum};
    ghost use Rattle.cedar_value.specs.Private.DatumCode.{datum_code};

    ghost Value = { Datum };

    ghost coded = { datum_code };

    ghost use Rattle.cedar_value.specs.ValueKind.{datum_of};
    ghost use Rattle.cedar_value.specs.Private.Weight.{weight};
    ghost use Rattle.cedar_value.specs.Values.{IsValue};

    ghost view = { λ v. datum_of v.kind };

    ghost invariant = { λ v. IsValue (datum_of v.kind) };

    ghost size = { weight };

    ghost use Rattle.cedar_value.specs.Private.KindFalls.{deep_le-weight};

    ghost size_decreases = { λ v _. deep_le-weight v.kind };
}

impl Value {
    /// The value of this kind.
    pub fn new(kind: ValueKind) -> Self
        ensures { result ≡ datum_of kind }
    {
        // What this kind denotes is a value.
        kind_is_a_value(&kind);
        Value { kind }
    }

    /// A Boolean.
    pub fn boolean(truth: bool) -> Self
        ensures { result ≡ boolean truth }
    {
        Value::new(ValueKind::Boolean(truth))
    }

    /// A whole number.
    pub fn long(number: i64) -> Self
        ensures { result ≡ long number }
    {
        Value::new(ValueKind::Long(number))
    }

    /// A string.
    pub fn string(content: Text) -> Self
        ensures { result ≡ text content }
    {
        Value::new(ValueKind::String(content))
    }

    /// A reference to an entity.
    pub fn uid(alloc: Global, entity: Uid) -> Result<Self, AllocError>
        ensures { IfOk result (λ v. v ≡ uid entity) }
    {
        Ok(Value::new(ValueKind::Uid(Box::new(alloc, entity)?)))
    }

    /// A set.
    pub fn set(members: ValueSet) -> Self
        ensures { result ≡ set (members_of members) }
    {
        Value::new(ValueKind::Set(members))
    }

    /// A record.
    pub fn record(pairs: Record) -> Self
        ensures { result ≡ record_of (fields_of pairs) }
    {
        Value::new(ValueKind::Record(pairs))
    }

    /// A value of an extension type.
    pub fn extension(value: Extension) -> Self
        ensures { result ≡ extension value }
    {
        Value::new(ValueKind::Extension(value))
    }

    /// The kind, with what it holds.
    pub fn kind(&self) -> &ValueKind
        ensures { datum_of result.now ≡ self.now }
    {
        &self.kind
    }

    /// The kind, with what it holds, taken out of the value.
    pub fn into_kind(self) -> ValueKind
        ensures { datum_of result ≡ self }
    {
        self.kind
    }

    /// A look at the value, which is `Copy`.
    pub fn glance(&self) -> Glance<'_>
        ensures { datum_seen result ≡ self.now }
    {
        match &self.kind {
            ValueKind::Boolean(truth) => Glance::Boolean(*truth),
            ValueKind::Long(number) => Glance::Long(*number),
            ValueKind::String(text) => Glance::String(text),
            ValueKind::Uid(uid) => Glance::Uid(uid),
            ValueKind::Set(members) => Glance::Set(members),
            ValueKind::Record(pairs) => Glance::Record(pairs),
            ValueKind::Extension(value) => Glance::Extension(value),
        }
    }

    /// A copy, equal to the original. A Boolean, a number or a value of an extension type takes no memory.
    #[cycle(copy)]
    pub fn try_clone(&self, alloc: Global) -> Result<Self, AllocError>
        ensures copy { IfOk result (λ v. v ≡ self.now) }
        ensures succeeds { IsPlain self.now → IsOk result }
    {
        let kind = match &self.kind {
            ValueKind::Boolean(truth) => ValueKind::Boolean(*truth),
            ValueKind::Long(number) => ValueKind::Long(*number),
            ValueKind::String(text) => ValueKind::String(text.try_clone(alloc)?),
            ValueKind::Uid(uid) => ValueKind::Uid(Box::new(alloc, uid.try_clone(alloc)?)?),
            ValueKind::Set(members) => ValueKind::Set(members.try_clone(alloc)?),
            ValueKind::Record(pairs) => ValueKind::Record(pairs.try_clone(alloc)?),
            ValueKind::Extension(value) => ValueKind::Extension(*value),
        };
        Ok(Value::new(kind))
    }

    /// Numbers are of 64 bits, members ascend, and keys ascend, at every depth (Cedar language reference, data types). A law:
    /// it runs no code.
    pub fn well_formedness(&self)
        ensures { IsValue self.now }
    {
        let _kind = &self.kind;
    }
}

// What a kind denotes is a value. A law: it runs no code.
fn kind_is_a_value(kind: &ValueKind)
    ensures { IsValue (datum_of kind.now) }
{
    match kind {
        ValueKind::Long(number) => {
            let _number = *number;
        }
        ValueKind::Extension(value) => value.well_formedness(),
        ValueKind::Set(members) => members.well_formedness(),
        ValueKind::Record(pairs) => pairs.well_formedness(),
        _ => {}
    }
}

impl PartialEq for Value {
    ghost use Rattle.std.specs.Cmp.{partial_equiv_from_equiv};
    ghost use Rattle.cedar_value.specs.Datum.{same};
    ghost use Rattle.cedar_value.specs.Private.Equality.{same_equivalence};

    ghost eq = { same };

    ghost laws = { partial_equiv_from_equiv same_equivalence };

    fn eq(&self, other: &Self) -> bool
        ensures gives { result ≡ same self.now other.now }
        ensures equal { IsTrue result ↔ (self.now ≡ other.now) }
    {
        self.cmp(other).is_eq()
    }
}

impl Eq for Value {
    ghost use Rattle.cedar_value.specs.Private.Equality.{same_equivalence};

    ghost laws = { same_equivalence };
}

impl PartialOrd for Value {
    ghost use Rattle.std.specs.Ordering.{as_partial_cmp};
    ghost use Rattle.cedar_value.specs.Order.{datum_cmp};
    ghost use Rattle.cedar_value.specs.Private.Laws.{datum_partial_order};

    ghost partial_cmp = { as_partial_cmp datum_cmp };

    ghost laws = { datum_partial_order };

    fn partial_cmp(&self, other: &Self) -> Option<Ordering> {
        Some(self.cmp(other))
    }
}

impl Ord for Value {
    ghost use Rattle.std.specs.Prelude.{refl};
    ghost use Rattle.cedar_value.specs.Order.{datum_cmp};
    ghost use Rattle.cedar_value.specs.Private.Same.{datum_cmp_total};
    ghost use Rattle.cedar_value.specs.Private.Laws.{datum_ties};

    ghost cmp = { datum_cmp };

    ghost total = { datum_cmp_total };

    ghost matches_partial_cmp = { λ x y. refl };

    ghost matches_eq = { datum_ties };

    fn cmp(&self, other: &Self) -> Ordering {
        order_glance(self, other.glance())
    }
}
