//! A look at a value.
ghost use Rattle.std.specs.Prelude.{◌≡◌, ◌↔◌, IsTrue, IsOk, IfOk};
ghost use Rattle.cedar_value.specs.Datum.{same};
ghost use Rattle.cedar_value.specs.Memory.{IsPlain};
ghost use Rattle.cedar_value.specs.Glance.{datum_seen};

use crate::text::Text;
use crate::uid::Uid;
use crate::value::{Value, ValueKind};
use crate::value_record::Record;
use crate::value_set::ValueSet;
use cedar_ext::Extension;
use std::alloc::{AllocError, Global};

/// A value that is looked at, wherever it is: in a policy, in the request, in an entity or on its own.
#[derive(Clone, Copy)]
pub enum Glance<'a> {
    /// A Boolean.
    Boolean(bool),
    /// A whole number.
    Long(i64),
    /// A string.
    String(&'a Text),
    /// An entity's uid.
    Uid(&'a Uid),
    /// A set.
    Set(&'a ValueSet),
    /// A record.
    Record(&'a Record),
    /// A value of an extension type.
    Extension(&'a Extension),
}

impl Glance<'_> {
    /// A copy of the value. A Boolean, a number or a value of an extension type takes no memory.
    pub fn to_value(self, alloc: Global) -> Result<Value, AllocError>
        ensures value { IfOk result (λ v. v ≡ datum_seen self.entry) }
        ensures succeeds { IsPlain (datum_seen self.entry) → IsOk result }
    {
        let kind = match self {
            Glance::Boolean(truth) => ValueKind::Boolean(truth),
            Glance::Long(number) => ValueKind::Long(number),
            Glance::String(text) => ValueKind::String(text.try_clone(alloc)?),
            Glance::Uid(uid) => ValueKind::Uid(Box::new(alloc, uid.try_clone(alloc)?)?),
            Glance::Set(members) => ValueKind::Set(members.try_clone(alloc)?),
            Glance::Record(pairs) => ValueKind::Record(pairs.try_clone(alloc)?),
            Glance::Extension(value) => ValueKind::Extension(*value),
        };
        Ok(Value::new(kind))
    }

    /// Whether two values are equal: as trees, of one kind (Cedar language reference, `==`). Takes no memory.
    pub fn same(self, other: Glance<'_>) -> bool
        ensures gives { result ≡ same (datum_seen self.entry) (datum_seen other.entry) }
        ensures equal { IsTrue result ↔ (datum_seen self.entry ≡ datum_seen other.entry) }
    {
        match (self, other) {
            (Glance::Boolean(one), Glance::Boolean(two)) => one == two,
            (Glance::Long(one), Glance::Long(two)) => one == two,
            (Glance::String(one), Glance::String(two)) => one == two,
            (Glance::Uid(one), Glance::Uid(two)) => one == two,
            (Glance::Set(one), Glance::Set(two)) => one == two,
            (Glance::Record(one), Glance::Record(two)) => one == two,
            (Glance::Extension(one), Glance::Extension(two)) => one.same(two),
            _ => false,
        }
    }
}
