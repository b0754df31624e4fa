//! Values that a code pushes.
ghost use Rattle.std.specs.Prelude.{◌≡◌, IfOk};
ghost use Rattle.cedar_value.specs.Glance.{datum_seen};

use cedar_value::{Glance, Uid, Value};
use std::alloc::{AllocError, Global};
use std::marker::Model;

// A Boolean or a number is in the instruction itself, another value in a box. So an instruction is small, and a plain value is at hand.
// Most boxed literals are uids, which are in a box of their own, without that of a value.
#[derive(Drop)]
enum Kept {
    Boolean(bool),
    Long(i64),
    Uid(Box<Uid>),
    Boxed(Box<Value>),
}

/// A value that an instruction pushes, which contracts see as that value.
#[derive(Drop)]
pub struct Literal {
    kept: Kept,
}

impl Model for Literal {
    ghost use Rattle.cedar_value.specs.Datum.{Datum};
    ghost use Rattle.cedar_value.specs.Private.DatumCode.{datum_code};
    ghost use Rattle.cedar_code.specs.Private.Kept.{datum_kept};

    ghost Value = { Datum };

    ghost coded = { datum_code };

    ghost view = { λ l. datum_kept l.kept };
}

impl Literal {
    /// A copy of a value. A Boolean or a number takes no memory.
    pub fn new(alloc: Global, value: &Value) -> Result<Self, AllocError>
        ensures { IfOk result (λ l. l ≡ value.now) }
    {
        let kept = match value.glance() {
            Glance::Boolean(truth) => Kept::Boolean(truth),
            Glance::Long(number) => Kept::Long(number),
            Glance::Uid(entity) => Kept::Uid(Box::new(alloc, entity.try_clone(alloc)?)?),
            _ => Kept::Boxed(Box::new(alloc, value.try_clone(alloc)?)?),
        };
        Ok(Literal { kept })
    }

    /// A look at the value. Takes no memory.
    #[inline(always)]
    pub fn glance(&self) -> Glance<'_>
        ensures { datum_seen result ≡ self.now }
    {
        match &self.kept {
            Kept::Boolean(truth) => Glance::Boolean(*truth),
            Kept::Long(number) => Glance::Long(*number),
            Kept::Uid(entity) => Glance::Uid(entity),
            Kept::Boxed(value) => value.as_ref().glance(),
        }
    }
}
