//! Entities.
use cedar_value::{Record, Uid};
use std::marker::Model;

/// An entity with its attributes and direct parents (Cedar language reference, entities). A parent may be repeated, and need
/// not be an entity of any list.
#[derive(Drop)]
pub struct Entity {
    /// The entity's uid.
    pub uid: Uid,
    /// Its attributes.
    pub attrs: Record,
    /// The uids of its direct parents.
    pub parents: Vec<Uid>,
}

impl Model for Entity {
    ghost use Rattle.std.specs.Coded.{codes};
    ghost use Rattle.cedar_value.specs.Private.DatumCode.{datum_code};
    ghost use Rattle.cedar_value.specs.World.{EntityTree};

    ghost Value = { EntityTree };

    ghost coded = { Prim.hlevel (codes, datum_code) };

    ghost view = { λ e. record { uid = e.uid; attributes = e.attrs; parents = e.parents.items } };
}
