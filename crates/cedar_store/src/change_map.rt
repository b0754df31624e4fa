//! The changes of a world, by their uids.
ghost use Rattle.std.specs.Prelude.{◌≡◌, ◌↔◌, [], Contains, IfOk, IsTrue, OnOk, Some, if◌then◌else◌, map, option_copied};
ghost use Rattle.base_reach.specs.Private.Lent.{lent};
ghost use Rattle.cedar_value.specs.Datum.{same_uid};
ghost use Rattle.cedar_value.specs.declared.uid.Uid as uids;
ghost use Rattle.cedar_store.specs.Private.Changing.{AreChangesDistinct, EachChange, IsChangeOfUid, change_of};
ghost use Rattle.cedar_store.specs.Private.Parts.{HasParentsDue};

use crate::base::Base;
use crate::change::Change;
use crate::change_hash::hash_of;
use crate::change_tree::ForkTree;
use crate::uid_hashing::UidHashing;
use cedar_value::Uid;
use std::alloc::{AllocError, Global};
use std::marker::Model;
use std::sync::Arc;

// No memory holds a deeper tree.
const MOST_DEPTH: u32 = 62;

// So many idle changes may be there whatever else is.
const IDLE_ROOM: usize = 64;

/// The changes of a world, each found by its uid. A new version shares with the old one all that is not on the way to what
/// changes. Contracts see the list of the changes.
#[derive(Drop)]
pub(crate) struct ChangeMap {
    hashing: UidHashing,
    root: ForkTree,
    idle_room: usize,
}

impl Model for ChangeMap {
    ghost use Rattle.std.specs.Prelude.{List};
    ghost use Rattle.std.specs.Coded.{codes};
    ghost use Rattle.cedar_value.specs.Private.DatumCode.{datum_code};
    ghost use Rattle.cedar_store.specs.Private.Changing.{ChangeTree};
    ghost use Rattle.cedar_store.specs.Private.Branches.{IsMap, changes_in};
    ghost use Rattle.cedar_store.specs.Private.Forks.{branches_of};

    ghost Value = { List ChangeTree };

    ghost coded = { Prim.hlevel (codes, datum_code) };

    ghost view = { λ m. changes_in (branches_of m.root) };

    ghost invariant = { λ m. IsMap m.hashing (branches_of m.root) };
}

impl ChangeMap {
    /// No changes. Takes no memory.
    pub(crate) fn new(hashing: UidHashing) -> Self
        ensures { result ≡ [] }
    {
        ChangeMap {
            hashing,
            root: ForkTree::Leaf,
            idle_room: IDLE_ROOM,
        }
    }

    /// No changes, which are hashed as these are. Takes no memory.
    pub(crate) fn none(&self) -> Self
        ensures { result ≡ [] }
    {
        ChangeMap::new(self.hashing)
    }

    /// Whether there are no changes.
    pub(crate) fn is_empty(&self) -> bool
        ensures { IsTrue result ↔ (self.now ≡ []) }
    {
        match &self.root {
            ForkTree::Leaf => true,
            _ => false,
        }
    }

    /// The change of this uid. Where there are no changes, the uid is not hashed.
    pub(crate) fn get(&self, uid: &Uid) -> Option<&Change>
        ensures { option_copied result ≡ change_of self.now uid.now }
    {
        match &self.root {
            ForkTree::Leaf => None,
            _ => self.root.find(hash_of(&self.hashing, uid), uid),
        }
    }

    /// These changes with one more, which takes the place of the change with its uid. This version stays as it is.
    ///
    /// # Errors
    ///
    /// Fails only when out of memory.
    pub(crate) fn with(&self, alloc: Global, change: Change) -> Result<ChangeMap, AllocError>
        ensures { IfOk result (λ m. (u : uids.Uid) → change_of m u ≡ (if same_uid change.uid u then Some change else change_of self.now u)) }
    {
        self.with_shared(alloc, Arc::new(alloc, change)?)
    }

    /// These changes with one more, which another version may hold too.
    ///
    /// # Errors
    ///
    /// Fails only when out of memory.
    pub(crate) fn with_shared(
        &self,
        alloc: Global,
        change: Arc<Change, Global>,
    ) -> Result<ChangeMap, AllocError>
        ensures { IfOk result (λ m. (u : uids.Uid) → change_of m u ≡ (if same_uid change.value.uid u then Some change.value else change_of self.now u)) }
    {
        change.facts();
        let hash = hash_of(&self.hashing, change.uid());
        let root = self.root.with(alloc, hash, change)?;
        Ok(ChangeMap {
            hashing: self.hashing,
            root,
            idle_room: self.idle_room,
        })
    }

    /// All changes, in a list.
    ///
    /// # Errors
    ///
    /// Fails only when out of memory.
    pub(crate) fn all(&self, alloc: Global) -> Result<Vec<Arc<Change, Global>>, AllocError>
        ensures { IfOk result (λ all. map (λ c. c.value) all.items ≡ self.now) }
    {
        let mut all = Vec::new(alloc);
        self.root.push_all(&mut all)?;
        Ok(all)
    }

    /// The same changes, one of which has become idle.
    pub(crate) fn with_one_idle(self) -> Self
        ensures { result ≡ self }
    {
        ChangeMap {
            idle_room: self.idle_room.saturating_sub(1),
            ..self
        }
    }

    /// The same changes, of which so many are needed and none is idle.
    pub(crate) fn with_none_idle(self, needed: usize) -> Self
        ensures { result ≡ self }
    {
        ChangeMap {
            idle_room: (needed / 2).saturating_add(IDLE_ROOM),
            ..self
        }
    }

    /// Whether no more changes may become idle before all that are idle are left out.
    pub(crate) fn has_no_room(&self) -> bool {
        self.idle_room == 0
    }

    /// Appends each parent of the entities that the changes upsert, but for those with a number.
    pub(crate) fn push_parents<'s>(
        &'s self,
        base: &Base,
        due: &mut Vec<&'s Uid>,
    ) -> Result<(), AllocError>
        ensures kept { OnOk result ((p : uids.Uid) → Contains (lent due.old.items) p → Contains (lent due.new.items) p) }
        ensures parents { OnOk result (EachChange (HasParentsDue base.now (lent due.new.items)) self.now) }
    {
        self.root.push_parents(base, due)
    }

    /// How many changes there are. Time grows with their number.
    pub(crate) fn len(&self) -> usize {
        self.root.len()
    }

    /// Two to the depth of the tree: at most one more than there are changes.
    pub(crate) fn least_len(&self) -> usize {
        1_usize << self.root.depth().min(MOST_DEPTH)
    }

    /// The same changes for one more holder. Takes no memory.
    ///
    /// # Errors
    ///
    /// Fails only where the changes have so many holders that their count has no room.
    pub(crate) fn try_clone(&self) -> Result<ChangeMap, AllocError>
        ensures { IfOk result (λ m. m ≡ self.now) }
    {
        let root = self.root.share()?;
        Ok(ChangeMap {
            hashing: self.hashing,
            root,
            idle_room: self.idle_room,
        })
    }

    /// For contracts alone: no two changes have one uid, and an entity that is upserted has the uid of its change.
    pub(crate) fn facts(&self)
        ensures distinct { AreChangesDistinct self.now }
        ensures named { EachChange IsChangeOfUid self.now }
    {
        let _root = &self.root;
    }
}
