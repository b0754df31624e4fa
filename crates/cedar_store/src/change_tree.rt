//! The tree of changes.
ghost use Rattle.std.specs.Prelude.{◌≡◌, ◌++◌, Contains, IfOk, OnOk, map, option_copied};
ghost use Rattle.base_reach.specs.Private.Lent.{lent};
ghost use Rattle.cedar_value.specs.declared.uid.Uid.{Uid as Uids};
ghost use Rattle.cedar_store.specs.Private.Parts.{HasParentsDue};
ghost use Rattle.cedar_store.specs.Private.Branches as branches;
ghost use Rattle.cedar_store.specs.Private.Branches.{EachKeyed, changes_in, descent, grow, keyed_in, put, three_left, three_middle, three_right, two_left, two_right};
ghost use Rattle.cedar_store.specs.Private.Forks.{branches_of, grown_of, keyed_of};

use crate::base::Base;
use crate::change::Change;
use crate::keyed_change::KeyedChange;
use cedar_value::Uid;
use std::alloc::{AllocError, Global};
use std::cmp::Ordering;
use std::sync::Arc;

/// Changes in the order of the hashes of their uids, and of the uids where hashes are equal. Trees share the forks that they have in
/// common.
///
/// A fork has two or three trees, and each way down is as long as each other: a tree grows at its root alone (2-3 trees, Hopcroft). So
/// a tree of n changes is at most log2 (n + 1) forks deep, whatever their uids are. The drop of a tree, as each function here, calls
/// itself once for each fork on the way.
#[cycle(changes)]
#[derive(Drop)]
pub(crate) enum ForkTree {
    Leaf,
    Two(Arc<Fork, Global>),
    Three(Arc<WideFork, Global>),
}

/// A change, and the changes to its left and to its right.
#[cycle(changes)]
#[derive(Drop)]
pub(crate) struct Fork {
    left: ForkTree,
    keyed: KeyedChange,
    right: ForkTree,
}

/// Two changes, and the changes to the left of both, between them, and to the right of both.
#[cycle(changes)]
#[derive(Drop)]
pub(crate) struct WideFork {
    left: ForkTree,
    first: KeyedChange,
    middle: ForkTree,
    second: KeyedChange,
    right: ForkTree,
}

/// What a tree becomes by a change more: a tree as deep as it was, or two trees as deep as it was, and the change between them.
#[derive(Drop)]
enum GrownTree {
    Whole(ForkTree),
    Split(ForkTree, KeyedChange, ForkTree),
}

impl ForkTree {
    /// The same tree for one more holder. Takes no memory.
    pub(crate) fn share(&self) -> Result<ForkTree, AllocError>
        ensures { IfOk result (λ t. branches_of t ≡ branches_of self.now) }
    {
        match self {
            ForkTree::Leaf => Ok(ForkTree::Leaf),
            ForkTree::Two(fork) => Ok(ForkTree::Two(Arc::try_clone(fork)?)),
            ForkTree::Three(fork) => Ok(ForkTree::Three(Arc::try_clone(fork)?)),
        }
    }

    /// The change of the uid, which has this hash.
    pub(crate) fn find(&self, hash: u64, uid: &Uid) -> Option<&Change>
        ensures { option_copied result ≡ descent hash uid.now (branches_of self.now) }
    {
        match self {
            ForkTree::Leaf => None,
            ForkTree::Two(fork) => match fork.keyed.order(hash, uid) {
                Ordering::Less => fork.left.find(hash, uid),
                Ordering::Equal => Some(&fork.keyed.change),
                Ordering::Greater => fork.right.find(hash, uid),
            },
            ForkTree::Three(fork) => match fork.first.order(hash, uid) {
                Ordering::Less => fork.left.find(hash, uid),
                Ordering::Equal => Some(&fork.first.change),
                Ordering::Greater => match fork.second.order(hash, uid) {
                    Ordering::Less => fork.middle.find(hash, uid),
                    Ordering::Equal => Some(&fork.second.change),
                    Ordering::Greater => fork.right.find(hash, uid),
                },
            },
        }
    }

    /// Appends each parent of the entities that the changes upsert, but for those with a number.
    pub(crate) fn push_parents<'s>(
        &'s self,
        base: &Base,
        due: &mut Vec<&'s Uid>,
    ) -> Result<(), AllocError>
        ensures kept { OnOk result ((p : Uids) → Contains (lent due.old.items) p → Contains (lent due.new.items) p) }
        ensures parents { OnOk result (EachKeyed (λ k. HasParentsDue base.now (lent due.new.items) k.change) (keyed_in (branches_of self.now))) }
    {
        match self {
            ForkTree::Leaf => Ok(()),
            ForkTree::Two(fork) => {
                fork.left.push_parents(base, due)?;
                fork.keyed.change.push_parents(base, due)?;
                fork.right.push_parents(base, due)
            }
            ForkTree::Three(fork) => {
                fork.left.push_parents(base, due)?;
                fork.first.change.push_parents(base, due)?;
                fork.middle.push_parents(base, due)?;
                fork.second.change.push_parents(base, due)?;
                fork.right.push_parents(base, due)
            }
        }
    }

    /// Appends all changes, from left to right.
    pub(crate) fn push_all(&self, all: &mut Vec<Arc<Change, Global>>) -> Result<(), AllocError>
        ensures { OnOk result (map (λ c. c.value) all.new.items ≡ map (λ c. c.value) all.old.items ++ changes_in (branches_of self.now)) }
    {
        match self {
            ForkTree::Leaf => Ok(()),
            ForkTree::Two(fork) => {
                fork.left.push_all(all)?;
                all.push(Arc::try_clone(&fork.keyed.change)?)?;
                fork.right.push_all(all)
            }
            ForkTree::Three(fork) => {
                fork.left.push_all(all)?;
                all.push(Arc::try_clone(&fork.first.change)?)?;
                fork.middle.push_all(all)?;
                all.push(Arc::try_clone(&fork.second.change)?)?;
                fork.right.push_all(all)
            }
        }
    }

    /// How many changes there are.
    pub(crate) fn len(&self) -> usize {
        match self {
            ForkTree::Leaf => 0,
            ForkTree::Two(fork) => (fork.left.len())
                .saturating_add(fork.right.len())
                .saturating_add(1),
            ForkTree::Three(fork) => (fork.left.len())
                .saturating_add(fork.middle.len())
                .saturating_add(fork.right.len())
                .saturating_add(2),
        }
    }

    /// How many forks there are on the way to the left.
    pub(crate) fn depth(&self) -> u32 {
        match self {
            ForkTree::Leaf => 0,
            ForkTree::Two(fork) => fork.left.depth().saturating_add(1),
            ForkTree::Three(fork) => fork.left.depth().saturating_add(1),
        }
    }

    /// The tree with a change more, whose uid has this hash. It takes the place of the change with its uid. The new tree has forks of
    /// its own on the way to the change, and shares all others.
    pub(crate) fn with(
        &self,
        alloc: Global,
        hash: u64,
        change: Arc<Change, Global>,
    ) -> Result<ForkTree, AllocError>
        ensures { IfOk result (λ t. branches_of t ≡ put (record { hash = hash; change = change.value }) (branches_of self.now)) }
    {
        match self.grown(alloc, KeyedChange { hash, change })? {
            GrownTree::Whole(tree) => Ok(tree),
            GrownTree::Split(left, keyed, right) => two(alloc, left, keyed, right),
        }
    }

    // What this tree becomes by the change.
    fn grown(&self, alloc: Global, new: KeyedChange) -> Result<GrownTree, AllocError>
        ensures { IfOk result (λ g. grown_of g ≡ grow (keyed_of new) (branches_of self.now)) }
    {
        match self {
            ForkTree::Leaf => Ok(GrownTree::Split(ForkTree::Leaf, new, ForkTree::Leaf)),
            ForkTree::Two(fork) => match fork.keyed.order(new.hash, new.change.uid()) {
                Ordering::Less => fork.with_left(alloc, fork.left.grown(alloc, new)?),
                Ordering::Equal => fork.with_here(alloc, new),
                Ordering::Greater => fork.with_right(alloc, fork.right.grown(alloc, new)?),
            },
            ForkTree::Three(fork) => match fork.first.order(new.hash, new.change.uid()) {
                Ordering::Less => fork.with_left(alloc, fork.left.grown(alloc, new)?),
                Ordering::Equal => fork.with_first(alloc, new),
                Ordering::Greater => match fork.second.order(new.hash, new.change.uid()) {
                    Ordering::Less => fork.with_middle(alloc, fork.middle.grown(alloc, new)?),
                    Ordering::Equal => fork.with_second(alloc, new),
                    Ordering::Greater => fork.with_right(alloc, fork.right.grown(alloc, new)?),
                },
            },
        }
    }
}

impl Fork {
    // The fork whose left tree has become this one.
    fn with_left(&self, alloc: Global, left: GrownTree) -> Result<GrownTree, AllocError>
        ensures { IfOk result (λ g. grown_of g ≡ two_left (grown_of left) (keyed_of self.now.keyed) (branches_of self.now.right)) }
    {
        let keyed = self.keyed.share()?;
        let right = self.right.share()?;
        let tree = match left {
            GrownTree::Whole(left) => two(alloc, left, keyed, right)?,
            GrownTree::Split(left, first, middle) => three(
                alloc, left, first, middle, keyed, right,
            )?,
        };
        Ok(GrownTree::Whole(tree))
    }

    // The fork with this change in the place of its own.
    fn with_here(&self, alloc: Global, keyed: KeyedChange) -> Result<GrownTree, AllocError>
        ensures { IfOk result (λ g. grown_of g ≡ branches.whole (branches.two (branches_of self.now.left) (keyed_of keyed) (branches_of self.now.right))) }
    {
        let left = self.left.share()?;
        let right = self.right.share()?;
        Ok(GrownTree::Whole(two(alloc, left, keyed, right)?))
    }

    fn with_right(&self, alloc: Global, right: GrownTree) -> Result<GrownTree, AllocError>
        ensures { IfOk result (λ g. grown_of g ≡ two_right (branches_of self.now.left) (keyed_of self.now.keyed) (grown_of right)) }
    {
        let left = self.left.share()?;
        let keyed = self.keyed.share()?;
        let tree = match right {
            GrownTree::Whole(right) => two(alloc, left, keyed, right)?,
            GrownTree::Split(middle, second, right) => three(
                alloc, left, keyed, middle, second, right,
            )?,
        };
        Ok(GrownTree::Whole(tree))
    }
}

impl WideFork {
    fn with_first(&self, alloc: Global, first: KeyedChange) -> Result<GrownTree, AllocError>
        ensures { IfOk result (λ g. grown_of g ≡ branches.whole (branches.three (branches_of self.now.left) (keyed_of first) (branches_of self.now.middle) (keyed_of self.now.second) (branches_of self.now.right))) }
    {
        let left = self.left.share()?;
        let middle = self.middle.share()?;
        let second = self.second.share()?;
        let right = self.right.share()?;
        Ok(GrownTree::Whole(three(alloc, left, first, middle, second, right)?))
    }

    fn with_second(&self, alloc: Global, second: KeyedChange) -> Result<GrownTree, AllocError>
        ensures { IfOk result (λ g. grown_of g ≡ branches.whole (branches.three (branches_of self.now.left) (keyed_of self.now.first) (branches_of self.now.middle) (keyed_of second) (branches_of self.now.right))) }
    {
        let left = self.left.share()?;
        let first = self.first.share()?;
        let middle = self.middle.share()?;
        let right = self.right.share()?;
        Ok(GrownTree::Whole(three(alloc, left, first, middle, second, right)?))
    }

    fn with_left(&self, alloc: Global, left: GrownTree) -> Result<GrownTree, AllocError>
        ensures { IfOk result (λ g. grown_of g ≡ three_left (grown_of left) (keyed_of self.now.first) (branches_of self.now.middle) (keyed_of self.now.second) (branches_of self.now.right)) }
    {
        let first = self.first.share()?;
        let middle = self.middle.share()?;
        let second = self.second.share()?;
        let right = self.right.share()?;
        match left {
            GrownTree::Whole(left) => Ok(GrownTree::Whole(three(
                alloc, left, first, middle, second, right,
            )?)),
            GrownTree::Split(left, between, next) => {
                let left = two(alloc, left, between, next)?;
                let right = two(alloc, middle, second, right)?;
                Ok(GrownTree::Split(left, first, right))
            }
        }
    }

    fn with_middle(&self, alloc: Global, middle: GrownTree) -> Result<GrownTree, AllocError>
        ensures { IfOk result (λ g. grown_of g ≡ three_middle (branches_of self.now.left) (keyed_of self.now.first) (grown_of middle) (keyed_of self.now.second) (branches_of self.now.right)) }
    {
        let left = self.left.share()?;
        let first = self.first.share()?;
        let second = self.second.share()?;
        let right = self.right.share()?;
        match middle {
            GrownTree::Whole(middle) => Ok(GrownTree::Whole(three(
                alloc, left, first, middle, second, right,
            )?)),
            GrownTree::Split(before, between, after) => {
                let left = two(alloc, left, first, before)?;
                let right = two(alloc, after, second, right)?;
                Ok(GrownTree::Split(left, between, right))
            }
        }
    }

    fn with_right(&self, alloc: Global, right: GrownTree) -> Result<GrownTree, AllocError>
        ensures { IfOk result (λ g. grown_of g ≡ three_right (branches_of self.now.left) (keyed_of self.now.first) (branches_of self.now.middle) (keyed_of self.now.second) (grown_of right)) }
    {
        let left = self.left.share()?;
        let first = self.first.share()?;
        let middle = self.middle.share()?;
        let second = self.second.share()?;
        match right {
            GrownTree::Whole(right) => Ok(GrownTree::Whole(three(
                alloc, left, first, middle, second, right,
            )?)),
            GrownTree::Split(before, between, after) => {
                let left = two(alloc, left, first, middle)?;
                let right = two(alloc, before, between, after)?;
                Ok(GrownTree::Split(left, second, right))
            }
        }
    }
}

fn two(
    alloc: Global,
    left: ForkTree,
    keyed: KeyedChange,
    right: ForkTree,
) -> Result<ForkTree, AllocError>
    ensures { IfOk result (λ t. branches_of t ≡ branches.two (branches_of left) (keyed_of keyed) (branches_of right)) }
{
    let fork = Arc::new(alloc, Fork { left, keyed, right })?;
    Ok(ForkTree::Two(fork))
}

fn three(
    alloc: Global,
    left: ForkTree,
    first: KeyedChange,
    middle: ForkTree,
    second: KeyedChange,
    right: ForkTree,
) -> Result<ForkTree, AllocError>
    ensures { IfOk result (λ t. branches_of t ≡ branches.three (branches_of left) (keyed_of first) (branches_of middle) (keyed_of second) (branches_of right)) }
{
    let fork = Arc::new(
        alloc,
        WideFork {
            left,
            first,
            middle,
            second,
            right,
        },
    )?;
    Ok(ForkTree::Three(fork))
}
