//! The operand stack.
ghost use Rattle.std.specs.Prelude.{◌≡◌, ◌+◌, ◌<◌, ◌≤◌, ◌↔◌, max, [], ◌∷◌, length, take, drop, reverse, IsSome, IfSome, IfNone, IfOk, IsOk, MatchOption, IsTrue, OnOk};
ghost use Rattle.std.specs.Prelude.{List};
ghost use Rattle.cedar_value.specs.Datum.{Datum};

use crate::operand::Operand;
use smallvec::SmallVec;
use std::alloc::{AllocError, Global};
use std::default::Default;
use std::marker::Model;
use std::mem;

/// How many operands are kept in the machine itself.
pub const INLINE_PLACES: usize = 16;

/// Operands, which contracts see as their values, the top first. Their places are made beforehand. What a place above the top
/// holds has no meaning, and is dropped when the place is taken.
#[derive(Drop)]
pub struct Stack<'a> {
    places: SmallVec<Operand<'a>, INLINE_PLACES>,
    height: usize,
}

impl<'a> Model for Stack<'a> {
    ghost use Rattle.std.specs.Prelude.{◌≤◌, length, reverse, take};
    ghost use Rattle.cedar_machine_stack.specs.StackView.{StackView};
    ghost use Rattle.std.specs.Coded.{codes};
    ghost use Rattle.cedar_value.specs.Private.DatumCode.{datum_code};

    ghost Value = { StackView };

    ghost coded = { Prim.hlevel (codes, datum_code) };

    ghost view = { λ s. record { values = reverse (take s.height s.places.items); capacity = length s.places.items } };

    ghost invariant = { λ s. s.height ≤ length s.places.items };
}

impl<'a> Stack<'a> {
    /// An empty stack.
    pub fn new(alloc: Global) -> Self
        ensures { result.values ≡ [] }
    {
        Stack {
            places: SmallVec::new(alloc),
            height: 0,
        }
    }

    /// An empty stack with room for so many operands.
    pub fn with_room(alloc: Global, room: usize) -> Result<Self, AllocError>
        ensures values { IfOk result (λ s. s.values ≡ []) }
        ensures capacity { IfOk result (λ s. room ≤ s.capacity) }
        ensures succeeds { room ≤ INLINE_PLACES → IsOk result }
    {
        let mut stack = Stack::new(alloc);
        stack.restart(room)?;
        Ok(stack)
    }

    /// Empties the stack and makes room for so many operands. Where there was room it takes no memory.
    pub fn restart(&mut self, room: usize) -> Result<(), AllocError>
        ensures values { OnOk result (self.new.values ≡ []) }
        ensures capacity { OnOk result (room ≤ self.new.capacity) }
        ensures succeeds { room ≤ INLINE_PLACES → IsOk result }
    {
        self.height = 0;
        if self.places.capacity() < room {
            self.places.reserve_exact(room - self.places.len())?;
        }
        make_places(&mut self.places, room);
        Ok(())
    }

    /// Makes room for one more operand. Where there is room it takes no memory.
    pub fn make_room(&mut self) -> Result<(), AllocError>
        ensures values { self.new.values ≡ self.old.values }
        ensures room { OnOk result (length self.new.values < self.new.capacity) }
    {
        if self.height == self.places.len() {
            self.places.reserve(1)?;
            self.places.push_reserved(Operand::default());
        }
        Ok(())
    }

    /// Puts an operand on top. There is room for it.
    #[inline(always)]
    pub fn push(&mut self, operand: Operand<'a>)
        requires { length self.old.values < self.old.capacity }
        ensures values { self.new.values ≡ operand.entry ∷ self.old.values }
        ensures capacity { self.new.capacity ≡ self.old.capacity }
    {
        self.places.as_mut_slice()[self.height] = operand;
        self.height += 1;
    }

    /// Takes the top, if there is one.
    #[inline(always)]
    pub fn pop(&mut self) -> Option<Operand<'a>>
        ensures value { MatchOption result ((self.old.values ≡ []) × (self.new.values ≡ [])) (λ e. self.old.values ≡ e ∷ self.new.values) }
        ensures capacity { self.new.capacity ≡ self.old.capacity }
    {
        if self.height == 0 {
            return None;
        }
        self.height -= 1;
        let place = &mut self.places.as_mut_slice()[self.height];
        Some(mem::replace(place, Operand::default()))
    }

    /// The two topmost operands, the top last, if there are two.
    #[inline(always)]
    pub fn top_two(&self) -> Option<(&Operand<'a>, &Operand<'a>)>
        ensures some { IfSome result (λ p. (rest : List Datum) × (self.now.values ≡ p.1.now ∷ p.0.now ∷ rest)) }
        ensures none { IfNone result (length self.now.values < 2) }
    {
        if self.height < 2 {
            return None;
        }
        let places = self.places.as_slice();
        Some((&places[self.height - 2], &places[self.height - 1]))
    }

    /// Puts an operand in place of the two topmost.
    #[inline(always)]
    pub fn replace_two(&mut self, operand: Operand<'a>)
        requires { 2 ≤ length self.old.values }
        ensures values { self.new.values ≡ operand.entry ∷ drop 2 self.old.values }
        ensures capacity { self.new.capacity ≡ self.old.capacity }
    {
        self.height -= 1;
        self.places.as_mut_slice()[self.height - 1] = operand;
    }

    /// Drops so many operands from the top. There are that many.
    #[inline(always)]
    pub fn drop_top(&mut self, count: usize)
        requires { count ≤ length self.old.values }
        ensures values { self.new.values ≡ drop count self.old.values }
        ensures capacity { self.new.capacity ≡ self.old.capacity }
    {
        self.height -= count;
    }

    /// So many topmost operands, lent, the top last. There are that many.
    pub fn top_operands(&self, count: usize) -> &[Operand<'a>]
        requires { count ≤ length self.now.values }
        ensures { result.now ≡ reverse (take count self.now.values) }
    {
        &self.places.as_slice()[self.height - count..self.height]
    }

    /// How many operands there are.
    #[inline(always)]
    pub fn len(&self) -> usize
        ensures value { result ≡ length self.now.values }
    {
        self.height
    }

    /// The top, if there is one.
    #[inline(always)]
    pub fn top(&self) -> Option<&Operand<'a>>
        ensures { MatchOption result (self.now.values ≡ []) (λ e. (rest : List Datum) × (self.now.values ≡ e.now ∷ rest)) }
    {
        if self.height == 0 {
            return None;
        }
        Some(&self.places.as_slice()[self.height - 1])
    }
}

// Makes places until there are so many. There is room for them.
fn make_places(places: &mut SmallVec<Operand<'_>, INLINE_PLACES>, count: usize)
    requires { count ≤ places.old.capacity }
    ensures { count ≤ length places.new.items }
{
    'places: while places.len() < count {
        places.push_reserved(Operand::default());
    }
}
