ghost use Rattle.std.specs.Prelude.{◌≡◌, ◌≤◌, ◌+◌, ◌-◌, ◌++◌, replicate, vec_len, vec_capacity};

use crate::order::Order;
use crate::room::reserve_room;
use std::alloc::{AllocError, Global};
use std::marker::Model;

/// Items in an order, that never move: one that comes or goes moves 8 bytes for each behind it.
///
/// Contracts see the items, and how many more have reserved room.
#[derive(Drop)]
pub struct Slotted<T> {
    // In the slots of the order.
    items: Vec<T>,
    order: Order,
}

impl<T> Model for Slotted<T> {
    ghost use Rattle.std.specs.Prelude.{◌≡◌, ◌≤◌, ◌-◌, length, min, vec_capacity, vec_len};
    ghost use Rattle.fits_card.specs.Order.{items_at, AreSlots, SlottedState};

    ghost Value = { SlottedState T };

    ghost view = { λ it. record {
      items = items_at it.items.items it.order.slots;
      room = min it.order.room (vec_capacity it.items) - length it.order.slots;
    } };

    ghost invariant = { λ it. record {
      slots : AreSlots it.order.slots it.order.count;
      count : it.order.count ≡ vec_len it.items;
      fits : length it.order.slots ≤ min it.order.room (vec_capacity it.items);
    } };
}

impl<T: Copy> Slotted<T> {
    ghost use Rattle.std.specs.Prelude.{◌≡◌, ◌≤◌, ◌<◌, ◌+◌, ◌-◌, ◌^◌, length, take, drop, IfOk, OnOk, OnErr, slice_set, slice_index_or};
    ghost use Rattle.fits_card.specs.Change.{moved};

    /// The items of a vector, in their order.
    pub fn of(alloc: Global, items: Vec<T>) -> Result<Slotted<T>, AllocError>
        ensures { IfOk result (λ it. it.items ≡ items.items) }
    {
        let order = Order::of(alloc, items.len())?;
        Ok(Slotted { items, order })
    }

    /// How many items there are.
    #[allow(clippy::len_without_is_empty)]
    pub fn len(&self) -> usize
        ensures value { result ≡ length self.now.items }
        ensures few { result + self.now.room < 2 ^ 63 }
    {
        self.order.len()
    }

    /// The item at an index.
    pub fn at(&self, index: usize) -> &T
        requires { index < length self.now.items }
        ensures { result.now ≡ slice_index_or self.now.items index result.now }
    {
        &self.items[self.order.slot(index)]
    }

    /// Writes an item over the one at an index.
    pub fn set(&mut self, index: usize, item: T)
        requires { index < length self.old.items }
        ensures items { self.new.items ≡ slice_set self.old.items index item }
        ensures room { self.new.room ≡ self.old.room }
    {
        self.items[self.order.slot(index)] = item;
    }

    /// Makes room for this many more items. It fails only where room was missing.
    pub fn reserve(&mut self, additional: usize) -> Result<(), AllocError>
        ensures ok { OnOk result (additional ≤ self.new.room) }
        ensures err { OnErr result (self.old.room < additional) }
        ensures items { self.new.items ≡ self.old.items }
        ensures room { self.old.room ≤ self.new.room }
    {
        self.order.reserve(additional)?;
        let free = self.order.count() - self.order.len();
        reserve_room(&mut self.items, additional.saturating_sub(free))
    }

    /// From a place on, so many items go, and so many stand there instead, whatever they are.
    ///
    /// No item is moved, and no memory is asked for: the room is reserved before.
    pub fn make_room(&mut self, place: usize, removed: usize, coming: usize, filler: T)
        requires from { 1 ≤ place }
        requires to { place + removed ≤ length self.old.items + 1 }
        requires room { coming ≤ self.old.room + removed }
        ensures before { take (place - 1) self.new.items ≡ take (place - 1) self.old.items }
        ensures after { drop (place - 1 + coming) self.new.items
            ≡ drop (place - 1 + removed) self.old.items }
        ensures len { length self.new.items + removed ≡ length self.old.items + coming }
        ensures room { self.old.room + removed ≤ self.new.room + coming }
    {
        self.order.splice(place, removed, coming);
        fill_up(&mut self.items, self.order.count(), filler);
    }

    /// The item at a place is taken out, and put where it has the other place in the result.
    pub fn move_item(&mut self, from: usize, to: usize)
        requires from_first { 1 ≤ from }
        requires from_last { from ≤ length self.old.items }
        requires to_first { 1 ≤ to }
        requires to_last { to ≤ length self.old.items }
        ensures items { self.new.items ≡ moved self.old.items from to }
        ensures len { length self.new.items ≡ length self.old.items }
        ensures room { self.new.room ≡ self.old.room }
    {
        self.order.move_slot(from, to);
    }
}

// Fills up to so many items, in reserved room.
#[tactic(auto, using(crate::proofs::SlottedLemmas::fill_steps))]
fn fill_up<T: Copy>(items: &mut Vec<T>, count: usize, filler: T)
    requires more { vec_len items.old ≤ count }
    requires room { count ≤ vec_capacity items.old }
    ensures items { items.new.items ≡ items.old.items ++ replicate (count - vec_len items.old) filler }
    ensures len { vec_len items.new ≡ count }
    ensures room { vec_capacity items.old ≤ vec_capacity items.new }
{
    let _ = items.resize(count, filler);
}
