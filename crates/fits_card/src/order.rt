ghost use Rattle.std.specs.Prelude.{◌≡◌, ◌≤◌, ◌<◌, ◌+◌, ◌-◌, [], ◌∷◌, ◌++◌, length, max, take, drop, vec_len, vec_capacity};
ghost use Rattle.std.specs.List.{range_with_len};
ghost use Rattle.fits_card.specs.Order.{AreSlots, turned};

use crate::room::{reserve_room, room_for};
use std::alloc::{AllocError, Global};
use std::marker::Model;

/// In which order items stand that never move: the slots of those items, and then the free ones.
///
/// An item that comes or goes moves slots alone. Contracts see the slots in use, how many slots
/// there are, and how many items have room.
#[derive(Drop)]
pub(crate) struct Order {
    slots: Vec<usize>,
    used: usize,
}

impl Model for Order {
    ghost use Rattle.std.specs.Prelude.{◌≤◌, take, vec_capacity, vec_len};
    ghost use Rattle.fits_card.specs.Order.{AreSlots, OrderState};

    ghost Value = { OrderState };

    ghost view = { λ order. record {
      slots = take order.used order.slots.items;
      count = vec_len order.slots;
      room = vec_capacity order.slots;
    } };

    ghost invariant = { λ order. record {
      within : order.used ≤ vec_len order.slots;
      slots : AreSlots order.slots.items (vec_len order.slots);
    } };
}

impl Order {
    ghost use Rattle.std.specs.Prelude.{◌≡◌, ◌≤◌, ◌<◌, ◌+◌, ◌-◌, ◌^◌, ◌++◌, length, max, take, drop, IfOk, OnOk, OnErr, slice_index};
    ghost use Rattle.std.specs.List.{range_with_len};
    ghost use Rattle.fits_card.specs.Change.{moved};
    ghost use Rattle.fits_card.specs.Order.{AreSlots};

    /// So many slots, each in use and in its place.
    #[tactic(auto, using(crate::proofs::OrderLemmas::made_steps))]
    pub(crate) fn of(alloc: Global, count: usize) -> Result<Order, AllocError>
        ensures slots { IfOk result (λ order. order.slots ≡ range_with_len 0 count) }
        ensures each { IfOk result (λ order. AreSlots order.slots order.count) }
        ensures len { IfOk result (λ order. length order.slots ≡ count) }
        ensures count { IfOk result (λ order. order.count ≡ count) }
        ensures room { IfOk result (λ order. count ≤ order.room) }
    {
        let mut slots = Vec::with_capacity(alloc, room_for(count))?;
        for slot in 0..count {
            slots.push(slot)?;
        }
        Ok(Order { slots, used: count })
    }

    /// How many items stand in it.
    pub(crate) fn len(&self) -> usize
        ensures value { result ≡ length self.now.slots }
        ensures within { result ≤ self.now.count }
        ensures few { self.now.room < 2 ^ 63 }
    {
        self.used
    }

    /// How many slots there are.
    pub(crate) fn count(&self) -> usize
        ensures { result ≡ self.now.count }
    {
        self.slots.len()
    }

    /// The slot of an item.
    pub(crate) fn slot(&self, index: usize) -> usize
        requires { index < length self.now.slots }
        ensures { result ≡ slice_index self.now.slots index }
    {
        self.slots[index]
    }

    /// Makes room for this many more items. It fails only where room was missing.
    pub(crate) fn reserve(&mut self, additional: usize) -> Result<(), AllocError>
        ensures ok { OnOk result (length self.old.slots + additional ≤ self.new.room) }
        ensures err { OnErr result (self.old.room < length self.old.slots + additional) }
        ensures slots { self.new.slots ≡ self.old.slots }
        ensures count { self.new.count ≡ self.old.count }
        ensures room { self.old.room ≤ self.new.room }
    {
        let free = self.slots.len() - self.used;
        reserve_room(&mut self.slots, additional.saturating_sub(free))
    }

    /// From a place on, so many items go, and so many stand there instead: which slots they have is
    /// told by `slot`.
    ///
    /// It takes no memory: the room is reserved before.
    pub(crate) fn splice(&mut self, place: usize, removed: usize, coming: usize)
        requires from { 1 ≤ place }
        requires to { place + removed ≤ length self.old.slots + 1 }
        requires room { length self.old.slots + coming ≤ self.old.room + removed }
        ensures before { take (place - 1) self.new.slots ≡ take (place - 1) self.old.slots }
        ensures after { drop (place - 1 + coming) self.new.slots
            ≡ drop (place - 1 + removed) self.old.slots }
        ensures len { length self.new.slots + removed ≡ length self.old.slots + coming }
        ensures each { AreSlots self.new.slots self.new.count }
        ensures count { self.new.count ≡ max self.old.count (length self.new.slots) }
        ensures room { self.old.room ≤ self.new.room }
    {
        let _few = self.len();
        let common = removed.min(coming);
        self.send_back(place - 1 + common, removed - common);
        self.bring(place - 1 + common, coming - common);
    }

    /// The item at a place is taken out, and put where it has the other place in the result.
    pub(crate) fn move_slot(&mut self, from: usize, to: usize)
        requires from_first { 1 ≤ from }
        requires from_last { from ≤ length self.old.slots }
        requires to_first { 1 ≤ to }
        requires to_last { to ≤ length self.old.slots }
        ensures slots { self.new.slots ≡ moved self.old.slots from to }
        ensures each { AreSlots self.new.slots self.new.count }
        ensures len { length self.new.slots ≡ length self.old.slots }
        ensures count { self.new.count ≡ self.old.count }
        ensures room { self.new.room ≡ self.old.room }
    {
        let used = self.used;
        send_last(&mut self.slots, from - 1, used, 1);
        bring_last(&mut self.slots, to - 1, used, 1);
    }

    // So many items go.
    fn send_back(&mut self, from: usize, count: usize)
        requires { from + count ≤ length self.old.slots }
        ensures slots { self.new.slots
            ≡ take from self.old.slots ++ drop (from + count) self.old.slots }
        ensures count { self.new.count ≡ self.old.count }
        ensures room { self.new.room ≡ self.old.room }
    {
        let used = self.used;
        send_last(&mut self.slots, from, used, count);
        self.used -= count;
    }

    // So many items come.
    fn bring(&mut self, from: usize, count: usize)
        requires from { from ≤ length self.old.slots }
        requires room { length self.old.slots + count ≤ self.old.room }
        ensures before { take from self.new.slots ≡ take from self.old.slots }
        ensures after { drop (from + count) self.new.slots ≡ drop from self.old.slots }
        ensures len { length self.new.slots ≡ length self.old.slots + count }
        ensures each { AreSlots self.new.slots self.new.count }
        ensures count { self.new.count ≡ max self.old.count (length self.new.slots) }
        ensures room { self.old.room ≤ self.new.room }
    {
        let used = self.used + count;
        grow(&mut self.slots, used);
        bring_last(&mut self.slots, from, used, count);
        self.used = used;
    }
}

// Of the slots before an end, so many from a place on go behind the others. Those behind it stay.
fn send_last(slots: &mut Vec<usize>, from: usize, end: usize, count: usize)
    requires from { from + count ≤ end }
    requires end { end ≤ vec_len slots.old }
    ensures items { slots.new.items
        ≡ turned (take end slots.old.items) from count ++ drop end slots.old.items }
    ensures len { vec_len slots.new ≡ vec_len slots.old }
    ensures room { vec_capacity slots.new ≡ vec_capacity slots.old }
{
    let (used, _) = slots.split_at_mut(end);
    let (_, rest) = used.split_at_mut(from);
    rest.rotate_left(count);
}

// Of the slots before an end, the last so many come to a place. Those behind it stay.
fn bring_last(slots: &mut Vec<usize>, from: usize, end: usize, count: usize)
    requires from { from + count ≤ end }
    requires end { end ≤ vec_len slots.old }
    ensures items { slots.new.items
        ≡ turned (take end slots.old.items) from (end - from - count) ++ drop end slots.old.items }
    ensures len { vec_len slots.new ≡ vec_len slots.old }
    ensures room { vec_capacity slots.new ≡ vec_capacity slots.old }
{
    let (used, _) = slots.split_at_mut(end);
    let (_, rest) = used.split_at_mut(from);
    rest.rotate_right(count);
}

// Makes so many slots, in reserved room.
fn grow(slots: &mut Vec<usize>, count: usize)
    requires room { count ≤ vec_capacity slots.old }
    requires slots { AreSlots slots.old.items (vec_len slots.old) }
    ensures slots { AreSlots slots.new.items (vec_len slots.new) }
    ensures front { take (vec_len slots.old) slots.new.items ≡ slots.old.items }
    ensures len { vec_len slots.new ≡ max (vec_len slots.old) count }
    ensures room { vec_capacity slots.old ≤ vec_capacity slots.new }
{
    for slot in slots.len()..count {
        put_slot(slots, slot);
    }
}

// Puts a slot after the others, in reserved room.
fn put_slot(slots: &mut Vec<usize>, slot: usize)
    requires { vec_len slots.old < vec_capacity slots.old }
    ensures items { slots.new.items ≡ slots.old.items ++ slot ∷ [] }
    ensures len { vec_len slots.new ≡ vec_len slots.old + 1 }
    ensures room { vec_capacity slots.old ≤ vec_capacity slots.new }
{
    let _ = slots.push(slot);
}
