//! Values under keys that the storage picks.
ghost use Rattle.std.specs.Prelude.{◌≡◌, ◌+◌, ◌<◌, [], length, Some, None, IfOk, IsTrue};
ghost use Rattle.pg_pool.specs.Slab.{get, slab_len, ContainsKey, IsVacant, IsFree, Updates, SameValues};

use crate::chunks::Chunks;
use std::alloc::{AllocError, Global};
use std::marker::{Model, PhantomData};

/// Where a value of type `V` lies, or the key of the next vacant slot. It has room for either, so
/// that vacant slots are found without a list beside them.
pub(crate) trait Slot<V>: Drop {
    ghost use Rattle.std.specs.Prelude.{◌≡◌, Option, Some, None, IsSome};

    ghost held: { Self → Option V };

    fn occupied(value: V) -> Self
        ensures { held result ≡ Some value };

    fn vacant(next: u32) -> Self
        ensures { held result ≡ None };

    /// What a vacant slot says of the next one.
    fn next(&self) -> Option<u32>
        ensures { IsSome result → held self.now ≡ None };

    fn into_value(self) -> Option<V>
        ensures { result ≡ held self };
}

/// Values of type `V`, each in a slot of type `S` under a key. A slot whose value is gone is taken
/// by the next one.
// Nothing is known of `next`, nor of what vacant slots say: a slot is looked at before it is taken.
#[derive(Drop)]
pub(crate) struct Slab<V: Drop, S: Slot<V>> {
    slots: Chunks<S>,
    count: usize,
    next: u32,
    values: PhantomData<V>,
}

impl<V: Drop, S: Slot<V>> Model for Slab<V, S> {
    ghost use Rattle.std.specs.Prelude.{◌≡◌, map, is_some, count_by};
    ghost use Rattle.pg_pool.specs.Slab.{Slab as Slots, slab_code};

    ghost Value = { Slots V };

    ghost coded = { slab_code V.code };

    ghost view = { λ a. record { slots = map S.held a.slots.items; spare = a.slots.spare } };

    ghost invariant = { λ a. a.count ≡ count_by is_some (map S.held a.slots.items) };
}

impl<V: Drop, S: Slot<V>> Slab<V, S> {
    pub(crate) fn new(alloc: Global) -> Self
        ensures { result.slots ≡ [] }
    {
        Slab {
            slots: Chunks::new(alloc),
            count: 0,
            next: u32::MAX,
            values: PhantomData,
        }
    }

    /// How many values there are.
    pub(crate) fn len(&self) -> usize
        ensures { result ≡ slab_len self.now }
    {
        self.count
    }

    /// The slot of a key that has a value.
    #[inline(always)]
    pub(crate) fn slot(&self, key: usize) -> &S
        requires { ContainsKey self.now key }
        ensures { S.held result.now ≡ get self.now key }
    {
        self.slots.item(key)
    }

    fn is_vacant(&self, key: usize) -> bool
        ensures { IsTrue result → IsVacant self.now key }
    {
        match self.slots.get(key) {
            Some(slot) => slot.next().is_some(),
            None => false,
        }
    }

    /// Makes room for one more value, and tells the key that it may have.
    pub(crate) fn reserve(&mut self) -> Result<usize, AllocError>
        ensures slots { self.new.slots ≡ self.old.slots }
        ensures free { IfOk result (IsFree self.new) }
    {
        let next = self.next as usize;
        if self.is_vacant(next) {
            return Ok(next);
        }
        self.slots.reserve()?;
        Ok(self.slots.len())
    }

    fn fill(&mut self, key: usize, value: V)
        requires { IsVacant self.old key }
        ensures updates { Updates self.old self.new key (Some value) }
        ensures len { slab_len self.new ≡ slab_len self.old + 1 }
    {
        let before = self.slots.replace(key, S::occupied(value));
        self.next = before.next().unwrap_or(u32::MAX);
        self.count += 1;
    }

    fn append(&mut self, value: V)
        requires { 0 < self.old.spare }
        ensures updates { Updates self.old self.new (length self.old.slots) (Some value) }
        ensures len { slab_len self.new ≡ slab_len self.old + 1 }
    {
        self.slots.push_reserved(S::occupied(value));
        self.count += 1;
    }

    /// Puts a value under a key that is free.
    pub(crate) fn put(&mut self, key: usize, value: V)
        requires { IsFree self.old key }
        ensures updates { Updates self.old self.new key (Some value) }
        ensures len { slab_len self.new ≡ slab_len self.old + 1 }
    {
        if key < self.slots.len() {
            self.fill(key, value);
        } else {
            self.append(value);
        }
    }

    /// Puts a value in the place of another, and returns that one.
    pub(crate) fn replace(&mut self, key: usize, value: V) -> V
        requires { ContainsKey self.old key }
        ensures before { get self.old key ≡ Some result }
        ensures updates { Updates self.old self.new key (Some value) }
    {
        let before = self.slots.replace(key, S::occupied(value));
        before.into_value().unwrap()
    }

    fn take(&mut self, key: usize) -> V
        requires { ContainsKey self.old key }
        ensures before { get self.old key ≡ Some result }
        ensures updates { Updates self.old self.new key None }
        ensures len { slab_len self.new + 1 ≡ slab_len self.old }
    {
        let before = self.slots.replace(key, S::vacant(self.next));
        self.next = u32::try_from(key).unwrap_or(u32::MAX);
        self.count -= 1;
        before.into_value().unwrap()
    }

    // Gives memory back once there is no value.
    fn trim(&mut self)
        ensures { SameValues self.old self.new }
    {
        if self.count == 0 {
            self.slots.clear();
        }
    }

    /// Takes a value out. With the last one all memory is given back.
    pub(crate) fn remove(&mut self, key: usize) -> V
        requires { ContainsKey self.old key }
        ensures before { get self.old key ≡ Some result }
        ensures updates { Updates self.old self.new key None }
        ensures len { slab_len self.new + 1 ≡ slab_len self.old }
    {
        let value = self.take(key);
        self.trim();
        value
    }
}
