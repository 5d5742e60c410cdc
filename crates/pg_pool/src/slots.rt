//! The slots of one owner's records, by the ids of what they are records of.
ghost use Rattle.std.specs.Prelude.{◌≡◌, ◌+◌, Some, OnOk, OnErr, IfOk, IsSome};
ghost use Rattle.std.specs.FinMap as map;
ghost use Rattle.pg_pool.specs.Pages.{slot_of, slots_in};

use crate::pages::{Pages, is_blank};
use std::alloc::{AllocError, Global};
use std::marker::Model;

/// How many ids a page has places for.
const IDS: u64 = 64;

/// A map from ids to slots. Ids are counted up, so those that live together mostly lie together: 64
/// neighbours share a page, which goes with the last of them.
#[derive(Drop)]
pub(crate) struct Slots {
    pages: Pages,
}

impl Model for Slots {
    ghost use Rattle.std.specs.Prelude.{ℕ};
    ghost use Rattle.std.specs.FinMap as map;
    ghost use Rattle.std.specs.Ordering.{nat_cmp};
    ghost use Rattle.std.specs.Coded.{coded_ℕ};
    ghost use Rattle.pg_pool.specs.Pages.{slots_in};

    ghost Value = { map.FinMap nat_cmp ℕ };

    ghost coded = { map.code coded_ℕ coded_ℕ };

    ghost view = { λ a. slots_in a.pages };
}

fn slot_at(place: u32) -> Option<usize>
    ensures { result ≡ slot_of place }
{
    if place == 0 {
        return None;
    }
    Some((place - 1) as usize)
}

// There is no place for slots from 2^32 - 1 on.
fn place_of(slot: usize) -> Result<u32, AllocError>
    ensures { IfOk result (λ place. place ≡ slot + 1) }
{
    match u32::try_from(slot) {
        Ok(slot) if slot < u32::MAX => Ok(slot + 1),
        _ => Err(AllocError),
    }
}

// A page that is added says nothing yet.
fn make_page(pages: &mut Pages, number: u64) -> Result<(), AllocError>
    ensures same { slots_in pages.new ≡ slots_in pages.old }
    ensures present { OnOk result (IsSome (map.get pages.new number)) }
{
    if pages.get(number).is_some() {
        return Ok(());
    }
    pages.add(number)
}

// Takes a present page out, if it says nothing.
fn clear_page(pages: &mut Pages, number: u64)
    requires { IsSome (map.get pages.old number) }
    ensures { slots_in pages.new ≡ slots_in pages.old }
{
    if is_blank(pages.get(number).unwrap()) {
        pages.remove(number);
    }
}

impl Slots {
    pub(crate) fn new(alloc: Global) -> Self
        ensures { result ≡ map.empty }
    {
        Slots {
            pages: Pages::new(alloc),
        }
    }

    #[inline(always)]
    pub(crate) fn get(&self, id: u64) -> Option<usize>
        ensures { result ≡ map.get self.now id }
    {
        let page = self.pages.get(id / IDS)?;
        slot_at(page[(id % IDS) as usize])
    }

    pub(crate) fn insert(&mut self, id: u64, slot: usize) -> Result<(), AllocError>
        ensures ok { OnOk result (self.new ≡ map.insert self.old id slot) }
        ensures err { OnErr result (self.new ≡ self.old) }
    {
        let place = place_of(slot)?;
        let number = id / IDS;
        make_page(&mut self.pages, number)?;
        self.pages.set(number, (id % IDS) as usize, place);
        Ok(())
    }

    /// Takes a present id out, and returns its slot.
    pub(crate) fn remove(&mut self, id: u64) -> usize
        requires { IsSome (map.get self.old id) }
        ensures before { map.get self.old id ≡ Some result }
        ensures removed { self.new ≡ map.remove self.old id }
    {
        let slot = self.get(id).unwrap();
        let number = id / IDS;
        self.pages.set(number, (id % IDS) as usize, 0);
        clear_page(&mut self.pages, number);
        slot
    }
}
