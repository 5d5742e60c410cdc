//! Pages of places, by their numbers.
ghost use Rattle.std.specs.Prelude.{◌≡◌, ◌<◌, OnOk, OnErr, IsSome, IfSome, IfNone, IsTrue};
ghost use Rattle.std.specs.Prelude.{EachIndex, option_copied, slice_index, slice_set, replicate, length};
ghost use Rattle.std.specs.FinMap as map;
ghost use Rattle.pg_pool.specs.Pages.{StandsAt, IsNowhere, WritesPlace, HasAllPlaces};

use indexmap::IndexMap;
use std::alloc::{AllocError, Global};
use std::marker::Model;

/// Pages of 64 places each.
// Most are found where their numbers were seen, without a hash. Nothing is known of `seen`: each
// number is compared with the one that stands there.
#[derive(Drop)]
pub(crate) struct Pages {
    kept: IndexMap<u64, [u32; 64]>,
    seen: Vec<usize>,
}

impl Model for Pages {
    ghost use Rattle.std.specs.Prelude.{ℕ, List};
    ghost use Rattle.std.specs.FinMap as map;
    ghost use Rattle.std.specs.Ordering.{nat_cmp};
    ghost use Rattle.std.specs.Coded.{coded_ℕ, coded_list};

    ghost Value = { map.FinMap nat_cmp (List ℕ) };

    ghost coded = { map.code coded_ℕ (coded_list coded_ℕ) };

    ghost view = { λ a. map.from_entries a.kept.entries };
}

// Where the index of a page is noted, of a list whose length is a power of two.
fn spot(seen: &[usize], number: u64) -> usize {
    number as usize & seen.len().wrapping_sub(1)
}

fn noted(seen: &[usize], number: u64) -> usize {
    match seen.get(spot(seen, number)) {
        Some(index) => *index,
        None => 0,
    }
}

fn note(seen: &mut [usize], number: u64, index: usize) {
    let spot = spot(seen, number);
    if let Some(noted) = seen.get_mut(spot) {
        *noted = index;
    }
}

fn note_all(seen: &mut [usize], kept: &IndexMap<u64, [u32; 64]>) {
    for (index, number) in kept.keys().enumerate() {
        note(seen, *number, index);
    }
}

fn make_room(seen: &mut Vec<usize>, kept: &IndexMap<u64, [u32; 64]>) -> Result<(), AllocError> {
    if seen.len() <= kept.len() {
        seen.resize(seen.len().saturating_mul(2).max(4), 0)?;
        note_all(seen.as_mut_slice(), kept);
    }
    Ok(())
}

// Notes where a page stands that was moved, if one was.
fn note_moved(seen: &mut [usize], kept: &IndexMap<u64, [u32; 64]>, index: usize) {
    if let Some((number, _)) = kept.get_index(index) {
        note(seen, *number, index);
    }
}

fn trim(kept: &mut IndexMap<u64, [u32; 64]>)
    ensures { kept.new.entries ≡ kept.old.entries }
{
    let length = kept.len();
    if length.max(4) < kept.capacity() / 4 {
        kept.shrink_to(length * 2);
    }
}

fn index_of(kept: &IndexMap<u64, [u32; 64]>, seen: &[usize], number: u64) -> Option<usize>
    ensures some { IfSome result (StandsAt kept.now.entries number) }
    ensures none { IfNone result (IsNowhere kept.now.entries number) }
{
    let index = noted(seen, number);
    match kept.get_index(index) {
        Some((found, _)) if *found == number => Some(index),
        _ => hashed_index_of(kept, number),
    }
}

fn hashed_index_of(kept: &IndexMap<u64, [u32; 64]>, number: u64) -> Option<usize>
    ensures some { IfSome result (StandsAt kept.now.entries number) }
    ensures none { IfNone result (IsNowhere kept.now.entries number) }
{
    let (index, _, _) = kept.get_full(&number)?;
    Some(index)
}

fn write(page: &mut [u32; 64], at: usize, place: u32)
    requires { at < 64 }
    ensures long { length page.old ≡ 64 }
    ensures written { page.new ≡ slice_set page.old at place }
{
    page[at] = place;
}

/// Whether each place of a page is 0.
pub(crate) fn is_blank(page: &[u32; 64]) -> bool
    ensures { IsTrue result → EachIndex page.now (λ k. slice_index page.now k ≡ 0) }
{
    page[0] == 0 && page[63] == 0 && page.iter().all(|place| *place == 0)
}

impl Pages {
    pub(crate) fn new(alloc: Global) -> Self
        ensures { result ≡ map.empty }
    {
        Pages {
            kept: IndexMap::new(alloc),
            seen: Vec::new(alloc),
        }
    }

    #[inline(always)]
    pub(crate) fn get(&self, number: u64) -> Option<&[u32; 64]>
        ensures { option_copied result ≡ map.get self.now number }
    {
        match self.kept.get_index(noted(self.seen.as_slice(), number)) {
            Some((found, page)) if *found == number => Some(page),
            _ => self.hashed(number),
        }
    }

    // Apart, so that a page that stands where it was seen is found in a small frame.
    #[inline(never)]
    fn hashed(&self, number: u64) -> Option<&[u32; 64]>
        ensures { option_copied result ≡ map.get self.now number }
    {
        self.kept.get(&number)
    }

    /// Writes one place of a present page.
    pub(crate) fn set(&mut self, number: u64, at: usize, place: u32)
        requires present { IsSome (map.get self.old number) }
        requires within { at < 64 }
        ensures long { HasAllPlaces self.old number }
        ensures written { WritesPlace self.old self.new number at place }
    {
        let index = index_of(&self.kept, self.seen.as_slice(), number).unwrap();
        let (_, page) = self.kept.pair_mut(index);
        write(page, at, place);
    }

    /// Adds a page of zeros under a new number.
    pub(crate) fn add(&mut self, number: u64) -> Result<(), AllocError>
        ensures ok { OnOk result (self.new ≡ map.insert self.old number (replicate 64 0)) }
        ensures err { OnErr result (self.new ≡ self.old) }
    {
        make_room(&mut self.seen, &self.kept)?;
        let index = self.kept.len();
        self.kept.insert(number, [0; 64])?;
        note(self.seen.as_mut_slice(), number, index);
        Ok(())
    }

    /// Takes a present page out. The last one takes its place.
    pub(crate) fn remove(&mut self, number: u64)
        requires { IsSome (map.get self.old number) }
        ensures { self.new ≡ map.remove self.old number }
    {
        let index = index_of(&self.kept, self.seen.as_slice(), number).unwrap();
        self.kept.swap_remove_index(index);
        note_moved(self.seen.as_mut_slice(), &self.kept, index);
        trim(&mut self.kept);
    }
}
