//! Rising ids in runs, so that no change moves more of them than a run has.
ghost use Rattle.std.specs.Prelude.{◌≡◌, ◌==◌, ◌<◌, ◌≤◌, ◌∷◌, ◌++◌, [], ℕ, List, true, false, not, drop, length, take, slice_index_or, OnOk, OnErr, IfOk, IfSome, IfNone};
ghost use Rattle.std.specs.List.{list_any};
ghost use Rattle.pg_graph.specs.IdRuns.{first_of, flattened, AreRuns, IsRunOf};
ghost use Rattle.pg_graph.specs.Links.{with_id, without_id};
ghost use Rattle.pg_graph.specs.Sorted.{Rises, IsPlace};

use crate::sorted;
use crate::sorted::Numbered;
use std::alloc::{AllocError, Global};
use std::marker::Model;

// How many ids a run has at most.
const LONGEST: usize = 512;
// How many ids each run has but the last where ids only rose: the last is split at its end when it is full.
const FILLED: usize = LONGEST - 1;
// So many ids of a run are looked at, at most, to find one without a search.
const LOOKS: usize = 4;

impl Numbered for u64 {
    ghost number = { λ n. n };

    fn number(&self) -> u64 {
        *self
    }
}

/// A list of ids.
#[derive(Drop)]
pub struct Run {
    ids: Vec<u64>,
}

impl Model for Run {
    ghost use Rattle.std.specs.Prelude.{ℕ, List};
    ghost use Rattle.std.specs.Coded.{coded_list, coded_ℕ};

    ghost Value = { List ℕ };

    ghost coded = { coded_list coded_ℕ };

    ghost view = { λ r. r.ids.items };
}

impl Numbered for Run {
    ghost number = { first_of };

    fn number(&self) -> u64 {
        match self.ids.first() {
            Some(id) => *id,
            None => 0,
        }
    }
}

impl Run {
    fn of_one(alloc: Global, id: u64) -> Result<Run, AllocError>
        ensures { IfOk result (λ r. r ≡ id ∷ []) }
    {
        let mut ids = Vec::new(alloc);
        ids.push(id)?;
        Ok(Run { ids })
    }

    fn len(&self) -> usize
        ensures { result ≡ length self.now }
    {
        self.ids.len()
    }

    pub fn as_slice(&self) -> &[u64]
        ensures { result.now ≡ self.now }
    {
        self.ids.as_slice()
    }

    fn has(&self, id: u64) -> bool
        requires { Rises (λ n. n) self.now }
        ensures { result ≡ list_any (λ n. n == id) self.now }
    {
        self.place(id).is_ok()
    }

    // Whether an id stands at a place.
    fn has_at(&self, place: usize, id: u64) -> bool
        ensures { result ≡ true → list_any (λ n. n == id) self.now ≡ true }
    {
        place < self.ids.len() && self.ids[place] == id
    }

    // Whether an id stands near a place, where some of those before it are missing: from an id that is off by so many
    // the next look is as many places on or back.
    #[inline(never)]
    fn has_near(&self, place: usize, id: u64) -> bool
        ensures { result ≡ true → list_any (λ n. n == id) self.now ≡ true }
    {
        let mut at = place.min(self.ids.len().saturating_sub(1));
        for _look in 0..LOOKS {
            let Some(found) = self.ids.get(at) else {
                return false;
            };
            if *found == id {
                return true;
            }
            at = at.wrapping_add(id.wrapping_sub(*found) as usize);
        }
        false
    }

    // Where an id stands, or belongs: past the last one, mostly, which takes no search.
    fn place(&self, id: u64) -> Result<usize, usize>
        requires { Rises (λ n. n) self.now }
        ensures { IsPlace (λ n. n) id self.now result }
    {
        match self.ids.last() {
            Some(last) if *last < id => Err(self.ids.len()),
            _ => sorted::place(self.ids.as_slice(), id),
        }
    }

    // Puts an id to its place, and tells whether it is new.
    fn insert(&mut self, id: u64) -> Result<bool, AllocError>
        requires { Rises (λ n. n) self.old }
        ensures ok { OnOk result (self.new ≡ with_id id self.old) }
        ensures told { IfOk result (λ b. b ≡ not (list_any (λ n. n == id) self.old)) }
        ensures err { OnErr result (self.new ≡ self.old) }
    {
        match self.place(id) {
            Ok(_there) => Ok(false),
            Err(place) => {
                self.ids.insert(place, id)?;
                Ok(true)
            }
        }
    }

    fn remove_id(&mut self, id: u64)
        requires { Rises (λ n. n) self.old }
        ensures { self.new ≡ without_id id self.old }
    {
        if let Ok(place) = sorted::place(self.ids.as_slice(), id) {
            self.ids.remove(place);
        }
    }

    // Whether most of its room is empty.
    fn is_sparse(&self) -> bool
        ensures { length self.now ≡ 0 → result ≡ true }
    {
        self.ids.len() <= self.ids.capacity() / 4
    }

    // Gives room back, but for as many ids again. Where that fails, the room stays.
    fn shrink(&mut self)
        ensures { self.new ≡ self.old }
    {
        self.ids.shrink_to(self.ids.len().saturating_mul(2));
    }

    // The ids of this run and those of a later one, in memory of their own.
    fn with_later(&self, alloc: Global, later: &Run, room: usize) -> Result<Run, AllocError>
        ensures { IfOk result (λ r. r ≡ self.now ++ later.now) }
    {
        let mut ids = Vec::with_capacity(alloc, room)?;
        ids.extend_from_slice(self.as_slice())?;
        ids.extend_from_slice(later.as_slice())?;
        Ok(Run { ids })
    }

    // The ids from a place on, in memory of their own.
    fn rest(&self, alloc: Global, place: usize) -> Result<Run, AllocError>
        requires { place ≤ length self.now }
        ensures { IfOk result (λ r. r ≡ drop place self.now) }
    {
        let ids = Vec::from_slice(alloc, &self.ids.as_slice()[place..])?;
        Ok(Run { ids })
    }

    fn truncate(&mut self, place: usize)
        ensures { self.new ≡ take place self.old }
    {
        self.ids.truncate(place);
    }

    // Takes the last id out.
    fn pop(&mut self) -> u64
        requires { 0 < length self.old }
        ensures { self.old ≡ self.new ++ result ∷ [] }
    {
        let id = self.ids.pop().unwrap();
        if self.is_sparse() {
            self.shrink();
        }
        id
    }
}

// The place of the run where an id is or belongs, if there is any run.
fn run_of(runs: &[Run], id: u64) -> Option<usize>
    requires { AreRuns runs.now }
    ensures some { IfSome result (λ i. IsRunOf id runs.now i) }
    ensures none { IfNone result (runs.now ≡ []) }
{
    let last = runs.len().checked_sub(1)?;
    if runs[last].number() <= id {
        return Some(last);
    }
    match sorted::place(runs, id) {
        Ok(i) => Some(i),
        Err(i) => Some(i.saturating_sub(1)),
    }
}

#[inline(never)]
pub fn has(runs: &[Run], id: u64) -> bool
    requires { AreRuns runs.now }
    ensures { result ≡ list_any (λ n. n == id) (flattened runs.now) }
{
    match run_of(runs, id) {
        Some(i) => runs[i].has(id),
        None => false,
    }
}

/// Whether an id is found by a few looks, where it stands among ids that rose by one, or by little more. If not, it may be there all the same.
#[inline(always)]
pub fn surely_has(runs: &[Run], id: u64) -> bool
    ensures { result ≡ true → list_any (λ n. n == id) (flattened runs.now) ≡ true }
{
    let Some(first) = runs.first() else {
        return false;
    };
    let ahead = id.wrapping_sub(first.number()) as usize;
    let at = ahead / FILLED;
    if at >= runs.len() {
        return false;
    }
    let run = &runs[at];
    let place = ahead % FILLED;
    if run.has_at(place, id) {
        return true;
    }
    run.has_near(place, id)
}

/// Whether `surely_has` finds the middle one, and so probably most.
pub fn seem_dense(runs: &[Run]) -> bool {
    let Some(run) = runs.get(runs.len() / 2) else {
        return false;
    };
    match run.as_slice().last() {
        Some(id) => surely_has(runs, *id),
        None => false,
    }
}

/// Puts an id to its place, and tells whether it is new. Or changes nothing.
pub fn insert(alloc: Global, runs: &mut Vec<Run>, id: u64) -> Result<bool, AllocError>
    requires { AreRuns runs.old.items }
    ensures ok { OnOk result (flattened runs.new.items ≡ with_id id (flattened runs.old.items)) }
    ensures told { IfOk result (λ b. b ≡ not (list_any (λ n. n == id) (flattened runs.old.items))) }
    ensures err { OnErr result (flattened runs.new.items ≡ flattened runs.old.items) }
    ensures runs { AreRuns runs.new.items }
{
    let Some(i) = run_of(runs.as_slice(), id) else {
        return add_run(alloc, runs, id);
    };
    if runs[i].len() < LONGEST {
        return insert_in(runs, i, id);
    }
    split(alloc, runs, i)?;
    let i = run_of(runs.as_slice(), id).unwrap();
    insert_in(runs, i, id)
}

// Adds a run of one id where there is none.
#[inline(never)]
fn add_run(alloc: Global, runs: &mut Vec<Run>, id: u64) -> Result<bool, AllocError>
    requires { runs.old.items ≡ [] }
    ensures ok { OnOk result (flattened runs.new.items ≡ id ∷ []) }
    ensures told { IfOk result (λ b. b ≡ true) }
    ensures err { OnErr result (flattened runs.new.items ≡ []) }
    ensures runs { AreRuns runs.new.items }
{
    runs.push(Run::of_one(alloc, id)?)?;
    Ok(true)
}

// Puts an id to its place in its run, and tells whether it is new.
fn insert_in(runs: &mut Vec<Run>, i: usize, id: u64) -> Result<bool, AllocError>
    requires at { IsRunOf id runs.old.items i }
    requires runs { AreRuns runs.old.items }
    ensures ok { OnOk result (flattened runs.new.items ≡ with_id id (flattened runs.old.items)) }
    ensures told { IfOk result (λ b. b ≡ not (list_any (λ n. n == id) (flattened runs.old.items))) }
    ensures err { OnErr result (flattened runs.new.items ≡ flattened runs.old.items) }
    ensures runs { AreRuns runs.new.items }
{
    runs[i].insert(id)
}

// Makes two of a run: the last one is split at its end, so that rising ids fill each.
#[inline(never)]
fn split(alloc: Global, runs: &mut Vec<Run>, i: usize) -> Result<(), AllocError>
    requires inside { i < length runs.old.items }
    requires long { (r : List ℕ) → 1 < length (slice_index_or runs.old.items i r) }
    requires runs { AreRuns runs.old.items }
    ensures same { flattened runs.new.items ≡ flattened runs.old.items }
    ensures runs { AreRuns runs.new.items }
    ensures there { 0 < length runs.new.items }
{
    let length = runs[i].len();
    let place = if i + 1 == runs.len() {
        length - 1
    } else {
        length / 2
    };
    let rest = runs[i].rest(alloc, place)?;
    runs.insert(i + 1, rest)?;
    runs[i].truncate(place);
    Ok(())
}

/// Takes an id out, if it is there.
pub fn remove_id(alloc: Global, runs: &mut Vec<Run>, id: u64)
    requires { AreRuns runs.old.items }
    ensures removed { flattened runs.new.items ≡ without_id id (flattened runs.old.items) }
    ensures runs { AreRuns runs.new.items }
{
    let Some(i) = run_of(runs.as_slice(), id) else {
        return;
    };
    runs[i].remove_id(id);
    if runs[i].is_sparse() {
        if runs[i].len() == 0 {
            runs.remove(i);
            shrink_list(runs);
        } else {
            thin(alloc, runs, i);
        }
    }
}

// Gives room of the list back where most of it is empty.
fn shrink_list(runs: &mut Vec<Run>)
    ensures { runs.new.items ≡ runs.old.items }
{
    if runs.len() <= runs.capacity() / 4 {
        runs.shrink_to(runs.len().saturating_mul(2));
    }
}

// Gives room of a run back: joins it with a neighbour where both fill half a run at most.
#[inline(never)]
fn thin(alloc: Global, runs: &mut Vec<Run>, i: usize)
    requires inside { i < length runs.old.items }
    requires runs { AreRuns runs.old.items }
    ensures same { flattened runs.new.items ≡ flattened runs.old.items }
    ensures runs { AreRuns runs.new.items }
{
    if !join(alloc, runs, i) && (i == 0 || !join(alloc, runs, i - 1)) {
        runs[i].shrink();
    }
}

// Makes one of a run and the next one, if there is one, and they are short. Tells whether it has.
fn join(alloc: Global, runs: &mut Vec<Run>, i: usize) -> bool
    requires inside { i < length runs.old.items }
    requires runs { AreRuns runs.old.items }
    ensures same { flattened runs.new.items ≡ flattened runs.old.items }
    ensures runs { AreRuns runs.new.items }
    ensures told { result ≡ false → runs.new.items ≡ runs.old.items }
{
    let next = i + 1;
    if next == runs.len() {
        return false;
    }
    let length = runs[i].len().saturating_add(runs[next].len());
    if length > LONGEST / 2 {
        return false;
    }
    let Ok(both) = runs[i].with_later(alloc, &runs[next], length * 2) else {
        return false;
    };
    runs[i] = both;
    runs.remove(next);
    shrink_list(runs);
    true
}

/// Takes the greatest id out, if there is one.
pub fn pop(runs: &mut Vec<Run>) -> Option<u64>
    requires { AreRuns runs.old.items }
    ensures some { IfSome result
        (λ id. flattened runs.old.items ≡ flattened runs.new.items ++ id ∷ []) }
    ensures none { IfNone result (flattened runs.old.items ≡ []) }
    ensures same { IfNone result (flattened runs.new.items ≡ flattened runs.old.items) }
    ensures runs { AreRuns runs.new.items }
{
    let last = runs.len().checked_sub(1)?;
    let id = runs[last].pop();
    if runs[last].len() == 0 {
        runs.truncate(last);
        shrink_list(runs);
    }
    Some(id)
}

/// The only id of some runs, if they have just one.
pub fn only(runs: &[Run]) -> Option<u64>
    requires { AreRuns runs.now }
    ensures { IfSome result (λ id. flattened runs.now ≡ id ∷ []) }
{
    if runs.len() != 1 || runs[0].len() != 1 {
        return None;
    }
    Some(runs[0].number())
}
