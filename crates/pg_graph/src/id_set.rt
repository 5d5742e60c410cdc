//! A set of ids, seen as a finite map.
ghost use Rattle.std.specs.Prelude.{◌≡◌, ◌==◌, ◌∷◌, ◌++◌, [], Some, not, OnOk, OnErr, IfOk, IfSome, IfNone, IsTrue, true};
ghost use Rattle.std.specs.List.{list_any};
ghost use Rattle.std.specs.FinMap as map;
ghost use Rattle.pg_graph.specs.IdRuns.{flattened, AreRuns};
ghost use Rattle.pg_graph.specs.IdSets.{ids_of, IsHeld};
ghost use Rattle.pg_graph.specs.Links.{with_id, without_id};

use crate::runs;
use crate::runs::Run;
use std::alloc::{AllocError, Global};
use std::marker::Model;
use std::slice;

/// A set of ids that takes least memory and time where they are put in as they rise. One id takes no
/// memory beside the set.
pub struct IdSet {
    alloc: Global,
    held: IdStorage,
}

#[derive(Drop)]
enum IdStorage {
    Nothing,
    One(u64),
    More(Box<Vec<Run>>),
}

// Written out, since a derived one is proved anew in each function that may let such a value go.
impl Drop for IdSet {
    fn drop(self) {
        let IdSet { alloc: _, held: _ } = self;
    }
}

impl Model for IdSet {
    ghost use Rattle.std.specs.FinMap as map;
    ghost use Rattle.std.specs.Ordering.{nat_cmp};
    ghost use Rattle.std.specs.Coded.{coded_ℕ};
    ghost use base.Stored.{coded_unit};

    ghost Value = { map.FinMap nat_cmp (Unit {0}) };

    ghost coded = { map.code coded_ℕ coded_unit };

    ghost use Rattle.pg_graph.specs.IdRuns.{set_of};
    ghost use Rattle.pg_graph.specs.IdSets.{ids_of, IsHeld};

    ghost view = { λ s. set_of (ids_of s.held) };

    ghost invariant = { λ s. IsHeld s.held };
}

impl IdStorage {
    // (what is gone is mostly nothing, and is asked for at each element that is read)
    #[inline(always)]
    fn contains(&self, id: u64) -> bool
        requires { IsHeld self.now }
        ensures { result ≡ list_any (λ n. n == id) (ids_of self.now) }
    {
        match self {
            IdStorage::Nothing => false,
            IdStorage::One(only) => *only == id,
            IdStorage::More(runs) => runs::has(runs.as_slice(), id),
        }
    }

    #[inline(always)]
    fn surely_has(&self, id: u64) -> bool
        ensures { result ≡ true → list_any (λ n. n == id) (ids_of self.now) ≡ true }
    {
        match self {
            IdStorage::Nothing => false,
            IdStorage::One(only) => *only == id,
            IdStorage::More(runs) => runs::surely_has(runs.as_slice(), id),
        }
    }

    fn seems_dense(&self) -> bool {
        match self {
            IdStorage::Nothing => false,
            IdStorage::One(_) => true,
            IdStorage::More(runs) => runs::seem_dense(runs.as_slice()),
        }
    }

    fn insert(&mut self, alloc: Global, id: u64) -> Result<bool, AllocError>
        requires { IsHeld self.old }
        ensures ok { OnOk result (ids_of self.new ≡ with_id id (ids_of self.old)) }
        ensures told { IfOk result (λ b. b ≡ not (list_any (λ n. n == id) (ids_of self.old))) }
        ensures err { OnErr result (ids_of self.new ≡ ids_of self.old) }
        ensures held { IsHeld self.new }
    {
        match self {
            IdStorage::Nothing => *self = IdStorage::One(id),
            IdStorage::One(only) => {
                if *only == id {
                    return Ok(false);
                }
                *self = two(alloc, *only, id)?;
            }
            IdStorage::More(runs) => return runs::insert(alloc, runs, id),
        }
        Ok(true)
    }

    fn remove_id(&mut self, alloc: Global, id: u64)
        requires { IsHeld self.old }
        ensures removed { ids_of self.new ≡ without_id id (ids_of self.old) }
        ensures held { IsHeld self.new }
    {
        match self {
            IdStorage::Nothing => {}
            IdStorage::One(only) => {
                if *only == id {
                    *self = IdStorage::Nothing;
                }
            }
            IdStorage::More(runs) => {
                runs::remove_id(alloc, runs, id);
                if let Some(few) = few(runs.as_slice()) {
                    *self = few;
                }
            }
        }
    }

    fn is_empty(&self) -> bool
        requires { IsHeld self.now }
        ensures empty { IsTrue result → ids_of self.now ≡ [] }
        ensures exact { ids_of self.now ≡ [] → result ≡ true }
    {
        match self {
            IdStorage::Nothing => true,
            IdStorage::One(_) => false,
            IdStorage::More(runs) => runs.is_empty(),
        }
    }

    // Takes the greatest id out, if there is one.
    fn pop(&mut self) -> Option<u64>
        requires { IsHeld self.old }
        ensures some { IfSome result (λ id. ids_of self.old ≡ ids_of self.new ++ id ∷ []) }
        ensures none { IfNone result (ids_of self.old ≡ []) }
        ensures same { IfNone result (ids_of self.new ≡ ids_of self.old) }
        ensures held { IsHeld self.new }
    {
        match self {
            IdStorage::Nothing => None,
            IdStorage::One(only) => {
                let id = *only;
                *self = IdStorage::Nothing;
                Some(id)
            }
            IdStorage::More(runs) => {
                let id = runs::pop(runs);
                if let Some(few) = few(runs.as_slice()) {
                    *self = few;
                }
                id
            }
        }
    }

    fn ids(&self) -> Members<'_>
        ensures { result ≡ ids_of self.now }
    {
        let (ids, runs): (&[u64], &[Run]) = match self {
            IdStorage::Nothing => (&[], &[]),
            IdStorage::One(only) => (slice::from_ref(only), &[]),
            IdStorage::More(runs) => (&[], runs.as_slice()),
        };
        Members { ids, runs }
    }
}

impl IdSet {
    pub fn new(alloc: Global) -> Self
        ensures { result ≡ map.empty }
    {
        IdSet {
            alloc,
            held: IdStorage::Nothing,
        }
    }

    #[inline(always)]
    pub fn contains(&self, id: u64) -> bool
        ensures { result ≡ map.contains_key self.now id }
    {
        self.held.contains(id)
    }

    /// Whether an id is in, as far as a few looks tell: they do where ids rose by one each, or by little more. If not, it may be in all the same.
    #[inline(always)]
    pub fn surely_has(&self, id: u64) -> bool
        ensures { result ≡ true → map.contains_key self.now id ≡ true }
    {
        self.held.surely_has(id)
    }

    /// Whether `surely_has` finds the middle one, and so probably most: what it tells is a matter of time alone.
    pub fn seems_dense(&self) -> bool {
        self.held.seems_dense()
    }

    /// Puts an id in, and tells whether it is new. Or changes nothing.
    pub fn insert(&mut self, id: u64) -> Result<bool, AllocError>
        ensures ok { OnOk result (self.new ≡ map.insert self.old id tt) }
        ensures told { IfOk result (λ b. b ≡ not (map.contains_key self.old id)) }
        ensures err { OnErr result (self.new ≡ self.old) }
    {
        self.held.insert(self.alloc, id)
    }

    /// Takes an id out, if it is there. It takes no memory.
    pub fn remove_id(&mut self, id: u64)
        ensures { self.new ≡ map.remove self.old id }
    {
        self.held.remove_id(self.alloc, id);
    }

    pub fn is_empty(&self) -> bool
        ensures empty { IsTrue result → self.now ≡ map.empty }
        ensures exact { self.now ≡ map.empty → result ≡ true }
    {
        self.held.is_empty()
    }

    /// Takes some id out, if there is one. It takes no memory.
    pub fn pop(&mut self) -> Option<u64>
        ensures before { IfSome result (λ id. map.get self.old id ≡ Some tt) }
        ensures removed { IfSome result (λ id. self.new ≡ map.remove self.old id) }
        ensures none { IfNone result (self.old ≡ map.empty) }
        ensures same { IfNone result (self.new ≡ self.old) }
    {
        self.held.pop()
    }

    /// The ids, rising.
    pub fn ids(&self) -> Members<'_>
        ensures { result ≡ map.keys self.now }
    {
        self.held.ids()
    }
}

// Two ids, of which the set has had one.
#[inline(never)]
fn two(alloc: Global, first: u64, second: u64) -> Result<IdStorage, AllocError>
    ensures ids { IfOk result (λ h. ids_of h ≡ with_id second (first ∷ [])) }
    ensures held { IfOk result (λ h. IsHeld h) }
{
    // (a small set has one run)
    let mut runs = Vec::with_capacity(alloc, 1)?;
    runs::insert(alloc, &mut runs, first)?;
    runs::insert(alloc, &mut runs, second)?;
    Ok(IdStorage::More(Box::new(alloc, runs)?))
}

// What takes no memory beside the set, where there is one id at most.
fn few(runs: &[Run]) -> Option<IdStorage>
    requires { AreRuns runs.now }
    ensures ids { IfSome result (λ h. ids_of h ≡ flattened runs.now) }
    ensures held { IfSome result (λ h. IsHeld h) }
{
    if runs.is_empty() {
        return Some(IdStorage::Nothing);
    }
    Some(IdStorage::One(runs::only(runs)?))
}

/// Ids, seen as the list of those that are still to come.
#[derive(Drop)]
pub struct Members<'a> {
    ids: &'a [u64],
    runs: &'a [Run],
}

impl<'a> Model for Members<'a> {
    ghost use Rattle.std.specs.Prelude.{ℕ, List, ◌++◌};
    ghost use Rattle.pg_graph.specs.IdRuns.{flattened};

    ghost Value = { List ℕ };

    ghost view = { λ i. i.ids.now ++ flattened i.runs.now };
}

impl<'a> Members<'a> {
    /// The next id, if there is one more.
    pub fn next(&mut self) -> Option<u64>
        ensures some { IfSome result (λ id. self.old ≡ id ∷ self.new) }
        ensures none { IfNone result (self.old ≡ []) }
        ensures same { IfNone result (self.new ≡ self.old) }
    {
        while self.ids.is_empty() {
            let (run, others) = self.runs.split_first()?;
            self.ids = run.as_slice();
            self.runs = others;
        }
        let (id, others) = self.ids.split_first()?;
        self.ids = others;
        Some(*id)
    }
}
