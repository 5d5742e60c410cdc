//! A node's labels.
ghost use Rattle.std.specs.Prelude.{◌≡◌, ◌==◌, ◌≤◌, ◌<◌, ◌∷◌, [], OnOk, OnErr, IfOk, IfSome, length};
ghost use Rattle.std.specs.List.{list_any, insert as insert_at, remove as remove_at};
ghost use Rattle.pg_graph.specs.Labels.{names_of};
ghost use Rattle.pg_graph.specs.Records.{with_label, without_label, AreLabels};

use crate::sorted;
use crate::sorted::Numbered;
use pg_names::NameId;
use std::alloc::{AllocError, Global};
use std::marker::Model;
use std::slice;

/// The numbers of a set of names, rising. One label takes no memory beside the node.
pub struct Labels {
    alloc: Global,
    held: LabelStorage,
}

#[derive(Drop)]
enum LabelStorage {
    Nothing,
    One(NameId),
    More(Box<Vec<NameId>>),
}

// Written out, since a derived one is proved anew in each function that may let such a value go.
impl Drop for Labels {
    fn drop(self) {
        let Labels { alloc: _, held: _ } = self;
    }
}

impl Model for Labels {
    ghost use Rattle.std.specs.Prelude.{ℕ, List};
    ghost use Rattle.std.specs.Coded.{coded_list, coded_ℕ};
    ghost use Rattle.pg_graph.specs.Labels.{names_of};
    ghost use Rattle.pg_graph.specs.Records.{AreLabels};

    ghost Value = { List ℕ };

    ghost coded = { coded_list coded_ℕ };

    ghost view = { λ l. names_of l.held };

    ghost invariant = { λ l. AreLabels (names_of l.held) };
}

impl LabelStorage {
    fn as_slice(&self) -> &[NameId]
        ensures { result.now ≡ names_of self.now }
    {
        match self {
            LabelStorage::Nothing => &[],
            LabelStorage::One(only) => slice::from_ref(only),
            LabelStorage::More(names) => names.as_slice(),
        }
    }

    fn insert(&mut self, alloc: Global, place: usize, name: NameId) -> Result<(), AllocError>
        requires { place ≤ length (names_of self.old) }
        ensures ok { OnOk result (names_of self.new ≡ insert_at (names_of self.old) place name) }
        ensures err { OnErr result (names_of self.new ≡ names_of self.old) }
    {
        match self {
            LabelStorage::Nothing => *self = LabelStorage::One(name),
            LabelStorage::One(only) => *self = two(alloc, *only, place, name)?,
            LabelStorage::More(names) => names.insert(place, name)?,
        }
        Ok(())
    }

    fn remove(&mut self, place: usize)
        requires { place < length (names_of self.old) }
        ensures { names_of self.new ≡ remove_at (names_of self.old) place }
    {
        match self {
            LabelStorage::Nothing => {}
            LabelStorage::One(_) => *self = LabelStorage::Nothing,
            LabelStorage::More(names) => {
                names.remove(place);
                if let Some(few) = few(names.as_slice()) {
                    *self = few;
                }
            }
        }
    }

    fn copy(&self, alloc: Global) -> Result<LabelStorage, AllocError>
        ensures { IfOk result (λ h. names_of h ≡ names_of self.now) }
    {
        Ok(match self {
            LabelStorage::Nothing => LabelStorage::Nothing,
            LabelStorage::One(only) => LabelStorage::One(*only),
            LabelStorage::More(names) => {
                let copy = Vec::from_slice(alloc, names.as_slice())?;
                LabelStorage::More(Box::new(alloc, copy)?)
            }
        })
    }
}

impl Labels {
    /// No labels, which take no memory.
    pub fn new(alloc: Global) -> Self
        ensures { result ≡ [] }
    {
        Labels {
            alloc,
            held: LabelStorage::Nothing,
        }
    }

    /// Adds a label, if it isn't there.
    pub fn insert(&mut self, name: NameId) -> Result<(), AllocError>
        ensures ok { OnOk result (self.new ≡ with_label self.old name) }
        ensures err { OnErr result (self.new ≡ self.old) }
    {
        match sorted::place(self.held.as_slice(), name.number()) {
            Ok(_there) => Ok(()),
            Err(place) => self.held.insert(self.alloc, place, name),
        }
    }

    /// Takes a label out, if it is there.
    pub fn remove(&mut self, name: NameId)
        ensures removed { self.new ≡ without_label self.old name }
        ensures rising { AreLabels self.old }
    {
        if let Ok(place) = sorted::place(self.held.as_slice(), name.number()) {
            self.held.remove(place);
        }
    }

    /// Whether a label is one of them, by binary search.
    pub fn contains(&self, name: NameId) -> bool
        ensures { result ≡ list_any (λ n. n == name) self.now }
    {
        sorted::place(self.held.as_slice(), name.number()).is_ok()
    }

    /// The numbers of the labels, from the least on, so not in the order of their texts.
    pub fn as_slice(&self) -> &[NameId]
        ensures names { result.now ≡ self.now }
        ensures rising { AreLabels self.now }
    {
        self.held.as_slice()
    }

    /// The same labels, in memory of their own.
    pub fn copy(&self, alloc: Global) -> Result<Labels, AllocError>
        ensures { IfOk result (λ l. l ≡ self.now) }
    {
        let held = self.held.copy(alloc)?;
        Ok(Labels { alloc, held })
    }
}

// Two labels, of which the node has had one.
#[inline(never)]
fn two(
    alloc: Global,
    first: NameId,
    place: usize,
    second: NameId,
) -> Result<LabelStorage, AllocError>
    requires { place ≤ 1 }
    ensures { IfOk result (λ h. names_of h ≡ insert_at (first ∷ []) place second) }
{
    let mut names = Vec::with_capacity(alloc, 2)?;
    names.push(first)?;
    names.insert(place, second)?;
    Ok(LabelStorage::More(Box::new(alloc, names)?))
}

// What takes no memory beside the node, where there is one label at most.
fn few(names: &[NameId]) -> Option<LabelStorage>
    ensures { IfSome result (λ h. names_of h ≡ names.now) }
{
    match names {
        [] => Some(LabelStorage::Nothing),
        [only] => Some(LabelStorage::One(*only)),
        _ => None,
    }
}
