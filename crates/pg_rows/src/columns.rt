//! The names of the columns of rows.
ghost use Rattle.std.specs.Bool.{Decides};
ghost use Rattle.std.specs.List.Sorted.{IsStrictlySortedBy};
ghost use Rattle.std.specs.Prelude.{◌≡◌, ◌<◌, ◌≤◌, ◌++◌, ◌∷◌, List, ℕ, [], None, Some, cond, true, length, map, position, bytes_eq, string_bytes, slice_get, OnOk, OnErr};
ghost use Rattle.pg_meaning.specs.Order.{text_order};
ghost use Rattle.pg_rows.specs.Named.{AreFirsts, with_name};
ghost use Rattle.pg_rows.specs.Rising.{IsLastBelow};

use pg_texts::{is_short, same_short, same_text};
use std::alloc::{AllocError, Global};
use std::cmp::Ordering;
use std::marker::Model;

/// So many names are looked at one after the other before their order is of use.
const FEW: usize = 8;

/// The names of the columns of rows, which stand once beside them.
#[derive(Drop)]
pub struct Columns {
    names: Vec<String>,
    // So many of the first names rise in byte order, all of them where they all do.
    rising: usize,
    // So many of the first names are the first of their name.
    firsts: usize,
}

impl Model for Columns {
    ghost use Rattle.std.specs.Prelude.{List, ℕ, map, string_bytes};
    ghost use Rattle.pg_rows.specs.Rising.{FirstRise};
    ghost use Rattle.pg_rows.specs.Named.{AreFirsts};

    ghost Value = { List (List ℕ) };

    ghost view = { λ c. map string_bytes c.names.items };

    ghost invariant = { λ c. FirstRise c.rising (map string_bytes c.names.items)
        × AreFirsts c.firsts (map string_bytes c.names.items) };
}

/// The place of a name among names that rise.
#[inline(never)]
fn place_among(names: &[String], name: &str) -> Option<usize>
    requires { IsStrictlySortedBy text_order (map string_bytes names.now) }
    ensures { result ≡ position (bytes_eq name.now) (map string_bytes names.now) }
{
    match names.binary_search_by(|held| order_of(held, name)) {
        Ok(at) => Some(at),
        Err(_) => None,
    }
}

fn count_if(holds: bool, all: usize, before: usize) -> usize
    ensures { result ≡ cond holds all before }
{
    if holds { all } else { before }
}

fn order_of(held: &String, name: &str) -> Ordering
    ensures { result ≡ text_order (string_bytes held.now) name.now }
{
    held.as_str().cmp(name)
}

impl Columns {
    /// No columns.
    pub fn new(alloc: Global) -> Self
        ensures { result ≡ [] }
    {
        Columns {
            names: Vec::new(alloc),
            rising: 0,
            firsts: 0,
        }
    }

    /// How many columns there are.
    pub fn len(&self) -> usize
        ensures { result ≡ length self.now }
    {
        self.names.len()
    }

    /// The name of a column, counted from 0.
    pub fn name(&self, at: usize) -> &str
        requires { at < length self.now }
        ensures { slice_get self.now at ≡ Some result.now }
    {
        self.names[at].as_str()
    }

    /// Whether each name is above the one before it, in byte order.
    pub fn rises(&self) -> bool
        ensures { Decides result (IsStrictlySortedBy text_order self.now) }
    {
        self.rising == self.names.len()
    }

    /// The first column of this name. Among names that rise it is found in few steps, however many there are.
    #[inline(never)]
    pub fn find(&self, name: &str) -> Option<usize>
        ensures { result ≡ position (bytes_eq name.now) self.now }
    {
        if self.rising > FEW || !is_short(name) {
            return self.find_among(name);
        }
        self.find_short(name)
    }

    #[inline(never)]
    fn find_among(&self, name: &str) -> Option<usize>
        ensures { result ≡ position (bytes_eq name.now) self.now }
    {
        if let Some(at) = place_among(&self.names[..self.rising], name) {
            return Some(at);
        }
        self.find_first(name)
    }

    /// The same, where it mostly stands at this place.
    #[inline(always)]
    pub fn find_near(&self, place: usize, name: &str) -> Option<usize>
        ensures { result ≡ position (bytes_eq name.now) self.now }
    {
        if place < self.firsts && same_text(name, self.names[place].as_str()) {
            return Some(place);
        }
        self.find(name)
    }

    #[tactic(auto, using(crate::proofs::NamedRows::first_named))]
    fn find_short(&self, name: &str) -> Option<usize>
        requires { length name.now ≤ 16 }
        ensures { result ≡ position (bytes_eq name.now) self.now }
    {
        for (at, held) in self.names.iter().enumerate() {
            if same_short(name, held.as_str()) {
                return Some(at);
            }
        }
        None
    }

    #[tactic(auto, using(crate::proofs::NamedRows::first_named))]
    fn find_first(&self, name: &str) -> Option<usize>
        ensures { result ≡ position (bytes_eq name.now) self.now }
    {
        for (at, held) in self.names.iter().enumerate() {
            if same_text(name, held.as_str()) {
                return Some(at);
            }
        }
        None
    }

    /// Takes a name in behind the others, unless it is there.
    pub fn add(&mut self, alloc: Global, name: &str) -> Result<(), AllocError>
        ensures added { OnOk result (self.new ≡ with_name name.now self.old) }
        ensures err { OnErr result (self.new ≡ self.old) }
    {
        if self.find(name).is_some() {
            return Ok(());
        }
        self.push(alloc, name)
    }

    /// Takes a name in behind the others, also where it is there.
    pub fn push(&mut self, alloc: Global, name: &str) -> Result<(), AllocError>
        ensures pushed { OnOk result (self.new ≡ self.old ++ name.now ∷ []) }
        ensures err { OnErr result (self.new ≡ self.old) }
    {
        let still_rises = self.still_rises(name);
        let is_first = self.is_next_first(name);
        self.names.push(String::from_str(alloc, name)?)?;
        self.rising = count_if(still_rises, self.names.len(), self.rising);
        self.firsts = count_if(is_first, self.names.len(), self.firsts);
        Ok(())
    }

    /// Whether all names rise, with this one behind them.
    fn still_rises(&self, name: &str) -> bool
        ensures { Decides result
            (IsStrictlySortedBy text_order self.now × IsLastBelow name.now self.now) }
    {
        self.rises() && self.are_below(name)
    }

    /// Whether all names, which are few, are the first of their name, and this one is none of them.
    fn is_next_first(&self, name: &str) -> bool
        ensures firsts { result ≡ true → AreFirsts (length self.now) self.now }
        ensures first { result ≡ true → position (bytes_eq name.now) self.now ≡ None }
    {
        if self.firsts < self.names.len() || self.firsts >= FEW {
            return false;
        }
        self.find(name).is_none()
    }

    /// Whether the last name is below this one, or there is none.
    fn are_below(&self, name: &str) -> bool
        ensures { Decides result (IsLastBelow name.now self.now) }
    {
        match self.names.last() {
            Some(last) => order_of(last, name).is_lt(),
            None => true,
        }
    }
}
