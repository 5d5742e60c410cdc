//! The texts of labels, types and keys, each kept once and known by a number.
ghost use Rattle.std.specs.Prelude.{◌≡◌, ◌<◌, [], length, take, OnOk, IfOk, IfSome, OnErr, slice_get, Some};
ghost use Rattle.std.specs.List.{position};
ghost use Rattle.std.specs.Str.{bytes_eq};
ghost use Rattle.pg_names.specs.Names.{AreDistinct, AreNumbered, KeepsNames, NamesAreTakenBack, with_name};

use crate::name_id::NameId;
use crate::recent::Recent;
use crate::text_set::TextSet;
use pg_texts::same_text;
use std::alloc::{AllocError, Global};
use std::hash::RandomState;
use std::marker::Model;

/// Texts by their numbers, from 0 on. New ones go to the end, and only the last ones can be cut off. They stand in a set of any type that
/// keeps their order.
#[derive(Drop)]
pub struct Names<K: TextSet> {
    alloc: Global,
    hasher: RandomState,
    texts: K,
    recent: Recent,
}

impl<K: TextSet> Model for Names<K> {
    ghost use Rattle.std.specs.Prelude.{ℕ, List};
    ghost use Rattle.std.specs.Coded.{coded_list, coded_ℕ};
    ghost use Rattle.pg_names.specs.Names.{AreDistinct};

    ghost Value = { List (List ℕ) };

    ghost coded = { coded_list (coded_list coded_ℕ) };

    ghost view = { λ n. K.texts n.texts };

    ghost invariant = { λ n. AreDistinct (K.texts n.texts) };
}

impl<K: TextSet> Names<K> {
    /// A table without texts. The hasher's keys are to be random where a stranger chooses the texts.
    pub fn new(alloc: Global, hasher: RandomState) -> Self
        ensures { result ≡ [] }
    {
        Names {
            alloc,
            hasher,
            texts: K::new(alloc, hasher),
            recent: Recent::new(alloc),
        }
    }

    /// What makes the hashers of the set, for other tables whose keys a stranger chooses.
    pub fn hasher(&self) -> RandomState {
        self.hasher
    }

    /// The number of a text, which the table then has.
    pub fn intern(&mut self, text: &str) -> Result<NameId, AllocError>
        ensures number { IfOk result (λ n. slice_get self.new n ≡ Some text.now) }
        ensures grown { OnOk result (self.new ≡ with_name self.old text.now) }
        ensures err { OnErr result (self.new ≡ self.old) }
        ensures keeps { KeepsNames self.old self.new }
        ensures distinct { OnOk result (AreDistinct self.new) }
    {
        if let Some(number) = self.find_recent(text) {
            return Ok(number);
        }
        self.intern_hashed(text)
    }

    // The same of a text that wasn't put or asked for lately.
    #[inline(never)]
    fn intern_hashed(&mut self, text: &str) -> Result<NameId, AllocError>
        ensures number { IfOk result (λ n. slice_get self.new n ≡ Some text.now) }
        ensures grown { OnOk result (self.new ≡ with_name self.old text.now) }
        ensures err { OnErr result (self.new ≡ self.old) }
        ensures keeps { KeepsNames self.old self.new }
        ensures distinct { OnOk result (AreDistinct self.new) }
    {
        let number = self.number_of(text)?;
        self.note(text, number);
        Ok(number)
    }

    fn number_of(&mut self, text: &str) -> Result<NameId, AllocError>
        ensures number { IfOk result (λ n. slice_get self.new n ≡ Some text.now) }
        ensures grown { OnOk result (self.new ≡ with_name self.old text.now) }
        ensures err { OnErr result (self.new ≡ self.old) }
        ensures keeps { KeepsNames self.old self.new }
        ensures distinct { OnOk result (AreDistinct self.new) }
    {
        if let Some(number) = self.find_hashed(text) {
            return Ok(number);
        }
        let owned = String::from_str(self.alloc, text)?;
        let place = self.texts.put(owned)?;
        Ok(NameId(place as u64))
    }

    fn note(&mut self, text: &str, number: NameId)
        ensures { self.new ≡ self.old }
    {
        self.recent.note(text, number.0);
    }

    /// The number of a text that the table has.
    pub fn find(&self, text: &str) -> Option<NameId>
        ensures found { result ≡ position (bytes_eq text.now) self.now }
        ensures distinct { AreDistinct self.now }
    {
        if let Some(number) = self.find_recent(text) {
            return Some(number);
        }
        self.find_hashed(text)
    }

    // Most texts that are asked for were put or asked for before, and are not hashed.
    fn find_recent(&self, text: &str) -> Option<NameId>
        ensures found { IfSome result (λ n. position (bytes_eq text.now) self.now ≡ Some n) }
        ensures distinct { AreDistinct self.now }
    {
        let number = self.recent.number_at(text);
        if number < self.texts.count() && same_text(text, self.texts.text_at(number)) {
            return Some(NameId(number as u64));
        }
        None
    }

    #[inline(never)]
    fn find_hashed(&self, text: &str) -> Option<NameId>
        ensures found { result ≡ position (bytes_eq text.now) self.now }
        ensures distinct { AreDistinct self.now }
    {
        match self.texts.place_of(text) {
            Some(place) => Some(NameId(place as u64)),
            None => None,
        }
    }

    /// The text of a number of this table.
    pub fn text(&self, name: NameId) -> &str
        requires { name < length self.now }
        ensures { slice_get self.now name ≡ Some result.now }
    {
        self.texts.text_at(name.0 as usize)
    }

    /// Keeps the first so many names.
    pub fn truncate(&mut self, len: usize)
        ensures kept { self.new ≡ take len self.old }
        ensures distinct { AreDistinct self.new }
    {
        self.texts.keep(len);
    }

    /// How many names there are.
    pub fn len(&self) -> usize
        ensures len { result ≡ length self.now }
        ensures numbered { AreNumbered self.now }
        ensures distinct { AreDistinct self.now }
    {
        self.texts.count()
    }
}

/// Names that were added are taken back by cutting the table to its earlier length.
pub fn law_of_names()
    ensures { NamesAreTakenBack }
{}
