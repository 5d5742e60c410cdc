//! Labels and properties by the texts of their names.
ghost use Rattle.std.specs.Prelude.{◌≡◌, ◌<◌, ◌≤◌, ◌&&◌, ◌∷◌, [], map as map_list, filter, length, not, OnOk, OnErr, IfOk};
ghost use Rattle.std.specs.FinMap as map;
ghost use Rattle.std.specs.Option.{option_map};
ghost use Rattle.std.specs.Str.{bytes_eq};
ghost use Rattle.pg_names.specs.Names.{AreDistinct, KeepsNames};
ghost use Rattle.pg_graph.specs.Blank.{is_null};
ghost use Rattle.std.specs.List.{list_any};
ghost use Rattle.pg_graph.specs.Records.{shown, seen_entries};
ghost use Rattle.pg_graph.specs.Refinement.{AreNamed, label_texts, named_entries, property_entries, put_shown, text_of};
ghost use Rattle.pg_meaning.specs.Entries.{at_key, set_key};
ghost use Rattle.pg_meaning.specs.Names.{is_among, put_texts};
ghost use Rattle.pg_value_core.specs.View.{view, entries_view};

use crate::labels::Labels;
use crate::properties::Properties;
use pg_names::{NameId, Names, TextSet};
use pg_texts::{is_short, same_short};
use pg_value_core::Value;
use std::alloc::{AllocError, Global};
use std::collections::{BTreeMap, BTreeSet};

/// So many names of an element are compared with a text; where there are more, the text's number is looked up by its hash.
const FEW: usize = 8;

impl Labels {
    /// Adds the label of this text, if it isn't there.
    pub fn insert_text<K: TextSet>(
        &mut self,
        names: &mut Names<K>,
        text: &str,
    ) -> Result<(), AllocError>
        requires { AreNamed names.old self.old }
        ensures ok { OnOk result (label_texts names.new self.new
            ≡ put_texts (text.now ∷ []) (label_texts names.old self.old)) }
        ensures err { OnErr result
            (label_texts names.new self.new ≡ label_texts names.old self.old) }
        ensures named { AreNamed names.new self.new }
        ensures keeps { KeepsNames names.old names.new }
        ensures distinct { AreDistinct names.old → AreDistinct names.new }
    {
        let name = names.intern(text)?;
        self.insert(name)
    }

    /// Takes the label of this text out, if it is there.
    pub fn remove_text<K: TextSet>(&mut self, names: &Names<K>, text: &str)
        requires { AreNamed names.now self.old }
        ensures texts { label_texts names.now self.new
            ≡ filter (λ l. not (bytes_eq l text.now)) (label_texts names.now self.old) }
        ensures named { AreNamed names.now self.new }
    {
        if let Some(name) = names.find(text) {
            self.remove(name);
        }
    }

    /// The texts of the labels, in byte order.
    pub fn texts<'a, K: TextSet>(
        &self,
        alloc: Global,
        names: &'a Names<K>,
    ) -> Result<Vec<&'a str>, AllocError>
        requires { AreNamed names.now self.now }
        ensures { IfOk result
            (λ texts. map_list (λ t. t.now) texts.items ≡ label_texts names.now self.now) }
    {
        match self.as_slice() {
            [label] => one_text(alloc, names.text(*label)),
            _ => self.sorted_texts(alloc, names),
        }
    }

    #[inline(never)]
    fn sorted_texts<'a, K: TextSet>(
        &self,
        alloc: Global,
        names: &'a Names<K>,
    ) -> Result<Vec<&'a str>, AllocError>
        requires { AreNamed names.now self.now }
        ensures { IfOk result
            (λ texts. map_list (λ t. t.now) texts.items ≡ label_texts names.now self.now) }
    {
        let mut texts = BTreeSet::new(alloc);
        for label in self.as_slice() {
            texts.insert(names.text(*label))?;
        }
        texts.into_iter().collect(alloc)
    }

    /// Whether the label of this text is one of them. A text that no tenant ever used has no
    /// number, and so is none.
    #[inline(never)]
    pub fn contains_text<K: TextSet>(&self, names: &Names<K>, text: &str) -> bool
        requires { AreNamed names.now self.now }
        ensures { result ≡ is_among (label_texts names.now self.now) text.now }
    {
        let labels = self.as_slice();
        if labels.len() <= FEW && is_short(text) {
            return has_text(labels, names, text);
        }
        self.contains_named(names, text)
    }

    // The same of many, or of a long text, by its number.
    #[inline(never)]
    fn contains_named<K: TextSet>(&self, names: &Names<K>, text: &str) -> bool
        requires { AreNamed names.now self.now }
        ensures { result ≡ is_among (label_texts names.now self.now) text.now }
    {
        match names.find(text) {
            Some(name) => self.contains(name),
            None => false,
        }
    }
}

fn one_text<'a>(alloc: Global, text: &'a str) -> Result<Vec<&'a str>, AllocError>
    ensures { IfOk result (λ texts. map_list (λ t. t.now) texts.items ≡ text.now ∷ []) }
{
    let mut texts = Vec::with_capacity(alloc, 1)?;
    texts.push(text)?;
    Ok(texts)
}

// Whether one of these numbers has this text.
fn has_text<K: TextSet>(labels: &[NameId], names: &Names<K>, text: &str) -> bool
    requires named { AreNamed names.now labels.now }
    requires short { length text.now ≤ 16 }
    ensures { result ≡ list_any (bytes_eq text.now) (map_list (text_of names.now) labels.now) }
{
    for label in labels {
        if same_short(text, names.text(*label)) {
            return true;
        }
    }
    false
}

// What stands under the key of this text, if it is not blank.
fn value_of_text<'a, K: TextSet>(
    entries: &'a [(NameId, Value)],
    names: &Names<K>,
    key: &str,
) -> Option<&'a Value>
    requires named { AreNamed names.now (map_list (λ e. e.0) (seen_entries entries.now)) }
    requires short { length key.now ≤ 16 }
    ensures { option_map (λ v. view v.now) result
        ≡ at_key key.now (named_entries names.now (seen_entries entries.now)) }
{
    for (name, value) in entries {
        if is_shown_at(names, *name, value, key) {
            return Some(value);
        }
    }
    None
}

// Whether a value under a key is shown at this text.
fn is_shown_at<K: TextSet>(names: &Names<K>, name: NameId, value: &Value, key: &str) -> bool
    requires named { name < length names.now }
    requires short { length key.now ≤ 16 }
    ensures { result
        ≡ (bytes_eq key.now (text_of names.now name) && not (is_null (view value.now))) }
{
    same_short(key, names.text(name)) && !is_null(value)
}

// What stands under a key, if it is not blank.
fn shown(found: Option<&Value>) -> Option<&Value>
    ensures { option_map (λ v. view v.now) result
        ≡ shown (option_map (λ v. view v.now) found.entry) }
{
    match found {
        Some(value) if matches!(value, Value::Null) => None,
        _ => found,
    }
}

pub(crate) fn is_null(value: &Value) -> bool
    ensures { result ≡ is_null (view value.now) }
{
    match value {
        Value::Null => true,
        _ => false,
    }
}

// Puts a copy of a value under a text, if it is not blank.
fn put_copy(
    alloc: Global,
    found: &mut BTreeMap<String, Value>,
    text: &str,
    value: &Value,
) -> Result<(), AllocError>
    ensures { OnOk result (entries_view found.new.entries
        ≡ put_shown text.now (view value.now) (entries_view found.old.entries)) }
{
    if is_null(value) {
        return Ok(());
    }
    let text = String::from_str(alloc, text)?;
    let copy = value.copy(alloc)?;
    drop(found.insert(text, copy)?);
    Ok(())
}

impl Properties {
    /// Gives the key of this text its value. Null takes the key out.
    pub fn set_text<K: TextSet>(
        &mut self,
        names: &mut Names<K>,
        key: &str,
        value: Value,
    ) -> Result<(), AllocError>
        requires { AreNamed names.old (map.keys self.old) }
        ensures ok { OnOk result (property_entries names.new self.new
            ≡ set_key key.now (view value) (property_entries names.old self.old)) }
        ensures err { OnErr result
            (property_entries names.new self.new ≡ property_entries names.old self.old) }
        ensures named { AreNamed names.new (map.keys self.new) }
        ensures keeps { KeepsNames names.old names.new }
        ensures distinct { AreDistinct names.old → AreDistinct names.new }
    {
        let name = names.intern(key)?;
        self.set(name, value)
    }

    /// What stands under the key of this text. A blank key reads as one that is absent.
    #[inline(never)]
    pub fn get_text<K: TextSet>(&self, names: &Names<K>, key: &str) -> Option<&Value>
        requires { AreNamed names.now (map.keys self.now) }
        ensures { option_map (λ v. view v.now) result
            ≡ at_key key.now (property_entries names.now self.now) }
    {
        let entries = self.entries();
        if entries.len() <= FEW && is_short(key) {
            return value_of_text(entries, names, key);
        }
        self.get_named(names, key)
    }

    // The same of many, or of a long text, by its number.
    #[inline(never)]
    fn get_named<K: TextSet>(&self, names: &Names<K>, key: &str) -> Option<&Value>
        requires { AreNamed names.now (map.keys self.now) }
        ensures { option_map (λ v. view v.now) result
            ≡ at_key key.now (property_entries names.now self.now) }
    {
        match names.find(key) {
            Some(name) => shown(self.get(name)),
            None => None,
        }
    }

    /// The properties by the texts of their keys, in memory of their own.
    pub fn by_text<K: TextSet>(
        &self,
        alloc: Global,
        names: &Names<K>,
    ) -> Result<BTreeMap<String, Value>, AllocError>
        requires { AreNamed names.now (map.keys self.now) }
        ensures { IfOk result
            (λ found. entries_view found.entries ≡ property_entries names.now self.now) }
    {
        let entries = self.entries();
        let mut found = BTreeMap::new(alloc);
        let mut left = entries.len();
        // from the last entry on, as the definition puts them
        while left > 0 {
            left -= 1;
            let (key, value) = &entries[left];
            put_copy(alloc, &mut found, names.text(*key), value)?;
        }
        Ok(found)
    }
}
