//! Labels and properties made of texts, whose names a table then has.
ghost use Rattle.std.specs.Prelude.{◌≡◌, IfOk};
ghost use Rattle.std.specs.FinMap as map;
ghost use Rattle.pg_names.specs.Names.{AreDistinct, KeepsNames};
ghost use Rattle.pg_graph.specs.Refinement.{AreNamed, label_texts, property_entries};
ghost use Rattle.pg_meaning.specs.Entries.{set_keys};
ghost use Rattle.pg_meaning.specs.Names.{in_byte_order, put_texts};
ghost use Rattle.pg_meaning.specs.Value.{no_entries};
ghost use Rattle.pg_store.specs.Stores.{texts_of, pairs_of, without_texts};

use crate::places::blank_properties;
use pg_graph::{Labels, Properties};
use pg_names::{Names, TextSet};
use pg_value_core::Value;
use std::alloc::{AllocError, Global};

// The labels with those of these texts.
pub(crate) fn more_labels<K: TextSet>(
    names: &mut Names<K>,
    before: Labels,
    texts: &Vec<&str>,
) -> Result<Labels, AllocError>
    requires distinct { AreDistinct names.old }
    requires named { AreNamed names.old before }
    ensures labels { IfOk result (λ labels. label_texts names.new labels
        ≡ put_texts (texts_of texts.now.items) (label_texts names.old before)) }
    ensures named { IfOk result (λ labels. AreNamed names.new labels) }
    ensures keeps { KeepsNames names.old names.new }
    ensures distinct { AreDistinct names.new }
{
    let mut labels = before;
    for text in texts {
        labels.insert_text(names, text)?;
    }
    Ok(labels)
}

// The labels without those of these texts.
pub(crate) fn less_labels<K: TextSet>(names: &Names<K>, before: Labels, texts: &Vec<&str>) -> Labels
    requires { AreNamed names.now before }
    ensures labels { label_texts names.now result
        ≡ without_texts (texts_of texts.now.items) (label_texts names.now before) }
    ensures named { AreNamed names.now result }
{
    let mut labels = before;
    for text in texts {
        labels.remove_text(names, text);
    }
    labels
}

// The properties of these pairs.
pub(crate) fn properties_of<K: TextSet>(
    alloc: Global,
    names: &mut Names<K>,
    pairs: Vec<(&str, Value)>,
) -> Result<Properties, AllocError>
    requires { AreDistinct names.old }
    ensures properties { IfOk result (λ properties. property_entries names.new properties
        ≡ set_keys (pairs_of pairs.entry.items) no_entries) }
    ensures named { IfOk result (λ properties. AreNamed names.new (map.keys properties)) }
    ensures keeps { KeepsNames names.old names.new }
    ensures distinct { AreDistinct names.new }
{
    let properties = blank_properties(alloc, names, &pairs)?;
    more_properties(names, properties, pairs)
}

// The properties with those of these pairs.
pub(crate) fn more_properties<K: TextSet>(
    names: &mut Names<K>,
    before: Properties,
    pairs: Vec<(&str, Value)>,
) -> Result<Properties, AllocError>
    requires distinct { AreDistinct names.old }
    requires named { AreNamed names.old (map.keys before) }
    ensures properties { IfOk result (λ properties. property_entries names.new properties
        ≡ set_keys (pairs_of pairs.entry.items) (property_entries names.old before)) }
    ensures named { IfOk result (λ properties. AreNamed names.new (map.keys properties)) }
    ensures keeps { KeepsNames names.old names.new }
    ensures distinct { AreDistinct names.new }
{
    let mut properties = before;
    for (key, value) in pairs {
        properties.set_text(names, key, value)?;
    }
    Ok(properties)
}
