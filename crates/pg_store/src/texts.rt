//! What a node and a relationship hold, in texts.
ghost use Rattle.std.specs.Prelude.{◌≡◌, ◌<◌, IfOk, length, map as map_list, string_bytes};
ghost use Rattle.std.specs.FinMap as map;
ghost use Rattle.pg_graph.specs.Refinement.{AreNamed, label_texts, node_of, relationship_of};
ghost use Rattle.pg_store.specs.Stores.{node_texts_view, rel_texts_view};

use pg_graph::{Labels, NodeRecord, RelRecord};
use pg_names::{Names, TextSet};
use pg_value_core::{NodeId, Value};
use std::alloc::{AllocError, Global};
use std::collections::BTreeMap;

/// A node's labels in byte order, and its properties by their keys, in memory of their own.
#[derive(Drop)]
pub struct NodeTexts {
    pub labels: Vec<String>,
    pub properties: BTreeMap<String, Value>,
}

/// A relationship's type, its two ends and its properties by their keys, in memory of their own.
#[derive(Drop)]
pub struct RelTexts {
    pub kind: String,
    pub source: NodeId,
    pub target: NodeId,
    pub properties: BTreeMap<String, Value>,
}

// These texts, in memory of their own.
pub(crate) fn strings_of(alloc: Global, texts: &[&str]) -> Result<Vec<String>, AllocError>
    ensures { IfOk result
        (λ strings. map_list string_bytes strings.items ≡ map_list (λ t. t.now) texts.now) }
{
    let mut strings = Vec::with_capacity(alloc, texts.len())?;
    for text in texts {
        strings.push(String::from_str(alloc, text)?)?;
    }
    Ok(strings)
}
