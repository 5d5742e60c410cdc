//! By what nodes are found, and whether a node is one of these.
ghost use Rattle.std.specs.Prelude.{◌≡◌, false, option_copied};
ghost use Rattle.std.specs.Option.{option_map_or};
ghost use Rattle.pg_index.specs.Properties.{is_found_by};
ghost use Rattle.pg_store.specs.Covers.{belongs};
ghost use Rattle.pg_store.specs.Wanted.{place_key, wanted_key};

use pg_graph::NodeRecord;
use pg_meaning::Tri;
use pg_names::NameId;
use pg_value::eq3;
use pg_value_core::Value;

/// Which nodes are sought: all, those of a label, or those of a label that have a value under a key.
#[derive(Clone, Copy)]
pub enum Wanted<'a> {
    All,
    Labelled(NameId),
    Valued(NameId, NameId, &'a Value),
}

/// Where an id is kept: with those of all nodes, of a label, or of a label and a value under a key.
pub enum Place {
    All,
    Labelled(NameId),
    Valued(NameId, NameId, Value),
}

// Written out, since a derived one is proved anew in each function that may let such a value go.
impl Drop for Place {
    fn drop(self) {
        match self {
            Place::All => {}
            Place::Labelled(_) => {}
            Place::Valued(_, _, _) => {}
        }
    }
}

impl Place {
    // The nodes that belong there.
    pub(crate) fn wanted(&self) -> Wanted<'_>
        ensures { wanted_key result ≡ place_key self.now }
    {
        match self {
            Place::All => Wanted::All,
            Place::Labelled(label) => Wanted::Labelled(*label),
            Place::Valued(label, key, value) => Wanted::Valued(*label, *key, value),
        }
    }
}

fn has_value(node: &NodeRecord, label: NameId, key: NameId, value: &Value) -> bool
    ensures { result ≡ is_found_by label key value.now node.now }
{
    if !node.labels.contains(label) {
        return false;
    }
    match node.properties.get(key) {
        Some(found) => matches!(eq3(found, value), Tri::True),
        None => false,
    }
}

pub(crate) fn is_sought(node: Option<&NodeRecord>, wanted: &Wanted<'_>) -> bool
    ensures { result
        ≡ option_map_or (belongs (wanted_key wanted.now)) (option_copied node.entry) false }
{
    match node {
        Some(node) => match wanted {
            Wanted::All => true,
            Wanted::Labelled(label) => node.labels.contains(*label),
            Wanted::Valued(label, key, value) => has_value(node, *label, *key, value),
        },
        None => false,
    }
}
