//! Keys that were left blank, taken out when what was done is kept.
ghost use Rattle.std.specs.Prelude.{◌≡◌, [], true, Some};
ghost use Rattle.std.specs.FinMap as map;
ghost use Rattle.pg_graph.specs.declared.records.NodeRecord.{NodeRecord};
ghost use Rattle.pg_graph.specs.declared.records.RelRecord.{RelRecord};
ghost use Rattle.pg_meaning.specs.Value.{null};
ghost use Rattle.pg_store.specs.Journal.{live};
ghost use Rattle.pg_store.specs.Stores.{state_of, IsSettling, Settles};

use crate::edits::{NodeBefore, PropertiesBefore};
use crate::journal::Entry;
use crate::node_changes::blank_node;
use crate::shared::Shared;
use crate::store::Store;
use pg_graph::{Properties, Tables};
use pg_names::NameId;
use pg_value_core::{NodeId, RelId, Value};

impl<T: Tables> Store<T> {
    // Takes the keys out that these changes left blank, and leaves no change.
    pub(crate) fn settle_keys(&mut self, shared: &mut Shared<T::Shared>, entries: &mut Vec<Entry>)
        requires { IsSettling T.seen self.old shared.old }
        ensures settled { Settles T.seen self.old shared.old self.new shared.new }
        ensures none { entries.new.items ≡ [] }
    {
        while let Some(entry) = entries.pop() {
            self.settle_entry(shared, &entry);
        }
    }

    fn settle_entry(&mut self, shared: &mut Shared<T::Shared>, entry: &Entry)
        requires { IsSettling T.seen self.old shared.old }
        ensures { Settles T.seen self.old shared.old self.new shared.new }
    {
        match entry {
            Entry::NodeChanged(id, NodeBefore::Properties(PropertiesBefore::Key(key, _))) => {
                self.settle_node_key(shared, *id, *key);
            }
            Entry::RelChanged(id, PropertiesBefore::Key(key, _)) => {
                self.settle_rel_key(shared, *id, *key);
            }
            _ => {}
        }
    }

    // Where the key is blank all blank keys of its node go, in one pass: none is left for the next change.
    fn settle_node_key(&mut self, shared: &mut Shared<T::Shared>, id: NodeId, key: NameId)
        requires { IsSettling T.seen self.old shared.old }
        ensures { Settles T.seen self.old shared.old self.new shared.new }
    {
        if !self.has_blank(shared, id, key) {
            return;
        }
        let blank = blank_node(self.sets.alloc);
        let mut node = self.tables.change(&mut shared.tables, id, blank);
        node.properties.remove_blanks();
        self.tables.change(&mut shared.tables, id, node);
    }

    // Where the key is blank all blank keys of its relationship go, in one pass.
    fn settle_rel_key(&mut self, shared: &mut Shared<T::Shared>, id: RelId, key: NameId)
        requires { IsSettling T.seen self.old shared.old }
        ensures { Settles T.seen self.old shared.old self.new shared.new }
    {
        if !self.has_blank_rel(shared, id, key) {
            return;
        }
        let blank = Properties::new(self.sets.alloc);
        let mut properties = self.tables.change_rel(&mut shared.tables, id, blank);
        properties.remove_blanks();
        self.tables.change_rel(&mut shared.tables, id, properties);
    }

    // Whether there is such a node, and the key is blank there.
    fn has_blank(&self, shared: &Shared<T::Shared>, id: NodeId, key: NameId) -> bool
        requires { T.seen.fits self.now.tables shared.now.tables }
        ensures { result ≡ true
            → (n : NodeRecord)
            × (map.get (live (state_of T.seen self.now shared.now)).nodes id.0 ≡ Some n)
            × (map.get n.properties key ≡ Some null) }
    {
        match self.node(shared, id) {
            Some(node) => is_blank(&node.properties, key),
            None => false,
        }
    }

    // Whether there is such a relationship, and the key is blank there.
    fn has_blank_rel(&self, shared: &Shared<T::Shared>, id: RelId, key: NameId) -> bool
        requires { T.seen.fits self.now.tables shared.now.tables }
        ensures { result ≡ true
            → (r : RelRecord)
            × (map.get (live (state_of T.seen self.now shared.now)).rels id.0 ≡ Some r)
            × (map.get r.properties key ≡ Some null) }
    {
        match self.rel(shared, id) {
            Some(rel) => is_blank(&rel.properties, key),
            None => false,
        }
    }
}

fn is_blank(properties: &Properties, key: NameId) -> bool
    ensures { result ≡ true → map.get properties.now key ≡ Some null }
{
    match properties.get(key) {
        Some(value) => matches!(value, Value::Null),
        None => false,
    }
}
