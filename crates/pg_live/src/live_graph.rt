//! One graph at work, among those of all tenants.
ghost use Rattle.std.specs.Prelude.{◌≡◌, ◌∷◌, [], ℕ, ◌<◌, ◌^◌, true, None, not, filter, length, replicate, slice_index_or, slice_set, OnOk, OnErr, IfOk};
ghost use Rattle.pg_meaning.specs.Entries.{set_keys};
ghost use Rattle.pg_meaning.specs.Graph.{IsGraph, empty_graph, add_node, add_relationship, change_node, change_relationship, element_count, has_node, has_relationship, incident, incoming, outgoing, remove_elements};
ghost use Rattle.pg_meaning.specs.Names.{is_among, put_texts};
ghost use Rattle.pg_meaning.specs.Value.{no_entries};
ghost use Rattle.pg_names.specs.Names.{KeepsNames};
ghost use Rattle.pg_live.specs.Held.{HoldGraphs, shared_of};
ghost use Rattle.pg_live.specs.Indexes.{has_index};
ghost use Rattle.pg_live.specs.Live.{begins_of, begun_at, graphs_of, open_at, pairs_at, with_pairs};
ghost use Rattle.pg_live.specs.Opening.{AreOpening};
ghost use Rattle.pg_live.specs.Settled.{HasBegun};
ghost use Rattle.pg_store.specs.Indexed.{IsOneLess, IsOneMore};
ghost use Rattle.pg_store.specs.Stores.{texts_of, pairs_of};

use crate::transactions::{Begin, no_begins};
use pg_graph::{NextIds, Tables};
use pg_store::{Ends, GraphView, Mark, Shared, Store};
use pg_value_core::{NodeId, RelId, Value};
use std::alloc::{AllocError, Global};
use std::hash::RandomState;
use std::marker::Model;
use std::mem::swap;

/// The graphs of all tenants over what they share, of which one is at work: it is changed, and can
/// be taken back to what it was when the work began.
#[derive(Drop)]
pub struct LiveGraph<T: Tables> {
    pub(crate) store: Store<T>,
    // the stores of all places, with a spare one at that of the graph at work
    pub(crate) others: Vec<Store<T>>,
    pub(crate) shared: Shared<T::Shared>,
    pub(crate) place: usize,
    pub(crate) mark: Mark,
    // for each place, the transaction that is open there
    pub(crate) begins: Vec<Option<Begin>>,
}

impl<T: Tables> Model for LiveGraph<T> {
    ghost use Rattle.pg_live.specs.Live.{Live, live_of, IsLive};
    ghost use Rattle.pg_live.specs.LiveCode.{live_code};

    ghost Value = { Live T.Shared };

    ghost coded = { live_code T.Shared.code };

    ghost view = { λ l.
        live_of T.seen l.store l.others.items l.shared l.place l.mark l.begins.items };

    ghost invariant = { λ l.
        IsLive T.seen l.store l.others.items l.shared l.place l.mark l.begins.items };
}

impl<T: Tables> LiveGraph<T> {
    /// So many empty graphs, of which the first is at work. The keys of hash tables are those of `hasher`.
    pub fn new(alloc: Global, hasher: RandomState, count: usize) -> Result<Self, AllocError>
        requires some { 0 < count }
        requires few { count < 2 ^ 32 }
        ensures graphs { IfOk result (λ l. graphs_of l ≡ replicate count empty_graph) }
        ensures begins { IfOk result (λ l. begins_of l ≡ replicate count None) }
        ensures pairs { IfOk result (λ l. l.aside.pairs ≡ replicate count []) }
        ensures names { IfOk result (λ l. l.names ≡ []) }
        ensures unused { IfOk result (λ l. (owner : ℕ) → T.seen.is_unused owner l.tables) }
    {
        let shared = Shared::new(alloc, hasher, T::new_shared(alloc));
        let mut others = empty_stores(alloc, count)?;
        let begins = no_begins(alloc, count)?;
        let mut store = Store::new(alloc, count as u32);
        swap(&mut store, &mut others[0]);
        let mark = store.mark(&shared);
        Ok(LiveGraph {
            store,
            others,
            shared,
            place: 0,
            mark,
            begins,
        })
    }

    /// The names that all graphs have, and the part that the tables of all share.
    pub fn shared(&self) -> &Shared<T::Shared>
        ensures is { result.now ≡ shared_of self.now }
        ensures held { HoldGraphs T.seen self.now }
        ensures sound { (k : ℕ) → IsGraph (slice_index_or (graphs_of self.now) k empty_graph) }
    {
        &self.shared
    }

    /// The graph, to read.
    pub fn graph(&self) -> GraphView<'_, T>
        ensures is { result ≡ self.now.graph }
        ensures sound { IsGraph self.now.graph }
    {
        self.store.graph(&self.shared)
    }

    /// The ids that the next elements get.
    pub fn next_ids(&self) -> NextIds
        ensures node { result.node ≡ self.now.graph.next_node }
        ensures relationship { result.rel ≡ self.now.graph.next_relationship }
    {
        self.graph().next_ids()
    }

    /// Makes a node with these labels, in any order, and properties, of which the last under a key
    /// stays and null takes the key out. Or changes nothing.
    pub fn create_node(
        &mut self,
        alloc: Global,
        labels: &Vec<&str>,
        properties: Vec<(&str, Value)>,
    ) -> Result<NodeId, AllocError>
        requires room { self.old.graph.next_node < 2 ^ 63 }
        requires count { element_count self.old.graph < 2 ^ 63 }
        ensures id { IfOk result (λ id. id.0 ≡ self.old.graph.next_node) }
        ensures ok { OnOk result (self.new.graph ≡ add_node (texts_of labels.now.items)
            (set_keys (pairs_of properties.entry.items) no_entries) self.old.graph) }
        ensures err { OnErr result (self.new.graph ≡ self.old.graph) }
        ensures aside { self.new.aside ≡ self.old.aside }
    {
        self.store
            .create_node(alloc, &mut self.shared, labels, properties)
    }

    /// Makes a relationship of a type between two nodes that are there, with properties as a node
    /// gets them. Or changes nothing.
    pub fn create_rel(
        &mut self,
        alloc: Global,
        kind: &str,
        source: NodeId,
        target: NodeId,
        properties: Vec<(&str, Value)>,
    ) -> Result<RelId, AllocError>
        requires room { self.old.graph.next_relationship < 2 ^ 63 }
        requires count { element_count self.old.graph < 2 ^ 63 }
        requires source { has_node self.old.graph source.0 ≡ true }
        requires target { has_node self.old.graph target.0 ≡ true }
        ensures id { IfOk result (λ id. id.0 ≡ self.old.graph.next_relationship) }
        ensures ok { OnOk result (self.new.graph ≡ add_relationship kind.now source.0 target.0
            (set_keys (pairs_of properties.entry.items) no_entries) self.old.graph) }
        ensures err { OnErr result (self.new.graph ≡ self.old.graph) }
        ensures aside { self.new.aside ≡ self.old.aside }
    {
        self.store.create_rel(
            alloc,
            &mut self.shared,
            kind,
            Ends { source, target },
            properties,
        )
    }

    /// Gives a node's keys these values, one after the other, where null takes the key out. Or changes nothing.
    pub fn set_node_properties(
        &mut self,
        alloc: Global,
        id: NodeId,
        properties: Vec<(&str, Value)>,
    ) -> Result<(), AllocError>
        requires there { has_node self.old.graph id.0 ≡ true }
        ensures ok { OnOk result (self.new.graph ≡ change_node
            (λ e. record e { properties = set_keys (pairs_of properties.entry.items) e.properties })
            id.0 self.old.graph) }
        ensures err { OnErr result (self.new.graph ≡ self.old.graph) }
        ensures aside { self.new.aside ≡ self.old.aside }
    {
        self.store
            .set_node_properties(alloc, &mut self.shared, id, properties)
    }

    /// Gives a node these properties in the place of its own. Or changes nothing.
    pub fn replace_node_properties(
        &mut self,
        alloc: Global,
        id: NodeId,
        properties: Vec<(&str, Value)>,
    ) -> Result<(), AllocError>
        requires there { has_node self.old.graph id.0 ≡ true }
        ensures ok { OnOk result (self.new.graph ≡ change_node
            (λ e. record e { properties = set_keys (pairs_of properties.entry.items) no_entries })
            id.0 self.old.graph) }
        ensures err { OnErr result (self.new.graph ≡ self.old.graph) }
        ensures aside { self.new.aside ≡ self.old.aside }
    {
        self.store
            .replace_node_properties(alloc, &mut self.shared, id, properties)
    }

    /// Gives a node more labels. Or changes nothing.
    pub fn add_labels(
        &mut self,
        alloc: Global,
        id: NodeId,
        labels: &Vec<&str>,
    ) -> Result<(), AllocError>
        requires there { has_node self.old.graph id.0 ≡ true }
        ensures ok { OnOk result (self.new.graph ≡ change_node
            (λ e. record e { labels = put_texts (texts_of labels.now.items) e.labels })
            id.0 self.old.graph) }
        ensures err { OnErr result (self.new.graph ≡ self.old.graph) }
        ensures aside { self.new.aside ≡ self.old.aside }
    {
        self.store.add_labels(alloc, &mut self.shared, id, labels)
    }

    /// Takes these labels from a node. Or changes nothing.
    pub fn remove_labels(
        &mut self,
        alloc: Global,
        id: NodeId,
        labels: &Vec<&str>,
    ) -> Result<(), AllocError>
        requires there { has_node self.old.graph id.0 ≡ true }
        ensures ok { OnOk result (self.new.graph ≡ change_node (λ e. record e {
          labels = filter (λ l. not (is_among (texts_of labels.now.items) l)) e.labels;
        }) id.0 self.old.graph) }
        ensures err { OnErr result (self.new.graph ≡ self.old.graph) }
        ensures aside { self.new.aside ≡ self.old.aside }
    {
        self.store
            .remove_labels(alloc, &mut self.shared, id, labels)
    }

    /// Gives a relationship's keys these values, one after the other, where null takes the key out. Or changes nothing.
    pub fn set_rel_properties(
        &mut self,
        alloc: Global,
        id: RelId,
        properties: Vec<(&str, Value)>,
    ) -> Result<(), AllocError>
        requires there { has_relationship self.old.graph id.0 ≡ true }
        ensures ok { OnOk result (self.new.graph ≡ change_relationship
            (λ e. record e { properties = set_keys (pairs_of properties.entry.items) e.properties })
            id.0 self.old.graph) }
        ensures err { OnErr result (self.new.graph ≡ self.old.graph) }
        ensures aside { self.new.aside ≡ self.old.aside }
    {
        self.store
            .set_rel_properties(alloc, &mut self.shared, id, properties)
    }

    /// Gives a relationship these properties in the place of its own. Or changes nothing.
    pub fn replace_rel_properties(
        &mut self,
        alloc: Global,
        id: RelId,
        properties: Vec<(&str, Value)>,
    ) -> Result<(), AllocError>
        requires there { has_relationship self.old.graph id.0 ≡ true }
        ensures ok { OnOk result (self.new.graph ≡ change_relationship
            (λ e. record e { properties = set_keys (pairs_of properties.entry.items) no_entries })
            id.0 self.old.graph) }
        ensures err { OnErr result (self.new.graph ≡ self.old.graph) }
        ensures aside { self.new.aside ≡ self.old.aside }
    {
        self.store
            .replace_rel_properties(alloc, &mut self.shared, id, properties)
    }

    /// Takes a relationship out. Or changes nothing.
    pub fn remove_rel(&mut self, id: RelId) -> Result<(), AllocError>
        requires there { has_relationship self.old.graph id.0 ≡ true }
        ensures ok { OnOk result (self.new.graph ≡ remove_elements [] (id.0 ∷ []) self.old.graph) }
        ensures err { OnErr result (self.new.graph ≡ self.old.graph) }
        ensures names { self.new.names ≡ self.old.names }
        ensures tables { self.new.tables ≡ self.old.tables }
        ensures aside { self.new.aside ≡ self.old.aside }
    {
        self.store.remove_rel(&self.shared, id)
    }

    /// Takes a node out, which has no relationships. Or changes nothing.
    pub fn remove_node(&mut self, id: NodeId) -> Result<(), AllocError>
        requires there { has_node self.old.graph id.0 ≡ true }
        requires no_outgoing { incident outgoing id.0 self.old.graph ≡ [] }
        requires no_incoming { incident incoming id.0 self.old.graph ≡ [] }
        ensures ok { OnOk result (self.new.graph ≡ remove_elements (id.0 ∷ []) [] self.old.graph) }
        ensures err { OnErr result (self.new.graph ≡ self.old.graph) }
        ensures names { self.new.names ≡ self.old.names }
        ensures tables { self.new.tables ≡ self.old.tables }
        ensures aside { self.new.aside ≡ self.old.aside }
    {
        self.store.remove_node(&self.shared, id)
    }

    /// Takes the graph back to what it was when the work began. It takes no memory.
    pub fn undo(&mut self)
        ensures graph { self.new.graph ≡ self.old.aside.begun }
        ensures names { self.new.names ≡ self.old.aside.names }
        ensures aside { self.new.aside ≡ self.old.aside }
    {
        self.store.undo(&mut self.shared, self.mark);
    }

    /// Keeps what was done: from here on work begins anew. An open transaction stays open, and can
    /// still be rolled back. It takes no memory.
    pub fn commit(&mut self)
        ensures graph { self.new.graph ≡ self.old.graph }
        ensures names { self.new.names ≡ self.old.names }
        ensures grown { KeepsNames self.old.aside.names self.old.names }
        ensures begun { self.new.aside ≡ begun_at self.old.graph self.old.names self.old.aside }
    {
        if self.begins[self.place].is_some() {
            self.mark = self.store.mark(&self.shared);
            return;
        }
        self.store.commit(&mut self.shared);
        self.mark = self.store.mark(&self.shared);
    }

    /// Takes the graph of another place to work. What was done with the one before stays. It takes no memory.
    pub fn turn_to(&mut self, place: usize)
        requires { place < length self.old.aside.others }
        ensures graphs { graphs_of self.new ≡ graphs_of self.old }
        ensures names { self.new.names ≡ self.old.names }
        ensures place { self.new.aside.place ≡ place }
        ensures begins { begins_of self.new ≡ begins_of self.old }
        ensures pairs { self.new.aside.pairs ≡ self.old.aside.pairs }
        ensures begun { HasBegun self.new }
    {
        exchange(&mut self.store, &mut self.others, self.place, place);
        self.place = place;
        self.mark = self.store.mark(&self.shared);
    }

    /// Keeps the nodes of a label by what they have under a key from now on. What was done so far is
    /// kept, and work begins anew. Or makes no index. An index that is there already stays.
    pub fn add_index(&mut self, alloc: Global, label: &str, key: &str) -> Result<(), AllocError>
        requires closed { open_at self.old.aside ≡ None }
        ensures graph { self.new.graph ≡ self.old.graph }
        ensures names { OnErr result (self.new.names ≡ self.old.names) }
        ensures grown { KeepsNames self.old.names self.new.names }
        ensures begun { self.new.aside ≡ with_pairs (pairs_at self.new.aside)
            (begun_at self.old.graph self.new.names self.old.aside) }
        ensures there { OnOk result (has_index self.new label.now key.now ≡ true) }
        ensures more { OnOk result (IsOneMore self.new.names label.now key.now
            (pairs_at self.old.aside) (pairs_at self.new.aside)) }
        ensures same { OnErr result (pairs_at self.new.aside ≡ pairs_at self.old.aside) }
    {
        let result = self.store.add_index(alloc, &mut self.shared, label, key);
        self.mark = self.store.mark(&self.shared);
        result
    }

    /// Keeps an index no longer. What was done so far is kept, and work begins anew. It takes no memory.
    pub fn drop_index(&mut self, label: &str, key: &str)
        requires closed { open_at self.old.aside ≡ None }
        ensures graph { self.new.graph ≡ self.old.graph }
        ensures names { self.new.names ≡ self.old.names }
        ensures tables { self.new.tables ≡ self.old.tables }
        ensures begun { self.new.aside ≡ with_pairs (pairs_at self.new.aside)
            (begun_at self.old.graph self.old.names self.old.aside) }
        ensures less { IsOneLess self.old.names label.now key.now
            (pairs_at self.old.aside) (pairs_at self.new.aside) }
    {
        self.store.drop_index(&self.shared, label, key);
        self.mark = self.store.mark(&self.shared);
    }
}

fn empty_stores<T: Tables>(alloc: Global, count: usize) -> Result<Vec<Store<T>>, AllocError>
    requires { count < 2 ^ 32 }
    ensures { IfOk result (λ stores. AreOpening T.seen count stores.items) }
{
    let mut stores = Vec::with_capacity(alloc, count)?;
    for owner in 0..count {
        stores.push(Store::new(alloc, owner as u32))?;
    }
    Ok(stores)
}

// Puts the store at work back in its place, and takes that of another place.
fn exchange<T: Tables>(store: &mut Store<T>, others: &mut Vec<Store<T>>, from: usize, to: usize)
    requires from { from < length others.old.items }
    requires to { to < length others.old.items }
    ensures store { store.new
        ≡ slice_index_or (slice_set others.old.items from store.old) to store.new }
    ensures others { others.new.items
        ≡ slice_set (slice_set others.old.items from store.old) to
        (slice_index_or others.old.items from store.old) }
{
    if from == to {
        return;
    }
    swap(store, &mut others[from]);
    swap(store, &mut others[to]);
}
