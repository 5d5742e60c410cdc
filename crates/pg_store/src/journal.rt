//! The undo journal: marks, and a store taken back to one.
ghost use Rattle.std.specs.Prelude.{◌≡◌, ◌≤◌, [], length, take};
ghost use Rattle.std.specs.FinMap as map;
ghost use Rattle.pg_graph.specs.Content.{Keeps};
ghost use Rattle.pg_store.specs.Journal.{CanUndoOne, NoneGone, undo_one};
ghost use Rattle.pg_store.specs.declared.journal.Entry.TheVariants.{NodeChanged, RelChanged};
ghost use Rattle.pg_store.specs.Noted.{AreExact, NoneKeptIsEmpty};
ghost use Rattle.pg_store.specs.Stores.{graph_of_store, graph_at, index_pairs, state_of, IsFit, IsSettling, HasMark, IsBack, Settles};

use crate::edits::{NodeBefore, PropertiesBefore, give_back, give_node_back};
use crate::node_changes::blank_node;
use crate::shared::Shared;
use crate::store::Store;
use crate::wanted::is_sought;
use pg_graph::{Properties, Tables};
use pg_value_core::{NodeId, RelId};
use std::mem;

/// How one change is taken back.
#[derive(Drop)]
pub enum Entry {
    NodeAdded,
    RelAdded,
    NodeChanged(NodeId, NodeBefore),
    RelChanged(RelId, PropertiesBefore),
    NodeRemoved(NodeId),
    RelRemoved(RelId),
}

/// A moment of a store to which it can be taken back.
#[derive(Clone, Copy)]
pub struct Mark {
    pub(crate) journal: usize,
    pub(crate) names: usize,
}

impl<T: Tables> Store<T> {
    /// Marks this moment.
    pub fn mark(&self, shared: &Shared<T::Shared>) -> Mark
        requires fit { IsFit T.seen self.now shared.now }
        ensures there { HasMark T.seen self.now shared.now result }
        ensures graph { graph_at T.seen self.now shared.now result
            ≡ graph_of_store T.seen self.now shared.now }
        ensures names { result.names ≡ length shared.now.names }
        ensures journal { result.journal ≡ length self.now.journal.items }
    {
        Mark {
            journal: self.journal.len(),
            names: shared.names.len(),
        }
    }

    /// Takes back all that was done since the mark, and cuts off the names that it brought. Where that leaves
    /// nothing to undo, the sets are swept. It takes no memory.
    pub fn undo(&mut self, shared: &mut Shared<T::Shared>, mark: Mark)
        requires fit { IsFit T.seen self.old shared.old }
        requires mark { HasMark T.seen self.old shared.old mark }
        ensures graph { graph_of_store T.seen self.new shared.new
            ≡ graph_at T.seen self.old shared.old mark }
        ensures names { shared.new.names ≡ take mark.names shared.old.names }
        ensures marks { (earlier : Mark)
            → earlier.journal ≤ mark.journal → earlier.names ≤ mark.names
            → graph_at T.seen self.new shared.new earlier
            ≡ graph_at T.seen self.old shared.old earlier }
        ensures there { (earlier : Mark) → earlier.journal ≤ mark.journal
            → earlier.names ≤ mark.names → HasMark T.seen self.old shared.old earlier
            → HasMark T.seen self.new shared.new earlier }
        ensures fit { IsFit T.seen self.new shared.new }
        ensures exact { mark.journal ≡ 0
            → AreExact self.new.sets (state_of T.seen self.new shared.new) }
        ensures pairs { index_pairs self.new ≡ index_pairs self.old }
        ensures keeps { Keeps
            T.seen self.old.tables shared.old.tables self.new.tables shared.new.tables }
    {
        self.go_back(shared, mark);
        shared.names.truncate(mark.names);
        if self.journal.len() > 0 {
            return;
        }
        self.sweep(shared);
    }

    /// Takes back all that was done since the mark, and leaves the names: others may have added some since. Where
    /// that leaves nothing to undo, the sets are swept. It takes no memory.
    pub fn back(&mut self, shared: &mut Shared<T::Shared>, mark: Mark)
        requires fit { IsFit T.seen self.old shared.old }
        requires mark { HasMark T.seen self.old shared.old mark }
        ensures graph { graph_of_store T.seen self.new shared.new
            ≡ graph_at T.seen self.old shared.old mark }
        ensures names { shared.new.names ≡ shared.old.names }
        ensures fit { IsFit T.seen self.new shared.new }
        ensures exact { mark.journal ≡ 0
            → AreExact self.new.sets (state_of T.seen self.new shared.new) }
        ensures pairs { index_pairs self.new ≡ index_pairs self.old }
        ensures keeps { Keeps
            T.seen self.old.tables shared.old.tables self.new.tables shared.new.tables }
    {
        self.go_back(shared, mark);
        if !self.journal.is_empty() {
            return;
        }
        self.sweep(shared);
    }

    // Takes back all that was done since the mark, and leaves the names and the sets of ids as they are.
    fn go_back(&mut self, shared: &mut Shared<T::Shared>, mark: Mark)
        requires fit { IsFit T.seen self.old shared.old }
        requires mark { mark.journal ≤ length self.old.journal.items }
        ensures back { IsBack T.seen mark self.old shared.old self.new shared.new }
        ensures sets { self.new.sets ≡ self.old.sets }
        ensures names { shared.new.names ≡ shared.old.names }
        ensures fit { IsFit T.seen self.new shared.new }
        ensures keeps { Keeps
            T.seen self.old.tables shared.old.tables self.new.tables shared.new.tables }
    {
        // the newest entry is always that of the last change that still stands
        while self.journal.len() > mark.journal {
            let entry = self.journal.pop().unwrap();
            self.take_back(shared, entry);
        }
    }

    // Takes back one change.
    fn take_back(&mut self, shared: &mut Shared<T::Shared>, entry: Entry)
        requires fits { T.seen.fits self.old.tables shared.old.tables }
        requires can { CanUndoOne entry (state_of T.seen self.old shared.old) }
        ensures state { state_of T.seen self.new shared.new
            ≡ undo_one entry (state_of T.seen self.old shared.old) }
        ensures names { shared.new.names ≡ shared.old.names }
        ensures journal { self.new.journal ≡ self.old.journal }
        ensures sets { self.new.sets ≡ self.old.sets }
        ensures keeps { Keeps
            T.seen self.old.tables shared.old.tables self.new.tables shared.new.tables }
    {
        match entry {
            Entry::NodeAdded => {
                self.next.node -= 1;
                self.elements -= 1;
                self.tables
                    .drop_node(&mut shared.tables, NodeId(self.next.node));
            }
            Entry::RelAdded => {
                self.next.rel -= 1;
                self.elements -= 1;
                self.tables
                    .drop_rel(&mut shared.tables, RelId(self.next.rel));
            }
            Entry::NodeChanged(id, before) => {
                self.give_node_back(shared, id, before);
            }
            Entry::RelChanged(id, before) => {
                self.give_rel_back(shared, id, before);
            }
            Entry::NodeRemoved(id) => {
                self.gone_nodes.remove_id(id.0);
                self.elements += 1;
            }
            Entry::RelRemoved(id) => {
                self.gone_rels.remove_id(id.0);
                self.elements += 1;
            }
        }
    }

    // Takes a change of a node back.
    fn give_node_back(&mut self, shared: &mut Shared<T::Shared>, id: NodeId, before: NodeBefore)
        requires fits { T.seen.fits self.old.tables shared.old.tables }
        requires can { CanUndoOne (NodeChanged id before) (state_of T.seen self.old shared.old) }
        ensures state { state_of T.seen self.new shared.new
            ≡ undo_one (NodeChanged id before) (state_of T.seen self.old shared.old) }
        ensures names { shared.new.names ≡ shared.old.names }
        ensures journal { self.new.journal ≡ self.old.journal }
        ensures sets { self.new.sets ≡ self.old.sets }
        ensures keeps { Keeps
            T.seen self.old.tables shared.old.tables self.new.tables shared.new.tables }
    {
        let blank = blank_node(self.sets.alloc);
        let mut node = self.tables.change(&mut shared.tables, id, blank);
        give_node_back(&mut node, before);
        self.tables.change(&mut shared.tables, id, node);
    }

    // Takes a change of a relationship back.
    fn give_rel_back(&mut self, shared: &mut Shared<T::Shared>, id: RelId, before: PropertiesBefore)
        requires fits { T.seen.fits self.old.tables shared.old.tables }
        requires can { CanUndoOne (RelChanged id before) (state_of T.seen self.old shared.old) }
        ensures state { state_of T.seen self.new shared.new
            ≡ undo_one (RelChanged id before) (state_of T.seen self.old shared.old) }
        ensures names { shared.new.names ≡ shared.old.names }
        ensures journal { self.new.journal ≡ self.old.journal }
        ensures sets { self.new.sets ≡ self.old.sets }
        ensures keeps { Keeps
            T.seen self.old.tables shared.old.tables self.new.tables shared.new.tables }
    {
        let blank = Properties::new(self.sets.alloc);
        let mut properties = self.tables.change_rel(&mut shared.tables, id, blank);
        give_back(&mut properties, before);
        self.tables.change_rel(&mut shared.tables, id, properties);
    }

    /// Forgets all marks, and keeps what was done. It takes no memory.
    pub fn commit(&mut self, shared: &mut Shared<T::Shared>)
        requires fit { IsFit T.seen self.old shared.old }
        ensures graph { graph_of_store T.seen self.new shared.new
            ≡ graph_of_store T.seen self.old shared.old }
        ensures names { shared.new.names ≡ shared.old.names }
        ensures fit { IsFit T.seen self.new shared.new }
        ensures no_mark { self.new.journal.items ≡ [] }
        ensures none_gone { self.new.gone_nodes ≡ map.empty }
        ensures exact { AreExact self.new.sets (state_of T.seen self.new shared.new) }
        ensures none_empty { NoneKeptIsEmpty self.new.sets }
        ensures pairs { index_pairs self.new ≡ index_pairs self.old }
        ensures keeps { Keeps
            T.seen self.old.tables shared.old.tables self.new.tables shared.new.tables }
    {
        let alloc = self.sets.alloc;
        let mut entries = mem::replace(&mut self.journal, Vec::new(alloc));
        self.settle_keys(shared, &mut entries);
        self.journal = entries;
        self.settle_rels(shared);
        self.settle_nodes(shared);
        self.sweep(shared);
    }

    // Takes ids out of the sets where they no longer belong.
    fn sweep(&mut self, shared: &Shared<T::Shared>)
        requires settling { IsSettling T.seen self.old shared.now }
        requires none_gone { NoneGone (state_of T.seen self.old shared.now) }
        ensures fit { IsFit T.seen self.new shared.now }
        ensures settled { Settles T.seen self.old shared.now self.new shared.now }
        ensures state { state_of T.seen self.new shared.now ≡ state_of T.seen self.old shared.now }
        ensures exact { AreExact self.new.sets (state_of T.seen self.new shared.now) }
    {
        // an id may have come to belong again, so each is tested by the record that stands now
        while let Some((place, id)) = self.sets.stale_ids.pop() {
            if !is_sought(
                self.tables.node(&shared.tables, NodeId(id)),
                &place.wanted(),
            ) {
                self.sets.remove_id(&place, id);
            }
        }
    }

    // Lets the removed relationships go.
    fn settle_rels(&mut self, shared: &mut Shared<T::Shared>)
        requires { IsSettling T.seen self.old shared.old }
        ensures settled { Settles T.seen self.old shared.old self.new shared.new }
        ensures none { self.new.gone_rels ≡ map.empty }
    {
        while let Some(id) = self.gone_rels.pop() {
            self.tables.drop_rel(&mut shared.tables, RelId(id));
        }
    }

    // Lets the removed nodes go.
    fn settle_nodes(&mut self, shared: &mut Shared<T::Shared>)
        requires settling { IsSettling T.seen self.old shared.old }
        requires no_rels { self.old.gone_rels ≡ map.empty }
        ensures settled { Settles T.seen self.old shared.old self.new shared.new }
        ensures none_gone { NoneGone (state_of T.seen self.new shared.new) }
    {
        while let Some(id) = self.gone_nodes.pop() {
            self.tables.drop_node(&mut shared.tables, NodeId(id));
        }
    }
}
