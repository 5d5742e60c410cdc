//! Property indexes that a tenant's graph has, made and given up.
ghost use Rattle.std.specs.Prelude.{◌≡◌, ℕ, [], Some, true, false, OnErr, OnOk, IfOk};
ghost use Rattle.std.specs.FinMap as map;
ghost use Rattle.pg_graph.specs.declared.records.NodeRecord.{NodeRecord};
ghost use Rattle.pg_index.specs.Properties.{finds, has_pair, is_found_by, pairs_of};
ghost use Rattle.pg_store.specs.Changes.{Changes};
ghost use Rattle.pg_store.specs.Covers.{with_value};
ghost use Rattle.pg_store.specs.Indexed.{has_index, IsOneLess, IsOneMore};
ghost use Rattle.pg_store.specs.Noted.{is_there};
ghost use Rattle.pg_store.specs.Stores.{graph_of_store, index_pairs, state_of, IsFit, KeepsMarks};
ghost use Rattle.pg_store.specs.declared.shared.Shared.{Shared};
ghost use Rattle.pg_value_core.specs.declared.value.Value as code;

use crate::shared::Shared;
use crate::store::Store;
use pg_graph::Tables;
use pg_headroom::test_headroom;
use pg_index::{PropertyIndex, index_of};
use pg_names::NameId;
use pg_value_core::NodeId;
use std::alloc::{AllocError, Global};

impl<T: Tables> Store<T> {
    /// Keeps the nodes of a label by what they have under a key from now on. What was done so far is
    /// kept for good, as by `commit`. Or makes no index, and leaves the names as they were. An index
    /// that is there already stays.
    pub fn add_index(
        &mut self,
        alloc: Global,
        shared: &mut Shared<T::Shared>,
        label: &str,
        key: &str,
    ) -> Result<(), AllocError>
        requires fit { IsFit T.seen self.old shared.old }
        ensures changes { Changes T.seen self.old shared.old self.new shared.new result
            (λ start end. end ≡ start) }
        ensures names { OnErr result (shared.new.names ≡ shared.old.names) }
        ensures there { OnOk result (has_index self.new shared.new.names label.now key.now ≡ true) }
        ensures more { OnOk result (IsOneMore shared.new.names label.now key.now
            (index_pairs self.old) (index_pairs self.new)) }
        ensures same { OnErr result (index_pairs self.new ≡ index_pairs self.old) }
    {
        self.commit(shared);
        let mark = self.mark(shared);
        match self.index_texts(alloc, shared, label, key) {
            Ok(()) => Ok(()),
            Err(refused) => {
                self.undo(shared, mark);
                Err(refused)
            }
        }
    }

    // Keeps an index of a label and a key, whose names the table then has.
    fn index_texts(
        &mut self,
        alloc: Global,
        shared: &mut Shared<T::Shared>,
        label: &str,
        key: &str,
    ) -> Result<(), AllocError>
        requires fit { IsFit T.seen self.old shared.old }
        requires no_mark { self.old.journal.items ≡ [] }
        requires none_gone { self.old.gone_nodes ≡ map.empty }
        ensures changes { Changes T.seen self.old shared.old self.new shared.new result
            (λ start end. end ≡ start) }
        ensures marks { OnErr result (KeepsMarks T.seen self.old shared.old self.new shared.new) }
        ensures more { OnOk result (IsOneMore shared.new.names label.now key.now
            (index_pairs self.old) (index_pairs self.new)) }
        ensures there { OnOk result (has_index self.new shared.new.names label.now key.now ≡ true) }
    {
        let label = shared.names.intern(label)?;
        let key = shared.names.intern(key)?;
        if index_of(self.sets.indexes.as_slice(), label, key).is_some() {
            return Ok(());
        }
        let index = self.filled_index(alloc, shared, label, key)?;
        self.sets.indexes.push(index)?;
        Ok(())
    }

    // An index that has the nodes that there are, if memory is left for others beside it.
    fn filled_index(
        &self,
        alloc: Global,
        shared: &Shared<T::Shared>,
        label: NameId,
        key: NameId,
    ) -> Result<PropertyIndex, AllocError>
        requires fit { IsFit T.seen self.now shared.now }
        requires none_gone { self.now.gone_nodes ≡ map.empty }
        ensures label { IfOk result (λ x. x.label ≡ label) }
        ensures key { IfOk result (λ x. x.key ≡ key) }
        ensures all { IfOk result (λ x. (i : ℕ) (n : NodeRecord) (v : code.Value)
            → map.get (state_of T.seen self.now shared.now).content.nodes i ≡ Some n
            → is_found_by label key v n ≡ true → finds x v i ≡ true) }
        ensures only { IfOk result (λ x. (i : ℕ) (v : code.Value) → finds x v i ≡ true
            → is_there (state_of T.seen self.now shared.now) (with_value label key v) i ≡ true) }
    {
        let mut index = PropertyIndex::new(alloc, shared.names.hasher(), label, key);
        let mut ids = self.sets.labelled(label).ids();
        while let Some(id) = ids.next() {
            if let Some(node) = self.tables.node(&shared.tables, NodeId(id)) {
                index.insert_id(node, id)?;
            }
        }
        test_headroom(alloc)?;
        Ok(index)
    }

    /// Keeps an index no longer. It takes no memory.
    pub fn drop_index(&mut self, shared: &Shared<T::Shared>, label: &str, key: &str)
        ensures fit { (part : Shared T.Shared T.Shared.Texts)
            → IsFit T.seen self.old part → IsFit T.seen self.new part }
        ensures same { (part : Shared T.Shared T.Shared.Texts)
            → graph_of_store T.seen self.new part ≡ graph_of_store T.seen self.old part }
        ensures tables { self.new.tables ≡ self.old.tables }
        ensures gone { has_index self.new shared.now.names label.now key.now ≡ false }
        ensures less { IsOneLess shared.now.names label.now key.now
            (index_pairs self.old) (index_pairs self.new) }
    {
        let Some(label) = shared.names.find(label) else {
            return;
        };
        if let Some(key) = shared.names.find(key) {
            self.sets.give_up(label, key);
        }
    }
}
