//! Transactions, each of which lies over many requests: begun, and kept or rolled back.
ghost use Rattle.std.specs.Prelude.{◌≡◌, None, Some, replicate, slice_index_or, IfNone, IfOk, IfSome};
ghost use Rattle.std.specs.Option.{option_map, option_map_or};
ghost use Rattle.pg_graph.specs.Content.{Keeps};
ghost use Rattle.pg_live.specs.Live.{begun_by, ended_at, graph_back, open_at};
ghost use Rattle.pg_store.specs.Stores.{graph_at, graph_of_store, index_pairs, HasMark, IsFit};

use crate::live_graph::LiveGraph;
use pg_graph::Tables;
use pg_store::{Mark, Shared, Store};
use std::alloc::{AllocError, Global};

/// The moment that a transaction goes back to, and whose it is.
#[derive(Clone, Copy)]
pub struct Begin {
    pub(crate) mark: Mark,
    pub(crate) holder: usize,
}

impl<T: Tables> LiveGraph<T> {
    /// The holder of the transaction that is open at the graph at work.
    pub fn holder(&self) -> Option<usize>
        ensures is { result ≡ option_map (λ b. b.holder) (open_at self.now.aside) }
        ensures closed { IfNone result (open_at self.now.aside ≡ None) }
    {
        match self.begins[self.place] {
            Some(begin) => Some(begin.holder),
            None => None,
        }
    }

    /// The holder of the transaction that is open at a place, if there is such a place and one is open there.
    pub fn holder_at(&self, place: usize) -> Option<usize>
        ensures { result
            ≡ option_map (λ b. b.holder) (slice_index_or self.now.aside.begins place None) }
    {
        if place >= self.begins.len() {
            return None;
        }
        match self.begins[place] {
            Some(begin) => Some(begin.holder),
            None => None,
        }
    }

    /// Opens a transaction at the graph at work, which can go back to what it is now until the
    /// transaction is kept or rolled back. `holder` is a number of the caller's. It takes no memory.
    pub fn begin(&mut self, holder: usize)
        requires closed { open_at self.old.aside ≡ None }
        ensures graph { self.new.graph ≡ self.old.graph }
        ensures names { self.new.names ≡ self.old.names }
        ensures tables { self.new.tables ≡ self.old.tables }
        ensures aside { self.new.aside ≡ begun_by holder self.old }
        ensures open { open_at self.new.aside
            ≡ Some (record { holder = holder; graph = self.old.graph }) }
    {
        let mark = self.store.mark(&self.shared);
        self.mark = mark;
        self.begins[self.place] = Some(Begin { mark, holder });
    }

    /// Ends the transaction that is open at the graph at work, if one is, and keeps what was done. It
    /// takes no memory.
    pub fn keep(&mut self)
        ensures graph { self.new.graph ≡ self.old.graph }
        ensures names { self.new.names ≡ self.old.names }
        ensures aside { self.new.aside ≡ ended_at self.old.graph self.old }
    {
        self.begins[self.place] = None;
        self.store.commit(&mut self.shared);
        self.mark = self.store.mark(&self.shared);
    }

    /// Ends the transaction that is open at the graph at work, if one is, and takes the graph back to
    /// what it was at its begin. The names stay. It takes no memory.
    pub fn roll_back(&mut self)
        ensures graph { self.new.graph ≡ graph_back self.old }
        ensures names { self.new.names ≡ self.old.names }
        ensures aside { self.new.aside ≡ ended_at self.new.graph self.old }
    {
        let begin = self.begins[self.place];
        go_back(&mut self.store, &mut self.shared, begin);
        self.begins[self.place] = None;
        self.mark = self.store.mark(&self.shared);
    }
}

pub(crate) fn no_begins(alloc: Global, count: usize) -> Result<Vec<Option<Begin>>, AllocError>
    ensures { IfOk result (λ begins. begins.items ≡ replicate count None) }
{
    let mut begins = Vec::with_capacity(alloc, count)?;
    for _ in 0..count {
        begins.push(None)?;
    }
    Ok(begins)
}

// Takes the store back to the begin of the transaction, if one is open.
fn go_back<T: Tables>(store: &mut Store<T>, shared: &mut Shared<T::Shared>, begin: Option<Begin>)
    requires fit { IsFit T.seen store.old shared.old }
    requires marked { IfSome begin (λ b. HasMark T.seen store.old shared.old b.mark) }
    ensures graph { graph_of_store T.seen store.new shared.new
        ≡ option_map_or (λ b. graph_at T.seen store.old shared.old b.mark) begin
        (graph_of_store T.seen store.old shared.old) }
    ensures names { shared.new.names ≡ shared.old.names }
    ensures fit { IsFit T.seen store.new shared.new }
    ensures pairs { index_pairs store.new ≡ index_pairs store.old }
    ensures keeps { Keeps
        T.seen store.old.tables shared.old.tables store.new.tables shared.new.tables }
{
    if let Some(begin) = begin {
        store.back(shared, begin.mark);
    }
}
