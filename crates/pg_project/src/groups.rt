//! Groups of rows, in the order of their first rows.
ghost use Rattle.indexmap.specs.IndexSet.{insert_key};
ghost use Rattle.std.specs.List.{list_any, position_or_len};
ghost use Rattle.std.specs.Prelude.{◌≡◌, ◌<◌, ◌∷◌, [], length, map, not, true, false, IfOk, OnOk};
ghost use Rattle.pg_expr.specs.Contexts.{found_view};
ghost use Rattle.pg_project.specs.AlikeRows.{CountsMoreAt};
ghost use Rattle.pg_project.specs.KeptGroups.{same_keys, HasNumber, IsNumber};
ghost use Rattle.pg_project.specs.Views.{takens_view};
ghost use Rattle.pg_value_core.specs.View.{view};

use crate::items::{Aggregate, Items};
use crate::recent::{Recent, mark_of, mark_of_one};
use crate::taken::Taken;
use crate::taking::{begin, take_in_group};
use indexmap::IndexSet;
use pg_expr::{RowContext, ValueRef};
use pg_graph::Tables;
use pg_meaning::Fault;
use pg_store::GraphView;
use pg_value_core::{Value, equivalent};
use std::alloc::{AllocError, Global};
use std::hash::RandomState;
use std::mem;

/// The key of each group, and what is kept of the aggregates in it, as many for each group, one group's behind the
/// other's: no group takes memory of its own for them.
#[derive(Drop)]
pub(crate) struct Groups {
    pub(crate) keys: IndexSet<Vec<Value>, RandomState>,
    pub(crate) taken: Vec<Taken>,
    pub(crate) recent: Recent,
    /// The number of the group that took the last row.
    pub(crate) latest: Option<usize>,
}

impl Groups {
    ghost use Rattle.std.specs.Prelude.{◌≡◌, ◌≢◌, ◌<◌, ◌∷◌, [], ℕ, List, length, map, IfErr, IfOk, IfSome, OnOk, Ok, Err, None};
    ghost use Rattle.pg_expr.specs.Contexts.{found_view, given};
    ghost use Rattle.pg_meaning.specs.declared.fault.Fault.TheVariants.{OutOfMemory};
    ghost use Rattle.pg_project.specs.Kept.{first_kept, into_kept};
    ghost use Rattle.pg_meaning.specs.Value.{Value as Datum};
    ghost use Rattle.pg_project.specs.KeptGroups.{Paired, groups_view, HasNumber};
    ghost use Rattle.pg_project.specs.ReadyItems.{aggregates_view, keys_of};
    ghost use Rattle.pg_value_core.specs.View.{view};

    /// No groups yet; with aggregates alone there is one, also over no rows.
    pub(crate) fn new(
        alloc: Global,
        hasher: RandomState,
        items: &Items<'_>,
    ) -> Result<Groups, AllocError>
        ensures groups { (names : List (List ℕ))
            → IfOk result (λ g. groups_view (length items.now.aggregates.items) g
            ≡ first_kept (keys_of names items.now.keys.items)
            (aggregates_view names items.now.aggregates.items)) }
        ensures paired { IfOk result (λ g. Paired (length items.now.aggregates.items) g) }
        ensures latest { IfOk result (λ g. g.latest ≡ None) }
    {
        let mut groups = Groups {
            keys: IndexSet::with_hasher(alloc, hasher),
            taken: Vec::new(alloc),
            recent: Recent::new(alloc),
            latest: None,
        };
        if items.keys.is_empty() {
            groups.keys.insert(Vec::new(alloc))?;
            begin(alloc, hasher, &items.aggregates, &mut groups.taken)?;
        }
        Ok(groups)
    }

    /// Takes in a row of this key; a new group comes last, and takes the key.
    pub(crate) fn take_row<T: Tables>(
        &mut self,
        context: &RowContext<'_>,
        graph: &GraphView<'_, T>,
        aggregates: &Vec<Aggregate<'_>>,
        key: &mut Vec<Value>,
    ) -> Result<(), Fault>
        requires { Paired (length aggregates.now.items) self.old }
        ensures ok { OnOk result (into_kept (given context.now graph.now)
            (aggregates_view context.now.names.now aggregates.now.items)
            (map view key.old.items) (groups_view (length aggregates.now.items) self.old)
            ≡ Ok (groups_view (length aggregates.now.items) self.new)) }
        ensures paired { OnOk result (Paired (length aggregates.now.items) self.new) }
        ensures latest { OnOk result (IfSome self.new.latest
            (λ n. HasNumber self.new.keys.keys (map view key.old.items) n)) }
        ensures err { IfErr result (λ e. e ≢ OutOfMemory → into_kept (given context.now graph.now)
            (aggregates_view context.now.names.now aggregates.now.items)
            (map view key.old.items) (groups_view (length aggregates.now.items) self.old) ≡ Err e) }
    {
        let (number, is_new) = number_of(context.alloc, &mut self.keys, &mut self.recent, key)?;
        if is_new {
            begin(context.alloc, graph.hasher(), aggregates, &mut self.taken)?;
        }
        self.latest = Some(number);
        take_in_group(context, graph, aggregates, &mut self.taken, number)
    }

    /// The same of a key of one value, which is only copied where its group isn't the one found last.
    #[inline(always)]
    pub(crate) fn take_found<T: Tables>(
        &mut self,
        context: &RowContext<'_>,
        graph: &GraphView<'_, T>,
        aggregates: &Vec<Aggregate<'_>>,
        found: ValueRef<'_>,
    ) -> Result<(), Fault>
        requires { Paired (length aggregates.now.items) self.old }
        ensures ok { OnOk result (into_kept (given context.now graph.now)
            (aggregates_view context.now.names.now aggregates.now.items)
            (found_view found.entry ∷ []) (groups_view (length aggregates.now.items) self.old)
            ≡ Ok (groups_view (length aggregates.now.items) self.new)) }
        ensures paired { OnOk result (Paired (length aggregates.now.items) self.new) }
        ensures latest { OnOk result (IfSome self.new.latest
            (λ n. HasNumber self.new.keys.keys (found_view found.entry ∷ []) n)) }
        ensures err { IfErr result (λ e. e ≢ OutOfMemory → into_kept (given context.now graph.now)
            (aggregates_view context.now.names.now aggregates.now.items)
            (found_view found.entry ∷ []) (groups_view (length aggregates.now.items) self.old)
            ≡ Err e) }
    {
        let number = self.recent.noted(mark_of_one(found.look()));
        if is_number_of_one(&self.keys, number, found.look()) {
            self.latest = Some(number);
            return self.take_again(context, graph, aggregates, number);
        }
        let mut key = key_of(context.alloc, found)?;
        self.take_row(context, graph, aggregates, &mut key)
    }

    /// Takes in a row whose key is that of the group of this number.
    pub(crate) fn take_again<T: Tables>(
        &mut self,
        context: &RowContext<'_>,
        graph: &GraphView<'_, T>,
        aggregates: &Vec<Aggregate<'_>>,
        number: usize,
    ) -> Result<(), Fault>
        requires paired { Paired (length aggregates.now.items) self.old }
        requires within { number < length self.old.keys.keys }
        ensures ok { (key : List Datum) → HasNumber self.old.keys.keys key number
            → OnOk result (into_kept (given context.now graph.now)
            (aggregates_view context.now.names.now aggregates.now.items)
            key (groups_view (length aggregates.now.items) self.old)
            ≡ Ok (groups_view (length aggregates.now.items) self.new)) }
        ensures paired { (key : List Datum) → HasNumber self.old.keys.keys key number
            → OnOk result (Paired (length aggregates.now.items) self.new) }
        ensures keys { self.new.keys ≡ self.old.keys }
        ensures latest { self.new.latest ≡ self.old.latest }
        ensures err { (key : List Datum) → HasNumber self.old.keys.keys key number
            → IfErr result (λ e. e ≢ OutOfMemory → into_kept (given context.now graph.now)
            (aggregates_view context.now.names.now aggregates.now.items)
            key (groups_view (length aggregates.now.items) self.old) ≡ Err e) }
    {
        take_in_group(context, graph, aggregates, &mut self.taken, number)
    }
}

/// Counts so many rows more in the group of this number, where all that is kept of a group is how many rows it has. Tells
/// whether it has.
pub(crate) fn count_more(groups: &mut Groups, number: usize, more: usize) -> bool
    ensures counted { result ≡ true → CountsMoreAt number more
        (takens_view groups.old.taken.items) (takens_view groups.new.taken.items) }
    ensures same { result ≡ false
        → takens_view groups.new.taken.items ≡ takens_view groups.old.taken.items }
    ensures keys { groups.new.keys ≡ groups.old.keys }
    ensures latest { groups.new.latest ≡ groups.old.latest }
{
    if number < groups.taken.len() {
        groups.taken[number].count_more(more)
    } else {
        false
    }
}

/// The key of the one value, which is copied where it is lent.
fn key_of(alloc: Global, found: ValueRef<'_>) -> Result<Vec<Value>, AllocError>
    ensures { IfOk result (λ key. map view key.items ≡ found_view found.entry ∷ []) }
{
    let mut key = Vec::with_capacity(alloc, 1)?;
    key.push(found.take(alloc)?)?;
    Ok(key)
}

/// Whether the group of this number has the one value as its key.
#[inline(always)]
fn is_number_of_one(keys: &IndexSet<Vec<Value>, RandomState>, number: usize, value: &Value) -> bool
    ensures has { result ≡ true → HasNumber keys.now.keys (view value.now ∷ []) number }
    ensures within { result ≡ true → number < length keys.now.keys }
{
    let _count = keys.len();
    match keys.get_index(number) {
        Some(held) => is_one(held, value),
        None => false,
    }
}

/// Whether a key is of the one value. Most values are compared without a look at their types' order.
fn is_one(key: &Vec<Value>, value: &Value) -> bool
    ensures { result ≡ true → map view key.now.items ≡ view value.now ∷ [] }
{
    match key.as_slice() {
        [held] => is_same(held, value),
        _ => false,
    }
}

fn is_same(held: &Value, value: &Value) -> bool
    ensures { result ≡ true → view held.now ≡ view value.now }
{
    match (held, value) {
        (Value::Int(x), Value::Int(y)) => x == y,
        (Value::ShortText(x), Value::ShortText(y)) => x.as_str() == y.as_str(),
        (Value::Node(x), Value::Node(y)) => x.0 == y.0,
        _ => equivalent(held, value),
    }
}

/// The number of a key's group, and whether the group is new. Most keys were found before, and are neither hashed
/// nor moved.
#[inline(never)]
fn number_of(
    alloc: Global,
    keys: &mut IndexSet<Vec<Value>, RandomState>,
    recent: &mut Recent,
    key: &mut Vec<Value>,
) -> Result<(usize, bool), AllocError>
    ensures keys { OnOk result (keys.new.keys ≡ insert_key same_keys keys.old.keys key.old) }
    ensures number { IfOk result (λ n. n.0 ≡ position_or_len (same_keys key.old) keys.old.keys) }
    ensures added { IfOk result (λ n. n.1 ≡ not (list_any (same_keys key.old) keys.old.keys)) }
    ensures within { IfOk result (λ n. n.0 < length keys.new.keys) }
    ensures is { IfOk result (λ n. IsNumber keys.new.keys key.old n.0) }
{
    let mark = mark_of(key);
    let number = recent.noted(mark);
    if is_number(keys, number, key) {
        return Ok((number, false));
    }
    let found = keys.insert_full(mem::replace(key, Vec::new(alloc)))?;
    if found.1 {
        recent.make_room(keys.len())?;
    }
    recent.note(mark, found.0);
    Ok(found)
}

/// Whether the group of this number has the key.
fn is_number(keys: &IndexSet<Vec<Value>, RandomState>, number: usize, key: &Vec<Value>) -> bool
    ensures { result ≡ true → IsNumber keys.now.keys key.now number }
{
    let _count = keys.len();
    match keys.get_index(number) {
        Some(held) => key == held,
        None => false,
    }
}
