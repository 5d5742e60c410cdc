//! Which relationships each node has.
ghost use Rattle.std.specs.Prelude.{◌≡◌, [], ◌∷◌, ℕ, Some, None, OnOk, OnErr};
ghost use Rattle.std.specs.FinMap as map;
ghost use Rattle.std.specs.Option.{option_map, unwrap_or};
ghost use Rattle.pg_graph.specs.Links.{with_id, without_id, numbers};
ghost use Rattle.pg_graph.specs.Sorted.{Rises, IsPlace};
ghost use Rattle.pg_pool.specs.Places.{ids_of, list_of};
ghost use Rattle.pg_pool.specs.Slab.{ContainsKey};
ghost use Rattle.pg_pool.specs.Lists.{links_at, list_at, Replaces, AreApart, IsSound, IsIncidence};
ghost use Rattle.pg_pool.specs.Lists.{ChangesAt, AllStay, Gains, Loses, Stays, AreOutgoing, AreIncoming};
ghost use Rattle.pg_value_core.specs.declared.ids.RelId.{RelId};

use crate::ids::Ids;
use crate::slab::{Slab, Slot};
use crate::slots::Slots;
use pg_value_core::{NodeId, RelId};
use std::alloc::{AllocError, Global};
use std::slice;

/// Where a list of ids lies. It has the list's own parts: so it needs no tag beside the list's.
#[derive(Drop)]
pub(crate) enum ListSlot {
    Nothing,
    One(RelId),
    Two([RelId; 2]),
    Three([RelId; 3]),
    More(Vec<RelId>),
    Vacant(u32),
}

impl ListSlot {
    #[inline(always)]
    fn as_slice(&self) -> &[RelId]
        ensures { result.now ≡ unwrap_or (option_map ids_of (list_of self.now)) [] }
    {
        match self {
            ListSlot::Nothing | ListSlot::Vacant(_) => &[],
            ListSlot::One(only) => slice::from_ref(only),
            ListSlot::Two(ids) => ids,
            ListSlot::Three(ids) => ids,
            ListSlot::More(ids) => ids.as_slice(),
        }
    }
}

impl Slot<Ids> for ListSlot {
    ghost use Rattle.pg_pool.specs.Places.{list_of};

    ghost held = { list_of };

    #[inline(always)]
    fn occupied(value: Ids) -> ListSlot {
        match value {
            Ids::Nothing => ListSlot::Nothing,
            Ids::One(only) => ListSlot::One(only),
            Ids::Two(ids) => ListSlot::Two(ids),
            Ids::Three(ids) => ListSlot::Three(ids),
            Ids::More(ids) => ListSlot::More(ids),
        }
    }

    #[inline(always)]
    fn vacant(next: u32) -> ListSlot {
        ListSlot::Vacant(next)
    }

    #[inline(always)]
    fn next(&self) -> Option<u32> {
        match self {
            ListSlot::Vacant(next) => Some(*next),
            _ => None,
        }
    }

    #[inline(always)]
    fn into_value(self) -> Option<Ids> {
        match self {
            ListSlot::Nothing => Some(Ids::Nothing),
            ListSlot::One(only) => Some(Ids::One(only)),
            ListSlot::Two(ids) => Some(Ids::Two(ids)),
            ListSlot::Three(ids) => Some(Ids::Three(ids)),
            ListSlot::More(ids) => Some(Ids::More(ids)),
            ListSlot::Vacant(_) => None,
        }
    }
}

type Lists = Slab<Ids, ListSlot>;

/// A rising list of ids for each node that has any.
pub(crate) struct Links {
    alloc: Global,
    places: Slots,
    lists: Lists,
}

// Written out, since a derived one is proved anew in each function that may let such a value go.
impl Drop for Links {
    fn drop(self) {
        let Links {
            alloc: _,
            places: _,
            lists: _,
        } = self;
    }
}

fn place(ids: &[RelId], id: u64) -> Result<usize, usize>
    requires { Rises (λ (r : RelId). r.0) ids.now }
    ensures { IsPlace (λ (r : RelId). r.0) id ids.now result }
{
    ids.binary_search_by_key(&id, |item| item.0)
}

fn put(ids: &mut Ids, alloc: Global, id: RelId) -> Result<(), AllocError>
    requires { Rises (λ n. n) (numbers (ids_of ids.old)) }
    ensures ok { OnOk result (numbers (ids_of ids.new) ≡ with_id id.0 (numbers (ids_of ids.old))) }
    ensures err { OnErr result (ids_of ids.new ≡ ids_of ids.old) }
{
    match place(ids.as_slice(), id.0) {
        Ok(_there) => Ok(()),
        Err(at) => ids.insert(alloc, at, id),
    }
}

fn take(ids: &mut Ids, id: RelId)
    requires { Rises (λ n. n) (numbers (ids_of ids.old)) }
    ensures { numbers (ids_of ids.new) ≡ without_id id.0 (numbers (ids_of ids.old)) }
{
    if let Ok(at) = place(ids.as_slice(), id.0) {
        ids.remove(at);
    }
}

// The list is out of its slot for a moment: so no slot is ever lent for writing.
fn put_in(lists: &mut Lists, key: usize, id: RelId, alloc: Global) -> Result<(), AllocError>
    requires there { ContainsKey lists.old key }
    requires rises { Rises (λ n. n) (list_at lists.old (Some key)) }
    ensures ok { OnOk result (Replaces key (with_id id.0) lists.old lists.new) }
    ensures err { OnErr result (Replaces key (λ ids. ids) lists.old lists.new) }
{
    let mut ids = lists.replace(key, Ids::Nothing);
    let outcome = put(&mut ids, alloc, id);
    drop(lists.replace(key, ids));
    outcome
}

fn take_from(lists: &mut Lists, key: usize, id: RelId)
    requires there { ContainsKey lists.old key }
    requires rises { Rises (λ n. n) (list_at lists.old (Some key)) }
    ensures { Replaces key (without_id id.0) lists.old lists.new }
{
    let mut ids = lists.replace(key, Ids::Nothing);
    take(&mut ids, id);
    drop(lists.replace(key, ids));
}

impl Links {
    fn new(alloc: Global) -> Self
        ensures none { (node : ℕ) → links_at result node ≡ [] }
        ensures apart { AreApart result.places result.lists }
    {
        Links {
            alloc,
            places: Slots::new(alloc),
            lists: Slab::new(alloc),
        }
    }

    fn get(&self, node: u64) -> &[RelId]
        requires { AreApart self.now.places self.now.lists }
        ensures { numbers result.now ≡ links_at self.now node }
    {
        match self.places.get(node) {
            Some(key) => self.list(key),
            None => &[],
        }
    }

    fn list(&self, key: usize) -> &[RelId]
        requires { ContainsKey self.now.lists key }
        ensures { numbers result.now ≡ list_at self.now.lists (Some key) }
    {
        self.lists.slot(key).as_slice()
    }

    fn add(&mut self, node: u64, id: RelId) -> Result<(), AllocError>
        requires { IsSound self.old }
        ensures ok { OnOk result (ChangesAt node (with_id id.0) self.old self.new) }
        ensures err { OnErr result (AllStay self.old self.new) }
        ensures apart { AreApart self.new.places self.new.lists }
    {
        match self.places.get(node) {
            Some(key) => put_in(&mut self.lists, key, id, self.alloc),
            None => self.begin(node, id),
        }
    }

    // Begins the list of a node that has none.
    fn begin(&mut self, node: u64, id: RelId) -> Result<(), AllocError>
        requires absent { map.get self.old.places node ≡ None }
        requires apart { AreApart self.old.places self.old.lists }
        ensures ok { OnOk result (ChangesAt node (λ _. id.0 ∷ []) self.old self.new) }
        ensures err { OnErr result (AllStay self.old self.new) }
        ensures apart { AreApart self.new.places self.new.lists }
    {
        let key = self.lists.reserve()?;
        self.places.insert(node, key)?;
        self.lists.put(key, Ids::One(id));
        Ok(())
    }

    fn remove(&mut self, node: u64, id: RelId)
        requires { IsSound self.old }
        ensures removed { ChangesAt node (without_id id.0) self.old self.new }
        ensures apart { AreApart self.new.places self.new.lists }
    {
        if let Some(key) = self.places.get(node) {
            take_from(&mut self.lists, key, id);
            self.end(node, key);
        }
    }

    // Takes the list of a node away, if it is empty.
    fn end(&mut self, node: u64, key: usize)
        requires there { map.get self.old.places node ≡ Some key }
        requires apart { AreApart self.old.places self.old.lists }
        ensures same { AllStay self.old self.new }
        ensures apart { AreApart self.new.places self.new.lists }
    {
        if self.list(key).is_empty() {
            self.places.remove(node);
            drop(self.lists.remove(key));
        }
    }
}

/// The ids of the relationships from each node and to it.
#[derive(Drop)]
pub(crate) struct Incidence {
    outgoing: Links,
    incoming: Links,
}

impl Incidence {
    pub(crate) fn new(alloc: Global) -> Self
        ensures { IsIncidence result map.empty }
    {
        Incidence {
            outgoing: Links::new(alloc),
            incoming: Links::new(alloc),
        }
    }

    pub(crate) fn outgoing(&self, node: NodeId) -> &[RelId]
        requires { AreApart self.now.outgoing.places self.now.outgoing.lists }
        ensures { AreOutgoing self.now node.0 (numbers result.now) }
    {
        self.outgoing.get(node.0)
    }

    pub(crate) fn incoming(&self, node: NodeId) -> &[RelId]
        requires { AreApart self.now.incoming.places self.now.incoming.lists }
        ensures { AreIncoming self.now node.0 (numbers result.now) }
    {
        self.incoming.get(node.0)
    }

    /// Adds a relationship under a new id.
    pub(crate) fn add(
        &mut self,
        id: RelId,
        source: NodeId,
        target: NodeId,
    ) -> Result<(), AllocError>
        requires outgoing { IsSound self.old.outgoing }
        requires incoming { IsSound self.old.incoming }
        ensures ok { OnOk result (Gains self.old self.new id source target) }
        ensures err { OnErr result (Stays self.old self.new id) }
    {
        self.outgoing.add(source.0, id)?;
        if let Err(e) = self.incoming.add(target.0, id) {
            self.outgoing.remove(source.0, id);
            return Err(e);
        }
        Ok(())
    }

    /// Takes a relationship out.
    pub(crate) fn remove(&mut self, id: RelId, source: NodeId, target: NodeId)
        requires outgoing { IsSound self.old.outgoing }
        requires incoming { IsSound self.old.incoming }
        ensures { Loses self.old self.new id source target }
    {
        self.outgoing.remove(source.0, id);
        self.incoming.remove(target.0, id);
    }
}
