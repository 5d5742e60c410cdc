//! A graph beside one type of relationships, whose number is looked up once.
ghost use Rattle.std.specs.Prelude.{◌≡◌, true, IfSome};
ghost use Rattle.pg_meaning.specs.Graph.{has_node, relationship_at};
ghost use Rattle.pg_store.specs.Typed.{of_type};

use crate::graph_view::GraphView;
use crate::shared::Shared;
use crate::store::Store;
use crate::views::RelView;
use pg_graph::Tables;
use pg_names::NameId;
use pg_value_core::RelId;
use std::marker::Model;

/// The relationships of one type, by the number that the type's text has, if it has one.
#[derive(Drop)]
pub struct Typed<'a, 'k, T: Tables> {
    store: &'a Store<T>,
    shared: &'a Shared<T::Shared>,
    kind: &'k str,
    number: Option<NameId>,
}

impl<'a, 'k, T: Tables> Model for Typed<'a, 'k, T> {
    ghost use Rattle.pg_store.specs.Stores.{graph_of_store};
    ghost use Rattle.pg_store.specs.Typed.{TypedGraph, IsNumbered, typed_code};

    ghost Value = { TypedGraph };

    ghost coded = { typed_code };

    ghost view = { λ t. record {
      graph = graph_of_store T.seen t.store.now t.shared.now;
      type = t.kind.now;
    } };

    ghost invariant = { λ t. IsNumbered T.seen t.store.now t.shared.now t.kind.now t.number };
}

impl<'a, 'k, T: Tables> Typed<'a, 'k, T> {
    /// A relationship, if it is there and of the type, and so both its ends.
    #[inline(always)]
    pub fn rel(&self, id: RelId) -> Option<RelView<'a, T>>
        ensures is { result ≡ of_type self.now.type (relationship_at self.now.graph id.0) }
        ensures source { IfSome result (λ rel. has_node self.now.graph rel.source ≡ true) }
        ensures target { IfSome result (λ rel. has_node self.now.graph rel.target ≡ true) }
    {
        let Some(number) = self.number else {
            return None;
        };
        let Some(rel) = self.store.rel(self.shared, id) else {
            return None;
        };
        if rel.kind.as_u64() == number.as_u64() {
            return Some(RelView::of(self.shared, rel));
        }
        None
    }
}

impl<'a, T: Tables> GraphView<'a, T> {
    /// The relationships of a type.
    pub fn typed<'k>(&self, kind: &'k str) -> Typed<'a, 'k, T>
        ensures graph { result.graph ≡ self.now }
        ensures kind { result.type ≡ kind.now }
    {
        Typed {
            store: self.store,
            shared: self.shared,
            kind,
            number: self.shared.names.find(kind),
        }
    }
}
