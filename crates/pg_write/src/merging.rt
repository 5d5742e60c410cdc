//! A MERGE made ready, once a clause, for its rows.
ghost use Rattle.std.specs.Prelude.{◌≡◌, ◌≤◌, ◌++◌, ◌∷◌, [], Bool, IfOk, length, map, take};
ghost use Rattle.pg_match_bindings.specs.Parts.{parts_of};
ghost use Rattle.pg_meaning.specs.Patterns.{add_path_names};
ghost use Rattle.pg_meaning.specs.Updates.{count_new, items_on};
ghost use Rattle.pg_syntax_tree.specs.View.{on_view, path_view};
ghost use Rattle.pg_write.specs.Items.{item_of};
ghost use Rattle.pg_write.specs.Ready.{IsReady, IsMergingOf};

use crate::items::{ReadySet, push_ready};
use pg_expr::QueryContext;
use pg_match_bindings::{Part, Patterns};
use pg_match_stages::Anchor;
use pg_rows::Columns;
use pg_syntax_tree::{On, PathPattern};
use pg_write_make::ClauseScope;
use std::alloc::{AllocError, Global};
use std::slice::from_ref;

/// What a MERGE says, and where its path is begun: the one anchor.
#[derive(Clone, Copy)]
pub struct Merge<'a> {
    pub path: &'a PathPattern,
    pub items: &'a Vec<On>,
    pub anchors: &'a [Anchor],
}

/// The path, with what it asks, binds and makes, and the items behind it. The names are those behind
/// the clause, of which so many are bound before it.
#[derive(Drop)]
pub(crate) struct Merging<'a> {
    pub(crate) scene: ClauseScope<'a>,
    pub(crate) path: &'a PathPattern,
    pub(crate) anchors: &'a [Anchor],
    pub(crate) bound: usize,
    pub(crate) count: usize,
    pub(crate) patterns: Patterns<'a>,
    pub(crate) parts: Vec<Part>,
    pub(crate) on_create: Vec<ReadySet<'a>>,
    pub(crate) on_match: Vec<ReadySet<'a>>,
}

/// The items of a kind in text order, made ready.
pub(crate) fn items_on<'a>(
    alloc: Global,
    names: &Columns,
    on_create: bool,
    parts: &'a Vec<On>,
) -> Result<Vec<ReadySet<'a>>, AllocError>
    ensures { IfOk result (λ ready. map (item_of names.now) ready.items
        ≡ items_on on_create (map on_view parts.now.items)) }
{
    let mut ready = Vec::new(alloc);
    for part in parts {
        if part.create == on_create {
            push_ready(alloc, names, &part.items, &mut ready)?;
        }
    }
    Ok(ready)
}

/// A MERGE over columns of which so many were there before it.
pub(crate) fn prepare<'a>(
    query: &'a QueryContext<'a>,
    merge: &Merge<'a>,
    names: &'a Columns,
    bound: usize,
    count: usize,
    parts: Vec<Part>,
) -> Result<Merging<'a>, AllocError>
    requires within { bound ≤ length names.now }
    requires names { add_path_names (path_view merge.now.path.now ∷ []) (take bound names.now)
        ≡ names.now }
    requires parts { parts.items
        ≡ parts_of (take bound names.now) (path_view merge.now.path.now ∷ []) }
    requires count { count ≡ count_new (take bound names.now) (path_view merge.now.path.now ∷ []) }
    requires anchors { length merge.now.anchors.now ≡ 1 }
    ensures ready { IfOk result (λ merging. IsReady merging) }
    ensures means { IfOk result
        (λ merging. IsMergingOf query.now merge.now names.now bound merging) }
{
    let alloc = query.alloc;
    let on_create = items_on(alloc, names, true, merge.items)?;
    let on_match = items_on(alloc, names, false, merge.items)?;
    let patterns = Patterns::prepare(alloc, from_ref(merge.path), names)?;
    Ok(Merging {
        scene: ClauseScope { query, names },
        path: merge.path,
        anchors: merge.anchors,
        bound,
        count,
        patterns,
        parts,
        on_create,
        on_match,
    })
}
