//! Items of SET made ready, once a clause, for its rows.
ghost use Rattle.std.specs.Prelude.{◌≡◌, ◌++◌, IfOk, OnOk, map};
ghost use Rattle.pg_syntax_tree.specs.View.{set_item_view};
ghost use Rattle.pg_write.specs.Items.{item_of};

use pg_expr::{Prepared, prepare};
use pg_rows::Columns;
use pg_syntax_tree::{Name, SetItem};
use std::alloc::{AllocError, Global};

/// What an item sets: a key, a map in the place of what is there or beside it, or labels.
#[derive(Clone, Copy)]
pub(crate) enum ReadyChange<'a> {
    Key(&'a Name, Prepared<'a>),
    Map(Prepared<'a>, bool),
    Labels(&'a Vec<Name>),
}

/// An item, with its target.
#[derive(Clone, Copy)]
pub(crate) struct ReadySet<'a> {
    pub(crate) target: &'a Name,
    pub(crate) change: ReadyChange<'a>,
}

fn ready_set<'a>(
    alloc: Global,
    names: &Columns,
    item: &'a SetItem,
) -> Result<ReadySet<'a>, AllocError>
    ensures { IfOk result (λ ready. item_of names.now ready ≡ set_item_view item.now) }
{
    let (target, change) = match item {
        SetItem::Property(target, key, value) => {
            (target, ReadyChange::Key(key, prepare(alloc, value, names)?))
        }
        SetItem::All(target, value) => {
            (
                target,
                ReadyChange::Map(prepare(alloc, value, names)?, true),
            )
        }
        SetItem::More(target, value) => {
            (
                target,
                ReadyChange::Map(prepare(alloc, value, names)?, false),
            )
        }
        SetItem::Labels(target, labels) => (target, ReadyChange::Labels(labels)),
    };
    Ok(ReadySet { target, change })
}

/// Puts the items, with their expressions made ready, behind others.
pub(crate) fn push_ready<'a>(
    alloc: Global,
    names: &Columns,
    items: &'a Vec<SetItem>,
    ready: &mut Vec<ReadySet<'a>>,
) -> Result<(), AllocError>
    ensures { OnOk result (map (item_of names.now) ready.new.items
        ≡ map (item_of names.now) ready.old.items ++ map set_item_view items.now.items) }
{
    for item in items {
        ready.push(ready_set(alloc, names, item)?)?;
    }
    Ok(())
}
