//! The static faults of the items of WITH and RETURN.
ghost use Rattle.std.specs.Prelude.{◌≡◌, [], ◌∷◌, ◌++◌, map, IfOk, OnOk};
ghost use Rattle.pg_meaning.specs.Names.{is_among};
ghost use Rattle.pg_meaning.specs.Scopes.{column_names};
ghost use Rattle.pg_meaning.specs.StaticFaults as spec;
ghost use Rattle.pg_scope.specs.Columns.{column_of, starred};
ghost use Rattle.pg_scope.specs.First.{IsFirst};
ghost use Rattle.pg_scope.specs.Names.{names_in, HasSame};
ghost use Rattle.pg_syntax_tree.specs.View.{item_view};

use crate::columns::{Naming, column_name};
use crate::expressions::{Role, fault_in_expression};
use crate::found::{PlacedFault, noted};
use crate::names::{ScopeNames, add, is_among};
use pg_meaning::Fault;
use pg_syntax_tree::Item;
use std::alloc::AllocError;

/// Whether `*` stands for the name.
fn is_starred<'a>(scope: &ScopeNames<'a>, star: bool, name: &'a str) -> bool
    ensures { result ≡ is_among (starred star (names_in scope.now)) name.now }
{
    star && is_among(scope, name)
}

/// The first fault, with those of the items, whose names become the columns.
pub(crate) fn fault_in_items<'a>(
    naming: Naming,
    scope: &ScopeNames<'a>,
    star: bool,
    items: &'a Vec<Item>,
    columns: &mut ScopeNames<'a>,
    mut first: Option<PlacedFault>,
) -> Result<Option<PlacedFault>, AllocError>
    requires { columns.old.keys ≡ [] }
    ensures first { IfOk result
        (λ found. IsFirst first (spec.item_faults (column_of naming) (names_in scope.now)
        (starred star (names_in scope.now)) (map item_view items.now.items)) found) }
    ensures names { OnOk result (HasSame (names_in columns.new)
        (column_names (map (column_of naming) (map item_view items.now.items)))) }
{
    for item in items {
        let name = column_name(naming, item);
        let new = add(columns, name)?;
        let again = !new || is_starred(scope, star, name);
        first = noted(again, item.start, Fault::DuplicateColumn, first);
        first = fault_in_expression(scope, Role::WholeItem, &item.value, first);
    }
    Ok(first)
}

/// Brings the columns into scope beside what is there.
pub(crate) fn add_columns<'a>(
    naming: Naming,
    names: &mut ScopeNames<'a>,
    items: &'a Vec<Item>,
) -> Result<(), AllocError>
    ensures { OnOk result (HasSame (names_in names.new) (column_names
        (map (column_of naming) (map item_view items.now.items)) ++ names_in names.old)) }
{
    for item in items {
        add(names, column_name(naming, item))?;
    }
    Ok(())
}
