//! The names behind a clause.
ghost use Rattle.std.specs.Prelude.{IfOk};
ghost use Rattle.pg_meaning.specs.Scopes.{column_names, projection_columns, scope_after};
ghost use Rattle.pg_scope.specs.Columns.{column_of};
ghost use Rattle.pg_scope.specs.Names.{names_in, HasSame};
ghost use Rattle.pg_syntax_tree.specs.View.{clause_view, projection_view};

use crate::columns::Naming;
use crate::items::add_columns;
use crate::names::{ScopeNames, add};
use crate::scopes::{add_path, add_paths};
use pg_syntax_tree::{Clause, Projection};
use std::alloc::{AllocError, Global};
use std::collections::BTreeSet;

/// The names of the columns.
fn behind_projection<'a>(
    alloc: Global,
    naming: Naming,
    mut scope: ScopeNames<'a>,
    projection: &'a Projection,
) -> Result<ScopeNames<'a>, AllocError>
    ensures { IfOk result (λ names. HasSame (names_in names) (column_names (projection_columns
        (column_of naming) (names_in scope.entry) (projection_view projection.now)))) }
{
    if projection.star.is_some() {
        add_columns(naming, &mut scope, &projection.items)?;
        return Ok(scope);
    }
    let mut names = BTreeSet::new(alloc);
    add_columns(naming, &mut names, &projection.items)?;
    Ok(names)
}

/// The names in scope behind a clause, from those before it.
pub fn names_behind<'a>(
    alloc: Global,
    mut scope: ScopeNames<'a>,
    clause: &'a Clause,
) -> Result<ScopeNames<'a>, AllocError>
    ensures { IfOk result (λ names.
        HasSame (names_in names) (scope_after (names_in scope.entry) (clause_view clause.now))) }
{
    match clause {
        Clause::Match(_, paths, _) | Clause::Create(paths) => add_paths(&mut scope, paths)?,
        Clause::Unwind(_, name) => {
            add(&mut scope, name.text.as_str())?;
        }
        Clause::Merge(path, _) => add_path(&mut scope, path)?,
        Clause::With(projection, _) => {
            return behind_projection(alloc, Naming::Variable, scope, projection);
        }
        Clause::Return(projection) => {
            return behind_projection(alloc, Naming::Source, scope, projection);
        }
        Clause::Set(_) | Clause::Remove(_) | Clause::Delete(_, _) => {}
    }
    Ok(scope)
}
