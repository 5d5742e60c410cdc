//! The static faults of a clause, and the names behind it.
ghost use Rattle.std.specs.Prelude.{◌≡◌, IfOk};
ghost use Rattle.pg_meaning.specs.StaticFaults as spec;
ghost use Rattle.pg_scope.specs.First.{IsFirst};
ghost use Rattle.pg_scope.specs.Names.{names_in};
ghost use Rattle.pg_scope.specs.Steps.{Steps, faults_before, faults_behind};
ghost use Rattle.pg_syntax_tree.specs.View.{clause_view};

use crate::behind::names_behind;
use crate::clauses::{fault_in_each, fault_in_ons, fault_in_removes, fault_in_sets};
use crate::columns::Naming;
use crate::expressions::{Role, fault_in_expression};
use crate::found::{PlacedFault, noted};
use crate::modes::Mode;
use crate::names::{ScopeNames, is_among};
use crate::paths::{fault_in_path, fault_in_paths};
use crate::projections::{fault_if_any, fault_in_projection};
use pg_meaning::Fault;
use pg_syntax_tree::{Clause, Projection};
use std::alloc::{AllocError, Global};

/// The first fault, and the names behind a clause.
type ClauseCheck<'a> = (Option<PlacedFault>, ScopeNames<'a>);

/// The first fault, with those of a clause that sees the names before it, but for WITH and RETURN.
fn fault_before<'a>(
    alloc: Global,
    scope: &ScopeNames<'a>,
    clause: &'a Clause,
    first: Option<PlacedFault>,
) -> Result<Option<PlacedFault>, AllocError>
    ensures { IfOk result (λ found.
        IsFirst first (faults_before (names_in scope.now) (clause_view clause.now)) found) }
{
    match clause {
        Clause::Match(_, paths, _) => fault_in_paths(alloc, Mode::Matching, scope, paths, first),
        Clause::Unwind(list, name) => {
            let first = fault_in_expression(scope, Role::Elsewhere, list, first);
            let bound = is_among(scope, name.text.as_str());
            Ok(noted(bound, name.place, Fault::VariableAlreadyBound, first))
        }
        Clause::Create(paths) => fault_in_paths(alloc, Mode::Creating, scope, paths, first),
        Clause::Merge(path, _) => fault_in_path(alloc, Mode::Merging, scope, path, first),
        Clause::Set(items) => Ok(fault_in_sets(scope, items, first)),
        Clause::Remove(items) => Ok(fault_in_removes(scope, items, first)),
        Clause::Delete(_, items) => Ok(fault_in_each(scope, items, first)),
        Clause::With(_, _) | Clause::Return(_) => Ok(first),
    }
}

/// The first fault, with those of what sees the names behind its clause, but for WITH.
fn fault_behind<'a>(
    scope: &ScopeNames<'a>,
    clause: &'a Clause,
    first: Option<PlacedFault>,
) -> Option<PlacedFault>
    ensures { IsFirst first (faults_behind (names_in scope.now) (clause_view clause.now)) result }
{
    match clause {
        Clause::Match(_, _, condition) => fault_if_any(scope, condition, first),
        Clause::Merge(_, ons) => fault_in_ons(scope, ons, first),
        _ => first,
    }
}

/// The first fault, with `*` that stands for no variable.
fn fault_in_star(
    scope: &ScopeNames,
    projection: &Projection,
    first: Option<PlacedFault>,
) -> Option<PlacedFault>
    ensures { IsFirst first (spec.star_faults (names_in scope.now) projection.now.star) result }
{
    match projection.star {
        Some(place) => noted(scope.is_empty(), place, Fault::UndefinedVariable, first),
        None => first,
    }
}

/// Past a clause.
pub(crate) fn through_clause<'a>(
    alloc: Global,
    scope: ScopeNames<'a>,
    clause: &'a Clause,
    first: Option<PlacedFault>,
) -> Result<ClauseCheck<'a>, AllocError>
    ensures { IfOk result
        (λ r. Steps (names_in scope.entry) (clause_view clause.now) first r.0 (names_in r.1)) }
{
    match clause {
        Clause::With(projection, condition) => fault_in_projection(
            alloc,
            Naming::Variable,
            scope,
            projection,
            condition.as_ref(),
            first,
        ),
        Clause::Return(projection) => {
            let first = fault_in_star(&scope, projection, first);
            fault_in_projection(alloc, Naming::Source, scope, projection, None, first)
        }
        _ => {
            let first = fault_before(alloc, &scope, clause, first)?;
            let scope = names_behind(alloc, scope, clause)?;
            Ok((fault_behind(&scope, clause, first), scope))
        }
    }
}
