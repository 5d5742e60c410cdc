//! The sizes of what expressions give: a list is counted that isn't made where only its size is asked for.
ghost use Rattle.std.specs.Prelude.{◌≡◌, Some, true};
ghost use Rattle.pg_expr.specs.After.{After};
ghost use Rattle.pg_expr.specs.Calls.{range_sized, sized};
ghost use Rattle.pg_expr.specs.Contexts.{found_view, founds_view};
ghost use Rattle.pg_meaning.specs.Functions.{function_named};
ghost use Rattle.pg_meaning.specs.Functions as functions;

use crate::calls::{has_deleted, has_null, is_deleted, is_null};
use crate::ranges::size_of_range;
use crate::value_ref::{ValueRef, null};
use pg_expr_calls as values;
use pg_graph::Tables;
use pg_meaning::Fault;
use pg_scope::{Function, function_named};
use pg_store::GraphView;
use std::alloc::Global;

pub(crate) fn is_range_named(name: &str) -> bool
    ensures { result ≡ true → function_named name.now ≡ Some functions.range }
{
    match function_named(name) {
        Some(function) => matches!(function, Function::Range),
        None => false,
    }
}

pub(crate) fn is_size_named(name: &str) -> bool
    ensures { result ≡ true → function_named name.now ≡ Some functions.size }
{
    // as it is mostly written
    if name == "size" {
        return true;
    }
    match function_named(name) {
        Some(function) => matches!(function, Function::Size),
        None => false,
    }
}

/// The size of a value, or the fault that was found in its place.
#[inline(never)]
pub(crate) fn counted<'a, T: Tables>(
    graph: &GraphView<'a, T>,
    argument: Result<ValueRef<'a>, Fault>,
) -> Result<ValueRef<'a>, Fault>
    ensures { After argument.entry result (λ f. sized graph.now (found_view f)) found_view }
{
    let argument = argument?;
    if is_deleted(graph, argument.look()) {
        return Err(Fault::DeletedEntity);
    }
    if is_null(&argument) {
        return Ok(null());
    }
    let size = values::size(argument.look())?;
    Ok(ValueRef::Made(size))
}

/// The size of a range of these ends, of which no list is made, or the fault that was found in their place.
#[inline(never)]
pub(crate) fn range_counted<'a, T: Tables>(
    alloc: Global,
    graph: &GraphView<'a, T>,
    arguments: Result<Vec<ValueRef<'a>>, Fault>,
) -> Result<ValueRef<'a>, Fault>
    ensures { After arguments.entry result
        (λ fs. range_sized graph.now (founds_view fs.items)) found_view }
{
    let arguments = arguments?;
    if has_deleted(graph, &arguments) {
        return Err(Fault::DeletedEntity);
    }
    if has_null(&arguments) {
        return Ok(null());
    }
    size_of_range(alloc, &arguments)
}
