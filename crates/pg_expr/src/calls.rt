//! What functions give: deleted elements among the arguments first, then null, then the function, then the limits.
ghost use Rattle.std.specs.Prelude.{◌≡◌, ◌≢◌, IfOk, IfErr, IfSome, IfNone, Ok, Err, true, false, ◌-◌};
ghost use Rattle.pg_expr.specs.After.{After};
ghost use Rattle.pg_expr.specs.Calls.{is_range, item_at_end, looks, IsNotOne};
ghost use Rattle.pg_expr.specs.Contexts.{found_view, founds_view};
ghost use Rattle.pg_meaning.specs.Expressions.{fault_of_name};
ghost use Rattle.pg_meaning.specs.Expressions as meaning;
ghost use Rattle.pg_meaning.specs.Functions.{applied, function_at, has_deleted, has_null, is_deleted, is_null, string_of};
ghost use Rattle.pg_meaning.specs.Functions as functions;
ghost use Rattle.pg_meaning.specs.Value.{item, no_items};
ghost use Rattle.pg_meaning.specs.declared.fault.Fault.TheVariants.{OutOfMemory};
ghost use Rattle.pg_scope.specs.Calls.{function_view};
ghost use Rattle.pg_value_core.specs.View.{view, values_view};

use crate::elements::{end_node, keys, kind, labels, number, properties};
use crate::made::made;
use crate::ranges::range_of;
use crate::reads::item_at;
use crate::value_ref::{ValueRef, null};
use pg_expr_calls as values;
use pg_graph::Tables;
use pg_meaning::Fault;
use pg_scope::{Function, summary_named};
use pg_store::GraphView;
use pg_value_core::Value;
use std::alloc::Global;

/// What a call of no function is.
pub(crate) fn call_fault(name: &str) -> Fault
    ensures { result ≡ fault_of_name name.now }
{
    if summary_named(name).is_some() {
        Fault::BadAggregate
    } else {
        Fault::UnknownFunction
    }
}

pub(crate) fn is_coalesce(function: Function) -> bool
    ensures { result ≡ meaning.is_coalesce (function_view function) }
{
    matches!(function, Function::Coalesce)
}

pub(crate) fn is_size(function: Function) -> bool
    ensures { result ≡ true → function_view function ≡ functions.size }
{
    matches!(function, Function::Size)
}

pub(crate) fn is_null(v: &ValueRef<'_>) -> bool
    ensures { result ≡ is_null (found_view v.now) }
{
    matches!(v.look(), Value::Null)
}

/// What a function gives at its arguments, or the fault that was found in their place.
#[inline(never)]
pub(crate) fn applied<'a, T: Tables>(
    alloc: Global,
    graph: &GraphView<'a, T>,
    function: Function,
    arguments: Result<Vec<ValueRef<'a>>, Fault>,
) -> Result<ValueRef<'a>, Fault>
    ensures { After arguments.entry result
        (λ fs. applied graph.now (function_view function) (founds_view fs.items)) found_view }
{
    let arguments = arguments?;
    if has_deleted(graph, &arguments) {
        return Err(Fault::DeletedEntity);
    }
    if has_null(&arguments) {
        return Ok(null());
    }
    if matches!(function, Function::Range) {
        return range_of(alloc, &arguments);
    }
    let value = at_all(alloc, graph, function, arguments)?;
    made(value)
}

pub(crate) fn is_deleted<T: Tables>(graph: &GraphView<'_, T>, v: &Value) -> bool
    ensures { result ≡ is_deleted graph.now (view v.now) }
{
    match v {
        Value::Node(id) => !graph.has_node(*id),
        Value::Rel(id) => !graph.has_rel(*id),
        _ => false,
    }
}

pub(crate) fn has_deleted<T: Tables>(
    graph: &GraphView<'_, T>,
    arguments: &Vec<ValueRef<'_>>,
) -> bool
    ensures { result ≡ has_deleted graph.now (founds_view arguments.now.items) }
{
    for argument in arguments {
        if is_deleted(graph, argument.look()) {
            return true;
        }
    }
    false
}

pub(crate) fn has_null(arguments: &Vec<ValueRef<'_>>) -> bool
    ensures { result ≡ has_null (founds_view arguments.now.items) }
{
    for argument in arguments {
        if is_null(argument) {
            return true;
        }
    }
    false
}

/// What a function gives at arguments that are neither deleted nor null.
#[tactic(auto, using(crate::proofs::Applied::not_one))]
fn at_all<'a, T: Tables>(
    alloc: Global,
    graph: &GraphView<'a, T>,
    function: Function,
    arguments: Vec<ValueRef<'a>>,
) -> Result<ValueRef<'a>, Fault>
    requires there { has_deleted graph.now (founds_view arguments.items) ≡ false }
    requires one { is_range (function_view function) ≡ false }
    ensures ok { IfOk result
        (λ f. function_at graph.now (function_view function) (founds_view arguments.entry.items)
        ≡ Ok (found_view f)) }
    ensures err { IfErr result (λ e. e ≢ OutOfMemory
        → function_at graph.now (function_view function) (founds_view arguments.entry.items)
        ≡ Err e) }
{
    match only(arguments) {
        Some(argument) => at_one(alloc, graph, function, argument),
        None => Err(Fault::UnknownFunction),
    }
}

/// The one argument, where it is one.
#[tactic(auto, using(crate::proofs::Applied::other_count, crate::proofs::Applied::one_left))]
fn only(arguments: Vec<ValueRef<'_>>) -> Option<ValueRef<'_>>
    ensures one { IfSome result
        (λ f. founds_view arguments.entry.items ≡ item (found_view f) no_items) }
    ensures none { IfNone result (IsNotOne (founds_view arguments.entry.items)) }
{
    let mut left = arguments;
    if left.len() != 1 {
        return None;
    }
    left.pop()
}

/// What a function of one argument gives.
#[inline(never)]
fn at_one<'a, T: Tables>(
    alloc: Global,
    graph: &GraphView<'a, T>,
    function: Function,
    argument: ValueRef<'a>,
) -> Result<ValueRef<'a>, Fault>
    requires there { is_deleted graph.now (found_view argument) ≡ false }
    requires one { is_range (function_view function) ≡ false }
    ensures ok { IfOk result (λ f. function_at graph.now
        (function_view function) (item (found_view argument.entry) no_items) ≡ Ok (found_view f)) }
    ensures err { IfErr result (λ e. e ≢ OutOfMemory
        → function_at graph.now (function_view function) (item (found_view argument.entry) no_items)
        ≡ Err e) }
{
    match function {
        Function::Properties => properties(alloc, graph, argument),
        Function::Head => end_item(alloc, argument, false),
        Function::Last => end_item(alloc, argument, true),
        Function::Coalesce => Ok(argument),
        Function::ToString => to_text(alloc, argument),
        _ => Ok(ValueRef::Made(at_look(alloc, graph, function, argument.look())?)),
    }
}

/// What a function of one argument gives that only looks at it.
#[inline(never)]
fn at_look<T: Tables>(
    alloc: Global,
    graph: &GraphView<'_, T>,
    function: Function,
    v: &Value,
) -> Result<Value, Fault>
    requires there { is_deleted graph.now (view v.now) ≡ false }
    requires looks { looks (function_view function) ≡ true }
    ensures ok { IfOk result (λ u.
        function_at graph.now (function_view function) (item (view v.now) no_items) ≡ Ok (view u)) }
    ensures err { IfErr result (λ e. e ≢ OutOfMemory
        → function_at graph.now (function_view function) (item (view v.now) no_items) ≡ Err e) }
{
    match function {
        Function::Id => number(graph, v),
        Function::Labels => labels(alloc, graph, v),
        Function::Type => kind(alloc, graph, v),
        Function::Keys => keys(alloc, graph, v),
        Function::Size => values::size(v),
        Function::Length => values::length(v),
        Function::Nodes => values::nodes(alloc, v),
        Function::Relationships => values::relationships(alloc, v),
        Function::ToInteger => values::to_integer(v),
        Function::Abs => values::absolute(v),
        Function::StartNode => end_node(graph, v, false),
        Function::EndNode => end_node(graph, v, true),
        Function::Properties
        | Function::Head
        | Function::Last
        | Function::Coalesce
        | Function::Range
        | Function::ToString => unreachable!(),
    }
}

#[inline(never)]
fn to_text<'a>(alloc: Global, argument: ValueRef<'a>) -> Result<ValueRef<'a>, Fault>
    ensures ok { IfOk result (λ f. string_of (found_view argument.entry) ≡ Ok (found_view f)) }
    ensures err { IfErr result (λ e. e ≢ OutOfMemory
        → string_of (found_view argument.entry) ≡ Err e) }
{
    let value = argument.take(alloc)?;
    Ok(ValueRef::Made(values::to_text(alloc, value)?))
}

/// The first item of a list, or its last, which is copied where the list was made.
#[inline(never)]
fn end_item<'a>(alloc: Global, argument: ValueRef<'a>, is_last: bool) -> Result<ValueRef<'a>, Fault>
    ensures ok { IfOk result
        (λ f. item_at_end is_last (found_view argument.entry) ≡ Ok (found_view f)) }
    ensures err { IfErr result (λ e. e ≢ OutOfMemory
        → item_at_end is_last (found_view argument.entry) ≡ Err e) }
{
    match argument {
        ValueRef::Lent(value) => end_item_lent(value, is_last),
        ValueRef::Made(value) => {
            let found = end_item_lent(&value, is_last)?;
            Ok(ValueRef::Made(found.take(alloc)?))
        }
    }
}

fn end_item_lent<'a>(value: &'a Value, is_last: bool) -> Result<ValueRef<'a>, Fault>
    ensures ok { IfOk result (λ f. item_at_end is_last (view value.now) ≡ Ok (found_view f)) }
    ensures err { IfErr result (λ e. item_at_end is_last (view value.now) ≡ Err e) }
{
    let Value::List(items) = value else {
        return Err(Fault::TypeFault);
    };
    if is_last {
        Ok(last_item(items.as_ref()))
    } else {
        Ok(item_at(items.as_ref(), 0))
    }
}

#[tactic(auto, using(pg_expr_calls::proofs::Counts::counts))]
fn last_item<'a>(items: &'a Vec<Value>) -> ValueRef<'a>
    ensures { found_view result
        ≡ functions.item_at
        (functions.item_count (values_view items.now.items) - 1) (values_view items.now.items) }
{
    let place = items.len().saturating_sub(1);
    item_at(items, place)
}
