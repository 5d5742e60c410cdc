//! What most prepared expressions read, where it stands.
ghost use Rattle.std.specs.Prelude.{◌≡◌, ◌≢◌, ◌++◌, ◌∷◌, [], IfErr, IfSome, OnOk, Err, Ok, option_map, unwrap_or};
ghost use Rattle.pg_expr.specs.Contexts.{given};
ghost use Rattle.pg_expr.specs.Prepared.{tree_of};
ghost use Rattle.pg_meaning.specs.Tree.{variable};
ghost use Rattle.pg_meaning.specs.Value.{null};
ghost use Rattle.pg_syntax_tree.specs.View.{name_view};
ghost use Rattle.pg_meaning.specs.declared.fault.Fault.TheVariants.{OutOfMemory};
ghost use Rattle.pg_value_core.specs.View.{view};
ghost use Rattle.pg_value_core.specs.declared.value.Value.{Value};

use crate::atoms::held_near;
use crate::evaluation::evaluate_at;
use crate::prepared::{Form, Prepared};
use crate::reads::{list_column_item, property_in_column};
use crate::row_context::RowContext;
use pg_graph::Tables;
use pg_meaning::Fault;
use pg_store::GraphView;
use pg_syntax_tree::Name;
use pg_value_core::{Value, push_item};
use std::alloc::{AllocError, Global};

/// What an expression reads at a row, if it reads a column, or a property of the node or an item of the list in one; without such a
/// property or item it is null.
#[inline(always)]
pub fn lent_at<'a, T: Tables>(
    context: &RowContext<'a>,
    prepared: &Prepared<'_>,
    graph: &GraphView<'a, T>,
) -> Option<Option<&'a Value>>
    ensures { IfSome result (λ held.
        given context.now graph.now (tree_of context.now.names.now prepared.now)
        ≡ Ok (unwrap_or (option_map (λ v. view v.now) held) null)) }
{
    match prepared.form {
        Form::Property(name, key, near) => property_in_column(context, graph, name, key, near),
        Form::Column(name, near) => column_lent(context, graph, name, near),
        Form::Item(name, place, near) => list_column_item(context, graph, name, place, near),
        Form::Other(_, _) => None,
    }
}

#[inline(always)]
fn column_lent<'a, T: Tables>(
    context: &RowContext<'a>,
    _graph: &GraphView<'a, T>,
    name: &Name,
    near: usize,
) -> Option<Option<&'a Value>>
    ensures { IfSome result (λ held. given context.now _graph.now (variable (name_view name.now))
        ≡ Ok (unwrap_or (option_map (λ v. view v.now) held) null)) }
{
    match held_near(context, name.text.as_str(), near) {
        Some(value) => Some(Some(value)),
        None => None,
    }
}

/// The value of an expression at a row, behind those of a list.
#[inline(always)]
pub fn push_at<T: Tables>(
    context: &RowContext<'_>,
    prepared: &Prepared<'_>,
    graph: &GraphView<'_, T>,
    values: &mut Vec<Value>,
) -> Result<(), Fault>
    ensures ok { OnOk result ((value : Value)
        × (given context.now graph.now (tree_of context.now.names.now prepared.now)
        ≡ Ok (view value)) × (values.new.items ≡ values.old.items ++ value ∷ [])) }
    ensures err { IfErr result (λ e. e ≢ OutOfMemory
        → given context.now graph.now (tree_of context.now.names.now prepared.now) ≡ Err e) }
{
    match lent_at(context, prepared, graph) {
        Some(held) => Ok(push_held(context.alloc, held, values)?),
        None => push_evaluated(context, prepared, graph, values),
    }
}

#[inline(never)]
fn push_evaluated<T: Tables>(
    context: &RowContext<'_>,
    prepared: &Prepared<'_>,
    graph: &GraphView<'_, T>,
    values: &mut Vec<Value>,
) -> Result<(), Fault>
    ensures ok { OnOk result ((value : Value)
        × (given context.now graph.now (tree_of context.now.names.now prepared.now)
        ≡ Ok (view value)) × (values.new.items ≡ values.old.items ++ value ∷ [])) }
    ensures err { IfErr result (λ e. e ≢ OutOfMemory
        → given context.now graph.now (tree_of context.now.names.now prepared.now) ≡ Err e) }
{
    let value = evaluate_at(context, prepared, graph)?;
    push_item(values, value)?;
    Ok(())
}

// (an integer, which is the most frequent, takes no memory of its own)
#[inline(always)]
fn push_held(alloc: Global, held: Option<&Value>, values: &mut Vec<Value>) -> Result<(), AllocError>
    ensures { OnOk result ((value : Value)
        × (view value ≡ unwrap_or (option_map (λ v. view v.now) held.entry) null)
        × (values.new.items ≡ values.old.items ++ value ∷ [])) }
{
    match held {
        Some(Value::Int(i)) => push_item(values, Value::Int(*i)),
        Some(value) => push_copy(alloc, value, values),
        None => push_item(values, Value::Null),
    }
}

#[inline(never)]
fn push_copy(alloc: Global, value: &Value, values: &mut Vec<Value>) -> Result<(), AllocError>
    ensures { OnOk result ((copy : Value) × (view copy ≡ view value.now)
        × (values.new.items ≡ values.old.items ++ copy ∷ [])) }
{
    push_item(values, value.copy(alloc)?)
}
