//! Values that need no memory of their own, and what is read as such.
ghost use Rattle.std.specs.Prelude.{◌≡◌, IfOk, IfErr, Some, is_none, option_map, string_bytes, unwrap_or};
ghost use Rattle.pg_expr.specs.Contexts.{row_at, parameters_at};
ghost use Rattle.pg_expr.specs.Reads.{given_item, given_property};
ghost use Rattle.pg_expr.specs.Scalars.{scalar_view, Tells, ThenTells};
ghost use Rattle.pg_meaning.specs.Entries.{at_key};
ghost use Rattle.pg_meaning.specs.Expressions.{or_fault, property_of};
ghost use Rattle.pg_meaning.specs.Functions.{item_at};
ghost use Rattle.pg_meaning.specs.Graph.{Graph};
ghost use Rattle.pg_meaning.specs.Rows.{value_in};
ghost use Rattle.pg_meaning.specs.Value.{null, text, node, relationship};
ghost use Rattle.pg_meaning.specs.declared.fault.Fault.TheVariants.{OutOfMemory, UndefinedVariable, MissingParameter};
ghost use Rattle.pg_syntax_tree.specs.View.{literal_view};
ghost use Rattle.pg_value_core.specs.View.{values_view, view};

use crate::atoms::held;
use crate::reads::entry_lent;
use crate::row_context::RowContext;
use arrayvec::ArrayString;
use pg_graph::Tables;
use pg_meaning::Fault;
use pg_store::GraphView;
use pg_syntax_tree::{Literal, Name};
use pg_value_core::{NodeId, RelId, Value};
use std::alloc::Global;
use std::rc::Rc;

/// A value that fits into registers, a text or any other value where it stands, or nothing.
#[derive(Clone, Copy)]
pub(crate) enum Scalar<'a> {
    Untold,
    Null,
    Bool(bool),
    Int(i64),
    /// A literal's text.
    Text(&'a String),
    /// A text that a value shares.
    SharedText(&'a Rc<String>),
    ShortText(&'a ArrayString<16>),
    Lent(&'a Value),
}

/// A value where it stands.
pub(crate) fn scalar_of<'a>(value: &'a Value) -> Scalar<'a>
    ensures { scalar_view result ≡ Some (view value.now) }
{
    match value {
        Value::Null => Scalar::Null,
        Value::Bool(b) => Scalar::Bool(*b),
        Value::Int(i) => Scalar::Int(*i),
        Value::Text(text) => Scalar::SharedText(text),
        Value::ShortText(text) => Scalar::ShortText(text),
        _ => Scalar::Lent(value),
    }
}

/// A value that may be absent, which reads as null.
fn scalar_or_null<'a>(value: Option<&'a Value>) -> Scalar<'a>
    ensures { scalar_view result
        ≡ Some (unwrap_or (option_map (λ v. view v.now) value.entry) null) }
{
    match value {
        Some(value) => scalar_of(value),
        None => Scalar::Null,
    }
}

pub(crate) fn is_untold(scalar: Scalar<'_>) -> bool
    ensures { result ≡ is_none (scalar_view scalar.entry) }
{
    matches!(scalar, Scalar::Untold)
}

pub(crate) fn literal<'a>(literal: &'a Literal) -> Scalar<'a>
    ensures { scalar_view result ≡ Some (literal_view literal.now) }
{
    match literal {
        Literal::Null => Scalar::Null,
        Literal::Boolean(b) => Scalar::Bool(*b),
        Literal::Integer(i) => Scalar::Int(*i),
        Literal::Text(text) => Scalar::Text(text),
    }
}

/// What the row holds under a name.
pub(crate) fn variable<'a>(context: &RowContext<'a>, name: &str) -> Scalar<'a>
    ensures { Tells (scalar_view result)
        (or_fault (value_in name.now (row_at context.now)) UndefinedVariable) }
{
    match held(context, name) {
        Some(value) => scalar_of(value),
        None => Scalar::Untold,
    }
}

/// What the request gives under a name.
pub(crate) fn parameter<'a>(context: &RowContext<'a>, name: &str) -> Scalar<'a>
    ensures { Tells (scalar_view result)
        (or_fault (at_key name.now (parameters_at context.now)) MissingParameter) }
{
    match context.parameters.get(name) {
        Some(value) => scalar_of(value),
        None => Scalar::Untold,
    }
}

/// `variable.key`: the row's value is looked at where it stands.
pub(crate) fn variable_property<'a, T: Tables>(
    context: &RowContext<'a>,
    graph: &GraphView<'a, T>,
    name: &Name,
    key: &Name,
) -> Scalar<'a>
    ensures { Tells (scalar_view result)
        (given_property context.now graph.now
        (string_bytes name.now.text) (string_bytes key.now.text)) }
{
    match held(context, name.text.as_str()) {
        Some(value) => property_lent(graph, value, key.text.as_str()),
        None => Scalar::Untold,
    }
}

/// `variable[place]`: the item of a list is looked at where it stands.
#[tactic(auto, using(pg_expr_calls::proofs::Counts::reads))]
pub(crate) fn variable_item<'a>(context: &RowContext<'a>, name: &Name, place: usize) -> Scalar<'a>
    ensures { (g : Graph) → Tells (scalar_view result)
        (given_item context.now g (string_bytes name.now.text) place) }
{
    match held(context, name.text.as_str()) {
        Some(Value::List(items)) => item_at(items.as_ref(), place),
        _ => Scalar::Untold,
    }
}

#[tactic(auto, using(pg_expr_calls::proofs::Counts::reads))]
fn item_at<'a>(items: &'a Vec<Value>, place: usize) -> Scalar<'a>
    ensures { scalar_view result ≡ Some (item_at place (values_view items.now.items)) }
{
    if place < items.len() {
        scalar_of(&items[place])
    } else {
        Scalar::Null
    }
}

/// What a value where it stands has under a key.
pub(crate) fn property_lent<'a, T: Tables>(
    graph: &GraphView<'a, T>,
    value: &'a Value,
    key: &str,
) -> Scalar<'a>
    ensures { Tells (scalar_view result) (property_of graph.now (view value.now) key.now) }
{
    match value {
        Value::Null => Scalar::Null,
        Value::Node(id) => node_property(graph, *id, key),
        Value::Rel(id) => relationship_property(graph, *id, key),
        Value::Map(entries) => scalar_or_null(entry_lent(entries, key)),
        _ => Scalar::Untold,
    }
}

/// `v.key`.
#[inline(never)]
pub(crate) fn property<'a, T: Tables>(
    graph: &GraphView<'a, T>,
    v: Scalar<'a>,
    key: &str,
) -> Scalar<'a>
    ensures { ThenTells (scalar_view v.entry) (scalar_view result)
        (λ u. property_of graph.now u key.now) }
{
    match v {
        Scalar::Null => Scalar::Null,
        Scalar::Lent(value) => property_lent(graph, value, key),
        _ => Scalar::Untold,
    }
}

fn node_property<'a, T: Tables>(graph: &GraphView<'a, T>, id: NodeId, key: &str) -> Scalar<'a>
    ensures { Tells (scalar_view result) (property_of graph.now (node id.0) key.now) }
{
    match graph.node(id) {
        Some(node) => scalar_or_null(node.property(key)),
        None => Scalar::Untold,
    }
}

fn relationship_property<'a, T: Tables>(
    graph: &GraphView<'a, T>,
    id: RelId,
    key: &str,
) -> Scalar<'a>
    ensures { Tells (scalar_view result) (property_of graph.now (relationship id.0) key.now) }
{
    match graph.rel(id) {
        Some(relationship) => scalar_or_null(relationship.property(key)),
        None => Scalar::Untold,
    }
}

#[inline(never)]
pub(crate) fn text_copied(alloc: Global, content: &str) -> Result<Value, Fault>
    ensures ok { IfOk result (λ v. view v ≡ text content.now) }
    ensures err { IfErr result (λ e. e ≡ OutOfMemory) }
{
    Ok(Value::text(alloc, content)?)
}

#[inline(never)]
pub(crate) fn copied(alloc: Global, value: &Value) -> Result<Value, Fault>
    ensures ok { IfOk result (λ v. view v ≡ view value.now) }
    ensures err { IfErr result (λ e. e ≡ OutOfMemory) }
{
    Ok(value.copy(alloc)?)
}
