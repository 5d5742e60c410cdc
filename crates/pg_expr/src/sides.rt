//! The sides of a comparison that is a conjunct of a condition, found once a clause.
ghost use Rattle.std.specs.Prelude.{◌≡◌, ℕ, List, IfSome, Ok, map};
ghost use Rattle.pg_expr.specs.Scalars.{scalar_view, Tells};
ghost use Rattle.pg_expr.specs.Sides.{IsComparisonOf, IsSideOf, comparison_given, in_column, side_given};
ghost use Rattle.pg_meaning.specs.Answer.{◌>>=◌ as and_then};
ghost use Rattle.pg_meaning.specs.Expressions.{property_of};
ghost use Rattle.pg_meaning.specs.Tree.{parameter, variable};
ghost use Rattle.pg_meaning.specs.Value.{Entries, node};
ghost use Rattle.pg_syntax_tree.specs.View.{expression_view, name_view};
ghost use Rattle.pg_value_core.specs.Given.{parameters_view};
ghost use Rattle.pg_value_core.specs.View.{view};

use crate::operators::begins_comparison;
use crate::plain_operands::variable_and_key;
use crate::scalar::{Scalar, literal, property_lent, scalar_of};
use crate::scalar_operators::{compared, integer_compared, is_chosen, text_compared};
use pg_graph::Tables;
use pg_meaning::Operator;
use pg_rows::Columns;
use pg_store::GraphView;
use pg_syntax_tree::{Expression, Name};
use pg_value_core::{NodeId, Parameters, Value};

/// One side of a comparison: a value that is the same at each row, what a column holds, or a property of that.
#[derive(Clone, Copy)]
pub(crate) enum Side<'a> {
    Told(Scalar<'a>),
    Column(usize),
    Property(usize, &'a str),
}

/// A comparison whose sides are known.
#[derive(Clone, Copy)]
pub(crate) struct KnownComparison<'a> {
    pub(crate) operator: Operator,
    pub(crate) left: Side<'a>,
    pub(crate) right: Side<'a>,
}

/// The comparison that an expression is, where its sides are literals, parameters, variables or properties of these.
pub(crate) fn known_comparison<'a>(
    expression: &'a Expression,
    names: &Columns,
    parameters: &'a Parameters,
) -> Option<KnownComparison<'a>>
    ensures { IfSome result (λ known. IsComparisonOf names.now (parameters_view parameters.now)
        known (expression_view expression.now)) }
{
    let Expression::Chain(first, operands) = expression else {
        return None;
    };
    if !begins_comparison(operands) {
        return None;
    }
    let [(operator, operand)] = operands.as_slice() else {
        return None;
    };
    let Some(left) = side_of(first, names, parameters) else {
        return None;
    };
    let Some(right) = side_of(operand, names, parameters) else {
        return None;
    };
    Some(KnownComparison {
        operator: *operator,
        left,
        right,
    })
}

/// The side that an expression is, if it is one.
pub(crate) fn side_of<'a>(
    expression: &'a Expression,
    names: &Columns,
    parameters: &'a Parameters,
) -> Option<Side<'a>>
    ensures { IfSome result (λ side. IsSideOf names.now (parameters_view parameters.now) side
        (expression_view expression.now)) }
{
    match expression {
        Expression::Literal(held) => Some(Side::Told(literal(held))),
        Expression::Parameter(name) => parameter_side(parameters, name),
        Expression::Variable(name) => column_side(names, name),
        Expression::Suffixes(_, _, _) => property_side(names, expression),
        _ => None,
    }
}

// One that isn't given is left to the evaluation, for its fault.
fn parameter_side<'a>(parameters: &'a Parameters, name: &Name) -> Option<Side<'a>>
    ensures { IfSome result (λ side. (names : List (List ℕ))
        → IsSideOf names (parameters_view parameters.now) side (parameter (name_view name.now))) }
{
    match parameters.get(name.text.as_str()) {
        Some(value) => Some(Side::Told(scalar_of(value))),
        None => None,
    }
}

fn column_side<'a>(names: &Columns, name: &Name) -> Option<Side<'a>>
    ensures { IfSome result (λ side. (parameters : Entries)
        → IsSideOf names.now parameters side (variable (name_view name.now))) }
{
    match names.find(name.text.as_str()) {
        Some(at) => Some(Side::Column(at)),
        None => None,
    }
}

fn property_side<'a>(names: &Columns, expression: &'a Expression) -> Option<Side<'a>>
    ensures { IfSome result (λ side. (parameters : Entries)
        → IsSideOf names.now parameters side (expression_view expression.now)) }
{
    let Some((name, key)) = variable_and_key(expression) else {
        return None;
    };
    match names.find(name.text.as_str()) {
        Some(at) => Some(Side::Property(at, key.text.as_str())),
        None => None,
    }
}

/// Whether the comparison is true at a row, or none where scalars don't tell.
pub(crate) fn known_truth<'a, T: Tables>(
    known: &KnownComparison<'a>,
    row: &'a [Value],
    graph: &GraphView<'a, T>,
) -> Option<bool>
    ensures { IfSome result
        (λ b. comparison_given known.now (map view row.now) graph.now ≡ Ok b) }
{
    match property_held(known.left, row, graph) {
        Some(Value::Int(x)) => {
            is_chosen(integer_compared(known.operator, *x, side_told(known.right, row, graph)))
        }
        Some(Value::Text(text)) => {
            is_chosen(text_compared(
                known.operator,
                text.as_ref().as_str(),
                side_told(known.right, row, graph),
            ))
        }
        Some(Value::ShortText(text)) => {
            is_chosen(text_compared(
                known.operator,
                text.as_str(),
                side_told(known.right, row, graph),
            ))
        }
        _ => sides_truth(known, row, graph),
    }
}

/// The same of any sides.
#[inline(never)]
fn sides_truth<'a, T: Tables>(
    known: &KnownComparison<'a>,
    row: &'a [Value],
    graph: &GraphView<'a, T>,
) -> Option<bool>
    ensures { IfSome result
        (λ b. comparison_given known.now (map view row.now) graph.now ≡ Ok b) }
{
    let left = side_told(known.left, row, graph);
    let right = side_told(known.right, row, graph);
    is_chosen(compared(known.operator, left, right))
}

/// What the node in a column has under a key, if anything, where the side is such a property. Most left sides are.
fn property_held<'a, T: Tables>(
    side: Side<'a>,
    row: &'a [Value],
    graph: &GraphView<'a, T>,
) -> Option<&'a Value>
    ensures { IfSome result
        (λ v. side_given side.entry (map view row.now) graph.now ≡ Ok (view v.now)) }
{
    match side {
        Side::Property(at, key) => held_at(row, at, key, graph),
        _ => None,
    }
}

fn held_at<'a, T: Tables>(
    row: &'a [Value],
    at: usize,
    key: &str,
    graph: &GraphView<'a, T>,
) -> Option<&'a Value>
    ensures { IfSome result (λ v. and_then (in_column (map view row.now) at)
        (λ u. property_of graph.now u key.now) ≡ Ok (view v.now)) }
{
    if at < row.len() {
        held_of(graph, &row[at], key)
    } else {
        None
    }
}

fn held_of<'a, T: Tables>(
    graph: &GraphView<'a, T>,
    value: &'a Value,
    key: &str,
) -> Option<&'a Value>
    ensures { IfSome result
        (λ v. property_of graph.now (view value.now) key.now ≡ Ok (view v.now)) }
{
    match value {
        Value::Node(id) => node_held(graph, *id, key),
        _ => None,
    }
}

fn node_held<'a, T: Tables>(graph: &GraphView<'a, T>, id: NodeId, key: &str) -> Option<&'a Value>
    ensures { IfSome result
        (λ v. property_of graph.now (node id.0) key.now ≡ Ok (view v.now)) }
{
    let node = graph.node(id)?;
    let value = node.property(key)?;
    Some(value)
}

pub(crate) fn side_told<'a, T: Tables>(
    side: Side<'a>,
    row: &'a [Value],
    graph: &GraphView<'a, T>,
) -> Scalar<'a>
    ensures { Tells (scalar_view result)
        (side_given side.entry (map view row.now) graph.now) }
{
    match side {
        Side::Told(told) => told,
        Side::Column(at) => column_told(row, at),
        Side::Property(at, key) => property_told(row, at, key, graph),
    }
}

fn column_told<'a>(row: &'a [Value], at: usize) -> Scalar<'a>
    ensures { Tells (scalar_view result) (in_column (map view row.now) at) }
{
    if at < row.len() {
        scalar_of(&row[at])
    } else {
        Scalar::Untold
    }
}

fn property_told<'a, T: Tables>(
    row: &'a [Value],
    at: usize,
    key: &str,
    graph: &GraphView<'a, T>,
) -> Scalar<'a>
    ensures { Tells (scalar_view result)
        (and_then (in_column (map view row.now) at) (λ v. property_of graph.now v key.now)) }
{
    if at < row.len() {
        property_lent(graph, &row[at], key)
    } else {
        Scalar::Untold
    }
}
