//! The commonest operands, which no cycle of calls is needed for: a literal, a parameter, a variable, and a property
//! or an item of a variable.
ghost use Rattle.std.specs.Prelude.{◌≡◌, ◌∷◌, [], IfSome, pos};
ghost use Rattle.pg_expr.specs.Contexts.{given};
ghost use Rattle.pg_expr.specs.Reads.{item_read, property_read};
ghost use Rattle.pg_expr.specs.Scalars.{scalar_view, Tells};
ghost use Rattle.pg_meaning.specs.Tree.{literal, suffixes, variable};
ghost use Rattle.pg_meaning.specs.Value.{integer};
ghost use Rattle.pg_syntax_tree.specs.View.{expression_view, name_view, suffix_view, suffixes_of};

use crate::operators::begins_comparison;
use crate::row_context::RowContext;
use crate::scalar::{
    Scalar, is_untold, literal, parameter, variable, variable_item, variable_property,
};
use crate::scalar_operators::compared;
use pg_graph::Tables;
use pg_store::GraphView;
use pg_syntax_tree::{Expression, Literal, Name, Suffix};

/// The variable and the key of `variable.key`.
pub(crate) fn variable_and_key<'e>(expression: &'e Expression) -> Option<(&'e Name, &'e Name)>
    ensures { IfSome result (λ p. expression_view expression.now
        ≡ property_read (name_view p.0.now) (name_view p.1.now)) }
{
    match lone_suffix(expression)? {
        (inner, Suffix::Property(key)) => Some((variable_of(inner)?, key)),
        _ => None,
    }
}

/// The variable and the place of `variable[place]`, where the place is a number that is written out.
pub(crate) fn variable_and_place<'e>(expression: &'e Expression) -> Option<(&'e Name, usize)>
    ensures { IfSome result (λ p. expression_view expression.now
        ≡ item_read (name_view p.0.now) p.1) }
{
    match lone_suffix(expression)? {
        (inner, Suffix::Index(place)) => Some((variable_of(inner)?, number_of(place)?)),
        _ => None,
    }
}

/// The one suffix of an expression, behind what stands before it, where no label comes later.
fn lone_suffix<'e>(expression: &'e Expression) -> Option<(&'e Expression, &'e Suffix<Expression>)>
    ensures { IfSome result (λ p. expression_view expression.now
        ≡ suffixes (expression_view p.0.now) (suffixes_of (suffix_view p.1.now ∷ [])) []) }
{
    let Expression::Suffixes(inner, suffixes, labels) = expression else {
        return None;
    };
    if !labels.is_empty() {
        return None;
    }
    match suffixes.as_slice() {
        [suffix] => Some((inner, suffix)),
        _ => None,
    }
}

/// The number that a literal is, unless it is negative.
fn number_of(expression: &Expression) -> Option<usize>
    ensures { IfSome result (λ n. expression_view expression.now ≡ literal (integer (pos n))) }
{
    match expression {
        Expression::Literal(Literal::Integer(i)) => usize::try_from(*i).ok(),
        _ => None,
    }
}

/// The name of a variable.
pub(crate) fn variable_of<'e>(expression: &'e Expression) -> Option<&'e Name>
    ensures { IfSome result (λ n. expression_view expression.now ≡ variable (name_view n.now)) }
{
    match expression {
        Expression::Variable(name) => Some(name),
        _ => None,
    }
}

/// What a plain operand gives, or nothing.
pub(crate) fn plain<'a, T: Tables>(
    context: &RowContext<'a>,
    graph: &GraphView<'a, T>,
    expression: &'a Expression,
) -> Scalar<'a>
    ensures { Tells (scalar_view result)
        (given context.now graph.now (expression_view expression.now)) }
{
    match expression {
        Expression::Literal(held) => literal(held),
        Expression::Variable(name) => variable(context, name.text.as_str()),
        Expression::Parameter(name) => parameter(context, name.text.as_str()),
        Expression::Suffixes(_, _, _) => plain_read(context, graph, expression),
        _ => Scalar::Untold,
    }
}

fn plain_read<'a, T: Tables>(
    context: &RowContext<'a>,
    graph: &GraphView<'a, T>,
    expression: &'a Expression,
) -> Scalar<'a>
    ensures { Tells (scalar_view result)
        (given context.now graph.now (expression_view expression.now)) }
{
    match variable_and_key(expression) {
        Some((name, key)) => variable_property(context, graph, name, key),
        None => plain_item(context, graph, expression),
    }
}

// Apart, so that `plain` keeps a small frame.
#[inline(never)]
fn plain_item<'a, T: Tables>(
    context: &RowContext<'a>,
    _graph: &GraphView<'a, T>,
    expression: &'a Expression,
) -> Scalar<'a>
    ensures { Tells (scalar_view result)
        (given context.now _graph.now (expression_view expression.now)) }
{
    match variable_and_place(expression) {
        Some((name, place)) => variable_item(context, name, place),
        None => Scalar::Untold,
    }
}

/// One comparison of plain operands, or nothing.
pub(crate) fn plain_comparison<'a, T: Tables>(
    context: &RowContext<'a>,
    graph: &GraphView<'a, T>,
    expression: &'a Expression,
) -> Scalar<'a>
    ensures { Tells (scalar_view result)
        (given context.now graph.now (expression_view expression.now)) }
{
    let Expression::Chain(first, operands) = expression else {
        return Scalar::Untold;
    };
    if !begins_comparison(operands) {
        return Scalar::Untold;
    }
    match operands.as_slice() {
        [(operator, operand)] => {
            let left = plain(context, graph, first);
            if is_untold(left) {
                return Scalar::Untold;
            }
            compared(*operator, left, plain(context, graph, operand))
        }
        _ => Scalar::Untold,
    }
}
