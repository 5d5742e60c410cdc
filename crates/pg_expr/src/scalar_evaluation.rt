//! What an expression gives, where scalars tell it: `find` is asked for anything else.
ghost use Rattle.std.specs.Prelude.{map, string_bytes};
ghost use Rattle.pg_expr.specs.Calls.{given_call};
ghost use Rattle.pg_expr.specs.Contexts.{given, given_chain};
ghost use Rattle.pg_expr.specs.Kinds.{IsCase, IsChain, AreTests, AreSuffixes};
ghost use Rattle.pg_expr.specs.Scalars.{scalar_view, Tells, ThenTells};
ghost use Rattle.pg_meaning.specs.Parse.{expressions_of, operands_of};
ghost use Rattle.pg_syntax_tree.specs.View.{expression_view, operand_view};

use crate::counts::is_size_named;
use crate::operators::begins_comparison;
use crate::plain_operands::variable_of;
use crate::row_context::RowContext;
use crate::scalar::{Scalar, is_untold, literal, parameter, property, variable, variable_property};
use crate::scalar_operators::{combined, compared, is_chosen, negated, null_tested, signed, sized};
use pg_graph::Tables;
use pg_meaning::Operator;
use pg_store::GraphView;
use pg_syntax_tree::{Expression, Name, Suffix, Test};

/// What an expression gives, or nothing. It is asked once for an expression, from its top, so that
/// where nothing is told little is done twice.
#[cycle(scalar)]
pub(crate) fn scalar<'a, T: Tables>(
    context: &RowContext<'a>,
    graph: &GraphView<'a, T>,
    expression: &'a Expression,
) -> Scalar<'a>
    ensures { Tells (scalar_view result)
        (given context.now graph.now (expression_view expression.now)) }
{
    match expression {
        Expression::Literal(held) => literal(held),
        Expression::Parameter(name) => parameter(context, name.text.as_str()),
        Expression::Variable(name) => variable(context, name.text.as_str()),
        Expression::Parentheses(inner) => scalar(context, graph, inner),
        Expression::Chain(_, _) => chain(context, graph, expression),
        Expression::Negation(count, inner) => negated(*count, scalar(context, graph, inner)),
        Expression::Signs(signs, inner) => signed(signs, scalar(context, graph, inner)),
        Expression::Tests(_, _) => null_test(context, graph, expression),
        Expression::Suffixes(_, _, _) => read(context, graph, expression),
        Expression::Case(_, _, _) => case(context, graph, expression),
        Expression::Call(name, _, _, arguments) => call(context, graph, name, arguments),
        Expression::ListLiteral(_) | Expression::MapLiteral(_) => Scalar::Untold,
    }
}

/// One comparison, or a chain of logic or arithmetic.
#[cycle(scalar)]
#[inline(never)]
fn chain<'a, T: Tables>(
    context: &RowContext<'a>,
    graph: &GraphView<'a, T>,
    expression: &'a Expression,
) -> Scalar<'a>
    requires { IsChain expression.now }
    ensures { Tells (scalar_view result)
        (given context.now graph.now (expression_view expression.now)) }
{
    let Expression::Chain(first, operands) = expression else {
        unreachable!()
    };
    let left = scalar(context, graph, first);
    if is_untold(left) {
        return Scalar::Untold;
    }
    if !begins_comparison(operands) {
        return joined(context, graph, left, operands);
    }
    match operands.as_slice() {
        [(operator, operand)] => compared(*operator, left, scalar(context, graph, operand)),
        _ => Scalar::Untold,
    }
}

/// A chain of logic or arithmetic groups to the left.
#[cycle(scalar)]
fn joined<'a, T: Tables>(
    context: &RowContext<'a>,
    graph: &GraphView<'a, T>,
    first: Scalar<'a>,
    operands: &'a Vec<(Operator, Expression)>,
) -> Scalar<'a>
    ensures { ThenTells (scalar_view first.entry) (scalar_view result)
        (λ v. given_chain context.now graph.now v
        (operands_of (map operand_view operands.now.items))) }
{
    let mut left = first;
    for (operator, operand) in operands {
        let right = scalar(context, graph, operand);
        left = combined(*operator, left, right);
        if is_untold(left) {
            return Scalar::Untold;
        }
    }
    left
}

#[cycle(scalar)]
#[inline(never)]
fn null_test<'a, T: Tables>(
    context: &RowContext<'a>,
    graph: &GraphView<'a, T>,
    expression: &'a Expression,
) -> Scalar<'a>
    requires { AreTests expression.now }
    ensures { Tells (scalar_view result)
        (given context.now graph.now (expression_view expression.now)) }
{
    let Expression::Tests(inner, tests) = expression else {
        unreachable!()
    };
    match tests.as_slice() {
        [Test::IsNull(is_negated)] => null_tested(*is_negated, scalar(context, graph, inner)),
        _ => Scalar::Untold,
    }
}

/// One property; indexes and labels aren't told.
#[cycle(scalar)]
#[inline(never)]
fn read<'a, T: Tables>(
    context: &RowContext<'a>,
    graph: &GraphView<'a, T>,
    expression: &'a Expression,
) -> Scalar<'a>
    requires { AreSuffixes expression.now }
    ensures { Tells (scalar_view result)
        (given context.now graph.now (expression_view expression.now)) }
{
    let Expression::Suffixes(inner, suffixes, labels) = expression else {
        unreachable!()
    };
    if !labels.is_empty() {
        return Scalar::Untold;
    }
    match suffixes.as_slice() {
        [Suffix::Property(key)] => match variable_of(inner) {
            Some(name) => variable_property(context, graph, name, key),
            None => property(graph, scalar(context, graph, inner), key.text.as_str()),
        },
        _ => Scalar::Untold,
    }
}

/// CASE without a subject: the result behind the first true condition alone, else that behind ELSE, else null.
#[cycle(scalar)]
#[inline(never)]
fn case<'a, T: Tables>(
    context: &RowContext<'a>,
    graph: &GraphView<'a, T>,
    expression: &'a Expression,
) -> Scalar<'a>
    requires { IsCase expression.now }
    ensures { Tells (scalar_view result)
        (given context.now graph.now (expression_view expression.now)) }
{
    let Expression::Case(subject, whens, otherwise) = expression else {
        unreachable!()
    };
    if subject.is_some() {
        return Scalar::Untold;
    }
    for (condition, value) in whens {
        match is_chosen(scalar(context, graph, condition)) {
            Some(true) => return scalar(context, graph, value),
            Some(false) => {}
            None => return Scalar::Untold,
        }
    }
    match otherwise {
        Some(inner) => scalar(context, graph, inner),
        None => Scalar::Null,
    }
}

/// The size of a text or a list; no other call is told.
#[cycle(scalar)]
#[inline(never)]
fn call<'a, T: Tables>(
    context: &RowContext<'a>,
    graph: &GraphView<'a, T>,
    name: &Name,
    arguments: &'a Vec<Expression>,
) -> Scalar<'a>
    ensures { Tells (scalar_view result)
        (given_call context.now graph.now (string_bytes name.now.text)
        (expressions_of (map expression_view arguments.now.items))) }
{
    match arguments.as_slice() {
        [argument] => {
            if is_size_named(name.text.as_str()) {
                sized(graph, scalar(context, graph, argument))
            } else {
                Scalar::Untold
            }
        }
        _ => Scalar::Untold,
    }
}
