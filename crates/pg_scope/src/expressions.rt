//! The static faults of an expression.
ghost use Rattle.std.specs.Prelude.{◌≡◌, ◌&&◌, map};
ghost use Rattle.pg_meaning.specs.Parse.{expressions_of, operands_of, pairs_of, whens_of};
ghost use Rattle.pg_meaning.specs.StaticFaults as spec;
ghost use Rattle.pg_scope.specs.Calls.{own_faults};
ghost use Rattle.pg_scope.specs.First.{IsFirst};
ghost use Rattle.pg_scope.specs.Names.{names_in};
ghost use Rattle.pg_scope.specs.Roles.{role_view};
ghost use Rattle.pg_syntax_tree.specs.View.{expression_view, name_view, pair_view, suffixes_of, tests_of, when_view, operand_view, test_view, suffix_view, perhaps_view};

use crate::calls::{is_aggregate, is_known};
use crate::found::{PlacedFault, noted};
use crate::names::{ScopeNames, is_among};
use pg_meaning::{Fault, Operator};
use pg_syntax_tree::{Expression, Name, Suffix, Test};

/// Where an expression stands: as the whole of an item, or elsewhere.
#[derive(Clone, Copy)]
pub(crate) enum Role {
    WholeItem,
    Elsewhere,
}

/// The first fault, with a variable that isn't visible.
pub(crate) fn fault_in_variable<'a>(
    visible: &ScopeNames<'a>,
    name: &'a Name,
    first: Option<PlacedFault>,
) -> Option<PlacedFault>
    ensures { IsFirst first
        (spec.target_faults (names_in visible.now) (name_view name.now)) result }
{
    let undefined = !is_among(visible, name.text.as_str());
    noted(undefined, name.place, Fault::UndefinedVariable, first)
}

/// An aggregate is the whole of an item.
fn is_misplaced(role: Role, name: &Name) -> bool
    ensures { result
        ≡ spec.is_aggregate (name_view name.now) && spec.is_elsewhere (role_view role) }
{
    is_aggregate(name) && role == Role::Elsewhere
}

/// The first fault, with those of a call itself.
fn fault_in_call(
    role: Role,
    name: &Name,
    star: bool,
    distinct: bool,
    count: usize,
    first: Option<PlacedFault>,
) -> Option<PlacedFault>
    ensures { IsFirst first
        (own_faults (role_view role) (name_view name.now) star distinct count) result }
{
    let misplaced = is_misplaced(role, name);
    let first = noted(misplaced, name.place, Fault::BadAggregate, first);
    let unknown = !is_known(name, star, distinct, count);
    noted(unknown, name.place, Fault::UnknownFunction, first)
}

/// The first fault, with those of an expression.
#[cycle(expressions)]
pub(crate) fn fault_in_expression<'a>(
    visible: &ScopeNames<'a>,
    role: Role,
    expression: &'a Expression,
    first: Option<PlacedFault>,
) -> Option<PlacedFault>
    ensures { IsFirst first (spec.expression_faults
        (names_in visible.now) (role_view role) (expression_view expression.now)) result }
{
    match expression {
        Expression::Literal(_) | Expression::Parameter(_) => first,
        Expression::Variable(name) => fault_in_variable(visible, name, first),
        Expression::ListLiteral(items) => fault_in_all(visible, items, first),
        Expression::MapLiteral(pairs) => fault_in_pairs(visible, pairs, first),
        Expression::Call(name, star, distinct, arguments) => {
            let count = arguments.len();
            let first = fault_in_call(role, name, *star, *distinct, count, first);
            fault_in_all(visible, arguments, first)
        }
        Expression::Case(subject, whens, otherwise) => {
            let first = fault_in_perhaps(visible, subject, first);
            let first = fault_in_whens(visible, whens, first);
            fault_in_perhaps(visible, otherwise, first)
        }
        Expression::Chain(operand, operands) => {
            let first = fault_in_expression(visible, Role::Elsewhere, operand, first);
            fault_in_operands(visible, operands, first)
        }
        Expression::Parentheses(inner)
        | Expression::Negation(_, inner)
        | Expression::Signs(_, inner) => fault_in_expression(
            visible,
            Role::Elsewhere,
            inner,
            first,
        ),
        Expression::Tests(operand, tests) => {
            let first = fault_in_expression(visible, Role::Elsewhere, operand, first);
            fault_in_tests(visible, tests, first)
        }
        Expression::Suffixes(atom, suffixes, _) => {
            let first = fault_in_expression(visible, Role::Elsewhere, atom, first);
            fault_in_suffixes(visible, suffixes, first)
        }
    }
}

#[cycle(expressions)]
fn fault_in_all<'a>(
    visible: &ScopeNames<'a>,
    items: &'a Vec<Expression>,
    mut first: Option<PlacedFault>,
) -> Option<PlacedFault>
    ensures { IsFirst first (spec.all_faults
        (names_in visible.now) (expressions_of (map expression_view items.now.items))) result }
{
    for item in items {
        first = fault_in_expression(visible, Role::Elsewhere, item, first);
    }
    first
}

#[cycle(expressions)]
fn fault_in_pairs<'a>(
    visible: &ScopeNames<'a>,
    pairs: &'a Vec<(Name, Expression)>,
    mut first: Option<PlacedFault>,
) -> Option<PlacedFault>
    ensures { IsFirst first (spec.pair_faults
        (names_in visible.now) (pairs_of (map pair_view pairs.now.items))) result }
{
    for (_, value) in pairs {
        first = fault_in_expression(visible, Role::Elsewhere, value, first);
    }
    first
}

#[cycle(expressions)]
fn fault_in_perhaps<'a>(
    visible: &ScopeNames<'a>,
    expression: &'a Option<Box<Expression>>,
    first: Option<PlacedFault>,
) -> Option<PlacedFault>
    ensures { IsFirst first
        (spec.perhaps_faults (names_in visible.now) (perhaps_view expression.now)) result }
{
    match expression {
        Some(inner) => fault_in_expression(visible, Role::Elsewhere, inner, first),
        None => first,
    }
}

#[cycle(expressions)]
fn fault_in_whens<'a>(
    visible: &ScopeNames<'a>,
    whens: &'a Vec<(Expression, Expression)>,
    mut first: Option<PlacedFault>,
) -> Option<PlacedFault>
    ensures { IsFirst first (spec.when_faults
        (names_in visible.now) (whens_of (map when_view whens.now.items))) result }
{
    for (condition, value) in whens {
        first = fault_in_expression(visible, Role::Elsewhere, condition, first);
        first = fault_in_expression(visible, Role::Elsewhere, value, first);
    }
    first
}

#[cycle(expressions)]
fn fault_in_operands<'a>(
    visible: &ScopeNames<'a>,
    operands: &'a Vec<(Operator, Expression)>,
    mut first: Option<PlacedFault>,
) -> Option<PlacedFault>
    ensures { IsFirst first (spec.operand_faults
        (names_in visible.now) (operands_of (map operand_view operands.now.items))) result }
{
    for (_, operand) in operands {
        first = fault_in_expression(visible, Role::Elsewhere, operand, first);
    }
    first
}

#[cycle(expressions)]
fn fault_in_tests<'a>(
    visible: &ScopeNames<'a>,
    tests: &'a Vec<Test<Expression>>,
    mut first: Option<PlacedFault>,
) -> Option<PlacedFault>
    ensures { IsFirst first (spec.test_faults
        (names_in visible.now) (tests_of (map test_view tests.now.items))) result }
{
    for test in tests {
        first = match test {
            Test::Text(_, operand) => fault_in_expression(visible, Role::Elsewhere, operand, first),
            Test::IsNull(_) => first,
        };
    }
    first
}

#[cycle(expressions)]
fn fault_in_suffixes<'a>(
    visible: &ScopeNames<'a>,
    suffixes: &'a Vec<Suffix<Expression>>,
    mut first: Option<PlacedFault>,
) -> Option<PlacedFault>
    ensures { IsFirst first (spec.suffix_faults
        (names_in visible.now) (suffixes_of (map suffix_view suffixes.now.items))) result }
{
    for suffix in suffixes {
        first = match suffix {
            Suffix::Index(index) => fault_in_expression(visible, Role::Elsewhere, index, first),
            Suffix::Property(_) => first,
        };
    }
    first
}
