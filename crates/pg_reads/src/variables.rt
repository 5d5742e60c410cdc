//! Which variables an expression reads.
ghost use Rattle.std.specs.Prelude.{option_map, ◌≡◌, map};
ghost use Rattle.std.specs.List.{list_any};
ghost use Rattle.pg_meaning.specs.Parse.{expressions_of, operands_of, pairs_of, whens_of};
ghost use Rattle.pg_reads.specs.Reads.{condition_reads, any_reads, operands_read, pairs_read, perhaps_reads, projection_reads, reads, suffixes_read, tests_read, whens_read};
ghost use Rattle.pg_syntax_tree.specs.View.{expression_view, item_view, operand_view, pair_view, perhaps_view, projection_view, sort_item_view, suffix_view, suffixes_of, test_view, tests_of, when_view};

use pg_meaning::Operator;
use pg_syntax_tree::{Expression, Item, Name, Projection, SortItem, Suffix, Test};

/// Whether an expression has a variable of this name.
#[cycle(reads)]
pub fn reads(expression: &Expression, name: &str) -> bool
    ensures { result ≡ reads name.now (expression_view expression.now) }
{
    match expression {
        Expression::Literal(_) | Expression::Parameter(_) => false,
        Expression::Variable(variable) => variable.text.as_str() == name,
        Expression::ListLiteral(items) => any_reads(items, name),
        Expression::MapLiteral(pairs) => pairs_read(pairs, name),
        Expression::Call(_, _, _, arguments) => any_reads(arguments, name),
        Expression::Case(subject, whens, otherwise) => {
            perhaps_reads(subject, name)
                || whens_read(whens, name)
                || perhaps_reads(otherwise, name)
        }
        Expression::Chain(first, operands) => reads(first, name) || operands_read(operands, name),
        Expression::Parentheses(inner)
        | Expression::Negation(_, inner)
        | Expression::Signs(_, inner) => reads(inner, name),
        Expression::Tests(first, tests) => reads(first, name) || tests_read(tests, name),
        Expression::Suffixes(first, suffixes, _) => {
            reads(first, name) || suffixes_read(suffixes, name)
        }
    }
}

#[cycle(reads)]
fn any_reads(expressions: &[Expression], name: &str) -> bool
    ensures { result
        ≡ any_reads name.now (expressions_of (map expression_view expressions.now)) }
{
    for expression in expressions {
        if reads(expression, name) {
            return true;
        }
    }
    false
}

#[cycle(reads)]
fn pairs_read(pairs: &[(Name, Expression)], name: &str) -> bool
    ensures { result ≡ pairs_read name.now (pairs_of (map pair_view pairs.now)) }
{
    for (_, value) in pairs {
        if reads(value, name) {
            return true;
        }
    }
    false
}

#[cycle(reads)]
fn perhaps_reads(expression: &Option<Box<Expression>>, name: &str) -> bool
    ensures { result ≡ perhaps_reads name.now (perhaps_view expression.now) }
{
    match expression {
        Some(inner) => reads(inner, name),
        None => false,
    }
}

#[cycle(reads)]
fn whens_read(whens: &[(Expression, Expression)], name: &str) -> bool
    ensures { result ≡ whens_read name.now (whens_of (map when_view whens.now)) }
{
    for (condition, value) in whens {
        if reads(condition, name) || reads(value, name) {
            return true;
        }
    }
    false
}

#[cycle(reads)]
fn operands_read(operands: &[(Operator, Expression)], name: &str) -> bool
    ensures { result ≡ operands_read name.now (operands_of (map operand_view operands.now)) }
{
    for (_, operand) in operands {
        if reads(operand, name) {
            return true;
        }
    }
    false
}

#[cycle(reads)]
fn tests_read(tests: &[Test<Expression>], name: &str) -> bool
    ensures { result ≡ tests_read name.now (tests_of (map test_view tests.now)) }
{
    for test in tests {
        let found = match test {
            Test::Text(_, operand) => reads(operand, name),
            Test::IsNull(_) => false,
        };
        if found {
            return true;
        }
    }
    false
}

#[cycle(reads)]
fn suffixes_read(suffixes: &[Suffix<Expression>], name: &str) -> bool
    ensures { result ≡ suffixes_read name.now (suffixes_of (map suffix_view suffixes.now)) }
{
    for suffix in suffixes {
        let found = match suffix {
            Suffix::Index(index) => reads(index, name),
            Suffix::Property(_) => false,
        };
        if found {
            return true;
        }
    }
    false
}

fn items_read(items: &[Item], name: &str) -> bool
    ensures { result ≡ list_any (λ i. reads name.now i.value) (map item_view items.now) }
{
    for item in items {
        if reads(&item.value, name) {
            return true;
        }
    }
    false
}

fn sorts_read(sorts: &[SortItem], name: &str) -> bool
    ensures { result ≡ list_any (λ o. reads name.now o.key) (map sort_item_view sorts.now) }
{
    for sort in sorts {
        if reads(&sort.key, name) {
            return true;
        }
    }
    false
}

/// Whether a condition, where there is one, has a variable of this name.
pub fn condition_reads(condition: &Option<Expression>, name: &str) -> bool
    ensures { result ≡ condition_reads name.now (option_map expression_view condition.now) }
{
    match condition {
        Some(condition) => reads(condition, name),
        None => false,
    }
}

/// Whether an item or a sort of a projection has a variable of this name.
pub fn projection_reads(projection: &Projection, name: &str) -> bool
    ensures { result ≡ projection_reads name.now (projection_view projection.now) }
{
    items_read(&projection.items, name) || sorts_read(&projection.order, name)
}
