//! When two expressions are one tree: places, spelling and quoting aside.
ghost use Rattle.std.specs.Prelude.{◌≡◌, ◌&&◌, map};
ghost use Rattle.std.specs.Bool.{beq};
ghost use Rattle.std.specs.Str.{str_eq_ignore_ascii_case};
ghost use Rattle.pg_meaning.specs.Parse.{expressions_of, operands_of, pairs_of, whens_of};
ghost use Rattle.pg_meaning.specs.Trees as spec;
ghost use Rattle.pg_meaning.specs.Value as value;
ghost use Rattle.pg_tree_equality.specs.Trees.{is_same_test, is_same_suffix};
ghost use Rattle.pg_syntax_tree.specs.View.{expression_view, literal_view, name_view, names_view, pair_view, suffixes_of, tests_of, when_view, operand_view, test_view, suffix_view, perhaps_view};

use pg_meaning::Operator;
use pg_syntax_tree::{Expression, Literal, Name, Suffix, Test};

fn same_name(a: &Name, b: &Name) -> bool
    ensures { result ≡ spec.same_name (name_view a.now) (name_view b.now) }
{
    a.text == b.text
}

fn same_names(a: &Vec<Name>, b: &Vec<Name>) -> bool
    ensures { result ≡ spec.same_names (names_view a.now.items) (names_view b.now.items) }
{
    if a.len() != b.len() {
        return false;
    }
    for i in 0..a.len() {
        if !same_name(&a[i], &b[i]) {
            return false;
        }
    }
    true
}

#[tactic(auto, using(crate::proofs::TreeLemmas::other_flags))]
fn same_flags(a: &Vec<bool>, b: &Vec<bool>) -> bool
    ensures { result ≡ spec.same_flags a.now.items b.now.items }
{
    if a.len() != b.len() {
        return false;
    }
    for i in 0..a.len() {
        if a[i] != b[i] {
            return false;
        }
    }
    true
}

fn same_integer(a: i64, b: i64) -> bool
    ensures { result ≡ spec.same_literal (value.integer a) (value.integer b) }
{
    a >= 0 && a == b
}

fn same_literal(a: &Literal, b: &Literal) -> bool
    ensures { result ≡ spec.same_literal (literal_view a.now) (literal_view b.now) }
{
    match (a, b) {
        (Literal::Null, Literal::Null) => true,
        (Literal::Boolean(a), Literal::Boolean(b)) => a == b,
        (Literal::Integer(a), Literal::Integer(b)) => same_integer(*a, *b),
        (Literal::Text(a), Literal::Text(b)) => a == b,
        _ => false,
    }
}

/// Whether two calls are of one name and form.
fn same_call(
    a: &Name,
    star: bool,
    distinct: bool,
    b: &Name,
    with_star: bool,
    with_distinct: bool,
) -> bool
    ensures { result ≡ str_eq_ignore_ascii_case (name_view a.now).text (name_view b.now).text
        && beq star with_star && beq distinct with_distinct }
{
    a.text.as_str().eq_ignore_ascii_case(b.text.as_str())
        && star == with_star
        && distinct == with_distinct
}

/// Whether two expressions are one tree.
#[cycle(trees)]
#[tactic(auto, using(pg_syntax_tree::proofs::Views::map_is, pg_syntax_tree::proofs::Views::case_is, pg_syntax_tree::proofs::Views::chain_is, pg_syntax_tree::proofs::Views::tests_is, pg_syntax_tree::proofs::Views::suffixes_is))]
pub fn same_expression(a: &Expression, b: &Expression) -> bool
    ensures { result ≡ spec.same_expression (expression_view a.now) (expression_view b.now) }
{
    match a {
        Expression::Literal(a) => match b {
            Expression::Literal(b) => same_literal(a, b),
            _ => false,
        },
        Expression::Parameter(a) => match b {
            Expression::Parameter(b) => same_name(a, b),
            _ => false,
        },
        Expression::Variable(a) => match b {
            Expression::Variable(b) => same_name(a, b),
            _ => false,
        },
        Expression::ListLiteral(a) => match b {
            Expression::ListLiteral(b) => same_all(a, b),
            _ => false,
        },
        Expression::MapLiteral(a) => match b {
            Expression::MapLiteral(b) => same_pairs(a, b),
            _ => false,
        },
        Expression::Parentheses(a) => match b {
            Expression::Parentheses(b) => same_expression(a, b),
            _ => false,
        },
        Expression::Call(a, star, distinct, xs) => match b {
            Expression::Call(b, with_star, with_distinct, ys) => same_call(
                a,
                *star,
                *distinct,
                b,
                *with_star,
                *with_distinct,
            ) && same_all(xs, ys),
            _ => false,
        },
        Expression::Case(a, whens, x) => match b {
            Expression::Case(b, others, y) => same_perhaps(a, b)
                && same_whens(whens, others)
                && same_perhaps(x, y),
            _ => false,
        },
        Expression::Chain(a, xs) => match b {
            Expression::Chain(b, ys) => same_expression(a, b) && same_operands(xs, ys),
            _ => false,
        },
        Expression::Negation(n, a) => match b {
            Expression::Negation(m, b) => n == m && same_expression(a, b),
            _ => false,
        },
        Expression::Signs(xs, a) => match b {
            Expression::Signs(ys, b) => same_flags(xs, ys) && same_expression(a, b),
            _ => false,
        },
        Expression::Tests(a, xs) => match b {
            Expression::Tests(b, ys) => same_expression(a, b) && same_tests(xs, ys),
            _ => false,
        },
        Expression::Suffixes(a, xs, ls) => match b {
            Expression::Suffixes(b, ys, ms) => same_expression(a, b)
                && same_suffixes(xs, ys)
                && same_names(ls, ms),
            _ => false,
        },
    }
}

#[cycle(trees)]
fn same_perhaps(a: &Option<Box<Expression>>, b: &Option<Box<Expression>>) -> bool
    ensures { result ≡ spec.same_perhaps (perhaps_view a.now) (perhaps_view b.now) }
{
    match (a, b) {
        (Some(a), Some(b)) => same_expression(a, b),
        (None, None) => true,
        _ => false,
    }
}

#[cycle(trees)]
#[tactic(auto, using(crate::proofs::TreeLemmas::other_expressions))]
fn same_all(a: &Vec<Expression>, b: &Vec<Expression>) -> bool
    ensures { result
        ≡ spec.same_expressions (expressions_of (map expression_view a.now.items))
        (expressions_of (map expression_view b.now.items)) }
{
    if a.len() != b.len() {
        return false;
    }
    for i in 0..a.len() {
        if !same_expression(&a[i], &b[i]) {
            return false;
        }
    }
    true
}

#[cycle(trees)]
#[tactic(auto, using(crate::proofs::TreeLemmas::other_pairs))]
fn same_pairs(a: &Vec<(Name, Expression)>, b: &Vec<(Name, Expression)>) -> bool
    ensures { result
        ≡ spec.same_pairs
        (pairs_of (map pair_view a.now.items)) (pairs_of (map pair_view b.now.items)) }
{
    if a.len() != b.len() {
        return false;
    }
    for i in 0..a.len() {
        let (n, x) = &a[i];
        let (m, y) = &b[i];
        if !(same_name(n, m) && same_expression(x, y)) {
            return false;
        }
    }
    true
}

#[cycle(trees)]
#[tactic(auto, using(crate::proofs::TreeLemmas::other_whens))]
fn same_whens(a: &Vec<(Expression, Expression)>, b: &Vec<(Expression, Expression)>) -> bool
    ensures { result
        ≡ spec.same_whens
        (whens_of (map when_view a.now.items)) (whens_of (map when_view b.now.items)) }
{
    if a.len() != b.len() {
        return false;
    }
    for i in 0..a.len() {
        let (condition, x) = &a[i];
        let (other, y) = &b[i];
        if !(same_expression(condition, other) && same_expression(x, y)) {
            return false;
        }
    }
    true
}

#[cycle(trees)]
#[tactic(auto, using(crate::proofs::TreeLemmas::other_operands))]
fn same_operands(a: &Vec<(Operator, Expression)>, b: &Vec<(Operator, Expression)>) -> bool
    ensures { result
        ≡ spec.same_operands
        (operands_of (map operand_view a.now.items)) (operands_of (map operand_view b.now.items)) }
{
    if a.len() != b.len() {
        return false;
    }
    for i in 0..a.len() {
        let (operator, x) = &a[i];
        let (other, y) = &b[i];
        if !(*operator == *other && same_expression(x, y)) {
            return false;
        }
    }
    true
}

#[cycle(trees)]
#[tactic(auto, using(crate::proofs::TreeLemmas::other_tests))]
fn same_tests(a: &Vec<Test<Expression>>, b: &Vec<Test<Expression>>) -> bool
    ensures { result
        ≡ spec.same_tests
        (tests_of (map test_view a.now.items)) (tests_of (map test_view b.now.items)) }
{
    if a.len() != b.len() {
        return false;
    }
    for i in 0..a.len() {
        if !same_test(&a[i], &b[i]) {
            return false;
        }
    }
    true
}

#[cycle(trees)]
#[tactic(auto, using(crate::proofs::TreeLemmas::other_suffixes))]
fn same_suffixes(a: &Vec<Suffix<Expression>>, b: &Vec<Suffix<Expression>>) -> bool
    ensures { result
        ≡ spec.same_suffixes
        (suffixes_of (map suffix_view a.now.items)) (suffixes_of (map suffix_view b.now.items)) }
{
    if a.len() != b.len() {
        return false;
    }
    for i in 0..a.len() {
        if !same_suffix(&a[i], &b[i]) {
            return false;
        }
    }
    true
}

#[cycle(trees)]
fn same_test(a: &Test<Expression>, b: &Test<Expression>) -> bool
    ensures { result ≡ is_same_test a.now b.now }
{
    match (a, b) {
        (Test::Text(t, a), Test::Text(u, b)) => t == u && same_expression(a, b),
        (Test::IsNull(a), Test::IsNull(b)) => a == b,
        _ => false,
    }
}

#[cycle(trees)]
fn same_suffix(a: &Suffix<Expression>, b: &Suffix<Expression>) -> bool
    ensures { result ≡ is_same_suffix a.now b.now }
{
    match (a, b) {
        (Suffix::Property(a), Suffix::Property(b)) => same_name(a, b),
        (Suffix::Index(a), Suffix::Index(b)) => same_expression(a, b),
        _ => false,
    }
}
