//! Which expressions scalars may tell. Any answer is right: it decides alone which way is tried first.
use crate::counts::is_size_named;
use crate::operators::begins_comparison;
use pg_meaning::Operator;
use pg_syntax_tree::{Expression, Literal, Suffix, Test};

/// Whether scalars may tell what an expression gives, by its form: nothing in it is left to `find`.
#[cycle(may_tell)]
pub(crate) fn may_tell(expression: &Expression) -> bool {
    match expression {
        Expression::Literal(_) => true,
        Expression::Parameter(_) => true,
        Expression::Variable(_) => true,
        Expression::Parentheses(inner) => may_tell(inner),
        Expression::Negation(_, inner) => may_tell(inner),
        Expression::Chain(first, operands) => may_tell(first) && may_tell_all(operands),
        Expression::Signs(signs, inner) => signs.len() == 1 && may_tell(inner),
        Expression::Tests(inner, tests) => is_null_test(tests) && may_tell(inner),
        Expression::Suffixes(inner, suffixes, labels) => {
            labels.is_empty() && is_property(suffixes) && may_tell(inner)
        }
        Expression::Case(subject, whens, otherwise) => {
            subject.is_none() && may_tell_each(whens) && may_tell_perhaps(otherwise)
        }
        Expression::Call(name, _, _, arguments) => match arguments.as_slice() {
            [argument] => is_size_named(name.text.as_str()) && may_tell(argument),
            _ => false,
        },
        Expression::ListLiteral(_) | Expression::MapLiteral(_) => false,
    }
}

#[cycle(may_tell)]
fn may_tell_each(whens: &Vec<(Expression, Expression)>) -> bool {
    for (condition, value) in whens {
        if !may_tell(condition) || !may_tell(value) {
            return false;
        }
    }
    true
}

#[cycle(may_tell)]
fn may_tell_perhaps(otherwise: &Option<Box<Expression>>) -> bool {
    match otherwise {
        Some(inner) => may_tell(inner),
        None => true,
    }
}

#[cycle(may_tell)]
fn may_tell_all(operands: &Vec<(Operator, Expression)>) -> bool {
    if begins_comparison(operands) && operands.len() != 1 {
        return false;
    }
    for (operator, operand) in operands {
        if adds_text(*operator, operand) || !may_tell(operand) {
            return false;
        }
    }
    true
}

/// Whether a text is joined, which makes a value that isn't a scalar.
fn adds_text(operator: Operator, operand: &Expression) -> bool {
    operator == Operator::Plus && is_text(operand)
}

fn is_text(expression: &Expression) -> bool {
    match expression {
        Expression::Literal(literal) => match literal {
            Literal::Text(_) => true,
            _ => false,
        },
        _ => false,
    }
}

fn is_null_test(tests: &Vec<Test<Expression>>) -> bool {
    match tests.as_slice() {
        [Test::IsNull(..)] => true,
        _ => false,
    }
}

fn is_property(suffixes: &Vec<Suffix<Expression>>) -> bool {
    match suffixes.as_slice() {
        [Suffix::Property(..)] => true,
        _ => false,
    }
}
