//! The bytes of an expression. Those of one tree are the same, wherever and however it is written.
//!
//! Each part begins with a byte of its own, each text ends with one that no text has, and each row
//! ends with a byte that begins none of its pieces, so that other trees have other bytes.
ghost use Rattle.std.specs.Prelude.{◌≡◌, OnOk, map};
ghost use Rattle.std.specs.Str.{str_to_ascii_lowercase};
ghost use Rattle.pg_tree_equality.specs.Codes as spec;
ghost use Rattle.pg_meaning.specs.Parse.{expressions_of, operands_of, pairs_of, whens_of};
ghost use Rattle.pg_syntax_tree.specs.View.{expression_view, literal_view, name_view, names_view, pair_view, suffixes_of, tests_of, when_view, operand_view, test_view, suffix_view, perhaps_view};

use pg_meaning::{Operator, TextTest};
use pg_syntax_tree::{Expression, Literal, Name, Suffix, Test};
use std::alloc::AllocError;

fn add_byte(code: &mut Vec<u8>, byte: u8) -> Result<(), AllocError>
    ensures { OnOk result (code.new.items ≡ spec.with_byte byte code.old.items) }
{
    Ok(code.push(byte)?)
}

fn add_text(code: &mut Vec<u8>, text: &str) -> Result<(), AllocError>
    ensures { OnOk result (code.new.items ≡ spec.with_text text.now code.old.items) }
{
    code.extend_from_slice(text.as_bytes())?;
    add_byte(code, 255)
}

fn add_number(code: &mut Vec<u8>, number: u64) -> Result<(), AllocError>
    ensures { OnOk result (code.new.items ≡ spec.with_number number code.old.items) }
{
    Ok(code.extend_from_slice(&number.to_le_bytes())?)
}

fn add_flag(code: &mut Vec<u8>, flag: bool) -> Result<(), AllocError>
    ensures { OnOk result (code.new.items ≡ spec.with_flag flag code.old.items) }
{
    if flag {
        add_byte(code, 1)
    } else {
        add_byte(code, 2)
    }
}

fn add_flags(code: &mut Vec<u8>, flags: &Vec<bool>) -> Result<(), AllocError>
    ensures { OnOk result (code.new.items ≡ spec.with_flags flags.now.items code.old.items) }
{
    for flag in flags {
        add_flag(code, *flag)?;
    }
    add_byte(code, 0)
}

fn add_names(code: &mut Vec<u8>, names: &Vec<Name>) -> Result<(), AllocError>
    ensures { OnOk result
        (code.new.items ≡ spec.with_names (names_view names.now.items) code.old.items) }
{
    for name in names {
        add_byte(code, 1)?;
        add_text(code, name.text.as_str())?;
    }
    add_byte(code, 0)
}

/// An integer below zero stands for no tree that a text has.
fn add_literal(code: &mut Vec<u8>, literal: &Literal) -> Result<(), AllocError>
    ensures { OnOk result
        (code.new.items ≡ spec.with_literal (literal_view literal.now) code.old.items) }
{
    match literal {
        Literal::Null => add_byte(code, 1),
        Literal::Boolean(boolean) => {
            add_byte(code, 2)?;
            add_flag(code, *boolean)
        }
        Literal::Integer(integer) => {
            if *integer < 0 {
                return Ok(());
            }
            add_byte(code, 3)?;
            add_number(code, *integer as u64)
        }
        Literal::Text(text) => {
            add_byte(code, 4)?;
            add_text(code, text.as_str())
        }
    }
}

fn byte_of_operator(operator: Operator) -> u8
    ensures { result ≡ spec.byte_of_operator operator }
{
    match operator {
        Operator::Or => 1,
        Operator::Xor => 2,
        Operator::And => 3,
        Operator::Equal => 4,
        Operator::NotEqual => 5,
        Operator::Less => 6,
        Operator::LessOrEqual => 7,
        Operator::Greater => 8,
        Operator::GreaterOrEqual => 9,
        Operator::Plus => 10,
        Operator::Minus => 11,
        Operator::Times => 12,
        Operator::Divide => 13,
        Operator::Modulo => 14,
    }
}

fn byte_of_test(test: TextTest) -> u8
    ensures { result ≡ spec.byte_of_test test }
{
    match test {
        TextTest::StartsWith => 1,
        TextTest::EndsWith => 2,
        TextTest::Contains => 3,
        TextTest::In => 4,
    }
}

/// What a call has before its arguments: the name in small letters, as far as it is ASCII.
fn add_call(code: &mut Vec<u8>, name: &Name, star: bool, distinct: bool) -> Result<(), AllocError>
    ensures { OnOk result (code.new.items ≡ spec.with_flag distinct (spec.with_flag star
        (spec.with_text (str_to_ascii_lowercase (name_view name.now).text) code.old.items))) }
{
    for byte in name.text.as_bytes() {
        code.push(byte.to_ascii_lowercase())?;
    }
    add_byte(code, 255)?;
    add_flag(code, star)?;
    add_flag(code, distinct)
}

/// The byte with which an expression begins.
#[tactic(auto, using(pg_syntax_tree::proofs::Views::map_is, pg_syntax_tree::proofs::Views::case_is, pg_syntax_tree::proofs::Views::chain_is, pg_syntax_tree::proofs::Views::tests_is, pg_syntax_tree::proofs::Views::suffixes_is))]
fn byte_of_form(expression: &Expression) -> u8
    ensures { result ≡ spec.byte_of_form (expression_view expression.now) }
{
    match expression {
        Expression::Literal(_) => 1,
        Expression::Parameter(_) => 2,
        Expression::Variable(_) => 3,
        Expression::ListLiteral(_) => 4,
        Expression::MapLiteral(_) => 5,
        Expression::Parentheses(_) => 6,
        Expression::Call(_, _, _, _) => 7,
        Expression::Case(_, _, _) => 8,
        Expression::Chain(_, _) => 9,
        Expression::Negation(_, _) => 10,
        Expression::Signs(_, _) => 11,
        Expression::Tests(_, _) => 12,
        Expression::Suffixes(_, _, _) => 13,
    }
}

#[cycle(codes)]
#[tactic(auto, using(pg_syntax_tree::proofs::Views::map_is, pg_syntax_tree::proofs::Views::case_is, pg_syntax_tree::proofs::Views::chain_is, pg_syntax_tree::proofs::Views::tests_is, pg_syntax_tree::proofs::Views::suffixes_is))]
pub(crate) fn add_expression(code: &mut Vec<u8>, expression: &Expression) -> Result<(), AllocError>
    ensures { OnOk result
        (code.new.items ≡ spec.with_expression (expression_view expression.now) code.old.items) }
{
    add_byte(code, byte_of_form(expression))?;
    match expression {
        Expression::Literal(literal) => add_literal(code, literal),
        Expression::Parameter(name) => add_text(code, name.text.as_str()),
        Expression::Variable(name) => add_text(code, name.text.as_str()),
        Expression::ListLiteral(items) => add_all(code, items),
        Expression::MapLiteral(pairs) => add_pairs(code, pairs),
        Expression::Parentheses(inner) => add_expression(code, inner),
        Expression::Call(name, star, distinct, arguments) => {
            add_call(code, name, *star, *distinct)?;
            add_all(code, arguments)
        }
        Expression::Case(subject, whens, otherwise) => {
            add_perhaps(code, subject)?;
            add_whens(code, whens)?;
            add_perhaps(code, otherwise)
        }
        Expression::Chain(first, operands) => {
            add_expression(code, first)?;
            add_operands(code, operands)
        }
        Expression::Negation(count, operand) => {
            add_number(code, *count as u64)?;
            add_expression(code, operand)
        }
        Expression::Signs(signs, operand) => {
            add_flags(code, signs)?;
            add_expression(code, operand)
        }
        Expression::Tests(first, tests) => {
            add_expression(code, first)?;
            add_tests(code, tests)
        }
        Expression::Suffixes(first, suffixes, labels) => {
            add_expression(code, first)?;
            add_suffixes(code, suffixes)?;
            add_names(code, labels)
        }
    }
}

#[cycle(codes)]
fn add_perhaps(code: &mut Vec<u8>, expression: &Option<Box<Expression>>) -> Result<(), AllocError>
    ensures { OnOk result
        (code.new.items ≡ spec.with_perhaps (perhaps_view expression.now) code.old.items) }
{
    match expression {
        None => add_byte(code, 0),
        Some(expression) => add_expression(code, expression),
    }
}

#[cycle(codes)]
fn add_all(code: &mut Vec<u8>, expressions: &Vec<Expression>) -> Result<(), AllocError>
    ensures { OnOk result (code.new.items ≡ spec.with_expressions
        (expressions_of (map expression_view expressions.now.items)) code.old.items) }
{
    for expression in expressions {
        add_expression(code, expression)?;
    }
    add_byte(code, 0)
}

#[cycle(codes)]
fn add_pairs(code: &mut Vec<u8>, pairs: &Vec<(Name, Expression)>) -> Result<(), AllocError>
    ensures { OnOk result (code.new.items
        ≡ spec.with_pairs (pairs_of (map pair_view pairs.now.items)) code.old.items) }
{
    for pair in pairs {
        add_byte(code, 1)?;
        add_text(code, pair.0.text.as_str())?;
        add_expression(code, &pair.1)?;
    }
    add_byte(code, 0)
}

#[cycle(codes)]
fn add_whens(code: &mut Vec<u8>, whens: &Vec<(Expression, Expression)>) -> Result<(), AllocError>
    ensures { OnOk result (code.new.items
        ≡ spec.with_whens (whens_of (map when_view whens.now.items)) code.old.items) }
{
    for when in whens {
        add_expression(code, &when.0)?;
        add_expression(code, &when.1)?;
    }
    add_byte(code, 0)
}

#[cycle(codes)]
fn add_operands(
    code: &mut Vec<u8>,
    operands: &Vec<(Operator, Expression)>,
) -> Result<(), AllocError>
    ensures { OnOk result (code.new.items
        ≡ spec.with_operands (operands_of (map operand_view operands.now.items)) code.old.items) }
{
    for operand in operands {
        add_byte(code, byte_of_operator(operand.0))?;
        add_expression(code, &operand.1)?;
    }
    add_byte(code, 0)
}

#[cycle(codes)]
fn add_tests(code: &mut Vec<u8>, tests: &Vec<Test<Expression>>) -> Result<(), AllocError>
    ensures { OnOk result (code.new.items
        ≡ spec.with_tests (tests_of (map test_view tests.now.items)) code.old.items) }
{
    for test in tests {
        match test {
            Test::Text(comparison, operand) => {
                add_byte(code, byte_of_test(*comparison))?;
                add_expression(code, operand)?;
            }
            Test::IsNull(negated) => {
                add_byte(code, 5)?;
                add_flag(code, *negated)?;
            }
        }
    }
    add_byte(code, 0)
}

#[cycle(codes)]
fn add_suffixes(code: &mut Vec<u8>, suffixes: &Vec<Suffix<Expression>>) -> Result<(), AllocError>
    ensures { OnOk result (code.new.items
        ≡ spec.with_suffixes (suffixes_of (map suffix_view suffixes.now.items)) code.old.items) }
{
    for suffix in suffixes {
        match suffix {
            Suffix::Property(name) => {
                add_byte(code, 1)?;
                add_text(code, name.text.as_str())?;
            }
            Suffix::Index(index) => {
                add_byte(code, 2)?;
                add_expression(code, index)?;
            }
        }
    }
    add_byte(code, 0)
}
