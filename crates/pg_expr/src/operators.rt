//! What operators, signs and tests give at values that were found.
ghost use Rattle.std.specs.Prelude.{◌≡◌, ◌≢◌, IfOk, IfErr, Ok, Err, false, [], ◌∷◌, map, option_map};
ghost use Rattle.pg_expr.specs.After.{After};
ghost use Rattle.pg_expr.specs.Operators.{all_negated, is_chosen, takes_operands, truth_compared};
ghost use Rattle.pg_expr.specs.Contexts.{found_view, pairs_view};
ghost use Rattle.pg_meaning.specs.Arithmetic.{plus, signed};
ghost use Rattle.pg_meaning.specs.Expressions.{is_in as membership, combined, all_compared, all_signed, begins_comparison, condition_of, is_comparison, tested, null_tested};
ghost use Rattle.pg_meaning.specs.Logic.{is_true, negated};
ghost use Rattle.pg_meaning.specs.declared.fault.Fault.TheVariants.{OutOfMemory};
ghost use Rattle.pg_meaning.specs.Parse.{operands_of};
ghost use Rattle.pg_syntax_tree.specs.View.{operand_view};
ghost use Rattle.pg_value_core.specs.View.{view};

use crate::value_ref::ValueRef;
use pg_expr_calls as values;
use pg_meaning::{Fault, Operator, TextTest, Tri};
use pg_syntax_tree::Expression;
use pg_value::{and, eq3, is_in, not, truth_of, value_of_truth};
use pg_value_core::Value;
use std::alloc::Global;

/// Logic and arithmetic; a comparison is neither.
#[inline(never)]
pub(crate) fn combined<'a>(
    alloc: Global,
    operator: Operator,
    v: ValueRef<'a>,
    w: ValueRef<'a>,
) -> Result<ValueRef<'a>, Fault>
    ensures ok { IfOk result
        (λ f. combined operator (found_view v.entry) (found_view w.entry) ≡ Ok (found_view f)) }
    ensures err { IfErr result (λ e. e ≢ OutOfMemory
        → combined operator (found_view v.entry) (found_view w.entry) ≡ Err e) }
{
    match operator {
        Operator::Plus => sum(alloc, v, w),
        _ => made_at_look(operator, v.look(), w.look()),
    }
}

fn made_at_look<'a>(operator: Operator, v: &Value, w: &Value) -> Result<ValueRef<'a>, Fault>
    requires { takes_operands operator ≡ false }
    ensures ok { IfOk result
        (λ f. combined operator (view v.now) (view w.now) ≡ Ok (found_view f)) }
    ensures err { IfErr result (λ e. combined operator (view v.now) (view w.now) ≡ Err e) }
{
    Ok(ValueRef::Made(looked_at(operator, v, w)?))
}

/// What an operator gives that only looks at its operands.
fn looked_at(operator: Operator, v: &Value, w: &Value) -> Result<Value, Fault>
    requires { takes_operands operator ≡ false }
    ensures ok { IfOk result (λ u. combined operator (view v.now) (view w.now) ≡ Ok (view u)) }
    ensures err { IfErr result (λ e. combined operator (view v.now) (view w.now) ≡ Err e) }
{
    match operator {
        Operator::Or => values::disjunction(v, w),
        Operator::Xor => values::exclusive(v, w),
        Operator::And => values::conjunction(v, w),
        Operator::Plus => unreachable!(),
        Operator::Minus => values::minus(v, w),
        Operator::Times => values::times(v, w),
        Operator::Divide => values::divide(v, w),
        Operator::Modulo => values::modulo(v, w),
        _ => Err(Fault::BadSyntax),
    }
}

fn sum<'a>(alloc: Global, v: ValueRef<'a>, w: ValueRef<'a>) -> Result<ValueRef<'a>, Fault>
    ensures ok { IfOk result
        (λ f. plus (found_view v.entry) (found_view w.entry) ≡ Ok (found_view f)) }
    ensures err { IfErr result (λ e. e ≢ OutOfMemory
        → plus (found_view v.entry) (found_view w.entry) ≡ Err e) }
{
    match (v.look(), w.look()) {
        (Value::Int(x), Value::Int(y)) => Ok(ValueRef::Made(values::sum(*x, *y)?)),
        _ => sum_taken(alloc, v, w),
    }
}

#[inline(never)]
fn sum_taken<'a>(alloc: Global, v: ValueRef<'a>, w: ValueRef<'a>) -> Result<ValueRef<'a>, Fault>
    ensures ok { IfOk result
        (λ f. plus (found_view v.entry) (found_view w.entry) ≡ Ok (found_view f)) }
    ensures err { IfErr result (λ e. e ≢ OutOfMemory
        → plus (found_view v.entry) (found_view w.entry) ≡ Err e) }
{
    let left = v.take(alloc)?;
    let right = w.take(alloc)?;
    Ok(ValueRef::Made(values::plus(alloc, left, right)?))
}

/// A value compared with one other, or the fault that was found in its place.
#[inline(never)]
pub(crate) fn compared_once<'a>(
    operator: Operator,
    v: ValueRef<'_>,
    w: Result<ValueRef<'_>, Fault>,
) -> Result<ValueRef<'a>, Fault>
    ensures { After w.entry result
        (λ u. truth_compared (found_view v.entry) ((operator, found_view u) ∷ [])) found_view }
{
    match w {
        Ok(found) => {
            let truth = values::compared(operator, v.look(), found.look())?;
            Ok(ValueRef::Made(value_of_truth(truth)))
        }
        Err(fault) => Err(fault),
    }
}

/// A chain of comparisons whose operands were all evaluated before, or the fault of one of them.
#[inline(never)]
pub(crate) fn compared<'a>(
    first: ValueRef<'_>,
    others: Result<Vec<(Operator, ValueRef<'_>)>, Fault>,
) -> Result<ValueRef<'a>, Fault>
    ensures { After others.entry result
        (λ ps. truth_compared (found_view first.entry) (pairs_view ps.items)) found_view }
{
    match others {
        Ok(pairs) => {
            let truth = all_compared(&first, &pairs)?;
            Ok(ValueRef::Made(value_of_truth(truth)))
        }
        Err(fault) => Err(fault),
    }
}

/// Each neighbour with the next.
fn all_compared(first: &ValueRef<'_>, others: &Vec<(Operator, ValueRef<'_>)>) -> Result<Tri, Fault>
    ensures { result ≡ all_compared (found_view first.now) (pairs_view others.now.items) }
{
    let mut all = Tri::True;
    let mut left = first.look();
    for (operator, found) in others {
        let right = found.look();
        let next = values::compared(*operator, left, right)?;
        all = and(all, next);
        left = right;
    }
    Ok(all)
}

/// Whether a condition of CASE is true: equal to the subject where there is one, else true itself.
pub(crate) fn is_chosen(subject: &Option<ValueRef<'_>>, v: ValueRef<'_>) -> Result<bool, Fault>
    ensures ok { IfOk result
        (λ b. is_chosen (option_map found_view subject.now) (found_view v.entry) ≡ Ok b) }
    ensures err { IfErr result
        (λ e. is_chosen (option_map found_view subject.now) (found_view v.entry) ≡ Err e) }
{
    match subject {
        Some(subject) => Ok(is_true(eq3(subject.look(), v.look()))),
        None => Ok(is_true(truth_of(v.look())?)),
    }
}

/// `v STARTS WITH w` and its like, or the fault that was found in the place of `w`.
#[inline(never)]
pub(crate) fn tested<'a>(
    test: TextTest,
    v: ValueRef<'_>,
    w: Result<ValueRef<'_>, Fault>,
) -> Result<ValueRef<'a>, Fault>
    ensures { After w.entry result
        (λ u. tested test (found_view v.entry) (found_view u)) found_view }
{
    let found = w?;
    let left = v.look();
    let right = found.look();
    let value = match test {
        TextTest::StartsWith => values::begins_with(left, right),
        TextTest::EndsWith => values::finishes_with(left, right),
        TextTest::Contains => values::contains(left, right),
        TextTest::In => value_of_truth(is_in(left, right)?),
    };
    Ok(ValueRef::Made(value))
}

/// IS NULL, and IS NOT NULL where it is negated.
pub(crate) fn null_tested<'a>(is_negated: bool, v: ValueRef<'_>) -> ValueRef<'a>
    ensures { found_view result ≡ null_tested is_negated (found_view v.entry) }
{
    if is_negated {
        ValueRef::Made(values::is_not_null(v.look()))
    } else {
        ValueRef::Made(values::is_null(v.look()))
    }
}

/// NOT, so many times, or the fault that was found in the place of the value.
#[inline(never)]
pub(crate) fn negated<'a>(
    count: usize,
    v: Result<ValueRef<'_>, Fault>,
) -> Result<ValueRef<'a>, Fault>
    ensures { After v.entry result (λ u. all_negated count (found_view u)) found_view }
{
    match v {
        Ok(found) => {
            let truth = truth_of(found.look())?;
            Ok(ValueRef::Made(value_of_truth(turned(count, truth))))
        }
        Err(fault) => Err(fault),
    }
}

pub(crate) fn turned(count: usize, t: Tri) -> Tri
    ensures { result ≡ negated count t }
{
    let mut turned = t;
    for _k in 0..count {
        turned = not(turned);
    }
    turned
}

/// The signs before a value, or the fault that was found in its place.
#[inline(never)]
pub(crate) fn all_signed<'a>(
    signs: &Vec<bool>,
    v: Result<ValueRef<'a>, Fault>,
) -> Result<ValueRef<'a>, Fault>
    ensures { After v.entry result (λ u. all_signed signs.now.items (found_view u)) found_view }
{
    match v {
        Ok(found) => signed_value(signs, found),
        Err(fault) => Err(fault),
    }
}

/// The last sign goes first.
#[tactic(auto, using(crate::proofs::Comparisons::last_sign))]
fn signed_value<'a>(signs: &Vec<bool>, v: ValueRef<'a>) -> Result<ValueRef<'a>, Fault>
    ensures ok { IfOk result
        (λ f. all_signed signs.now.items (found_view v.entry) ≡ Ok (found_view f)) }
    ensures err { IfErr result (λ e. all_signed signs.now.items (found_view v.entry) ≡ Err e) }
{
    let mut signed = v;
    let mut left = signs.as_slice();
    while let Some((sign, before)) = left.split_last() {
        signed = with_sign(*sign, signed.look())?;
        left = before;
    }
    Ok(signed)
}

fn with_sign<'a>(is_minus: bool, v: &Value) -> Result<ValueRef<'a>, Fault>
    ensures ok { IfOk result (λ f. signed is_minus (view v.now) ≡ Ok (found_view f)) }
    ensures err { IfErr result (λ e. signed is_minus (view v.now) ≡ Err e) }
{
    let value = if is_minus {
        values::negative(v)?
    } else {
        values::positive(v)?
    };
    Ok(ValueRef::Made(value))
}

pub(crate) fn is_true(t: Tri) -> bool
    ensures { result ≡ is_true t }
{
    matches!(t, Tri::True)
}

pub(crate) fn begins_comparison(operands: &Vec<(Operator, Expression)>) -> bool
    ensures { result ≡ begins_comparison (operands_of (map operand_view operands.now.items)) }
{
    let Some((operator, _)) = operands.first() else {
        return false;
    };
    match operator {
        Operator::Equal
        | Operator::NotEqual
        | Operator::Less
        | Operator::LessOrEqual
        | Operator::Greater
        | Operator::GreaterOrEqual => true,
        _ => false,
    }
}
