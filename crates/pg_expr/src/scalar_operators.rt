//! What operators, signs and tests give at scalars. A fault is never told: `find` gives it.
ghost use Rattle.std.specs.Prelude.{◌≡◌, ◌<◌, ◌≤◌, ◌^◌, IfSome, Ok, Some, [], ◌∷◌, count_by, if◌then◌else◌, length, not, option_map, pos, string_bytes};
ghost use Rattle.pg_expr.specs.Calls.{sized};
ghost use Rattle.pg_expr.specs.Operators.{all_negated, truth_compared};
ghost use Rattle.pg_expr.specs.Scalars.{scalar_view, Chooses, Tells, ThenTells, BothTell, TruthIn};
ghost use Rattle.pg_meaning.specs.Arithmetic.{divide, modulo, signed};
ghost use Rattle.pg_meaning.specs.Expressions.{all_signed, combined, compared, null_tested};
ghost use Rattle.pg_meaning.specs.Functions.{is_first_byte, item_count};
ghost use Rattle.pg_meaning.specs.Logic.{truth_of, value_of_truth};
ghost use Rattle.pg_meaning.specs.Value.{Value as Datum, boolean, integer, text};
ghost use Rattle.pg_value_core.specs.View.{values_view, view};

use crate::operators::turned;
use crate::scalar::Scalar;
use pg_graph::Tables;
use pg_meaning::{Operator, Tri};
use pg_store::GraphView;
use pg_value::{and, not, or, truth, xor};
use pg_value_core::Value;

/// The integer that an operation gave, if it is within 64 bits.
fn told<'a>(n: Option<i64>) -> Scalar<'a>
    ensures { scalar_view result ≡ option_map integer n }
{
    match n {
        Some(n) => Scalar::Int(n),
        None => Scalar::Untold,
    }
}

fn of_truth<'a>(t: Tri) -> Scalar<'a>
    ensures { scalar_view result ≡ Some (value_of_truth t) }
{
    match t {
        Tri::True => Scalar::Bool(true),
        Tri::False => Scalar::Bool(false),
        Tri::Null => Scalar::Null,
    }
}

fn truth_in(v: Scalar<'_>) -> Option<Tri>
    ensures { TruthIn (scalar_view v.entry) result }
{
    match v {
        Scalar::Bool(b) => Some(truth(b)),
        Scalar::Null => Some(Tri::Null),
        _ => None,
    }
}

/// Logic, and arithmetic of integers; a sum of texts isn't told.
pub(crate) fn combined<'a>(operator: Operator, v: Scalar<'_>, w: Scalar<'_>) -> Scalar<'a>
    ensures { BothTell (scalar_view v.entry) (scalar_view w.entry) (scalar_view result)
        (combined operator) }
{
    match v {
        Scalar::Int(x) => integer_combined(operator, x, w),
        _ => logic(operator, v, w),
    }
}

fn integer_combined<'a>(operator: Operator, x: i64, w: Scalar<'_>) -> Scalar<'a>
    ensures { ThenTells (scalar_view w.entry) (scalar_view result) (combined operator (integer x)) }
{
    match w {
        Scalar::Int(y) => integers(operator, x, y),
        _ => Scalar::Untold,
    }
}

fn integers<'a>(operator: Operator, x: i64, y: i64) -> Scalar<'a>
    ensures { Tells (scalar_view result) (combined operator (integer x) (integer y)) }
{
    match operator {
        Operator::Plus => told(x.checked_add(y)),
        Operator::Minus => told(x.checked_sub(y)),
        Operator::Times => told(x.checked_mul(y)),
        Operator::Divide => quotient(x, y),
        Operator::Modulo => remainder(x, y),
        _ => Scalar::Untold,
    }
}

fn quotient<'a>(x: i64, y: i64) -> Scalar<'a>
    ensures { Tells (scalar_view result) (divide (integer x) (integer y)) }
{
    if y == 0 {
        return Scalar::Untold;
    }
    told(x.checked_div(y))
}

fn remainder<'a>(x: i64, y: i64) -> Scalar<'a>
    ensures { Tells (scalar_view result) (modulo (integer x) (integer y)) }
{
    if y == 0 || y == -1 {
        return Scalar::Untold;
    }
    Scalar::Int(x % y)
}

fn logic<'a>(operator: Operator, v: Scalar<'_>, w: Scalar<'_>) -> Scalar<'a>
    ensures { BothTell (scalar_view v.entry) (scalar_view w.entry) (scalar_view result)
        (combined operator) }
{
    match truth_in(v) {
        Some(s) => truth_combined(operator, s, w),
        None => Scalar::Untold,
    }
}

fn truth_combined<'a>(operator: Operator, s: Tri, w: Scalar<'_>) -> Scalar<'a>
    ensures { (v : Datum) → truth_of v ≡ Ok s
        → ThenTells (scalar_view w.entry) (scalar_view result) (combined operator v) }
{
    match truth_in(w) {
        Some(t) => judged(truths(operator, s, t)),
        None => Scalar::Untold,
    }
}

fn truths(operator: Operator, s: Tri, t: Tri) -> Option<Tri>
    ensures { IfSome result (λ u. (v w : Datum) → truth_of v ≡ Ok s → truth_of w ≡ Ok t
        → combined operator v w ≡ Ok (value_of_truth u)) }
{
    match operator {
        Operator::Or => Some(or(s, t)),
        Operator::Xor => Some(xor(s, t)),
        Operator::And => Some(and(s, t)),
        _ => None,
    }
}

fn judged<'a>(t: Option<Tri>) -> Scalar<'a>
    ensures { scalar_view result ≡ option_map value_of_truth t }
{
    match t {
        Some(t) => of_truth(t),
        None => Scalar::Untold,
    }
}

/// One comparison of two integers or two texts.
#[inline(always)]
pub(crate) fn compared<'a>(operator: Operator, v: Scalar<'_>, w: Scalar<'_>) -> Scalar<'a>
    ensures { BothTell (scalar_view v.entry) (scalar_view w.entry) (scalar_view result)
        (λ x y. truth_compared x ((operator, y) ∷ [])) }
{
    match v {
        Scalar::Int(x) => integer_compared(operator, x, w),
        Scalar::Text(s) => text_compared(operator, s.as_str(), w),
        Scalar::SharedText(s) => text_compared(operator, s.as_ref().as_str(), w),
        Scalar::ShortText(s) => text_compared(operator, s.as_str(), w),
        _ => Scalar::Untold,
    }
}

/// One comparison with an integer at the left.
#[inline(always)]
pub(crate) fn integer_compared<'a>(operator: Operator, x: i64, w: Scalar<'_>) -> Scalar<'a>
    ensures { ThenTells (scalar_view w.entry) (scalar_view result)
        (λ y. truth_compared (integer x) ((operator, y) ∷ [])) }
{
    match w {
        Scalar::Int(y) => judged(integers_compared(operator, x, y)),
        _ => Scalar::Untold,
    }
}

fn integers_compared(operator: Operator, x: i64, y: i64) -> Option<Tri>
    ensures { IfSome result (λ t. compared operator (integer x) (integer y) ≡ Ok t) }
{
    match operator {
        Operator::Equal => Some(truth(x == y)),
        Operator::NotEqual => Some(not(truth(x == y))),
        Operator::Less => Some(truth(x < y)),
        Operator::LessOrEqual => Some(not(truth(y < x))),
        Operator::Greater => Some(truth(y < x)),
        Operator::GreaterOrEqual => Some(not(truth(x < y))),
        _ => None,
    }
}

/// One comparison with a text at the left.
#[inline(always)]
pub(crate) fn text_compared<'a>(operator: Operator, s: &str, w: Scalar<'_>) -> Scalar<'a>
    ensures { ThenTells (scalar_view w.entry) (scalar_view result)
        (λ y. truth_compared (text s.now) ((operator, y) ∷ [])) }
{
    match w {
        Scalar::Text(t) => judged(texts_compared(operator, s, t.as_str())),
        Scalar::SharedText(t) => judged(texts_compared(operator, s, t.as_ref().as_str())),
        Scalar::ShortText(t) => judged(texts_compared(operator, s, t.as_str())),
        _ => Scalar::Untold,
    }
}

fn texts_compared(operator: Operator, s: &str, t: &str) -> Option<Tri>
    ensures { IfSome result (λ u. compared operator (text s.now) (text t.now) ≡ Ok u) }
{
    match operator {
        Operator::Equal => Some(truth(s == t)),
        Operator::NotEqual => Some(not(truth(s == t))),
        Operator::Less => Some(truth(s < t)),
        Operator::LessOrEqual => Some(not(truth(t < s))),
        Operator::Greater => Some(truth(t < s)),
        Operator::GreaterOrEqual => Some(not(truth(s < t))),
        _ => None,
    }
}

/// NOT, so many times.
pub(crate) fn negated<'a>(count: usize, v: Scalar<'_>) -> Scalar<'a>
    ensures { ThenTells (scalar_view v.entry) (scalar_view result) (all_negated count) }
{
    match truth_in(v) {
        Some(t) => of_truth(turned(count, t)),
        None => Scalar::Untold,
    }
}

/// One sign before an integer; more of them aren't told.
pub(crate) fn signed<'a>(signs: &Vec<bool>, v: Scalar<'_>) -> Scalar<'a>
    ensures { ThenTells (scalar_view v.entry) (scalar_view result) (all_signed signs.now.items) }
{
    match v {
        Scalar::Int(i) => with_signs(signs, i),
        _ => Scalar::Untold,
    }
}

fn with_signs<'a>(signs: &Vec<bool>, i: i64) -> Scalar<'a>
    ensures { Tells (scalar_view result) (all_signed signs.now.items (integer i)) }
{
    match signs.as_slice() {
        [is_minus] => with_sign(*is_minus, i),
        _ => Scalar::Untold,
    }
}

fn with_sign<'a>(is_minus: bool, i: i64) -> Scalar<'a>
    ensures { Tells (scalar_view result) (signed is_minus (integer i)) }
{
    if is_minus {
        told(i.checked_neg())
    } else {
        Scalar::Int(i)
    }
}

/// IS NULL, and IS NOT NULL where it is negated.
pub(crate) fn null_tested<'a>(is_negated: bool, v: Scalar<'_>) -> Scalar<'a>
    ensures { ThenTells (scalar_view v.entry) (scalar_view result)
        (λ u. Ok (null_tested is_negated u)) }
{
    match v {
        Scalar::Untold => Scalar::Untold,
        Scalar::Null => null_test(is_negated, true),
        Scalar::Bool(_) => null_test(is_negated, false),
        Scalar::Int(_) => null_test(is_negated, false),
        Scalar::Text(_) => null_test(is_negated, false),
        Scalar::SharedText(_) => null_test(is_negated, false),
        Scalar::ShortText(_) => null_test(is_negated, false),
        Scalar::Lent(_) => Scalar::Untold,
    }
}

fn null_test<'a>(is_negated: bool, is_null: bool) -> Scalar<'a>
    ensures { scalar_view result
        ≡ Some (boolean (if is_negated then not is_null else is_null)) }
{
    if is_negated {
        Scalar::Bool(!is_null)
    } else {
        Scalar::Bool(is_null)
    }
}

/// Whether a condition of CASE is true; none where no truth value is told.
pub(crate) fn is_chosen(v: Scalar<'_>) -> Option<bool>
    ensures { Chooses (scalar_view v.entry) result }
{
    match v {
        Scalar::Bool(b) => Some(b),
        Scalar::Null => Some(false),
        _ => None,
    }
}

/// The size of a text or of a list that is lent.
pub(crate) fn sized<'a, T: Tables>(graph: &GraphView<'_, T>, v: Scalar<'_>) -> Scalar<'a>
    ensures { ThenTells (scalar_view v.entry) (scalar_view result) (sized graph.now) }
{
    let _ = graph;
    match v {
        Scalar::Null => Scalar::Null,
        Scalar::Text(text) => counted(characters(text.as_bytes())),
        Scalar::SharedText(text) => counted(characters(text.as_ref().as_bytes())),
        Scalar::ShortText(text) => counted(characters(text.as_bytes())),
        Scalar::Lent(value) => lent_sized(graph, value),
        _ => Scalar::Untold,
    }
}

fn lent_sized<'a, T: Tables>(graph: &GraphView<'_, T>, value: &Value) -> Scalar<'a>
    ensures { Tells (scalar_view result) (sized graph.now (view value.now)) }
{
    let _ = graph;
    match value {
        Value::List(items) => listed(items.as_ref()),
        _ => Scalar::Untold,
    }
}

#[tactic(auto, using(pg_expr_calls::proofs::Counts::counts))]
fn listed<'a>(items: &Vec<Value>) -> Scalar<'a>
    ensures { scalar_view result
        ≡ Some (integer (pos (item_count (values_view items.now.items)))) }
{
    counted(items.len())
}

fn counted<'a>(n: usize) -> Scalar<'a>
    requires { n < 2 ^ 63 }
    ensures { scalar_view result ≡ Some (integer (pos n)) }
{
    Scalar::Int(n as i64)
}

/// How many characters a text has: as many as bytes that begin one.
#[tactic(auto, using(pg_expr_calls::proofs::Counts::first_bytes))]
fn characters(bytes: &[u8]) -> usize
    ensures count { result ≡ count_by is_first_byte bytes.now }
    ensures bound { result ≤ length bytes.now }
{
    let mut n = 0;
    for b in bytes {
        if *b / 64 != 2 {
            n += 1;
        }
    }
    n
}
