//! STARTS WITH, ENDS WITH, CONTAINS, and IS NULL.

ghost use Rattle.std.specs.Prelude.{◌≡◌, Ok, true, false};
ghost use Rattle.pg_meaning.specs.Expressions.{tested, null_tested, has_part};
ghost use Rattle.pg_meaning.specs.declared.operators.TextTest.TheVariants.{StartsWith, EndsWith, Contains};
ghost use Rattle.pg_value_core.specs.View.{view};

use pg_value_core::Value;

/// `v STARTS WITH w`; null where one isn't a text.
#[tactic(auto, using(crate::proofs::TextTests::prefixes))]
#[inline(never)]
pub fn begins_with(v: &Value, w: &Value) -> Value
    ensures { tested StartsWith (view v.now) (view w.now) ≡ Ok (view result) }
{
    match (v.as_text(), w.as_text()) {
        (Some(s), Some(t)) => Value::Bool(s.as_bytes().starts_with(t.as_bytes())),
        _ => Value::Null,
    }
}

/// `v ENDS WITH w`.
#[tactic(auto, using(crate::proofs::TextTests::prefixes))]
#[inline(never)]
pub fn finishes_with(v: &Value, w: &Value) -> Value
    ensures { tested EndsWith (view v.now) (view w.now) ≡ Ok (view result) }
{
    match (v.as_text(), w.as_text()) {
        (Some(s), Some(t)) => Value::Bool(s.as_bytes().ends_with(t.as_bytes())),
        _ => Value::Null,
    }
}

/// `v CONTAINS w`.
#[inline(never)]
pub fn contains(v: &Value, w: &Value) -> Value
    ensures { tested Contains (view v.now) (view w.now) ≡ Ok (view result) }
{
    match (v.as_text(), w.as_text()) {
        (Some(s), Some(t)) => Value::Bool(has_part(s, t)),
        _ => Value::Null,
    }
}

fn has_part(s: &str, t: &str) -> bool
    ensures { result ≡ has_part s.now t.now }
{
    s.contains(t)
}

/// `v IS NULL`.
pub fn is_null(v: &Value) -> Value
    ensures { view result ≡ null_tested false (view v.now) }
{
    Value::Bool(matches!(v, Value::Null))
}

/// `v IS NOT NULL`.
pub fn is_not_null(v: &Value) -> Value
    ensures { view result ≡ null_tested true (view v.now) }
{
    Value::Bool(!matches!(v, Value::Null))
}
