//! What is found where an expression is evaluated.
ghost use Rattle.std.specs.Prelude.{◌≡◌, IfOk, option_map, unwrap_or};
ghost use Rattle.pg_expr.specs.Contexts.{found_view};
ghost use Rattle.pg_meaning.specs.Value.{null};
ghost use Rattle.pg_value_core.specs.View.{view};

use pg_value_core::Value;
use std::alloc::{AllocError, Global};

/// A value that is borrowed from where it stands, or one that was made.
#[derive(Drop)]
pub enum ValueRef<'a> {
    Lent(&'a Value),
    Made(Value),
}

impl<'a> ValueRef<'a> {
    /// The value, wherever it stands.
    pub fn look(&self) -> &Value
        ensures { view result.now ≡ found_view self.now }
    {
        match self {
            ValueRef::Lent(value) => value,
            ValueRef::Made(value) => value,
        }
    }

    /// The value, which is copied where it is lent.
    pub fn take(self, alloc: Global) -> Result<Value, AllocError>
        ensures { IfOk result (λ v. view v ≡ found_view self.entry) }
    {
        match self {
            ValueRef::Lent(value) => value.copy(alloc),
            ValueRef::Made(value) => Ok(value),
        }
    }
}

pub(crate) fn null<'a>() -> ValueRef<'a>
    ensures { found_view result ≡ null }
{
    ValueRef::Made(Value::Null)
}

/// A value that may be absent, which reads as null.
pub(crate) fn lent_or_null<'a>(value: Option<&'a Value>) -> ValueRef<'a>
    ensures { found_view result ≡ unwrap_or (option_map (λ v. view v.now) value.entry) null }
{
    match value {
        Some(value) => ValueRef::Lent(value),
        None => null(),
    }
}
