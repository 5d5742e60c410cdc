//! What `range` gives at its arguments.
ghost use Rattle.std.specs.Prelude.{◌≡◌, ◌≢◌, IfOk, IfErr, Ok, Err};
ghost use Rattle.pg_expr.specs.Calls.{given_range};
ghost use Rattle.pg_expr.specs.Contexts.{found_view, founds_view};
ghost use Rattle.pg_meaning.specs.Answer.{◌>>=◌ as and_then};
ghost use Rattle.pg_meaning.specs.Functions.{integers_of, range_over, size_of};
ghost use Rattle.pg_meaning.specs.declared.fault.Fault.TheVariants.{OutOfMemory};
ghost use Rattle.pg_value_core.specs.View.{view};

use crate::value_ref::ValueRef;
use pg_expr_calls::{range, range_size};
use pg_meaning::Fault;
use pg_value_core::Value;
use std::alloc::Global;

pub(crate) fn range_of<'a>(
    alloc: Global,
    arguments: &Vec<ValueRef<'a>>,
) -> Result<ValueRef<'a>, Fault>
    ensures ok { IfOk result
        (λ f. given_range (founds_view arguments.now.items) ≡ Ok (found_view f)) }
    ensures err { IfErr result (λ e. e ≢ OutOfMemory
        → given_range (founds_view arguments.now.items) ≡ Err e) }
{
    let integers = integers(alloc, arguments)?;
    Ok(ValueRef::Made(range_over(alloc, &integers)?))
}

/// The size of what `range` gives at its arguments, which isn't made.
pub(crate) fn size_of_range<'a>(
    alloc: Global,
    arguments: &Vec<ValueRef<'a>>,
) -> Result<ValueRef<'a>, Fault>
    ensures ok { IfOk result (λ f. and_then (given_range (founds_view arguments.now.items)) size_of
        ≡ Ok (found_view f)) }
    ensures err { IfErr result (λ e. e ≢ OutOfMemory
        → and_then (given_range (founds_view arguments.now.items)) size_of ≡ Err e) }
{
    let integers = integers(alloc, arguments)?;
    Ok(ValueRef::Made(size_over(&integers)?))
}

/// The integers that all arguments are.
fn integers(alloc: Global, arguments: &Vec<ValueRef<'_>>) -> Result<Vec<i64>, Fault>
    ensures ok { IfOk result (λ is. integers_of (founds_view arguments.now.items) ≡ Ok is.items) }
    ensures err { IfErr result (λ e. e ≢ OutOfMemory
        → integers_of (founds_view arguments.now.items) ≡ Err e) }
{
    let mut integers = Vec::with_capacity(alloc, arguments.len())?;
    for argument in arguments {
        let Value::Int(i) = argument.look() else {
            return Err(Fault::TypeFault);
        };
        integers.push(*i)?;
    }
    Ok(integers)
}

fn range_over(alloc: Global, integers: &Vec<i64>) -> Result<Value, Fault>
    ensures ok { IfOk result (λ v. range_over integers.now.items ≡ Ok (view v)) }
    ensures err { IfErr result (λ e. e ≢ OutOfMemory → range_over integers.now.items ≡ Err e) }
{
    match integers.as_slice() {
        [start, end] => range(alloc, *start, *end, 1),
        [start, end, step] => range(alloc, *start, *end, *step),
        _ => Err(Fault::UnknownFunction),
    }
}

fn size_over(integers: &Vec<i64>) -> Result<Value, Fault>
    ensures ok { IfOk result (λ v. and_then (range_over integers.now.items) size_of ≡ Ok (view v)) }
    ensures err { IfErr result (λ e. and_then (range_over integers.now.items) size_of ≡ Err e) }
{
    match integers.as_slice() {
        [start, end] => range_size(*start, *end, 1),
        [start, end, step] => range_size(*start, *end, *step),
        _ => Err(Fault::UnknownFunction),
    }
}
