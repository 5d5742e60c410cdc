//! The counts of SKIP and LIMIT.
ghost use Rattle.std.specs.Prelude.{◌≡◌, ◌≢◌, option_map, IfOk, IfErr, Ok, Err, Some};
ghost use Rattle.pg_meaning.specs.Projections.{count_of};
ghost use Rattle.pg_meaning.specs.declared.fault.Fault.TheVariants.{OutOfMemory};
ghost use Rattle.pg_project.specs.Cuts.{cut_view};
ghost use Rattle.pg_project.specs.Given.{count_at, cut_given};
ghost use Rattle.pg_syntax_tree.specs.View.{expression_view, projection_view};
ghost use Rattle.pg_value_core.specs.Given.{parameters_view};
ghost use Rattle.pg_value_core.specs.View.{view};

use crate::passing::Cut;
use pg_expr::{evaluate, prepare};
use pg_graph::Tables;
use pg_meaning::Fault;
use pg_rows::Columns;
use pg_store::GraphView;
use pg_syntax_tree::{Expression, Projection};
use pg_value_core::{Parameters, Value};
use std::alloc::Global;

/// SKIP, then LIMIT, each evaluated over no variable.
pub fn cut_at<T: Tables>(
    alloc: Global,
    projection: &Projection,
    parameters: &Parameters,
    graph: &GraphView<'_, T>,
) -> Result<Cut, Fault>
    ensures ok { IfOk result (λ c. cut_given (parameters_view parameters.now) graph.now
        (projection_view projection.now).skip (projection_view projection.now).limit
        ≡ Ok (cut_view c)) }
    ensures err { IfErr result (λ e. e ≢ OutOfMemory
        → cut_given (parameters_view parameters.now) graph.now
        (projection_view projection.now).skip (projection_view projection.now).limit ≡ Err e) }
{
    let skip = count_at(alloc, &projection.skip, parameters, graph)?;
    let limit = count_at(alloc, &projection.limit, parameters, graph)?;
    Ok(Cut {
        skip: skip.unwrap_or(0),
        limit,
    })
}

fn count_at<T: Tables>(
    alloc: Global,
    count: &Option<Expression>,
    parameters: &Parameters,
    graph: &GraphView<'_, T>,
) -> Result<Option<u64>, Fault>
    ensures ok { IfOk result (λ n. count_at
        (parameters_view parameters.now) graph.now (option_map expression_view count.now) ≡ Ok n) }
    ensures err { IfErr result (λ e. e ≢ OutOfMemory
        → count_at (parameters_view parameters.now) graph.now (option_map expression_view count.now)
        ≡ Err e) }
{
    match count {
        Some(expression) => Ok(Some(count_given(alloc, expression, parameters, graph)?)),
        None => Ok(None),
    }
}

// Apart, so that a projection without SKIP and LIMIT pays for no frame.
#[inline(never)]
fn count_given<T: Tables>(
    alloc: Global,
    expression: &Expression,
    parameters: &Parameters,
    graph: &GraphView<'_, T>,
) -> Result<u64, Fault>
    ensures ok { IfOk result (λ n. count_at (parameters_view parameters.now) graph.now
        (Some (expression_view expression.now)) ≡ Ok (Some n)) }
    ensures err { IfErr result (λ e. e ≢ OutOfMemory → count_at
        (parameters_view parameters.now) graph.now (Some (expression_view expression.now))
        ≡ Err e) }
{
    let names = Columns::new(alloc);
    let prepared = prepare(alloc, expression, &names)?;
    let value = evaluate(alloc, &prepared, &names, &[], parameters, graph)?;
    count_of(&value)
}

fn count_of(value: &Value) -> Result<u64, Fault>
    ensures ok { IfOk result (λ n. count_of (view value.now) ≡ Ok n) }
    ensures err { IfErr result (λ e. count_of (view value.now) ≡ Err e) }
{
    let Value::Int(count) = value else {
        return Err(Fault::TypeFault);
    };
    if *count < 0 {
        return Err(Fault::NegativeCount);
    }
    Ok(count.unsigned_abs())
}
