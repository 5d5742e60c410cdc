//! What an expression gives at a row: operands left to right, and the first fault decides.
ghost use Rattle.std.specs.Prelude.{map, option_map, string_bytes};
ghost use Rattle.pg_expr.specs.Calls.{given_call, given_size};
ghost use Rattle.pg_expr.specs.Kinds.{IsCase, IsChain, AreTests, AreSuffixes};
ghost use Rattle.pg_expr.specs.Prepared.{tree_of};
ghost use Rattle.pg_expr.specs.Reads.{given_item, given_property};
ghost use Rattle.pg_expr.specs.Scalars.{scalar_view, Tells};
ghost use Rattle.pg_expr.specs.Contexts.{found_view, founds_view, pairs_view, given, given_each, given_map, given_first, given_true, given_chain, given_operands, row_at};
ghost use Rattle.pg_meaning.specs.Expressions.{evaluate, or_fault};
ghost use Rattle.pg_meaning.specs.Parse.{expressions_of, operands_of, pairs_of, whens_of};
ghost use Rattle.pg_meaning.specs.Rows.{value_in};
ghost use Rattle.pg_meaning.specs.declared.fault.Fault.TheVariants.{UndefinedVariable};
ghost use Rattle.pg_rows.specs.Named.{row_of};
ghost use Rattle.pg_syntax_tree.specs.View.{expression_view, pair_view, when_view, operand_view};
ghost use Rattle.pg_value_core.specs.Given.{parameters_view};
ghost use Rattle.pg_value_core.specs.Gives.{Gives};
ghost use Rattle.pg_value_core.specs.View.{view};

use crate::atoms::{column, literal_found, parameter, variable};
use crate::calls::{applied, call_fault, is_coalesce, is_null, is_size};
use crate::counts::{counted, is_range_named, range_counted};
use crate::made::{list_of, made, put};
use crate::operators::{
    all_signed, begins_comparison, combined, compared, compared_once, is_chosen, negated,
    null_tested, tested,
};
use crate::plain_operands::{plain, variable_and_key, variable_and_place};
use crate::prepared::{Form, Prepared};
use crate::reads::{
    column_item, column_property, index, labels, list_column_item, property, property_in_column,
};
use crate::row_context::RowContext;
use crate::scalar::{Scalar, copied, is_untold, text_copied};
use crate::scalar_evaluation::scalar;
use crate::scalar_trees::may_tell;
use crate::value_ref::{ValueRef, lent_or_null, null};
use pg_graph::Tables;
use pg_meaning::{Fault, Operator};
use pg_rows::Columns;
use pg_scope::function_named;
use pg_store::GraphView;
use pg_syntax_tree::{Expression, Name, Suffix, Test};
use pg_value_core::{Parameters, Value};
use std::alloc::Global;
use std::collections::BTreeMap;

/// The value of an expression at a row of a graph, or its first fault.
pub fn evaluate<T: Tables>(
    alloc: Global,
    prepared: &Prepared<'_>,
    names: &Columns,
    row: &[Value],
    parameters: &Parameters,
    graph: &GraphView<'_, T>,
) -> Result<Value, Fault>
    ensures { Gives result (evaluate (row_of names.now (map view row.now))
        (parameters_view parameters.now) graph.now (tree_of names.now prepared.now)) view }
{
    let context = RowContext {
        alloc,
        names,
        row,
        parameters,
    };
    evaluate_at(&context, prepared, graph)
}

/// The same at a row's context.
#[inline(always)]
pub fn evaluate_at<T: Tables>(
    context: &RowContext<'_>,
    prepared: &Prepared<'_>,
    graph: &GraphView<'_, T>,
) -> Result<Value, Fault>
    ensures { Gives result (evaluate (row_of context.now.names.now (map view context.now.row.now))
        (parameters_view context.now.parameters.now) graph.now
        (tree_of context.now.names.now prepared.now)) view }
{
    match prepared.form {
        Form::Property(name, key, near) => property_copied(context, graph, name, key, near),
        Form::Item(name, place, near) => item_copied(context, graph, name, place, near),
        Form::Other(tree, true) => told_at(context, graph, tree),
        Form::Other(tree, false) => found_at(context, graph, tree),
        Form::Column(name, near) => column_copied(context, name, near),
    }
}

/// `variable.key`, as a value of its own.
#[inline(always)]
fn property_copied<T: Tables>(
    context: &RowContext<'_>,
    graph: &GraphView<'_, T>,
    name: &Name,
    key: &Name,
    near: usize,
) -> Result<Value, Fault>
    ensures { Gives result (given_property context.now graph.now
        (string_bytes name.now.text) (string_bytes key.now.text)) view }
{
    match property_in_column(context, graph, name, key, near) {
        // (the most frequent value, which takes no memory of its own)
        Some(Some(Value::Int(i))) => Ok(Value::Int(*i)),
        Some(Some(value)) => copied(context.alloc, value),
        Some(None) => Ok(Value::Null),
        None => other_property_copied(context, graph, name, key, near),
    }
}

/// The same of whatever is no node and no map.
#[inline(never)]
fn other_property_copied<T: Tables>(
    context: &RowContext<'_>,
    graph: &GraphView<'_, T>,
    name: &Name,
    key: &Name,
    near: usize,
) -> Result<Value, Fault>
    ensures { Gives result (given_property context.now graph.now
        (string_bytes name.now.text) (string_bytes key.now.text)) view }
{
    Ok(column_property(context, graph, name, key, near)?.take(context.alloc)?)
}

/// `variable[place]`, as a value of its own.
#[inline(never)]
fn item_copied<T: Tables>(
    context: &RowContext<'_>,
    graph: &GraphView<'_, T>,
    name: &Name,
    place: usize,
    near: usize,
) -> Result<Value, Fault>
    ensures { Gives result (given_item context.now graph.now
        (string_bytes name.now.text) place) view }
{
    match list_column_item(context, graph, name, place, near) {
        Some(Some(Value::Int(i))) => Ok(Value::Int(*i)),
        Some(Some(value)) => copied(context.alloc, value),
        Some(None) => Ok(Value::Null),
        None => other_item_copied(context, graph, name, place, near),
    }
}

/// The same of whatever is no list.
#[inline(never)]
fn other_item_copied<T: Tables>(
    context: &RowContext<'_>,
    graph: &GraphView<'_, T>,
    name: &Name,
    place: usize,
    near: usize,
) -> Result<Value, Fault>
    ensures { Gives result (given_item context.now graph.now
        (string_bytes name.now.text) place) view }
{
    Ok(column_item(context, graph, name, place, near)?.take(context.alloc)?)
}

/// What a column holds, as a value of its own.
#[inline(never)]
fn column_copied(context: &RowContext<'_>, name: &Name, near: usize) -> Result<Value, Fault>
    ensures { Gives result
        (or_fault (value_in (string_bytes name.now.text) (row_at context.now)) UndefinedVariable)
        view }
{
    Ok(column(context, name, near)?.take(context.alloc)?)
}

/// The same of an expression of which scalars are asked first.
#[inline(never)]
fn told_at<T: Tables>(
    context: &RowContext<'_>,
    graph: &GraphView<'_, T>,
    expression: &Expression,
) -> Result<Value, Fault>
    ensures { Gives result
        (given context.now graph.now (expression_view expression.now)) view }
{
    let told = told(context, graph, expression);
    owned(context, graph, expression, told)
}

/// The value of an expression that is evaluated once at one row, so that it isn't made ready first.
pub fn evaluate_once<T: Tables>(
    context: &RowContext<'_>,
    expression: &Expression,
    graph: &GraphView<'_, T>,
) -> Result<Value, Fault>
    ensures { Gives result (evaluate (row_of context.now.names.now (map view context.now.row.now))
        (parameters_view context.now.parameters.now) graph.now
        (expression_view expression.now)) view }
{
    // (rows that UNWIND makes of lists or of maps are read so, and mostly stand in the first column)
    if let Some((name, place)) = variable_and_place(expression) {
        return item_copied(context, graph, name, place, 0);
    }
    if let Some((name, key)) = variable_and_key(expression) {
        return property_copied(context, graph, name, key, 0);
    }
    let read = plain(context, graph, expression);
    if is_untold(read) {
        return evaluate_other(context, expression, graph);
    }
    owned(context, graph, expression, read)
}

/// The same of whatever is no plain operand.
#[inline(never)]
fn evaluate_other<T: Tables>(
    context: &RowContext<'_>,
    expression: &Expression,
    graph: &GraphView<'_, T>,
) -> Result<Value, Fault>
    ensures { Gives result
        (given context.now graph.now (expression_view expression.now)) view }
{
    if may_tell(expression) {
        return told_at(context, graph, expression);
    }
    found_at(context, graph, expression)
}

/// What a scalar tells, as a value of its own; what none tells is found.
fn owned<T: Tables>(
    context: &RowContext<'_>,
    graph: &GraphView<'_, T>,
    expression: &Expression,
    told: Scalar<'_>,
) -> Result<Value, Fault>
    requires { Tells (scalar_view told)
        (given context.now graph.now (expression_view expression.now)) }
    ensures { Gives result
        (given context.now graph.now (expression_view expression.now)) view }
{
    match told {
        Scalar::Untold => found_at(context, graph, expression),
        Scalar::Null => Ok(Value::Null),
        Scalar::Bool(b) => Ok(Value::Bool(b)),
        Scalar::Int(i) => Ok(Value::Int(i)),
        Scalar::Text(text) => text_copied(context.alloc, text.as_str()),
        Scalar::SharedText(text) => Ok(Value::Text(text.clone()?)),
        Scalar::ShortText(text) => Ok(Value::ShortText(*text)),
        Scalar::Lent(value) => copied(context.alloc, value),
    }
}

/// What scalars tell: plain operands need no cycle of calls.
fn told<'a, T: Tables>(
    context: &RowContext<'a>,
    graph: &GraphView<'a, T>,
    expression: &'a Expression,
) -> Scalar<'a>
    ensures { Tells (scalar_view result)
        (given context.now graph.now (expression_view expression.now)) }
{
    match expression {
        Expression::Suffixes(_, _, _) | Expression::Variable(_) => {
            let read = plain(context, graph, expression);
            if !is_untold(read) {
                return read;
            }
            scalar(context, graph, expression)
        }
        _ => scalar(context, graph, expression),
    }
}

/// The same, borrowed where it stands somewhere: what is read is not copied.
#[inline(always)]
pub fn find_at<'a, T: Tables>(
    context: &RowContext<'a>,
    prepared: &Prepared<'_>,
    graph: &GraphView<'a, T>,
) -> Result<ValueRef<'a>, Fault>
    ensures { Gives result (evaluate (row_of context.now.names.now (map view context.now.row.now))
        (parameters_view context.now.parameters.now) graph.now
        (tree_of context.now.names.now prepared.now)) found_view }
{
    match prepared.form {
        Form::Column(name, near) => column(context, name, near),
        Form::Property(name, key, near) => match property_in_column(
            context, graph, name, key, near,
        ) {
            Some(held) => Ok(lent_or_null(held)),
            None => column_property(context, graph, name, key, near),
        },
        Form::Item(name, place, near) => match list_column_item(context, graph, name, place, near) {
            Some(held) => Ok(lent_or_null(held)),
            None => column_item(context, graph, name, place, near),
        },
        Form::Other(tree, tells) => find_other_at(context, graph, tree, tells),
    }
}

/// Whatever reads no column alone.
#[inline(never)]
fn find_other_at<'a, T: Tables>(
    context: &RowContext<'a>,
    graph: &GraphView<'a, T>,
    expression: &Expression,
    tells: bool,
) -> Result<ValueRef<'a>, Fault>
    ensures { Gives result
        (given context.now graph.now (expression_view expression.now)) found_view }
{
    match expression {
        Expression::Parameter(name) => parameter(context, name.text.as_str()),
        Expression::Suffixes(_, _, _) => find(context, graph, expression),
        _ => find_computed(context, graph, expression, tells),
    }
}

/// What is computed: scalars are asked first.
fn find_computed<'a, T: Tables>(
    context: &RowContext<'a>,
    graph: &GraphView<'a, T>,
    expression: &Expression,
    tells: bool,
) -> Result<ValueRef<'a>, Fault>
    ensures { Gives result
        (given context.now graph.now (expression_view expression.now)) found_view }
{
    if tells {
        return Ok(ValueRef::Made(told_at(context, graph, expression)?));
    }
    find(context, graph, expression)
}

/// The same by `find`, whatever the value.
#[inline(never)]
fn found_at<T: Tables>(
    context: &RowContext<'_>,
    graph: &GraphView<'_, T>,
    expression: &Expression,
) -> Result<Value, Fault>
    ensures { Gives result
        (given context.now graph.now (expression_view expression.now)) view }
{
    let found = find(context, graph, expression)?;
    Ok(found.take(context.alloc)?)
}

/// What an expression gives, which is lent where it stands somewhere.
#[cycle(find)]
pub(crate) fn find<'a, T: Tables>(
    context: &RowContext<'a>,
    graph: &GraphView<'a, T>,
    expression: &Expression,
) -> Result<ValueRef<'a>, Fault>
    ensures { Gives result
        (given context.now graph.now (expression_view expression.now)) found_view }
{
    match expression {
        Expression::Literal(literal) => literal_found(context.alloc, literal),
        Expression::Parameter(name) => parameter(context, name.text.as_str()),
        Expression::Variable(name) => variable(context, name.text.as_str()),
        Expression::ListLiteral(items) => list_of(context.alloc, each(context, graph, items)),
        Expression::MapLiteral(pairs) => mapping(context, graph, pairs),
        Expression::Parentheses(inner) => find(context, graph, inner),
        Expression::Call(name, _, _, arguments) => call(context, graph, name, arguments),
        Expression::Case(_, _, _) => case(context, graph, expression),
        Expression::Chain(_, _) => chain(context, graph, expression),
        Expression::Negation(count, inner) => negated(*count, find(context, graph, inner)),
        Expression::Signs(signs, inner) => all_signed(signs, find(context, graph, inner)),
        Expression::Tests(_, _) => pass_tests(context, graph, expression),
        Expression::Suffixes(_, _, _) => read(context, graph, expression),
    }
}

#[cycle(find)]
#[inline(never)]
fn each<'a, T: Tables>(
    context: &RowContext<'a>,
    graph: &GraphView<'a, T>,
    items: &Vec<Expression>,
) -> Result<Vec<ValueRef<'a>>, Fault>
    ensures { Gives result
        (given_each context.now graph.now (expressions_of (map expression_view items.now.items)))
        (λ fs. founds_view fs.items) }
{
    let mut found = Vec::with_capacity(context.alloc, items.len())?;
    for item in items {
        let next = find(context, graph, item)?;
        found.push(next)?;
    }
    Ok(found)
}

/// Of a key twice the later value stays.
#[cycle(find)]
#[inline(never)]
fn mapping<'a, T: Tables>(
    context: &RowContext<'a>,
    graph: &GraphView<'a, T>,
    pairs: &Vec<(Name, Expression)>,
) -> Result<ValueRef<'a>, Fault>
    ensures { Gives result
        (given_map context.now graph.now (pairs_of (map pair_view pairs.now.items))) found_view }
{
    let mut entries = BTreeMap::new(context.alloc);
    for (key, value) in pairs {
        let next = find(context, graph, value)?;
        entries = put(context.alloc, entries, key, next)?;
    }
    made(ValueRef::Made(Value::map(context.alloc, entries)?))
}

#[cycle(find)]
#[inline(never)]
fn call<'a, T: Tables>(
    context: &RowContext<'a>,
    graph: &GraphView<'a, T>,
    name: &Name,
    arguments: &Vec<Expression>,
) -> Result<ValueRef<'a>, Fault>
    ensures { Gives result (given_call context.now graph.now (string_bytes name.now.text)
        (expressions_of (map expression_view arguments.now.items))) found_view }
{
    let Some(function) = function_named(name.text.as_str()) else {
        return Err(call_fault(name.text.as_str()));
    };
    if is_coalesce(function) {
        return first_given(context, graph, arguments);
    }
    if is_size(function) {
        if let [argument] = arguments.as_slice() {
            return size(context, graph, argument);
        }
    }
    applied(
        context.alloc,
        graph,
        function,
        each(context, graph, arguments),
    )
}

/// The size of what an expression gives; the list of a `range` isn't made for it.
#[cycle(find)]
#[inline(never)]
fn size<'a, T: Tables>(
    context: &RowContext<'a>,
    graph: &GraphView<'a, T>,
    argument: &Expression,
) -> Result<ValueRef<'a>, Fault>
    ensures { Gives result
        (given_size context.now graph.now (expression_view argument.now)) found_view }
{
    match argument {
        Expression::Parentheses(inner) => size(context, graph, inner),
        Expression::Call(name, _, _, arguments) => {
            if is_range_named(name.text.as_str()) {
                range_counted(context.alloc, graph, each(context, graph, arguments))
            } else {
                counted(graph, find(context, graph, argument))
            }
        }
        _ => counted(graph, find(context, graph, argument)),
    }
}

/// The first that isn't null, and the rest isn't evaluated.
#[cycle(find)]
#[inline(never)]
fn first_given<'a, T: Tables>(
    context: &RowContext<'a>,
    graph: &GraphView<'a, T>,
    items: &Vec<Expression>,
) -> Result<ValueRef<'a>, Fault>
    ensures { Gives result (given_first context.now graph.now
        (expressions_of (map expression_view items.now.items))) found_view }
{
    for item in items {
        let next = find(context, graph, item)?;
        if !is_null(&next) {
            return Ok(next);
        }
    }
    Ok(null())
}

/// The result behind the first true condition alone.
#[cycle(find)]
#[inline(never)]
fn first_true<'a, T: Tables>(
    context: &RowContext<'a>,
    graph: &GraphView<'a, T>,
    subject: &Option<ValueRef<'a>>,
    whens: &Vec<(Expression, Expression)>,
) -> Result<Option<ValueRef<'a>>, Fault>
    ensures { Gives result (given_true context.now graph.now
        (option_map found_view subject.now) (whens_of (map when_view whens.now.items)))
        (option_map found_view) }
{
    for (condition, value) in whens {
        let tested = find(context, graph, condition)?;
        if is_chosen(subject, tested)? {
            return Ok(Some(find(context, graph, value)?));
        }
    }
    Ok(None)
}

#[cycle(find)]
#[inline(never)]
fn case<'a, T: Tables>(
    context: &RowContext<'a>,
    graph: &GraphView<'a, T>,
    expression: &Expression,
) -> Result<ValueRef<'a>, Fault>
    requires { IsCase expression.now }
    ensures { Gives result
        (given context.now graph.now (expression_view expression.now)) found_view }
{
    let Expression::Case(subject, whens, otherwise) = expression else {
        unreachable!()
    };
    let chosen = {
        let tested = match subject {
            Some(inner) => Some(find(context, graph, inner)?),
            None => None,
        };
        first_true(context, graph, &tested, whens)?
    };
    match chosen {
        Some(found) => Ok(found),
        None => match otherwise {
            Some(inner) => find(context, graph, inner),
            None => Ok(null()),
        },
    }
}

/// A chain of comparisons evaluates all its operands first.
#[cycle(find)]
#[inline(never)]
fn chain<'a, T: Tables>(
    context: &RowContext<'a>,
    graph: &GraphView<'a, T>,
    expression: &Expression,
) -> Result<ValueRef<'a>, Fault>
    requires { IsChain expression.now }
    ensures { Gives result
        (given context.now graph.now (expression_view expression.now)) found_view }
{
    let Expression::Chain(first, operands) = expression else {
        unreachable!()
    };
    let found = find(context, graph, first)?;
    if !begins_comparison(operands) {
        return joined(context, graph, found, operands);
    }
    match operands.as_slice() {
        [(operator, operand)] => compared_once(*operator, found, find(context, graph, operand)),
        _ => compared(found, each_operand(context, graph, operands)),
    }
}

/// A chain of logic or arithmetic groups to the left.
#[cycle(find)]
#[inline(never)]
fn joined<'a, T: Tables>(
    context: &RowContext<'a>,
    graph: &GraphView<'a, T>,
    first: ValueRef<'a>,
    operands: &Vec<(Operator, Expression)>,
) -> Result<ValueRef<'a>, Fault>
    ensures { Gives result (given_chain context.now graph.now
        (found_view first.entry) (operands_of (map operand_view operands.now.items))) found_view }
{
    let mut left = first;
    for (operator, operand) in operands {
        let right = find(context, graph, operand)?;
        left = combined(context.alloc, *operator, left, right)?;
    }
    Ok(left)
}

#[cycle(find)]
#[inline(never)]
fn each_operand<'a, T: Tables>(
    context: &RowContext<'a>,
    graph: &GraphView<'a, T>,
    operands: &Vec<(Operator, Expression)>,
) -> Result<Vec<(Operator, ValueRef<'a>)>, Fault>
    ensures { Gives result
        (given_operands context.now graph.now (operands_of (map operand_view operands.now.items)))
        (λ ps. pairs_view ps.items) }
{
    let mut found = Vec::with_capacity(context.alloc, operands.len())?;
    for (operator, operand) in operands {
        let next = find(context, graph, operand)?;
        found.push((*operator, next))?;
    }
    Ok(found)
}

#[cycle(find)]
#[inline(never)]
fn pass_tests<'a, T: Tables>(
    context: &RowContext<'a>,
    graph: &GraphView<'a, T>,
    expression: &Expression,
) -> Result<ValueRef<'a>, Fault>
    requires { AreTests expression.now }
    ensures { Gives result
        (given context.now graph.now (expression_view expression.now)) found_view }
{
    let Expression::Tests(inner, tests) = expression else {
        unreachable!()
    };
    let mut found = find(context, graph, inner)?;
    for test in tests {
        found = match test {
            Test::Text(test, operand) => tested(*test, found, find(context, graph, operand))?,
            Test::IsNull(is_negated) => null_tested(*is_negated, found),
        };
    }
    Ok(found)
}

/// Properties and indexes one behind the other, then labels.
#[cycle(find)]
#[inline(never)]
fn read<'a, T: Tables>(
    context: &RowContext<'a>,
    graph: &GraphView<'a, T>,
    expression: &Expression,
) -> Result<ValueRef<'a>, Fault>
    requires { AreSuffixes expression.now }
    ensures { Gives result
        (given context.now graph.now (expression_view expression.now)) found_view }
{
    let Expression::Suffixes(inner, suffixes, names) = expression else {
        unreachable!()
    };
    let mut found = find(context, graph, inner)?;
    for suffix in suffixes {
        found = match suffix {
            Suffix::Property(key) => property(context.alloc, graph, found, key.text.as_str())?,
            Suffix::Index(place) => index(
                context.alloc,
                graph,
                found,
                find(context, graph, place),
            )?,
        };
    }
    labels(graph, found, names)
}
