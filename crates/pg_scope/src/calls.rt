//! Functions and aggregates by their names, whatever the ASCII case, and what they take.
ghost use Rattle.std.specs.Prelude.{◌≡◌, is_some, map, option_map};
ghost use Rattle.std.specs.Str.{str_to_ascii_lowercase};
ghost use Rattle.pg_meaning.specs.Aggregates.{aggregate_named};
ghost use Rattle.pg_meaning.specs.Functions as meaning;
ghost use Rattle.pg_meaning.specs.StaticFaults as spec;
ghost use Rattle.pg_scope.specs.Calls.{IsNamed, function_view, summary_view};
ghost use Rattle.pg_syntax_tree.specs.View.{name_view};

use pg_syntax_tree::Name;

#[derive(Clone, Copy)]
pub enum Function {
    Id,
    Labels,
    Type,
    Keys,
    Properties,
    Size,
    Length,
    Nodes,
    Relationships,
    Head,
    Last,
    Coalesce,
    Range,
    ToString,
    ToInteger,
    Abs,
    StartNode,
    EndNode,
}

/// What is told of a group's values.
#[derive(Clone, Copy)]
pub enum AggregateFunction {
    Counting,
    Summing,
    Least,
    Greatest,
    Collecting,
}

const FUNCTIONS: [(&str, Function); 18] = [
    ("id", Function::Id),
    ("labels", Function::Labels),
    ("type", Function::Type),
    ("keys", Function::Keys),
    ("properties", Function::Properties),
    ("size", Function::Size),
    ("length", Function::Length),
    ("nodes", Function::Nodes),
    ("relationships", Function::Relationships),
    ("head", Function::Head),
    ("last", Function::Last),
    ("coalesce", Function::Coalesce),
    ("range", Function::Range),
    ("tostring", Function::ToString),
    ("tointeger", Function::ToInteger),
    ("abs", Function::Abs),
    ("startnode", Function::StartNode),
    ("endnode", Function::EndNode),
];

const SUMMARIES: [(&str, AggregateFunction); 5] = [
    ("count", AggregateFunction::Counting),
    ("sum", AggregateFunction::Summing),
    ("min", AggregateFunction::Least),
    ("max", AggregateFunction::Greatest),
    ("collect", AggregateFunction::Collecting),
];

/// What stands beside the name, whatever the ASCII case of either.
fn named<T: Copy>(known: &[(&str, T)], name: &str) -> Option<T>
    ensures { IsNamed name.now (map (λ p. (str_to_ascii_lowercase p.0.now, p.1)) known.now) result }
{
    for (text, value) in known {
        if name.eq_ignore_ascii_case(text) {
            return Some(*value);
        }
    }
    None
}

/// The function of a name, whatever its case; none for an aggregate function.
pub fn function_named(name: &str) -> Option<Function>
    ensures { option_map function_view result ≡ meaning.function_named name.now }
{
    named(&FUNCTIONS, name)
}

/// The aggregate function of a name, whatever its case.
pub fn summary_named(name: &str) -> Option<AggregateFunction>
    ensures { option_map summary_view result ≡ aggregate_named name.now }
{
    named(&SUMMARIES, name)
}

/// Whether a function takes so many arguments.
fn takes(function: Function, count: usize) -> bool
    ensures { result ≡ spec.takes (function_view function) count }
{
    match function {
        Function::Coalesce => 1 <= count,
        Function::Range => count == 2 || count == 3,
        _ => count == 1,
    }
}

/// An aggregate takes `*`, or one argument.
fn is_known_aggregate(summary: AggregateFunction, star: bool, count: usize) -> bool
    ensures { result ≡ spec.is_known_aggregate (summary_view summary) star count }
{
    if star {
        summary == AggregateFunction::Counting
    } else {
        count == 1
    }
}

/// A function takes neither `*` nor DISTINCT.
fn is_known_function(function: Option<Function>, star: bool, distinct: bool, count: usize) -> bool
    ensures { result
        ≡ spec.is_known_function (option_map function_view function) star distinct count }
{
    match function {
        Some(function) => !star && !distinct && takes(function, count),
        None => false,
    }
}

pub(crate) fn is_aggregate(name: &Name) -> bool
    ensures { result ≡ spec.is_aggregate (name_view name.now) }
{
    summary_named(name.text.as_str()).is_some()
}

pub(crate) fn is_known(name: &Name, star: bool, distinct: bool, count: usize) -> bool
    ensures { result ≡ spec.is_known (name_view name.now) star distinct count }
{
    let text = name.text.as_str();
    match summary_named(text) {
        Some(summary) => is_known_aggregate(summary, star, count),
        None => is_known_function(function_named(text), star, distinct, count),
    }
}
