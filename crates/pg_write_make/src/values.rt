//! The properties that an element is to have.
ghost use Rattle.std.specs.Prelude.{◌≡◌, ◌≢◌, IfOk, IfErr, Ok, Err, string_bytes};
ghost use Rattle.pg_meaning.specs.Entries.{set_keys, value_at};
ghost use Rattle.pg_meaning.specs.Updates.{mapping_pairs, given_properties};
ghost use Rattle.pg_meaning.specs.Value.{entries_of, no_entries};
ghost use Rattle.pg_meaning.specs.declared.fault.Fault.TheVariants.{OutOfMemory};
ghost use Rattle.pg_store.specs.Stores.{pairs_of};
ghost use Rattle.pg_syntax_tree.specs.View.{properties_view};
ghost use Rattle.pg_value_core.specs.View.{entries_view};
ghost use Rattle.pg_write_make.specs.Outcomes.{outcome_view};
ghost use Rattle.pg_write_make.specs.Scenes.{row_in, parameters_in};
ghost use Rattle.pg_write_make.specs.Values.{pairs_given, pairs_wanted, element_pairs};

use crate::clause_scope::ClauseScope;
use crate::storable::test_storable;
use pg_graph::Tables;
use pg_meaning::Fault;
use pg_store::GraphView;
use pg_syntax_tree::{Expression, Name, Properties};
use pg_value_core::Value;
use std::alloc::{AllocError, Global};
use std::collections::BTreeMap;

// The values of expressions, each under its key.
fn pair_values<'a, T: Tables>(
    scene: &ClauseScope<'_>,
    graph: &GraphView<'_, T>,
    row: &[Value],
    pairs: &'a Vec<(Name, Expression)>,
) -> Result<Vec<(&'a str, Value)>, Fault>
    ensures ok { IfOk result
        (λ values. pairs_given scene.now graph.now row.now (pairs_wanted pairs.now.items)
        ≡ Ok (pairs_of values.items)) }
    ensures err { IfErr result (λ e. e ≢ OutOfMemory
        → pairs_given scene.now graph.now row.now (pairs_wanted pairs.now.items) ≡ Err e) }
{
    let mut values = Vec::with_capacity(scene.query.alloc, pairs.len())?;
    for pair in pairs {
        let value = scene.value(graph, row, &pair.1)?;
        values.push((pair.0.text.as_str(), value))?;
    }
    Ok(values)
}

// The entries of a map, each value copied.
fn copy_pairs<'a>(
    alloc: Global,
    entries: &'a BTreeMap<String, Value>,
) -> Result<Vec<(&'a str, Value)>, AllocError>
    ensures { IfOk result
        (λ pairs. entries_of (entries_view entries.now.entries) ≡ pairs_of pairs.items) }
{
    let mut pairs = Vec::with_capacity(alloc, entries.len())?;
    for (key, value) in entries {
        pairs.push((key.as_str(), value.copy(alloc)?))?;
    }
    Ok(pairs)
}

// The entries of a parameter, which has to be a map.
fn parameter_values<'a>(
    scene: &ClauseScope<'a>,
    name: &Name,
) -> Result<Vec<(&'a str, Value)>, Fault>
    ensures ok { IfOk result
        (λ pairs. mapping_pairs (value_at (string_bytes name.now.text) (parameters_in scene.now))
        ≡ Ok (pairs_of pairs.items)) }
    ensures err { IfErr result (λ e. e ≢ OutOfMemory
        → mapping_pairs (value_at (string_bytes name.now.text) (parameters_in scene.now)) ≡ Err e) }
{
    match scene.query.parameters.get(name.text.as_str()) {
        Some(Value::Map(entries)) => Ok(copy_pairs(scene.query.alloc, entries.as_ref())?),
        _ => Err(Fault::TypeFault),
    }
}

// The values of an element's properties, each under its key.
#[tactic(auto, using(crate::proofs::ValueLemmas::given_are))]
fn element_pairs<'a, T: Tables>(
    scene: &ClauseScope<'a>,
    graph: &GraphView<'_, T>,
    row: &[Value],
    properties: &'a Properties,
) -> Result<Vec<(&'a str, Value)>, Fault>
    ensures ok { IfOk result (λ pairs. element_pairs scene.now graph.now row.now properties.now
        ≡ Ok (pairs_of pairs.items)) }
    ensures err { IfErr result (λ e. e ≢ OutOfMemory
        → element_pairs scene.now graph.now row.now properties.now ≡ Err e) }
{
    match properties {
        Properties::None => Ok(Vec::new(scene.query.alloc)),
        Properties::Given(pairs) => pair_values(scene, graph, row, pairs),
        Properties::Parameter(name) => parameter_values(scene, name),
    }
}

// An element's properties, where all may be stored.
fn storable_properties<'a, T: Tables>(
    scene: &ClauseScope<'a>,
    graph: &GraphView<'_, T>,
    row: &[Value],
    properties: &'a Properties,
) -> Result<Vec<(&'a str, Value)>, Fault>
    ensures ok { IfOk result (λ pairs. given_properties (parameters_in scene.now) graph.now
        (row_in scene.now row.now) (properties_view properties.now)
        ≡ Ok (set_keys (pairs_of pairs.items) no_entries)) }
    ensures err { IfErr result (λ e. e ≢ OutOfMemory
        → given_properties (parameters_in scene.now) graph.now
        (row_in scene.now row.now) (properties_view properties.now) ≡ Err e) }
{
    let pairs = element_pairs(scene, graph, row, properties)?;
    test_storable(&pairs)?;
    Ok(pairs)
}

/// An element's properties, or the fault that stands in their place.
pub(crate) fn outcome<'a, T: Tables>(
    scene: &ClauseScope<'a>,
    graph: &GraphView<'_, T>,
    row: &[Value],
    given: &'a Properties,
) -> Result<Result<Vec<(&'a str, Value)>, Fault>, Fault>
    ensures kept { IfOk result (λ kept. given_properties (parameters_in scene.now) graph.now
        (row_in scene.now row.now) (properties_view given.now) ≡ outcome_view kept) }
    ensures err { IfErr result (λ e. e ≡ OutOfMemory) }
{
    match storable_properties(scene, graph, row, given) {
        Err(Fault::OutOfMemory) => Err(Fault::OutOfMemory),
        kept => Ok(kept),
    }
}
