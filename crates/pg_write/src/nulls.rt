//! What a MERGE may not ask for.
ghost use Rattle.std.specs.List.{list_any};
ghost use Rattle.std.specs.Prelude.{◌≡◌, ◌||◌, OnOk, IfErr, Ok, Err, map as map_list};
ghost use Rattle.pg_match_stages.specs.View.{wanted_hop_and_node, wanted_pairs, wanted_path};
ghost use Rattle.pg_meaning.specs.Updates.{has_null, test_not_null};

use pg_match_stages::{HopWanted, NodeWanted, PathWanted};
use pg_meaning::Fault;
use pg_value_core::Value;

fn has_null(properties: &Vec<(&str, Value)>) -> bool
    ensures { result ≡ has_null (wanted_pairs properties.now.items) }
{
    for property in properties {
        if matches!(property.1, Value::Null) {
            return true;
        }
    }
    false
}

fn hops_want_null(hops: &Vec<(HopWanted<'_>, NodeWanted<'_>)>) -> bool
    ensures { result
        ≡ list_any (λ h. has_null h.0.properties || has_null h.1.properties)
        (map_list wanted_hop_and_node hops.now.items) }
{
    for hop in hops {
        if has_null(&hop.0.properties) || has_null(&hop.1.properties) {
            return true;
        }
    }
    false
}

/// A fault where a property's value is null.
pub(crate) fn test_not_null(paths: &[PathWanted<'_>]) -> Result<(), Fault>
    ensures ok { OnOk result (test_not_null (map_list wanted_path paths.now) ≡ Ok tt) }
    ensures err { IfErr result (λ e. test_not_null (map_list wanted_path paths.now) ≡ Err e) }
{
    for path in paths {
        if has_null(&path.first.properties) || hops_want_null(&path.hops) {
            return Err(Fault::MergeNull);
        }
    }
    Ok(())
}
