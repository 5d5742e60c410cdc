//! What becomes of a target that is there.
ghost use Rattle.std.specs.Prelude.{◌≡◌, ◌≢◌, OnOk, IfErr, Ok, Err};
ghost use Rattle.pg_meaning.specs.Patterns.{texts_of};
ghost use Rattle.pg_meaning.specs.Updates.{change_properties, change_labels};
ghost use Rattle.pg_meaning.specs.declared.fault.Fault.TheVariants.{OutOfMemory};
ghost use Rattle.pg_store.specs.Stores.{pairs_of};
ghost use Rattle.pg_syntax_tree.specs.View.{names_view};
ghost use Rattle.pg_write.specs.Parts.{labels_by, put_map};
ghost use Rattle.pg_write.specs.Targets.{target_view, IsThere};

use crate::targets::Target;
use pg_graph::Tables;
use pg_live::LiveGraph;
use pg_meaning::Fault;
use pg_syntax_tree::Name;
use pg_value_core::Value;
use pg_write_make::label_texts;
use std::alloc::{AllocError, Global};

/// Gives a target's keys these values, where null takes the key out, in the place of its own
/// properties or beside them.
pub(crate) fn put_properties<T: Tables>(
    alloc: Global,
    live: &mut LiveGraph<T>,
    target: Target,
    pairs: Vec<(&str, Value)>,
    is_whole: bool,
) -> Result<(), AllocError>
    requires there { IsThere live.old.graph (target_view target) }
    ensures ok { OnOk result (change_properties (put_map is_whole (pairs_of pairs.entry.items))
        (target_view target) live.old.graph ≡ live.new.graph) }
    ensures aside { live.new.aside ≡ live.old.aside }
{
    match target {
        Target::Nothing => Ok(()),
        Target::Node(id) if is_whole => live.replace_node_properties(alloc, id, pairs),
        Target::Node(id) => live.set_node_properties(alloc, id, pairs),
        Target::Rel(id) if is_whole => live.replace_rel_properties(alloc, id, pairs),
        Target::Rel(id) => live.set_rel_properties(alloc, id, pairs),
    }
}

/// Gives a node more labels, or takes labels from it.
pub(crate) fn change_labels<T: Tables>(
    alloc: Global,
    live: &mut LiveGraph<T>,
    target: Target,
    labels: &Vec<Name>,
    is_put: bool,
) -> Result<(), Fault>
    requires there { IsThere live.old.graph (target_view target) }
    ensures ok { OnOk result
        (change_labels (labels_by is_put (texts_of (names_view labels.now.items)))
        (target_view target) live.old.graph ≡ Ok live.new.graph) }
    ensures err { IfErr result (λ e. e ≢ OutOfMemory
        → change_labels (labels_by is_put (texts_of (names_view labels.now.items)))
        (target_view target) live.old.graph ≡ Err e) }
    ensures aside { live.new.aside ≡ live.old.aside }
{
    match target {
        Target::Nothing => Ok(()),
        Target::Node(id) => {
            let texts = label_texts(alloc, labels)?;
            if is_put {
                return Ok(live.add_labels(alloc, id, &texts)?);
            }
            Ok(live.remove_labels(alloc, id, &texts)?)
        }
        Target::Rel(_) => Err(Fault::TypeFault),
    }
}
