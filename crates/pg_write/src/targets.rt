//! What an item of SET or REMOVE changes.
ghost use Rattle.std.specs.Prelude.{◌≡◌, IfOk, IfErr, Ok, Err};
ghost use Rattle.pg_meaning.specs.Updates.{target_of};
ghost use Rattle.pg_syntax_tree.specs.View.{name_view};
ghost use Rattle.pg_write.specs.Targets.{target_view, IsThere};
ghost use Rattle.pg_write_make.specs.Scenes.{row_in};

use pg_graph::Tables;
use pg_meaning::Fault;
use pg_store::GraphView;
use pg_syntax_tree::Name;
use pg_value_core::{NodeId, RelId, Value};
use pg_write_make::ClauseScope;

/// An element that is there, or nothing where the variable is null.
#[derive(Clone, Copy)]
pub(crate) enum Target {
    Nothing,
    Node(NodeId),
    Rel(RelId),
}

/// The element under a name in a row.
pub(crate) fn target_of<T: Tables>(
    graph: &GraphView<'_, T>,
    scene: &ClauseScope<'_>,
    row: &[Value],
    name: &Name,
) -> Result<Target, Fault>
    ensures ok { IfOk result (λ t.
        target_of graph.now (row_in scene.now row.now) (name_view name.now) ≡ Ok (target_view t)) }
    ensures err { IfErr result
        (λ e. target_of graph.now (row_in scene.now row.now) (name_view name.now) ≡ Err e) }
    ensures there { IfOk result (λ t. IsThere graph.now (target_view t)) }
{
    let Some(value) = scene.find(row, name.text.as_str()) else {
        return Err(Fault::TypeFault);
    };
    match value {
        Value::Null => Ok(Target::Nothing),
        Value::Node(id) if graph.has_node(*id) => Ok(Target::Node(*id)),
        Value::Rel(id) if graph.has_rel(*id) => Ok(Target::Rel(*id)),
        Value::Node(_) | Value::Rel(_) => Err(Fault::DeletedEntity),
        _ => Err(Fault::TypeFault),
    }
}
