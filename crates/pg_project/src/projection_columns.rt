//! The columns of a projection.
ghost use Rattle.std.specs.Prelude.{◌≡◌, ◌+◌, length};

use pg_rows::Columns;
use pg_syntax_tree::{Expression, Item};

/// The columns of a projection: those of `*`, then those of the items.
#[derive(Drop)]
pub struct ProjectionColumns<'a> {
    pub(crate) names: Columns,
    pub(crate) starred: Vec<Expression>,
    pub(crate) items: &'a Vec<Item>,
    ghost paired: { length names ≡ length starred.items + length items.now.items },
}
