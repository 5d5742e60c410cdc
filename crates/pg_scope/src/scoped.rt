//! A query that was checked.
ghost use Rattle.std.specs.Prelude.{◌≡◌, None};
ghost use Rattle.pg_meaning.specs.StaticFaults.{static_fault};
ghost use Rattle.pg_syntax_tree.specs.View.{query_view};

use pg_syntax_tree::Query;

/// A query that has no static fault.
#[derive(Drop)]
pub struct Scoped {
    pub(crate) query: Query,
    ghost faultless: { static_fault (query_view query) ≡ None },
}

impl Scoped {
    /// The tree, of which nothing is kept.
    pub fn into_query(self) -> Query
        ensures { result ≡ self.query }
    {
        self.query
    }
}
