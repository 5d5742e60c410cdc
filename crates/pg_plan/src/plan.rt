//! What is kept of a query text.
ghost use Rattle.std.specs.Prelude.{◌≡◌, map, string_bytes};
ghost use Rattle.pg_plan.specs.Anchors.{plan_view};
ghost use Rattle.pg_meaning.specs.Grammar.{parameters_of};
ghost use Rattle.pg_meaning.specs.Plans.{IsPlanOf};
ghost use Rattle.pg_meaning.specs.Queries as queries;
ghost use Rattle.pg_plan.specs.Begins.{plan-prop};
ghost use Rattle.pg_plan.specs.Returns.{ReturnsLast};
ghost use Rattle.pg_plan.specs.Updates.{updates};
ghost use Rattle.pg_syntax_tree.specs.View.{query_view};

use crate::returning::any_return;
use crate::updates::any_updates;
use pg_match_stages::Anchor;
use pg_syntax_tree::Query;

/// The indexes that there are: pairs of a label and a key.
pub type Catalogue = Vec<(String, String)>;

/// A query that was read and has no static fault, with what every request asks of it: also where
/// the walk of each path begins, and over which index.
#[derive(Drop)]
pub struct Plan {
    pub(crate) query: Query,
    pub(crate) anchors: Vec<Vec<Anchor>>,
    writes: bool,
    returns: bool,
    parameters: Vec<String>,
    ghost writing: { writes ≡ updates (query_view query) },
    ghost returning: { returns ≡ queries.returns (query_view query).clauses },
    ghost ending: { ReturnsLast (query_view query) },
    ghost naming: { map string_bytes parameters.items ≡ parameters_of (query_view query) },
    ghost anchoring: { IsPlanOf (plan_view anchors.items)
        (query_view query) } by { plan-prop (plan_view anchors.items) (query_view query) },
}

impl Plan {
    ghost use Rattle.pg_plan.specs.Plans.{plan_anchors, plan_query};

    pub(crate) fn new(query: Query, parameters: Vec<String>, anchors: Vec<Vec<Anchor>>) -> Self
        requires ends { ReturnsLast (query_view query) }
        requires parameters { map string_bytes parameters.items ≡ parameters_of (query_view query) }
        requires begins { IsPlanOf (plan_view anchors.items) (query_view query) }
        ensures query { plan_query result ≡ query_view query }
        ensures anchors { plan_anchors result ≡ plan_view anchors.items }
    {
        let writes = any_updates(&query.clauses);
        let returns = any_return(&query.clauses);
        Plan {
            query,
            anchors,
            writes,
            returns,
            parameters,
        }
    }

    /// The tree that was read, with its places in the text.
    pub fn query(&self) -> &Query
        ensures { query_view result.now ≡ plan_query self.now }
    {
        &self.query
    }

    /// Whether its query changes the graph.
    pub fn writes(&self) -> bool
        ensures { result ≡ updates (plan_query self.now) }
    {
        self.writes
    }

    /// Whether its query ends in RETURN.
    pub fn returns(&self) -> bool
        ensures returns { result ≡ queries.returns (plan_query self.now).clauses }
        ensures last { ReturnsLast (plan_query self.now) }
    {
        self.returns
    }

    /// The parameters that its text names, in text order, each as often as it stands there.
    pub fn parameters(&self) -> &Vec<String>
        ensures { map string_bytes result.now.items ≡ parameters_of (plan_query self.now) }
    {
        &self.parameters
    }

    /// For each clause, the anchors of its paths.
    pub fn anchors(&self) -> &Vec<Vec<Anchor>>
        ensures anchors { plan_view result.now.items ≡ plan_anchors self.now }
        ensures begins { IsPlanOf (plan_anchors self.now) (plan_query self.now) }
    {
        &self.anchors
    }
}
