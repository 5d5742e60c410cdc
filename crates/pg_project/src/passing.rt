//! SKIP, LIMIT and WHERE behind the other parts of a projection.
ghost use Rattle.std.specs.Prelude.{◌≡◌, ◌≢◌, ◌≤◌, true, None, take, option_map, unwrap_or, IfOk, IfErr, Ok, Err};
ghost use Rattle.pg_expr.specs.Prepared.{condition_of, names_of, parameters_of};
ghost use Rattle.pg_meaning.specs.Conditions.{condition};
ghost use Rattle.pg_meaning.specs.declared.fault.Fault.TheVariants.{OutOfMemory};
ghost use Rattle.pg_project.specs.Cuts.{LetsIn, Reaches, cut_view};
ghost use Rattle.pg_project.specs.Given.{cut_of, passing_given};
ghost use Rattle.pg_rows.specs.Left.{rows_left};
ghost use Rattle.pg_rows.specs.Named.{row_of};
ghost use Rattle.pg_rows.specs.Tables.{table};
ghost use Rattle.pg_syntax_tree.specs.View.{expression_view};

use pg_expr::{PreparedCondition, condition};
use pg_graph::Tables;
use pg_meaning::Fault;
use pg_rows::{Rows, RowsLeft};
use pg_store::GraphView;
use pg_syntax_tree::Expression;
use std::alloc::Global;

/// How many rows SKIP leaves out, and how many LIMIT lets in.
#[derive(Clone, Copy)]
pub struct Cut {
    pub(crate) skip: u64,
    pub(crate) limit: Option<u64>,
}

impl Cut {
    /// Whether a row behind so many others is let in.
    pub fn lets_in(self, at: u64) -> bool
        ensures { LetsIn (cut_view self) at result }
    {
        if at < self.skip {
            return false;
        }
        match self.limit {
            Some(most) => at - self.skip < most,
            None => true,
        }
    }

    /// How many of the first of so many rows have all that are let in among them.
    #[tactic(auto, using(crate::proofs::Conditions::reaches_end, crate::proofs::Conditions::reaches_all))]
    pub(crate) fn reach(self, count: usize) -> usize
        ensures { Reaches (cut_view self) count result }
    {
        let Some(most) = self.limit else {
            return count;
        };
        match self.skip.checked_add(most) {
            Some(end) if end < count as u64 => end as usize,
            _ => count,
        }
    }
}

/// Whether all rows are let in, under no condition.
pub(crate) fn lets_all_pass(cut: Cut, condition: &Option<Expression>) -> bool
    ensures { result ≡ true
        → (cut_view cut ≡ record { skip = 0; limit = None })
        × (option_map expression_view condition.now ≡ None) }
{
    cut.skip == 0 && cut.limit.is_none() && condition.is_none()
}

/// The first values of those rows that are let in and meet the condition.
pub(crate) fn passing_rows<T: Tables>(
    alloc: Global,
    cut: Cut,
    wanted: &PreparedCondition<'_, '_>,
    rows: Rows,
    width: usize,
    graph: &GraphView<'_, T>,
) -> Result<Rows, Fault>
    requires { width ≤ rows.width }
    ensures ok { IfOk result (λ found. passing_given
        (parameters_of wanted.now) graph.now (names_of wanted.now)
        (condition_of wanted.now) width (cut_of (cut_view cut) (table rows))
        ≡ Ok (table found)) }
    ensures width { IfOk result (λ found. found.width ≡ width) }
    ensures err { IfErr result (λ e. e ≢ OutOfMemory → passing_given
        (parameters_of wanted.now) graph.now (names_of wanted.now)
        (condition_of wanted.now) width (cut_of (cut_view cut) (table rows))
        ≡ Err e) }
{
    let most = cut.limit.unwrap_or(rows.len() as u64);
    let mut left = rows.into_left();
    left.skip(cut.skip);
    first_rows(alloc, most, wanted, left, width, graph)
}

/// The first values of those of the next rows, at most so many, that meet the condition.
fn first_rows<T: Tables>(
    alloc: Global,
    most: u64,
    wanted: &PreparedCondition<'_, '_>,
    mut left: RowsLeft,
    width: usize,
    graph: &GraphView<'_, T>,
) -> Result<Rows, Fault>
    requires { width ≤ left.rows.width }
    ensures ok { IfOk result (λ found. passing_given
        (parameters_of wanted.now) graph.now (names_of wanted.now)
        (condition_of wanted.now) width (take most (rows_left left))
        ≡ Ok (table found)) }
    ensures width { IfOk result (λ found. found.width ≡ width) }
    ensures err { IfErr result (λ e. e ≢ OutOfMemory → passing_given
        (parameters_of wanted.now) graph.now (names_of wanted.now)
        (condition_of wanted.now) width (take most (rows_left left)) ≡ Err e) }
{
    let mut found = Rows::new(alloc, width);
    let mut values = Vec::new(alloc);
    let mut more = most;
    // `more` rows may still be looked at; `values` is empty at each turn
    while more > 0 {
        let Some(row) = left.look() else {
            return Ok(found);
        };
        more -= 1;
        if condition(alloc, wanted, row, graph)? {
            left.next_into(&mut values)?;
            values.truncate(width);
            found.push_from(&mut values)?;
        } else {
            left.skip(1);
        }
    }
    Ok(found)
}
