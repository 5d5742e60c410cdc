//! Memory that is left for others after what a query stores.
ghost use Rattle.std.specs.Prelude.{◌≡◌, ◌≢◌, IfOk, IfErr, Ok, Err};
ghost use Rattle.pg_meaning.specs.declared.fault.Fault.TheVariants.{OutOfMemory};

use pg_headroom::test_headroom;
use pg_json::QueryReply;
use pg_meaning::Fault;
use pg_plan::Plan;
use pg_syntax_tree::{Clause, Expression, Literal, SetItem};
use std::alloc::Global;

/// The reply to a query, or out of memory where its query stores something and too little memory is left after it. What only takes
/// away isn't tested, so that a full memory can be made less full.
pub(crate) fn with_headroom(
    alloc: Global,
    plan: &Plan,
    reply: Result<QueryReply, Fault>,
) -> Result<QueryReply, Fault>
    ensures ok { IfOk result (λ made. reply ≡ Ok made) }
    ensures err { IfErr result (λ e. e ≢ OutOfMemory → reply ≡ Err e) }
{
    let made = reply?;
    if plan.writes() && stores(&plan.query().clauses) {
        test_headroom(alloc)?;
    }
    Ok(made)
}

/// Whether a clause may store something.
fn stores(clauses: &Vec<Clause>) -> bool {
    for clause in clauses {
        let one = match clause {
            Clause::Create(_) => true,
            Clause::Merge(_, _) => true,
            Clause::Set(items) => sets(items),
            _ => false,
        };
        if one {
            return true;
        }
    }
    false
}

/// Whether an item of SET may store something: all but null, as a text writes it, for one key.
fn sets(items: &Vec<SetItem>) -> bool {
    for item in items {
        match item {
            SetItem::Property(_, _, Expression::Literal(Literal::Null)) => {}
            _ => return true,
        }
    }
    false
}
