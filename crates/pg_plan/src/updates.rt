//! Which clauses change the graph.
ghost use Rattle.std.specs.Prelude.{◌≡◌, map};
ghost use Rattle.pg_meaning.specs.Grammar.{kind_of};
ghost use Rattle.pg_plan.specs.Updates as spec;
ghost use Rattle.pg_syntax_tree.specs.View.{clause_view};

use pg_syntax_tree::Clause;

fn is_updating(clause: &Clause) -> bool
    ensures { result ≡ spec.is_updating (kind_of (clause_view clause.now)) }
{
    match clause {
        Clause::Match(_, _, _) | Clause::Unwind(_, _) | Clause::With(_, _) | Clause::Return(_) =>
            false,
        Clause::Create(_)
        | Clause::Merge(_, _)
        | Clause::Set(_)
        | Clause::Remove(_)
        | Clause::Delete(_, _) => true,
    }
}

pub(crate) fn any_updates(clauses: &Vec<Clause>) -> bool
    ensures { result ≡ spec.any_updates (map clause_view clauses.now.items) }
{
    for clause in clauses {
        if is_updating(clause) {
            return true;
        }
    }
    false
}
