//! Whether clauses end in RETURN.
ghost use Rattle.std.specs.Prelude.{◌≡◌, map};
ghost use Rattle.pg_meaning.specs.Queries as spec;
ghost use Rattle.pg_syntax_tree.specs.View.{clause_view};

use pg_syntax_tree::Clause;

pub(crate) fn any_return(clauses: &Vec<Clause>) -> bool
    ensures { result ≡ spec.returns (map clause_view clauses.now.items) }
{
    for clause in clauses {
        if matches!(clause, Clause::Return(_)) {
            return true;
        }
    }
    false
}
