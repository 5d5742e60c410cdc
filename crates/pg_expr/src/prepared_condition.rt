//! A condition made ready, once a clause, to be tested at its rows.
ghost use Rattle.std.proofs.Props.{props};
ghost use Rattle.std.specs.Prelude.{option_map};
ghost use Rattle.pg_expr.specs.KnownConjuncts.{AreKnownOf};
ghost use Rattle.pg_meaning.specs.Conditions.{conjuncts_of};
ghost use Rattle.pg_syntax_tree.specs.View.{expression_view};
ghost use Rattle.pg_value_core.specs.Given.{parameters_view};

use crate::known_conjuncts::KnownConjuncts;
use pg_rows::Columns;
use pg_syntax_tree::Expression;
use pg_value_core::Parameters;

/// A condition that was made ready for rows of given columns and for the parameters of a request; where there is none,
/// each row meets it.
#[derive(Drop)]
pub struct PreparedCondition<'a, 'n> {
    pub(crate) names: &'n Columns,
    pub(crate) parameters: &'a Parameters,
    pub(crate) whole: Option<&'a Expression>,
    // Scalars are asked first, of each conjunct.
    pub(crate) tells: bool,
    pub(crate) known: KnownConjuncts<'a>,
    ghost are_known: { AreKnownOf names.now (parameters_view parameters.now) known
        (conjuncts_of (option_map (λ e. expression_view e.now) whole)) } by { Prim.hlevel props },
}

impl<'a, 'n> PreparedCondition<'a, 'n> {
    ghost use Rattle.std.specs.Prelude.{◌≡◌, is_none};
    ghost use Rattle.pg_expr.specs.Prepared.{condition_of, names_of};

    /// The columns of the rows.
    pub fn names(&self) -> &'n Columns
        ensures { result.now ≡ names_of self.now }
    {
        self.names
    }

    /// Whether there is no condition.
    pub fn is_none(&self) -> bool
        ensures { result ≡ is_none (condition_of self.now) }
    {
        self.whole.is_none()
    }
}
