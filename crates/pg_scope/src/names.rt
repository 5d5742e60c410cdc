//! Sets of names.
ghost use Rattle.std.specs.Prelude.{◌≡◌, ◌∷◌, not, IfOk, OnOk};
ghost use Rattle.pg_meaning.specs.Names.{is_among};
ghost use Rattle.pg_scope.specs.Names.{names_in, HasSame};

use std::alloc::AllocError;
use std::collections::BTreeSet;

/// Names, borrowed from a text or a tree.
pub type ScopeNames<'a> = BTreeSet<&'a str>;

/// Whether a name stands among the names.
pub fn is_among<'a>(names: &ScopeNames<'a>, name: &'a str) -> bool
    ensures { result ≡ is_among (names_in names.now) name.now }
{
    names.contains(&name)
}

/// Puts a name among the names; whether it is new there.
pub fn add<'a>(names: &mut ScopeNames<'a>, name: &'a str) -> Result<bool, AllocError>
    ensures added { IfOk result (λ added. added ≡ not (is_among (names_in names.old) name.now)) }
    ensures names { OnOk result (HasSame (names_in names.new) (name.now ∷ names_in names.old)) }
{
    Ok(names.insert(name)?)
}
