//! Laws of the definitions. A function without a body says that they hold.

ghost use Rattle.pg_meaning.specs.Tokens.{LexesExactly, OneLexing};

/// A text lexes to some tokens exactly where the function of the definitions finds them.
pub fn law_lexes_exactly()
    ensures { LexesExactly }
{}

/// A text lexes in one way at most.
pub fn law_one_lexing()
    ensures { OneLexing }
{}
