//! The grammar of the language: which tokens have which tree, and that its functions read exactly these.
#![tactic(auto)]

ghost use Rattle.pg_grammar.specs.Patterns.{PathsOpen};
ghost use Rattle.pg_grammar.specs.Rules.{ExpressionsAreExact, ExpressionsOpen, LabelsAreExact, PathsAreExact, ReadingClausesAreExact, UpdatingClausesAreExact, SymbolsAreExact};
ghost use Rattle.pg_meaning.specs.Parse.{OneReading, ReadsExactly};

/// A symbol is read exactly where it stands.
pub fn law_of_symbols()
    ensures { SymbolsAreExact }
{}

/// Labels are read exactly where they stand.
pub fn law_of_labels()
    ensures { LabelsAreExact }
{}

/// An expression is read exactly where it stands, and what it can begin with.
pub fn law_of_expression_readings()
    ensures exact { ExpressionsAreExact }
    ensures begins { ExpressionsOpen }
{}

/// A path is read exactly where it stands, and each begins with a variable or a node.
pub fn law_of_paths()
    ensures exact { PathsAreExact }
    ensures begins { PathsOpen }
{}

/// The clauses that read and those that update are read exactly where they stand.
pub fn law_of_clause_readings()
    ensures reading { ReadingClausesAreExact }
    ensures updating { UpdatingClausesAreExact }
{}

/// What is read of a text's tokens is their reading, and none is missed. Tokens have one reading at most.
pub fn law_of_readings()
    ensures exact { ReadsExactly }
    ensures one { OneReading }
{}
