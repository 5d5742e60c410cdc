//! What the trees stand for. A function without a body says that the laws hold.
ghost use Rattle.pg_syntax_tree.specs.Parts.{MapIsOfParts, CallIsOfParts, CaseIsOfParts, ChainIsOfParts, NegationIsOfParts, SignsAreOfParts, TestsAreOfParts, SuffixesAreOfParts};

/// An expression that is made of others stands for what is made of what its parts stand for.
pub fn law_of_views()
    ensures map_literal { MapIsOfParts }
    ensures call { CallIsOfParts }
    ensures case { CaseIsOfParts }
    ensures chain { ChainIsOfParts }
    ensures negation { NegationIsOfParts }
    ensures signs { SignsAreOfParts }
    ensures tests { TestsAreOfParts }
    ensures suffixes { SuffixesAreOfParts }
{}
