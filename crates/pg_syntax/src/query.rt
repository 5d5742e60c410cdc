//! Queries.

ghost use Rattle.std.specs.Prelude.{◌≡◌, ◌≢◌, ◌↔◌, ◌⊎◌, ◌++◌, ◌∷◌, [], true, false, Some, Ok, Err, IfOk, IfErr, IsErrOf, length, map};
ghost use Rattle.pg_lex.specs.View.{tokens_view};
ghost use Rattle.pg_meaning.specs.Depth.{is_too_deep};
ghost use Rattle.pg_meaning.specs.Grammar.{Reads};
ghost use Rattle.pg_meaning.specs.Parse as parse;
ghost use Rattle.pg_meaning.specs.Parse.{OneReading};
ghost use Rattle.pg_meaning.specs.Texts.{read_tokens};
ghost use Rattle.pg_meaning.specs.Tokens.{Lexes};
ghost use Rattle.pg_meaning.specs.Tree as tree;
ghost use Rattle.pg_syntax_tokens.specs.Gives.{Gives, GivesValue};
ghost use Rattle.pg_syntax.specs.Answers.{Answers};
ghost use Rattle.pg_syntax.specs.Pieces as pieces;
ghost use Rattle.pg_syntax_tree.specs.View.{clause_view, query_view};

use crate::clauses::{ReadingClauses, UpdatingClauses};
use crate::projections::{return_clause, with_clause};
use pg_lex::Token;
use pg_meaning::{Fault, Keyword, Symbol};
use pg_syntax_tokens::{ParseError, Tokens, is_too_deep, many};
use pg_syntax_tree::{Clause, Query};
use std::alloc::{AllocError, Global};

/// The clauses up to WITH, behind those that were found, and whether some of them write.
fn part(
    alloc: Global,
    tokens: &mut Tokens<'_, '_>,
    depth: usize,
    found: Vec<Clause>,
) -> Result<(Vec<Clause>, bool), ParseError>
    ensures { Gives (λ r. (map clause_view r.0.items, r.1)) (pieces.part
        (parse.expr depth) (map clause_view found.items) (tokens_view tokens.old.rest.now))
        result tokens.new.rest.now }
{
    let read = many(&ReadingClauses { alloc, depth }, tokens, found)?;
    let before = read.len();
    let clauses = many(&UpdatingClauses { alloc, depth }, tokens, read)?;
    let updates = before < clauses.len();
    Ok((clauses, updates))
}

/// One more behind those that were found.
fn followed<T: Drop>(mut found: Vec<T>, next: T) -> Result<Vec<T>, AllocError>
    ensures { IfOk result (λ v. v.items ≡ found.items ++ next ∷ []) }
{
    found.push(next)?;
    Ok(found)
}

/// The last clause, behind those that were found.
fn last(
    alloc: Global,
    text: &str,
    tokens: &mut Tokens<'_, '_>,
    depth: usize,
    found: Vec<Clause>,
    updates: bool,
) -> Result<Vec<Clause>, ParseError>
    ensures { Gives (λ v. map clause_view v.items) (pieces.last text.now
        (parse.expr depth) (map clause_view found.items) updates (tokens_view tokens.old.rest.now))
        result tokens.new.rest.now }
{
    if tokens.sees_keyword(Keyword::Return) {
        let clause = return_clause(alloc, text, tokens, depth)?;
        return Ok(followed(found, clause)?);
    }
    if !updates {
        return Err(ParseError::BadSyntax);
    }
    Ok(found)
}

/// The clauses of all parts. What recurses begins here, so the tokens must have passed the test of
/// their depth.
fn parts(
    alloc: Global,
    text: &str,
    tokens: &mut Tokens<'_, '_>,
    depth: usize,
) -> Result<Vec<Clause>, ParseError>
    requires { is_too_deep (tokens_view tokens.old.rest.now) ≡ false }
    ensures { Gives (λ v. map clause_view v.items) (parse.parts text.now (parse.expr depth)
        (length tokens.old.rest.now) (tokens_view tokens.old.rest.now)) result tokens.new.rest.now }
{
    let (mut found, mut updates) = part(alloc, tokens, depth, Vec::new(alloc))?;
    'parts: while tokens.sees_keyword(Keyword::With) {
        let clause = with_clause(alloc, text, tokens, depth)?;
        let next = part(alloc, tokens, depth, followed(found, clause)?)?;
        found = next.0;
        updates = next.1;
    }
    last(alloc, text, tokens, depth, found, updates)
}

#[tactic(auto, unfolding(pg_meaning::specs::Parse::query))]
fn query(
    alloc: Global,
    text: &str,
    tokens: &mut Tokens<'_, '_>,
    depth: usize,
) -> Result<Query, ParseError>
    requires { is_too_deep (tokens_view tokens.old.rest.now) ≡ false }
    ensures { Gives query_view (parse.query text.now (parse.expr depth)
        (length tokens.old.rest.now) (tokens_view tokens.old.rest.now)) result tokens.new.rest.now }
{
    let clauses = parts(alloc, text, tokens, depth)?;
    let semicolon = tokens.eat(Symbol::Semicolon);
    match tokens.take() {
        Some(_) => Err(ParseError::BadSyntax),
        None => Ok(Query { clauses, semicolon }),
    }
}

/// The tree of the tokens, unless they nest too deep.
#[tactic(auto, unfolding(pg_meaning::specs::Parse::query_of))]
fn answer(alloc: Global, text: &str, tokens: &[Token<'_>]) -> Result<Query, Fault>
    ensures answers { Answers query_view
        (read_tokens text.now (Some (tokens_view tokens.now))) result }
    ensures deep { is_too_deep (tokens_view tokens.now) ≡ true → result ≡ Err Fault.TooDeep }
{
    if is_too_deep(tokens) {
        return Err(Fault::TooDeep);
    }
    let mut left = Tokens { rest: tokens };
    Ok(query(alloc, text, &mut left, tokens.len())?)
}

/// The tree of a text's tokens. The tokens are tested for their depth first, so that no recursion
/// goes deeper than they nest.
pub fn parse(alloc: Global, text: &str, tokens: &[Token<'_>]) -> Result<Query, Fault>
    // It is refused as too deep exactly where the tokens nest too deep.
    ensures too_deep { IsErrOf result Fault.TooDeep
        ↔ (is_too_deep (tokens_view tokens.now) ≡ true) }
    // What is read of the tokens of the text is a tree that has these tokens.
    ensures found { IfOk result (λ q. Lexes text.now (tokens_view tokens.now)
        → Reads text.now (tokens_view tokens.now) (query_view q)) }
    // It is the only one.
    ensures only { (q : tree.Query) → Lexes text.now (tokens_view tokens.now)
        → Reads text.now (tokens_view tokens.now) q → IfOk result (λ r. query_view r ≡ q) }
    // Where the tokens of the text have a tree, they are no bad syntax.
    ensures none { IsErrOf result Fault.BadSyntax → (q : tree.Query)
        → Lexes text.now (tokens_view tokens.now) → Reads text.now (tokens_view tokens.now) q → ⊥ }
    ensures faults { IfErr result
        (λ e. (e ≡ Fault.TooDeep) ⊎ ((e ≡ Fault.BadSyntax) ⊎ (e ≡ Fault.OutOfMemory))) }
    // The same, as the answer of a function.
    ensures ok { IfOk result
        (λ q. read_tokens text.now (Some (tokens_view tokens.now)) ≡ Ok (query_view q)) }
    ensures err { IfErr result (λ e. e ≢ Fault.OutOfMemory
        → read_tokens text.now (Some (tokens_view tokens.now)) ≡ Err e) }
{
    answer(alloc, text, tokens)
}

/// The tokens of a text are those of one tree at most.
pub fn law_one_reading()
    ensures { OneReading }
{}
