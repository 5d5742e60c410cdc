//! The tokens that are left.

ghost use Rattle.std.specs.Prelude.{◌≡◌, Some};
ghost use Rattle.pg_lex.specs.View.{lexeme_view, tokens_view};
ghost use Rattle.pg_meaning.specs.Parse as spec;
ghost use Rattle.pg_syntax_tokens.specs.Gives.{Gives, Takes, same};
ghost use Rattle.pg_syntax_tree.specs.View.{name_view};

use crate::error::ParseError;
use pg_lex::{Lexeme, Token};
use pg_meaning::{Keyword, Symbol};
use pg_syntax_tree::Name;
use std::alloc::Global;

#[derive(Drop)]
pub struct Tokens<'t, 'a> {
    pub rest: &'t [Token<'a>],
}

#[tactic(auto, unfolding(pg_meaning::specs::Parse::same_symbol))]
pub(crate) fn is_symbol(lexeme: &Lexeme<'_>, symbol: Symbol) -> bool
    ensures { result ≡ spec.is_symbol symbol (lexeme_view lexeme.now) }
{
    match lexeme {
        Lexeme::Symbol(found) => *found == symbol,
        _ => false,
    }
}

/// The byte at which the first token begins, or 0 where none is left.
pub fn start_of(tokens: &[Token<'_>]) -> usize
    ensures { result ≡ spec.start_of (tokens_view tokens.now) }
{
    match tokens {
        [] => 0,
        [token, ..] => token.start,
    }
}

impl<'t, 'a> Tokens<'t, 'a> {
    /// Whether the next token is a given symbol. Nothing is taken.
    pub fn sees(&self, symbol: Symbol) -> bool
        ensures { result ≡ spec.sees_symbol symbol (tokens_view self.now.rest.now) }
    {
        match self.rest {
            [] => false,
            [token, ..] => is_symbol(&token.lexeme, symbol),
        }
    }

    /// Whether the next token is a given keyword, in any case and without backquotes. Nothing is
    /// taken.
    #[tactic(auto, unfolding(pg_meaning::specs::Parse::same_keyword))]
    pub fn sees_keyword(&self, keyword: Keyword) -> bool
        ensures { result ≡ spec.sees_keyword keyword (tokens_view self.now.rest.now) }
    {
        match self.rest {
            [] => false,
            [token, ..] => match token.lexeme {
                Lexeme::Keyword(found, _) => found == keyword,
                _ => false,
            },
        }
    }

    /// Whether a variable's name stands next.
    pub fn sees_var(&self) -> bool
        ensures { result ≡ spec.begins_var (tokens_view self.now.rest.now) }
    {
        match self.rest {
            [] => false,
            [token, ..] => matches!(&token.lexeme, Lexeme::Word(_) | Lexeme::QuotedName(_)),
        }
    }

    /// Whether the next token is a parameter, in backquotes or not. Nothing is taken.
    pub fn sees_parameter(&self) -> bool
        ensures { result ≡ spec.begins_parameter (tokens_view self.now.rest.now) }
    {
        match self.rest {
            [] => false,
            [token, ..] => matches!(
                &token.lexeme,
                Lexeme::Parameter(_) | Lexeme::QuotedParameter(_)
            ),
        }
    }

    /// Whether the next token is an integer. Nothing is taken.
    pub fn sees_integer(&self) -> bool
        ensures { result ≡ spec.begins_integer (tokens_view self.now.rest.now) }
    {
        match self.rest {
            [] => false,
            [token, ..] => matches!(&token.lexeme, Lexeme::Integer(_)),
        }
    }

    /// Passes over a token, if one is left.
    fn skip(&mut self)
        ensures { tokens_view self.new.rest.now ≡ spec.rest (tokens_view self.old.rest.now) }
    {
        if let [_, rest @ ..] = self.rest {
            self.rest = rest;
        }
    }

    /// The next token, if one is left.
    pub fn take(&mut self) -> Option<&'t Token<'a>>
        ensures { Takes self.old.rest.now result self.new.rest.now }
    {
        let [token, rest @ ..] = self.rest else {
            return None;
        };
        self.rest = rest;
        Some(token)
    }

    /// Passes over the symbol, if it stands next.
    #[tactic(auto, using(crate::proofs::Steps::symbol_eaten, crate::proofs::Steps::symbol_left))]
    pub fn eat(&mut self, symbol: Symbol) -> bool
        ensures { spec.eat_symbol symbol (tokens_view self.old.rest.now)
            ≡ Some (result, tokens_view self.new.rest.now) }
    {
        let found = self.sees(symbol);
        if found {
            self.skip();
        }
        found
    }

    /// Passes over the keyword, if it stands next.
    #[tactic(auto, using(crate::proofs::Steps::keyword_eaten, crate::proofs::Steps::keyword_left))]
    pub fn eat_keyword(&mut self, keyword: Keyword) -> bool
        ensures { spec.eat_keyword keyword (tokens_view self.old.rest.now)
            ≡ Some (result, tokens_view self.new.rest.now) }
    {
        let found = self.sees_keyword(keyword);
        if found {
            self.skip();
        }
        found
    }

    /// Takes a symbol, or refuses the text as bad syntax and takes nothing.
    #[tactic(auto, using(crate::proofs::Steps::symbol_yes, crate::proofs::Steps::symbol_no))]
    pub fn expect(&mut self, symbol: Symbol) -> Result<(), ParseError>
        ensures { Gives same
            (spec.symbol symbol (tokens_view self.old.rest.now)) result self.new.rest.now }
    {
        if !self.sees(symbol) {
            return Err(ParseError::BadSyntax);
        }
        self.skip();
        Ok(())
    }

    /// Takes a keyword, or refuses the text as bad syntax and takes nothing.
    #[tactic(auto, using(crate::proofs::Steps::keyword_yes, crate::proofs::Steps::keyword_no))]
    pub fn expect_keyword(&mut self, keyword: Keyword) -> Result<(), ParseError>
        ensures { Gives same
            (spec.keyword keyword (tokens_view self.old.rest.now)) result self.new.rest.now }
    {
        if !self.sees_keyword(keyword) {
            return Err(ParseError::BadSyntax);
        }
        self.skip();
        Ok(())
    }

    /// Takes the name of a variable, decoded, which is a keyword only in backquotes.
    #[tactic(auto, unfolding(pg_meaning::specs::Parse::var))]
    pub fn var(&mut self, alloc: Global) -> Result<Name, ParseError>
        ensures { Gives name_view
            (spec.var (tokens_view self.old.rest.now)) result self.new.rest.now }
    {
        let [token, rest @ ..] = self.rest else {
            return Err(ParseError::BadSyntax);
        };
        let (text, quoted) = match &token.lexeme {
            Lexeme::Word(word) => (*word, false),
            Lexeme::QuotedName(name) => (name.as_str(), true),
            _ => return Err(ParseError::BadSyntax),
        };
        self.rest = rest;
        Ok(Name {
            text: String::from_str(alloc, text)?,
            quoted,
            place: token.start,
        })
    }

    /// A name, which may be spelled as a keyword is.
    #[tactic(auto, unfolding(pg_meaning::specs::Parse::name))]
    pub fn name(&mut self, alloc: Global) -> Result<Name, ParseError>
        ensures { Gives name_view
            (spec.name (tokens_view self.old.rest.now)) result self.new.rest.now }
    {
        let [token, rest @ ..] = self.rest else {
            return Err(ParseError::BadSyntax);
        };
        let (text, quoted) = match &token.lexeme {
            Lexeme::Word(word) | Lexeme::Keyword(_, word) => (*word, false),
            Lexeme::QuotedName(name) => (name.as_str(), true),
            _ => return Err(ParseError::BadSyntax),
        };
        self.rest = rest;
        Ok(Name {
            text: String::from_str(alloc, text)?,
            quoted,
            place: token.start,
        })
    }

    /// Takes a parameter: its name without the `$` and decoded.
    #[tactic(auto, unfolding(pg_meaning::specs::Parse::parameter))]
    pub fn parameter(&mut self, alloc: Global) -> Result<Name, ParseError>
        ensures { Gives name_view
            (spec.parameter (tokens_view self.old.rest.now)) result self.new.rest.now }
    {
        let [token, rest @ ..] = self.rest else {
            return Err(ParseError::BadSyntax);
        };
        let (text, quoted) = match &token.lexeme {
            Lexeme::Parameter(name) => (*name, false),
            Lexeme::QuotedParameter(name) => (name.as_str(), true),
            _ => return Err(ParseError::BadSyntax),
        };
        self.rest = rest;
        Ok(Name {
            text: String::from_str(alloc, text)?,
            quoted,
            place: token.start,
        })
    }

    /// Takes an integer, which has no sign and is at most 2^63 - 1, as greater ones are no lexemes.
    #[tactic(auto, unfolding(pg_meaning::specs::Parse::integer))]
    pub fn integer(&mut self) -> Result<u64, ParseError>
        ensures { Gives same
            (spec.integer (tokens_view self.old.rest.now)) result self.new.rest.now }
    {
        let [token, rest @ ..] = self.rest else {
            return Err(ParseError::BadSyntax);
        };
        match &token.lexeme {
            Lexeme::Integer(number) => {
                self.rest = rest;
                Ok(number.value)
            }
            _ => Err(ParseError::BadSyntax),
        }
    }
}
