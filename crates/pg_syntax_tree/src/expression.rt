//! Expressions.

use pg_meaning::{Operator, TextTest};

/// A name, decoded, and where its token begins.
#[derive(Drop)]
pub struct Name {
    pub text: String,
    pub quoted: bool,
    pub place: usize,
}

/// A value as a text can write it.
pub enum Literal {
    Null,
    Boolean(bool),
    Integer(i64),
    Text(String),
}

// Written out, since a derived one is proved anew in each function that may let such a value go.
impl Drop for Literal {
    fn drop(self) {
        match self {
            Literal::Null => {}
            Literal::Boolean(_) => {}
            Literal::Integer(_) => {}
            Literal::Text(_) => {}
        }
    }
}

/// What stands behind an atom: a property's key, or an index.
pub enum Suffix<E> {
    Property(Name),
    Index(E),
}

impl<E: Drop> Drop for Suffix<E> {
    fn drop(self) {
        match self {
            Suffix::Property(_) => {}
            Suffix::Index(_) => {}
        }
    }
}

/// A test behind a sum; `IS NOT NULL` is negated.
pub enum Test<E> {
    Text(TextTest, E),
    IsNull(bool),
}

impl<E: Drop> Drop for Test<E> {
    fn drop(self) {
        match self {
            Test::Text(_, _) => {}
            Test::IsNull(_) => {}
        }
    }
}

pub enum Expression {
    Literal(Literal),
    Parameter(Name),
    Variable(Name),
    ListLiteral(Vec<Expression>),
    /// The keys and values, as written.
    MapLiteral(Vec<(Name, Expression)>),
    Parentheses(Box<Expression>),
    /// The function's name, whether `*` stands there, whether DISTINCT does, and the arguments.
    Call(Name, bool, bool, Vec<Expression>),
    /// A subject, the conditions with their results, and ELSE.
    Case(Option<Box<Expression>>, Vec<(Expression, Expression)>, Option<Box<Expression>>),
    /// An operand, and behind each operator a further one. The operators are of one level.
    Chain(Box<Expression>, Vec<(Operator, Expression)>),
    /// How many NOT stand before the operand.
    Negation(usize, Box<Expression>),
    /// The signs, outermost first, true for a minus.
    Signs(Vec<bool>, Box<Expression>),
    Tests(Box<Expression>, Vec<Test<Expression>>),
    /// Properties and indexes, then labels.
    Suffixes(Box<Expression>, Vec<Suffix<Expression>>, Vec<Name>),
}

impl Drop for Expression {
    fn drop(self) {
        match self {
            Expression::Literal(_) => {}
            Expression::Parameter(_) => {}
            Expression::Variable(_) => {}
            Expression::ListLiteral(_) => {}
            Expression::MapLiteral(_) => {}
            Expression::Parentheses(_) => {}
            Expression::Call(_, _, _, _) => {}
            Expression::Case(_, _, _) => {}
            Expression::Chain(_, _) => {}
            Expression::Negation(_, _) => {}
            Expression::Signs(_, _) => {}
            Expression::Tests(_, _) => {}
            Expression::Suffixes(_, _, _) => {}
        }
    }
}
