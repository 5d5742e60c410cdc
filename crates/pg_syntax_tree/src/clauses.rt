//! Clauses.

use crate::expression::{Expression, Name};
use crate::patterns::PathPattern;
use pg_meaning::Sort;

/// An item of WITH or RETURN: where it begins, its expression as written and as read, and its alias.
#[derive(Drop)]
pub struct Item {
    pub start: usize,
    pub source: String,
    pub value: Expression,
    pub alias: Option<Name>,
}

#[derive(Drop)]
pub struct SortItem {
    pub key: Expression,
    pub direction: Option<Sort>,
}

/// What stands behind WITH or RETURN; `star` is the place of `*`, where it is written.
#[derive(Drop)]
pub struct Projection {
    pub distinct: bool,
    pub star: Option<usize>,
    pub items: Vec<Item>,
    pub order: Vec<SortItem>,
    pub skip: Option<Expression>,
    pub limit: Option<Expression>,
}

/// An item of SET, with its target first.
pub enum SetItem {
    Property(Name, Name, Expression),
    All(Name, Expression),
    More(Name, Expression),
    Labels(Name, Vec<Name>),
}

// Written out, since a derived one is proved anew in each function that may let such a value go.
impl Drop for SetItem {
    fn drop(self) {
        match self {
            SetItem::Property(_, _, _) => {}
            SetItem::All(_, _) => {}
            SetItem::More(_, _) => {}
            SetItem::Labels(_, _) => {}
        }
    }
}

/// An item of REMOVE, with its target first.
pub enum RemoveItem {
    Property(Name, Name),
    Labels(Name, Vec<Name>),
}

impl Drop for RemoveItem {
    fn drop(self) {
        match self {
            RemoveItem::Property(_, _) => {}
            RemoveItem::Labels(_, _) => {}
        }
    }
}

/// ON CREATE, or ON MATCH.
#[derive(Drop)]
pub struct On {
    pub create: bool,
    pub items: Vec<SetItem>,
}

pub enum Clause {
    /// Whether it is optional, the paths and WHERE.
    Match(bool, Vec<PathPattern>, Option<Expression>),
    Unwind(Expression, Name),
    Create(Vec<PathPattern>),
    Merge(PathPattern, Vec<On>),
    Set(Vec<SetItem>),
    Remove(Vec<RemoveItem>),
    /// Whether DETACH is written, and what is deleted.
    Delete(bool, Vec<Expression>),
    /// With WHERE.
    With(Projection, Option<Expression>),
    Return(Projection),
}

impl Drop for Clause {
    fn drop(self) {
        match self {
            Clause::Match(_, _, _) => {}
            Clause::Unwind(_, _) => {}
            Clause::Create(_) => {}
            Clause::Merge(_, _) => {}
            Clause::Set(_) => {}
            Clause::Remove(_) => {}
            Clause::Delete(_, _) => {}
            Clause::With(_, _) => {}
            Clause::Return(_) => {}
        }
    }
}

pub struct Query {
    pub clauses: Vec<Clause>,
    pub semicolon: bool,
}

impl Drop for Query {
    fn drop(self) {
        let Query {
            clauses: _,
            semicolon: _,
        } = self;
    }
}
