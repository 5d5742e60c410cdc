//! Patterns.

use crate::expression::{Expression, Name};

pub enum Properties {
    None,
    Given(Vec<(Name, Expression)>),
    Parameter(Name),
}

// Written out, since a derived one is proved anew in each function that may let such a value go.
impl Drop for Properties {
    fn drop(self) {
        match self {
            Properties::None => {}
            Properties::Given(_) => {}
            Properties::Parameter(_) => {}
        }
    }
}

/// A node pattern, and where it begins.
#[derive(Drop)]
pub struct NodePattern {
    pub place: usize,
    pub variable: Option<Name>,
    pub labels: Vec<Name>,
    pub properties: Properties,
}

/// `*` with what stands behind it.
#[derive(Clone, Copy)]
pub struct Range {
    pub lower: Option<u64>,
    pub dots: bool,
    pub upper: Option<u64>,
}

/// A type, and whether a colon stands before it.
#[derive(Drop)]
pub struct TypeName {
    pub colon: bool,
    pub name: Name,
}

/// What stands in the brackets of a relationship.
#[derive(Drop)]
pub struct Detail {
    pub variable: Option<Name>,
    pub types: Vec<TypeName>,
    pub range: Option<Range>,
    pub properties: Properties,
}

#[derive(Drop)]
pub struct RelationshipPattern {
    pub place: usize,
    pub left_head: bool,
    pub detail: Option<Detail>,
    pub right_head: bool,
}

#[derive(Drop)]
pub struct PathPattern {
    pub variable: Option<Name>,
    pub first: NodePattern,
    pub hops: Vec<(RelationshipPattern, NodePattern)>,
}
