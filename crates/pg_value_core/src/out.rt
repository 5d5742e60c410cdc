//! Values as a reply spells them out.
use crate::ids::{NodeId, RelId};

/// A value of a reply. Elements stand with what they hold, as texts. The entries of a map and the properties of an element
/// are listed by their keys, in byte order.
pub enum Out {
    Null,
    Bool(bool),
    Int(i64),
    Text(String),
    List(Vec<Out>),
    Map(Vec<(String, Out)>),
    Node {
        id: NodeId,
        labels: Vec<String>,
        properties: Vec<(String, Out)>,
    },
    Rel {
        id: RelId,
        kind: String,
        start: NodeId,
        end: NodeId,
        properties: Vec<(String, Out)>,
    },
    /// Nodes and relationships in turn.
    Path(Vec<Out>),
}

// Written out, since a derived one is proved anew in each function that may let such a value go.
impl Drop for Out {
    fn drop(self) {
        match self {
            Out::Null => {}
            Out::Bool(_) => {}
            Out::Int(_) => {}
            Out::Text(_) => {}
            Out::List(_) => {}
            Out::Map(_) => {}
            Out::Node {
                id: _,
                labels: _,
                properties: _,
            } => {}
            Out::Rel {
                id: _,
                kind: _,
                start: _,
                end: _,
                properties: _,
            } => {}
            Out::Path(_) => {}
        }
    }
}
