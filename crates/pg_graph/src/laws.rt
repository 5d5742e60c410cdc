//! What tables mean as a graph. A function without a body says that the laws hold.
ghost use Rattle.pg_graph.specs.Refinement.{HeldIsGraph, NodeIsRead, RelationshipIsRead, OutgoingAreRead, IncomingAreRead, LabelIsRead, PropertyIsRead, NamesMayGrow, NodeIsAdded, RelationshipIsAdded, NodeIsChanged, RelationshipIsChanged, NodeIsDropped, RelationshipIsDropped, EmptyHolds, HoldsWithMoreNames, HoldsWithNode, HoldsWithRelationship, HoldsWithChangedNode, HoldsWithChangedRelationship, HoldsWithoutNode, HoldsWithoutRelationship};

/// Reads of tables are reads of the graph that they stand for.
pub fn law_of_reads()
    ensures node { NodeIsRead }
    ensures relationship { RelationshipIsRead }
    ensures outgoing { OutgoingAreRead }
    ensures incoming { IncomingAreRead }
    ensures label { LabelIsRead }
    ensures property { PropertyIsRead }
{}

/// Changes of tables are changes of the graph that they stand for, and more names change nothing.
pub fn law_of_table_changes()
    ensures more_names { NamesMayGrow }
    ensures node_added { NodeIsAdded }
    ensures relationship_added { RelationshipIsAdded }
    ensures node_changed { NodeIsChanged }
    ensures relationship_changed { RelationshipIsChanged }
    ensures node_dropped { NodeIsDropped }
    ensures relationship_dropped { RelationshipIsDropped }
{}

/// What tables stand for is a graph, from empty tables on and after each change.
pub fn law_of_table_graphs()
    ensures graph { HeldIsGraph }
    ensures empty { EmptyHolds }
    ensures more_names { HoldsWithMoreNames }
    ensures node_added { HoldsWithNode }
    ensures relationship_added { HoldsWithRelationship }
    ensures node_changed { HoldsWithChangedNode }
    ensures relationship_changed { HoldsWithChangedRelationship }
    ensures node_dropped { HoldsWithoutNode }
    ensures relationship_dropped { HoldsWithoutRelationship }
{}
