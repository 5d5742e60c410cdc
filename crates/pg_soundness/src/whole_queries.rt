//! Whole queries.

ghost use Rattle.pg_soundness.specs.WholeQueries.{MeaningOfQueries, GraphsStayGraphs, IdsAreGivenOnce, RoomIsKept, ReadingLeavesTheGraph, ChangingKeepsElements, OnlyMakersMake, OnlyDeleteLoses, MakingLeavesTheOld, NoReturnNoRows, RowsFitColumns, RowsShowWhatIsThere, AnswersAreMeant, AnswersContinue, ReadingAnswersLeaveTheGraph, AnswersFitColumns};

/// For every plan of every query the one answer stands in what the query means, or its fault in those that the meaning
/// allows (but for the quota of steps, of which the meaning knows nothing).
pub fn law_of_queries()
    ensures { MeaningOfQueries }
{}

/// Whatever a query means to a graph is a graph, in which no id was given twice, a relationship kept its type and its
/// ends, and the quota of elements and the greatest id were kept.
pub fn law_of_graphs()
    ensures graphs { GraphsStayGraphs }
    ensures ids { IdsAreGivenOnce }
    ensures room { RoomIsKept }
{}

/// What a query can't do without a clause that does it: one that only reads leaves the graph, SET and REMOVE leave which
/// elements there are, only CREATE and MERGE make one, only DELETE loses one, and making one leaves the others.
pub fn law_of_leaving()
    ensures reading { ReadingLeavesTheGraph }
    ensures changing { ChangingKeepsElements }
    ensures making { OnlyMakersMake }
    ensures losing { OnlyDeleteLoses }
    ensures old { MakingLeavesTheOld }
{}

/// A query without RETURN has neither columns nor rows; with one at its end each row has a value for each column. What
/// the rows show, at any depth, is in the graph that the query leaves.
pub fn law_of_rows()
    ensures none { NoReturnNoRows }
    ensures columns { RowsFitColumns }
    ensures shown { RowsShowWhatIsThere }
{}

/// The answer under the plan that any catalogue fixes is one that the query means; what is said above of graphs and rows
/// holds of every answer.
pub fn law_of_answers()
    ensures meant { AnswersAreMeant }
    ensures graphs { AnswersContinue }
    ensures reading { ReadingAnswersLeaveTheGraph }
    ensures columns { AnswersFitColumns }
{}
