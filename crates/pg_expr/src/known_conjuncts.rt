//! What is known once a clause of the conjuncts of a condition.
ghost use Rattle.std.specs.Prelude.{◌≡◌, ◌≤◌, ◌∷◌, ℕ, List, IfOk, IfSome, Ok, Some, length, map, slice_get};
ghost use Rattle.pg_expr.specs.KnownConjuncts.{AreKnownOf, IsConjunctOf, conjunct_given, known_given};
ghost use Rattle.pg_meaning.specs.Conditions.{conjuncts, operands_of as conjuncts_in};
ghost use Rattle.pg_meaning.specs.Parse.{operands_of};
ghost use Rattle.pg_meaning.specs.Tree.{Expression as Tree};
ghost use Rattle.pg_meaning.specs.Value.{Entries};
ghost use Rattle.pg_syntax_tree.specs.View.{expression_view, operand_view};
ghost use Rattle.pg_value_core.specs.Given.{parameters_view};
ghost use Rattle.pg_value_core.specs.View.{view};

use crate::scalar_operators::is_chosen;
use crate::sides::{KnownComparison, Side, known_comparison, known_truth, side_of, side_told};
use pg_graph::Tables;
use pg_meaning::Operator;
use pg_rows::Columns;
use pg_store::GraphView;
use pg_syntax_tree::{Expression, conjunction};
use pg_value_core::{Parameters, Value};
use std::alloc::{AllocError, Global};

/// A conjunct that is a comparison of known sides, or such a side alone.
#[derive(Clone, Copy)]
pub(crate) enum KnownConjunct<'a> {
    Comparison(KnownComparison<'a>),
    Alone(Side<'a>),
}

/// The conjuncts of a condition up to the first of which nothing is known, and whether they are all of them.
#[derive(Drop)]
pub(crate) struct KnownConjuncts<'a> {
    // apart, so that a lone one asks for no memory
    pub(crate) first: Option<KnownConjunct<'a>>,
    pub(crate) others: Vec<KnownConjunct<'a>>,
    pub(crate) are_all: bool,
}

/// What is known of an expression as a conjunct, if its sides are literals, parameters, variables or properties of these.
fn known_conjunct<'a>(
    expression: &'a Expression,
    names: &Columns,
    parameters: &'a Parameters,
) -> Option<KnownConjunct<'a>>
    ensures { IfSome result (λ known. IsConjunctOf names.now (parameters_view parameters.now)
        known (expression_view expression.now)) }
{
    if let Some(known) = known_comparison(expression, names, parameters) {
        return Some(KnownConjunct::Comparison(known));
    }
    match side_of(expression, names, parameters) {
        Some(side) => Some(KnownConjunct::Alone(side)),
        None => None,
    }
}

/// Of no conjunct anything is known.
fn nothing_known<'a>(alloc: Global) -> KnownConjuncts<'a>
    ensures { (names : List (List ℕ)) (parameters : Entries) (es : List Tree)
        → AreKnownOf names parameters result es }
{
    KnownConjuncts {
        first: None,
        others: Vec::new(alloc),
        are_all: false,
    }
}

/// What is known of the conjuncts of a condition.
pub(crate) fn known_conjuncts<'a>(
    alloc: Global,
    condition: &'a Expression,
    names: &Columns,
    parameters: &'a Parameters,
) -> Result<KnownConjuncts<'a>, AllocError>
    ensures { IfOk result (λ known. AreKnownOf names.now (parameters_view parameters.now)
        known (conjuncts (expression_view condition.now))) }
{
    if let Some((first, operands)) = conjunction(condition) {
        return known_in_chain(alloc, first, operands, names, parameters);
    }
    match known_conjunct(condition, names, parameters) {
        Some(known) => Ok(KnownConjuncts {
            first: Some(known),
            others: Vec::new(alloc),
            are_all: true,
        }),
        None => Ok(nothing_known(alloc)),
    }
}

fn known_in_chain<'a>(
    alloc: Global,
    first: &'a Expression,
    operands: &'a Vec<(Operator, Expression)>,
    names: &Columns,
    parameters: &'a Parameters,
) -> Result<KnownConjuncts<'a>, AllocError>
    ensures { IfOk result (λ known. AreKnownOf names.now (parameters_view parameters.now)
        known (expression_view first.now
        ∷ conjuncts_in (operands_of (map operand_view operands.now.items)))) }
{
    let Some(known) = known_conjunct(first, names, parameters) else {
        return Ok(nothing_known(alloc));
    };
    let mut others = Vec::new(alloc);
    for (_, operand) in operands {
        match known_conjunct(operand, names, parameters) {
            Some(other) => others.push(other)?,
            None => {
                return Ok(KnownConjuncts {
                    first: Some(known),
                    others,
                    are_all: false,
                });
            }
        }
    }
    Ok(KnownConjuncts {
        first: Some(known),
        others,
        are_all: true,
    })
}

/// Whether all known conjuncts are true at a row, or none where scalars don't tell.
pub(crate) fn known_truths<'a, T: Tables>(
    known: &KnownConjuncts<'a>,
    row: &'a [Value],
    graph: &GraphView<'a, T>,
) -> Option<bool>
    ensures { IfSome result
        (λ b. known_given known.now (map view row.now) graph.now ≡ Ok b) }
{
    let Some(first) = &known.first else {
        return Some(true);
    };
    // one call of `conjunct_truth` alone, so that it stands in the loop
    for at in 0..known.others.len() + 1 {
        match conjunct_truth(conjunct_at(first, &known.others, at), row, graph) {
            Some(true) => {}
            Some(false) => return Some(false),
            None => return None,
        }
    }
    Some(true)
}

/// A known conjunct by its place, the first and those behind it.
fn conjunct_at<'k, 'a>(
    first: &'k KnownConjunct<'a>,
    others: &'k Vec<KnownConjunct<'a>>,
    at: usize,
) -> &'k KnownConjunct<'a>
    requires { at ≤ length others.now.items }
    ensures { slice_get (first.now ∷ others.now.items) at ≡ Some result.now }
{
    if at == 0 { first } else { &others[at - 1] }
}

fn conjunct_truth<'a, T: Tables>(
    known: &KnownConjunct<'a>,
    row: &'a [Value],
    graph: &GraphView<'a, T>,
) -> Option<bool>
    ensures { IfSome result
        (λ b. conjunct_given known.now (map view row.now) graph.now ≡ Ok b) }
{
    match known {
        KnownConjunct::Comparison(comparison) => known_truth(comparison, row, graph),
        KnownConjunct::Alone(side) => is_chosen(side_told(*side, row, graph)),
    }
}
