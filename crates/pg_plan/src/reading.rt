//! From a query text to its plan.
ghost use Rattle.std.specs.Prelude.{◌≡◌, ◌≢◌, IfOk, IfErr, Ok, Err, map, string_bytes};
ghost use Rattle.pg_plan.specs.Catalogue.{catalogue_view};
ghost use Rattle.pg_meaning.specs.Grammar.{parameters_of};
ghost use Rattle.pg_meaning.specs.Texts as spec;
ghost use Rattle.pg_meaning.specs.declared.fault.Fault.TheVariants.{OutOfMemory};
ghost use Rattle.pg_plan.specs.Plans.{IsPlanOfText};
ghost use Rattle.pg_meaning.specs.Texts.{text_checked};
ghost use Rattle.pg_plan.specs.Reading.{tested_length};
ghost use Rattle.pg_plan.specs.Returns.{ReturnsLast};
ghost use Rattle.pg_syntax_tree.specs.View.{query_view};

use crate::anchors::plan_anchors;
use crate::parameters::parameter_names;
use crate::plan::{Catalogue, Plan};
use pg_lex::tokens;
use pg_meaning::Fault;
use pg_scope::check;
use pg_syntax::parse;
use pg_syntax_tree::Query;
use std::alloc::Global;

/// A query text has at most so many bytes.
const MAX_TEXT: usize = 65_536;

/// Refuses a text of too many bytes.
pub fn check_length(text: &str) -> Result<(), Fault>
    ensures { result ≡ tested_length text.now }
{
    if text.len() > MAX_TEXT {
        return Err(Fault::TextTooLong);
    }
    Ok(())
}

/// The plan of a text where there are these indexes, if it reads and has no static fault.
pub fn plan_text(alloc: Global, text: &str, catalogue: &Catalogue) -> Result<Plan, Fault>
    ensures ok { IfOk result (IsPlanOfText text.now (catalogue_view catalogue.now.items)) }
    ensures err { IfErr result (λ e. e ≢ OutOfMemory → text_checked text.now ≡ Err e) }
{
    let (query, parameters) = read(alloc, text)?;
    let scoped = check(alloc, query)?;
    let query = scoped.into_query();
    let anchors = plan_anchors(alloc, &query, catalogue)?;
    Ok(Plan::new(query, parameters, anchors))
}

/// The tree of a text, and the parameters that it names.
fn read(alloc: Global, text: &str) -> Result<(Query, Vec<String>), Fault>
    ensures ok { IfOk result (λ r. spec.read text.now ≡ Ok (query_view r.0)) }
    ensures parameters { IfOk result
        (λ r. map string_bytes r.1.items ≡ parameters_of (query_view r.0)) }
    ensures ends { IfOk result (λ r. ReturnsLast (query_view r.0)) }
    ensures err { IfErr result (λ e. e ≢ OutOfMemory → spec.read text.now ≡ Err e) }
{
    let tokens = tokens(alloc, text)?;
    let query = parse(alloc, text, &tokens)?;
    let parameters = parameter_names(alloc, &tokens)?;
    Ok((query, parameters))
}
