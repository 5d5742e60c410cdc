//! What tells replies apart. A function without a body says that it holds.

ghost use Rattle.pg_json.specs.Laws.{RefusalsDiffer, RowsAreNoRefusals, PagesAreNoRefusals, PullsAreNoRefusals, StatusesAreNoRefusals, DoneIsNoRefusal};

/// No two faults have one text.
#[tactic(auto, using(crate::proofs::Codes::refusals_differ))]
pub fn law_of_refusal_texts()
    ensures { RefusalsDiffer }
{}

/// What answers a request that isn't refused is never the text of a refusal.
#[tactic(auto, using(crate::proofs::Codes::done_is_no_refusal))]
pub fn law_of_replies()
    ensures rows { RowsAreNoRefusals }
    ensures pages { PagesAreNoRefusals }
    ensures pulls { PullsAreNoRefusals }
    ensures statuses { StatusesAreNoRefusals }
    ensures done { DoneIsNoRefusal }
{}
