//! What places of rows are in the definitions.
ghost use Rattle.pg_rows.specs.Named.{ValuesStandInColumns, NewColumnsBind, OldColumnsStay, ValuesAreTheRow};
ghost use Rattle.pg_rows.specs.Laws.{SortsByKeys, FirstsAreAtPlaces, MovesKeepRows, FirstPlacesAreApart, SortedPlacesAreApart, LeastPlacesAreApart};

/// The definition's sort is by the order of keys.
#[tactic(auto, using(crate::proofs::Orders::sorts_by_keys))]
pub fn law_of_sorts()
    ensures { SortsByKeys }
{}

/// DISTINCT keeps the rows at the first places.
#[tactic(auto, using(crate::proofs::FirstRows::firsts_at_places))]
pub fn law_of_distinct()
    ensures { FirstsAreAtPlaces }
{}

/// Rows that are picked are those at the places, and no place is told twice.
#[tactic(auto, using(crate::proofs::Apart::moves_keep, crate::proofs::Apart::firsts_apart, crate::proofs::Apart::sorted_apart, crate::proofs::Leasts::least_apart))]
pub fn law_of_picked_rows()
    ensures moves { MovesKeepRows }
    ensures firsts { FirstPlacesAreApart }
    ensures sorted { SortedPlacesAreApart }
    ensures least { LeastPlacesAreApart }
{}

/// Columns beside the values of a row are the definitions' row.
#[tactic(auto, using(crate::proofs::NamedRows::values_stand, crate::proofs::NamedRows::new_columns, crate::proofs::NamedRows::old_columns, crate::proofs::NamedRows::values_are))]
pub fn law_of_columns()
    ensures found { ValuesStandInColumns }
    ensures bound { NewColumnsBind }
    ensures stay { OldColumnsStay }
    ensures values { ValuesAreTheRow }
{}
