//! What the stores of all tenants share.
ghost use Rattle.std.specs.Prelude.{◌≡◌, []};
ghost use Rattle.pg_names.specs.Names.{AreDistinct};

use pg_graph::SharedPart;
use pg_names::Names;
use std::alloc::Global;
use std::hash::RandomState;

/// What the stores of all tenants share: the texts of names, and the part that their tables share.
#[derive(Drop)]
pub struct Shared<X: SharedPart> {
    pub(crate) names: Names<X::Texts>,
    pub(crate) tables: X,
}

impl<X: SharedPart> Shared<X> {
    /// A part for tables, and no names. The hashers of the names, and of the tables in which queries gather values, are those of `hasher`.
    pub fn new(alloc: Global, hasher: RandomState, tables: X) -> Self
        ensures names { result.names ≡ [] }
        ensures distinct { AreDistinct result.names }
        ensures tables { result.tables ≡ tables }
    {
        let names = Names::new(alloc, hasher);
        Shared { names, tables }
    }

    /// The texts of names.
    pub fn names(&self) -> &Names<X::Texts>
        ensures { result.now ≡ self.now.names }
    {
        &self.names
    }

    /// What the tables of all tenants share.
    pub fn tables(&self) -> &X
        ensures { result.now ≡ self.now.tables }
    {
        &self.tables
    }
}
