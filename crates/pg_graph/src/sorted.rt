//! Lists that rise by a number of each item, which no two share.
ghost use Rattle.std.specs.Prelude.{◌≡◌, ℕ, OnOk, OnErr};
ghost use Rattle.pg_graph.specs.Sorted.{Rises, IsPlace, with_element as put_in, without};

use pg_names::NameId;
use pg_value_core::RelId;
use smallvec::SmallVec;
use std::alloc::AllocError;

/// An item with a number.
pub trait Numbered {
    ghost number: { Self → ℕ };

    fn number(&self) -> u64
        ensures { result ≡ number self.now };
}

impl Numbered for NameId {
    ghost number = { λ n. n };

    fn number(&self) -> u64 {
        self.as_u64()
    }
}

impl Numbered for RelId {
    ghost number = { λ r. r.0 };

    fn number(&self) -> u64 {
        self.0
    }
}

/// Where the item of a number stands, or belongs.
pub fn place<T: Numbered>(items: &[T], number: u64) -> Result<usize, usize>
    requires { Rises T.number items.now }
    ensures { IsPlace T.number number items.now result }
{
    items.binary_search_by_key(&number, |item| item.number())
}

/// Puts an item to its place.
pub fn put<T: Numbered + Copy + Default + Drop, const N: usize>(
    items: &mut SmallVec<T, N>,
    item: T,
) -> Result<(), AllocError>
    requires { Rises T.number items.old.items }
    ensures ok { OnOk result (items.new.items ≡ put_in T.number item items.old.items) }
    ensures err { OnErr result (items.new.items ≡ items.old.items) }
    ensures rises { Rises T.number items.new.items }
{
    match place(items.as_slice(), item.number()) {
        Ok(i) => items.as_mut_slice()[i] = item,
        Err(i) => items.insert(i, item)?,
    }
    Ok(())
}

/// Takes the item of a number out, if there is one.
pub fn remove<T: Numbered + Copy + Default + Drop, const N: usize>(
    items: &mut SmallVec<T, N>,
    number: u64,
)
    requires { Rises T.number items.old.items }
    ensures removed { items.new.items ≡ without T.number number items.old.items }
    ensures rises { Rises T.number items.new.items }
{
    if let Ok(i) = place(items.as_slice(), number) {
        items.remove(i);
    }
}
