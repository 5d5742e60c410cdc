//! The indexes of a tenant as texts, in the order of their bytes.
ghost use Rattle.std.specs.Prelude.{◌≡◌, ◌++◌, filter, not, IfOk, OnOk, string_bytes};
ghost use Rattle.pg_plan.specs.Catalogue.{catalogue_view};
ghost use Rattle.pg_meaning.specs.Plans as spec;
ghost use Rattle.pg_tenant.specs.Indexes.{is_same, stands_before, with_index as with_one, without_index as without_one};

use pg_plan::Catalogue;
use std::alloc::{AllocError, Global};

/// A tenant has at most so many indexes.
pub(crate) const MAX_INDEXES: usize = 16;

fn is_index(index: &(String, String), label: &str, key: &str) -> bool
    ensures { result
        ≡ is_same (label.now, key.now) (string_bytes index.now.0, string_bytes index.now.1) }
{
    index.0.as_str() == label && index.1.as_str() == key
}

fn is_before(index: &(String, String), label: &str, key: &str) -> bool
    ensures { result
        ≡ stands_before (string_bytes index.now.0, string_bytes index.now.1) (label.now, key.now) }
{
    let by_label = index.0.as_str().cmp(label);
    let by_key = index.1.as_str().cmp(key);
    by_label.then(by_key).is_lt()
}

pub(crate) fn is_indexed(catalogue: &Catalogue, label: &str, key: &str) -> bool
    ensures { result ≡ spec.is_indexed (catalogue_view catalogue.now.items) (label.now, key.now) }
{
    for index in catalogue {
        if is_index(index, label, key) {
            return true;
        }
    }
    false
}

fn index_of(alloc: Global, label: &str, key: &str) -> Result<(String, String), AllocError>
    ensures label { IfOk result (λ index. string_bytes index.0 ≡ label.now) }
    ensures key { IfOk result (λ index. string_bytes index.1 ≡ key.now) }
{
    let label = String::from_str(alloc, label)?;
    let key = String::from_str(alloc, key)?;
    Ok((label, key))
}

fn copied(alloc: Global, index: &(String, String)) -> Result<(String, String), AllocError>
    ensures label { IfOk result (λ copy. string_bytes copy.0 ≡ string_bytes index.now.0) }
    ensures key { IfOk result (λ copy. string_bytes copy.1 ≡ string_bytes index.now.1) }
{
    index_of(alloc, index.0.as_str(), index.1.as_str())
}

/// Copies the indexes that stand before this one.
fn push_earlier(
    alloc: Global,
    indexes: &mut Catalogue,
    catalogue: &Catalogue,
    label: &str,
    key: &str,
) -> Result<(), AllocError>
    ensures { OnOk result
        (catalogue_view indexes.new.items ≡ catalogue_view indexes.old.items ++ filter
        (λ j. stands_before j (label.now, key.now)) (catalogue_view catalogue.now.items)) }
{
    for index in catalogue {
        if is_before(index, label, key) {
            indexes.push(copied(alloc, index)?)?;
        }
    }
    Ok(())
}

/// Copies the indexes that don't.
fn push_others(
    alloc: Global,
    indexes: &mut Catalogue,
    catalogue: &Catalogue,
    label: &str,
    key: &str,
) -> Result<(), AllocError>
    ensures { OnOk result
        (catalogue_view indexes.new.items ≡ catalogue_view indexes.old.items ++ filter
        (λ j. not (stands_before j (label.now, key.now))) (catalogue_view catalogue.now.items)) }
{
    for index in catalogue {
        if !is_before(index, label, key) {
            indexes.push(copied(alloc, index)?)?;
        }
    }
    Ok(())
}

/// The indexes with one more.
pub(crate) fn with_index(
    alloc: Global,
    catalogue: &Catalogue,
    label: &str,
    key: &str,
) -> Result<Catalogue, AllocError>
    ensures { IfOk result (λ indexes. catalogue_view indexes.items
        ≡ with_one (label.now, key.now) (catalogue_view catalogue.now.items)) }
{
    let mut indexes = Vec::with_capacity(alloc, MAX_INDEXES)?;
    push_earlier(alloc, &mut indexes, catalogue, label, key)?;
    indexes.push(index_of(alloc, label, key)?)?;
    push_others(alloc, &mut indexes, catalogue, label, key)?;
    Ok(indexes)
}

/// A copy of the list, in its order.
pub fn copy_indexes(alloc: Global, catalogue: &Catalogue) -> Result<Catalogue, AllocError>
    ensures { IfOk result
        (λ indexes. catalogue_view indexes.items ≡ catalogue_view catalogue.now.items) }
{
    let mut indexes = Vec::with_capacity(alloc, catalogue.len())?;
    for index in catalogue {
        indexes.push(copied(alloc, index)?)?;
    }
    Ok(indexes)
}

/// The indexes without this one.
pub(crate) fn without_index(
    alloc: Global,
    catalogue: &Catalogue,
    label: &str,
    key: &str,
) -> Result<Catalogue, AllocError>
    ensures { IfOk result (λ indexes. catalogue_view indexes.items
        ≡ without_one (label.now, key.now) (catalogue_view catalogue.now.items)) }
{
    let mut indexes = Vec::new(alloc);
    for index in catalogue {
        if !is_index(index, label, key) {
            indexes.push(copied(alloc, index)?)?;
        }
    }
    Ok(indexes)
}
