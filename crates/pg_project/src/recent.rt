//! Where the groups of keys were found last.
use pg_value_core::Value;
use std::alloc::{AllocError, Global};

const FEWEST_PLACES: usize = 256;

const MOST_PLACES: usize = 65_536;

/// For each place the number of a group whose key has that place. Any number is right: its key is looked at first.
// The number of places is 0 or a power of two.
#[derive(Drop)]
pub(crate) struct Recent {
    numbers: Vec<usize>,
}

impl Recent {
    /// It takes no memory yet.
    pub(crate) fn new(alloc: Global) -> Recent {
        Recent {
            numbers: Vec::new(alloc),
        }
    }

    /// The number that was noted last at the place of this mark.
    pub(crate) fn noted(&self, mark: u64) -> usize {
        match self.numbers.get(self.place(mark)) {
            Some(number) => *number,
            None => 0,
        }
    }

    pub(crate) fn note(&mut self, mark: u64, number: usize) {
        let place = self.place(mark);
        if let Some(noted) = self.numbers.get_mut(place) {
            *noted = number;
        }
    }

    /// Room for the notes of so many groups, two places for each.
    pub(crate) fn make_room(&mut self, groups: usize) -> Result<(), AllocError> {
        let places = self.numbers.len();
        if places < MOST_PLACES && places / 2 < groups {
            self.numbers
                .resize(places.saturating_mul(2).max(FEWEST_PLACES), 0)?;
        }
        Ok(())
    }

    // Marks that follow each other have places of their own, also after the mixing, which is for marks that are all
    // multiples of some number.
    fn place(&self, mark: u64) -> usize {
        let mixed = mark ^ (mark >> 3) ^ (mark >> 10);
        mixed as usize & self.numbers.len().wrapping_sub(1)
    }
}

/// A mark of a key. Of many keys at one place each takes the longer way, which is no more than a look-up.
pub(crate) fn mark_of(key: &[Value]) -> u64 {
    let mut mixed = 0u64;
    for value in key {
        mixed = mixed.wrapping_mul(31).wrapping_add(mark_of_one(value));
    }
    mixed
}

/// The mark of a key of one value.
pub(crate) fn mark_of_one(value: &Value) -> u64 {
    match value {
        Value::Bool(b) => u64::from(*b),
        Value::Int(i) => i.unsigned_abs(),
        Value::Text(text) => mark_of_text(text.as_ref().as_bytes()),
        Value::ShortText(text) => mark_of_text(text.as_bytes()),
        Value::Node(id) => id.0,
        Value::Rel(id) => id.0,
        _ => 0,
    }
}

fn mark_of_text(bytes: &[u8]) -> u64 {
    let mut mixed = 0u64;
    for byte in bytes {
        mixed = mixed.wrapping_mul(31).wrapping_add(u64::from(*byte));
    }
    mixed
}
