//! Where texts were put last.
ghost use Rattle.std.specs.Prelude.{◌<◌};

use std::alloc::{AllocError, Global};

const PLACES: usize = 1024;

/// For each mark of a text the number of one that was put last, or any other: whoever asks looks at its text first.
#[derive(Drop)]
pub(crate) struct Recent {
    numbers: Vec<u32>,
}

impl Recent {
    /// It takes no memory yet.
    pub(crate) fn new(alloc: Global) -> Recent {
        Recent {
            numbers: Vec::new(alloc),
        }
    }

    /// Notes the number of a text. Without memory for it nothing is noted.
    pub(crate) fn note(&mut self, text: &str, number: u64) {
        let Ok(number) = u32::try_from(number) else {
            return;
        };
        if self.make_room().is_err() {
            return;
        }
        if let Some(noted) = self.numbers.get_mut(mark_of(text)) {
            *noted = number;
        }
    }

    /// Room for all marks.
    fn make_room(&mut self) -> Result<(), AllocError> {
        if self.numbers.is_empty() {
            self.numbers.resize(PLACES, 0)?;
        }
        Ok(())
    }

    /// The number that was noted last for the mark of this text.
    pub(crate) fn number_at(&self, text: &str) -> usize {
        match self.numbers.get(mark_of(text)) {
            Some(number) => *number as usize,
            None => 0,
        }
    }
}

/// Texts of one mark take each other's place, and are then found by their hash.
fn mark_of(text: &str) -> usize {
    let bytes = text.as_bytes();
    let middle = bytes.len() / 2;
    match (bytes.first(), bytes.get(middle), bytes.last()) {
        (Some(first), Some(middle), Some(last)) => {
            let mixed = u64::from(*first) * 31 + u64::from(*middle);
            let mixed = mixed * 31 + u64::from(*last);
            (mixed * 31).wrapping_add(bytes.len() as u64) as usize % PLACES
        }
        _ => 0,
    }
}
