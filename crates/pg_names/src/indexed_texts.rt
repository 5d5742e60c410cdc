//! A set of texts that is looked up by hash.
use crate::text_set::TextSet;
use indexmap::IndexSet;
use std::alloc::{AllocError, Global};
use std::hash::RandomState;

/// Texts at their places, found by their hash, whose keys nobody knows who chooses the texts.
#[derive(Drop)]
pub struct IndexedTexts {
    texts: IndexSet<String, RandomState>,
}

impl TextSet for IndexedTexts {
    ghost use Rattle.std.specs.Prelude.{map, string_bytes};

    ghost texts = { λ set. map string_bytes set.texts.keys };

    fn new(alloc: Global, hasher: RandomState) -> Self {
        IndexedTexts {
            texts: IndexSet::with_hasher(alloc, hasher),
        }
    }

    fn place_of(&self, text: &str) -> Option<usize> {
        self.texts.get_index_of(text)
    }

    fn text_at(&self, place: usize) -> &str {
        self.texts.get_index(place).unwrap().as_str()
    }

    fn put(&mut self, text: String) -> Result<usize, AllocError> {
        let (place, _) = self.texts.insert_full(text)?;
        Ok(place)
    }

    fn keep(&mut self, len: usize) {
        self.texts.truncate(len);
    }

    fn count(&self) -> usize {
        self.texts.len()
    }
}
