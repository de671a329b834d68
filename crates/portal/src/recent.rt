//! The number of decisions in each of the last 60 seconds.

use std::alloc::{AllocError, Global};

/// The seconds whose decisions are counted.
const SECONDS: u64 = 60;

/// The number of decisions in each of the last 60 seconds: a ring.
#[derive(Drop)]
pub(crate) struct Recent {
    counts: Vec<u32>,
    /// The last second in which a decision came.
    last: u64,
}

impl Recent {
    /// Returns the counts before any decision.
    pub(crate) fn new(alloc: Global) -> Result<Recent, AllocError> {
        let mut counts = Vec::new(alloc);
        counts.resize(SECONDS as usize, 0)?;
        Ok(Recent { counts, last: 0 })
    }

    /// Counts a decision at this time, in milliseconds.
    pub(crate) fn note(&mut self, time: u64) {
        let second = time / 1000;
        self.advance(second);
        if !self.has(second) {
            return;
        }
        if let Some(count) = self.counts.get_mut(place_of(second)) {
            *count = count.saturating_add(1);
        }
    }

    /// Makes a second the last one. Those since the one before had no decision.
    fn advance(&mut self, second: u64) {
        let passed = second.saturating_sub(self.last).min(SECONDS);
        for ago in 0..passed {
            if let Some(count) = self.counts.get_mut(place_of(second.saturating_sub(ago))) {
                *count = 0;
            }
        }
        self.last = self.last.max(second);
    }

    /// Returns the number of decisions in each of the last 60 seconds, that of this time last.
    pub(crate) fn counts(&self, alloc: Global, time: u64) -> Result<Vec<u32>, AllocError> {
        let mut counts = Vec::new(alloc);
        let second = time / 1000;
        for place in 0..SECONDS {
            let ago = SECONDS.saturating_sub(1).saturating_sub(place);
            counts.push(self.count_in(second.saturating_sub(ago)))?;
        }
        Ok(counts)
    }

    /// Returns the number of decisions in a second.
    fn count_in(&self, second: u64) -> u32 {
        if !self.has(second) {
            return 0;
        }
        match self.counts.get(place_of(second)) {
            Some(count) => *count,
            None => 0,
        }
    }

    /// Returns `true` if the second is one of those that are counted.
    fn has(&self, second: u64) -> bool {
        second <= self.last && self.last - second < SECONDS
    }
}

/// Returns the place of a second in the ring.
fn place_of(second: u64) -> usize {
    (second % SECONDS) as usize
}
