//! The times from proposals to decisions, counted by bounds.

ghost use Rattle.std.specs.Prelude.{◌≡◌, ◌<◌, ◌∷◌, ◌++◌, ◌^◌, [], ℕ, List, IfOk, OnErr, OnOk, length, map};
ghost use Rattle.std.specs.List.{flat_map};
ghost use Rattle.gateway.specs.Times.{Counts, bounds, bucket_after, bucket_of, more};

use std::alloc::{AllocError, Global};

/// The number of times within a bound.
#[derive(Clone, Copy, Debug, PartialEq, Eq)]
pub(crate) struct Bucket {
    /// The bound, in milliseconds.
    pub(crate) most: u32,
    /// The number of times of at most so many.
    pub(crate) count: u64,
}

/// Times, of which only the number within each bound of a histogram is kept.
#[derive(Debug, Drop)]
pub struct Times {
    buckets: Vec<Bucket>,
    count: u64,
}

impl Times {
    /// Returns the counts before any time.
    ///
    /// # Errors
    ///
    /// [`AllocError`] if an allocation failed.
    #[tactic(auto, unfolding(crate::specs::Times::Counts, crate::specs::Times::bounds))]
    pub fn new(alloc: Global) -> Result<Times, AllocError>
        ensures { IfOk result (λ times. Counts times []) }
    {
        let bounds = [5, 10, 25, 50, 100, 250, 500, 1000, 2500, 5000, 10000];
        let buckets = empty_buckets(alloc, &bounds)?;
        Ok(Times { buckets, count: 0 })
    }

    /// Counts a time of so many milliseconds.
    ///
    /// # Errors
    ///
    /// [`AllocError`] if an allocation failed. The time isn't counted then.
    #[tactic(auto, unfolding(crate::specs::Times::Counts))]
    pub fn note(&mut self, alloc: Global, ms: u32) -> Result<(), AllocError>
        ensures counts { OnOk result ((times : List ℕ) → length times < 2 ^ 63 →
            Counts self.old times → Counts self.new (times ++ ms ∷ [])) }
        ensures same { OnErr result (self.new ≡ self.old) }
    {
        self.buckets = buckets_after(alloc, ms, &self.buckets)?;
        self.count = more(self.count);
        Ok(())
    }

    /// Returns the buckets.
    #[tactic(auto, unfolding(crate::specs::Times::Counts))]
    pub(crate) fn buckets(&self) -> &[Bucket]
        ensures { (times : List ℕ) → Counts self.now times →
            result.now ≡ map (bucket_of times) bounds }
    {
        &self.buckets
    }

    /// Returns the number of times.
    #[tactic(auto, unfolding(crate::specs::Times::Counts))]
    pub(crate) fn count(&self) -> u64
        ensures { (times : List ℕ) → Counts self.now times → result ≡ length times }
    {
        self.count
    }
}

/// Returns empty buckets of these bounds.
fn empty_buckets(alloc: Global, bounds: &[u32]) -> Result<Vec<Bucket>, AllocError>
    ensures { IfOk result (λ buckets. buckets.items ≡ map (bucket_of []) bounds.now) }
{
    let mut buckets = Vec::new(alloc);
    for most in bounds {
        buckets.push(Bucket {
            most: *most,
            count: 0,
        })?;
    }
    Ok(buckets)
}

/// Returns the buckets after a time more.
fn buckets_after(alloc: Global, ms: u32, buckets: &[Bucket]) -> Result<Vec<Bucket>, AllocError>
    ensures { IfOk result (λ after. after.items ≡ map (bucket_after ms) buckets.now) }
{
    let mut after = Vec::new(alloc);
    for bucket in buckets {
        after.push(bucket_after(ms, *bucket))?;
    }
    Ok(after)
}

/// Returns the bucket after a time more.
fn bucket_after(ms: u32, bucket: Bucket) -> Bucket
    ensures { result ≡ bucket_after ms bucket }
{
    if ms <= bucket.most {
        Bucket {
            most: bucket.most,
            count: more(bucket.count),
        }
    } else {
        bucket
    }
}

/// Returns the count after one time more.
fn more(count: u64) -> u64
    ensures { result ≡ more count }
{
    count.saturating_add(1)
}
