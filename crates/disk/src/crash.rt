//! The files that a crash makes of a file in memory.
ghost use Rattle.std.specs.Prelude.{◌≡◌, ◌≤◌, ◌<◌, ◌||◌, ℕ, false, nat_le, if◌then◌else◌};
ghost use Rattle.disk.specs.Model.{is_touched};
ghost use Rattle.disk.specs.Crash.{filled_from};

/// A choice among the files that a crash may leave.
#[derive(Clone, Copy, Debug, PartialEq, Eq)]
pub enum Pick {
    /// The bytes that reads gave.
    Kept,
    /// The bytes that reads gave at the last sync that succeeded.
    Lost,
    /// The bytes that reads gave, with this byte in each place that a write since the last sync
    /// that succeeded covered, also one that failed, and in each place past the end that the file
    /// had then.
    Fill(u8),
}

/// Puts one byte wherever a crash may leave any, in the bytes that reads give.
pub(crate) fn fill(seen: &mut [u8], synced: usize, written: &[(usize, usize)], byte: u8)
    ensures { seen.new ≡ filled_from synced written.now byte 0 seen.old }
{
    for place in first_place(synced, written).min(seen.len())..seen.len() {
        seen[place] = left_at(place, seen[place], synced, written, byte);
    }
}

/// A place before which all is left as it was: the first past this length, or of a range.
fn first_place(synced: usize, written: &[(usize, usize)]) -> usize
    ensures synced { result ≤ synced }
    ensures written { (place : ℕ) → place < result → is_touched place written.now ≡ false }
{
    let mut first = synced;
    for (at, _) in written {
        first = first.min(*at);
    }
    first
}

/// Returns what is left at a place, where the file had this length at the last sync.
fn left_at(place: usize, kept: u8, synced: usize, written: &[(usize, usize)], byte: u8) -> u8
    ensures { result
        ≡ (if nat_le synced place || is_touched place written.now then byte else kept) }
{
    if synced <= place || is_touched(place, written) {
        byte
    } else {
        kept
    }
}

/// Returns `true` if one of the ranges has this place.
fn is_touched(place: usize, ranges: &[(usize, usize)]) -> bool
    ensures { result ≡ is_touched place ranges.now }
{
    for (at, len) in ranges {
        if *at <= place && place - *at < *len {
            return true;
        }
    }
    false
}
