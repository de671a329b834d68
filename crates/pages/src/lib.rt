//! The texts of two pages for browsers: that of a cluster, for a gateway, and that of a simulated
//! run, between whose parts `playing` writes the run. Their sources are `html/live.html` and
//! `html/play.html`; `tools/pages` writes the constants.
#![tactic(auto)]

ghost use Rattle.std.specs.Prelude.{◌≡◌};
ghost use Rattle.pages.specs.declared.live_text.TheConstants.{LIVE, LIVE_POLICY};
ghost use Rattle.pages.specs.declared.play_text.TheConstants.{PLAY_BEFORE, PLAY_AFTER};

mod live_text;
mod play_text;

use live_text::{LIVE, LIVE_POLICY};
use play_text::{PLAY_AFTER, PLAY_BEFORE};

/// Returns the page of a cluster, as HTML in UTF-8.
pub fn live() -> &'static str
    ensures { result.now ≡ LIVE.now }
{
    LIVE
}

/// Returns the value of the header `Content-Security-Policy` that goes with [`live`]. The page has
/// the same policy, but for `frame-ancestors`, which only a header can say.
pub fn live_policy() -> &'static str
    ensures { result.now ≡ LIVE_POLICY.now }
{
    LIVE_POLICY
}

/// Returns the page of a run up to the beginning of the element that holds the run.
pub fn play_before() -> &'static str
    ensures { result.now ≡ PLAY_BEFORE.now }
{
    PLAY_BEFORE
}

/// Returns the page of a run from the end of the element that holds the run.
pub fn play_after() -> &'static str
    ensures { result.now ≡ PLAY_AFTER.now }
{
    PLAY_AFTER
}
