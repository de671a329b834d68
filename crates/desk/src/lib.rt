//! The desk of a member: the lines of clients, and a reply to each.
//!
//! | line | reply |
//! |---|---|
//! | `PROPOSE q v` | `OK` where the bit v is taken, `HAVE b` with the bit that stands, or `STOPPED` |
//! | `ASK q` | `DECIDED b` or `UNDECIDED` |
//! | `AWAIT q` | `DECIDED b` once the question is decided, `UNDECIDED` after ten seconds, or `STOPPED` |
//! | `STATE q` | `DECIDED b`, `OPEN r s` with the round and step of the member's last own Initial, `SPENT` where that is round 32 step 3, `UNPROPOSED`, or `STOPPED` |
//! | `STATUS` | `UP m d`, with m statements in the outbox and d questions decided, or `STOPPED` |
//! | `LINKS` | `LINKS i o n w`: links come in from i of n members, o go out, w = n - t are needed each way; or `STOPPED` |
//! | `TRANSCRIPT q` | `STOPPED`, `UNDECIDED`, `THIN`, or `transcript q bit b count c` and c lines, each a sender and a frame |
//!
//! `FOLLOW k` is the last line of its session: from then on a line `DECIDED q b` comes for each
//! decision that the member has saved, from number k on (0 is the first), in the order of its
//! journal, and an empty line where none came for five seconds.
//!
//! Refusals, the first that holds: `ERR 1 line`, `ERR 2 question`, `ERR 3 bit`; `ERR 4 memory`
//! where memory is refused.
//!
//! [`parse`] and [`answer`] wait for nobody, and their contracts are exact. [`serve`] is a client's
//! session over any reader and writer; what it hands to these two, it cuts by one byte after the
//! other, so that the pieces in which lines come don't matter. It ends at `FOLLOW k`: a
//! [`Follower`] over an [`Outlet`] is told decisions then, and waits for nobody, so that one thread
//! can tell many.
#![tactic(auto)]

mod answering;
mod command;
mod following;
mod held;
mod line;
mod outlet;
mod reply;
mod request;
mod serving;
mod turns;
mod writing;

pub use answering::answer;
pub use command::{Command, parse};
pub use following::{FollowEnd, Follower, Telling};
pub use outlet::Outlet;
pub use reply::Reply;
pub use serving::{Desk, DeskEnd, serve};
pub use turns::{Rest, Turns};
