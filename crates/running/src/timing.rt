//! The waits of a member's threads: how long each is, and how often something is tried again.

/// The parts in which the clock waits for a second. After each it looks for the end.
pub(crate) const CLOCK_PARTS: u32 = 10;

/// The milliseconds of such a part.
pub(crate) const CLOCK_PAUSE: u64 = 100;

/// The most times that the clock tries to read the book, so that it waits for it at most a tenth of
/// a second.
pub(crate) const BOOK_TRIES: u32 = 1000;

/// The microseconds between two of the [`BOOK_TRIES`], to which the system adds some 50: the book
/// of a member that a client keeps busy is free for no longer than that between two groups.
pub(crate) const BOOK_PAUSE: u64 = 20;

/// The milliseconds after which the thread of the log looks again for what is to be told.
pub(crate) const LOG_PAUSE: u64 = 100;

/// The number of times that a member which ends looks for what is left to tell: each look finds
/// 1,024 of at most 4,096 decisions, but for the first, before which others may wait.
pub(crate) const LAST_LOOKS: u32 = 5;

/// The seconds between two lines of the same refusal in a log, and in which it takes so many lines
/// of the links of one member.
pub(crate) const MINUTE: u64 = 60;

/// The milliseconds after which a listener is tried again that gave no connection: it was shut
/// down, or the system has no descriptor left.
pub(crate) const ACCEPT_PAUSE: u64 = 100;

/// The seconds that a process with a chain waits for the Hello of a link.
pub(crate) const HELLO_LIMIT: u64 = 10;

/// The ticks, of about a second, that a peer has for its whole greeting.
pub(crate) const GREETING_TICKS: u8 = 10;

/// The most times that a peer that has greeted asks for its seat: for half a second.
pub(crate) const SEAT_TRIES: u32 = 25;

/// The milliseconds between two of the [`SEAT_TRIES`].
pub(crate) const SEAT_PAUSE: u64 = 20;

/// The seconds that dialling a peer takes at most.
pub(crate) const DIAL_LIMIT: u64 = 1;

/// The ticks for which a link that was dialled stays untouched by what happens to the link from its
/// peer.
pub(crate) const FRESH_TICKS: u64 = 2;

/// The seconds that a link waits for its peer to say more of its Hello, and to take what is
/// written.
pub(crate) const LINK_LIMIT: u64 = 10;

/// The seconds that a link that was dialled waits for its Welcome.
pub(crate) const WELCOME_LIMIT: u64 = 4;

/// The milliseconds for which a link is read on in silence. Its peer says something once a second,
/// so two of its Idles are missing then.
pub(crate) const LINK_SILENCE: u64 = 2500;

/// The seconds within which a peer closes a session that it refuses. One that takes longer to fail
/// met silence.
pub(crate) const REFUSAL_LIMIT: u64 = 2;

/// The seconds for which a client may say nothing.
pub(crate) const CLIENT_SILENCE: u64 = 600;

/// The seconds in which a client has to take something of what is written.
pub(crate) const CLIENT_LIMIT: u64 = 10;

/// The seconds for which a client may be silent and keeps its slot all the same, if another wants
/// one.
pub(crate) const SLOT_SILENCE: u64 = 10;

/// The seconds that a read of a client of a chain waits, so that it looks for the end of its epoch.
pub(crate) const SLOT_LIMIT: u64 = 1;

/// The seconds that a line waits for a decision of an epoch that doesn't run yet.
pub(crate) const EPOCH_LIMIT: u64 = 10;

/// The milliseconds after which a follower that has to take lines first is tried again.
pub(crate) const FOLLOWER_PAUSE: u64 = 10;

/// The milliseconds of the longest rest after a round, so that a member's end isn't held up.
pub(crate) const ROUND_PAUSE: u64 = 100;

/// The length of the rest after a round, in times of what that took.
pub(crate) const ROUND_TIMES: u32 = 3;

/// The most times that a member which ends looks whether its clients have their replies: for two
/// seconds.
pub(crate) const LEAVE_TRIES: u32 = 100;

/// The milliseconds between two of the [`LEAVE_TRIES`].
pub(crate) const LEAVE_PAUSE: u64 = 20;

/// The milliseconds after which a follower of a chain looks again for a decision of another epoch.
pub(crate) const SLOT_PAUSE: u64 = 100;

/// The seconds for which a follower waits at an epoch that could be passed.
pub(crate) const PASS_LIMIT: u64 = 2;

/// The same for an epoch that the member missed.
pub(crate) const MISSED_LIMIT: u64 = 10;

/// The seconds after which a follower of a chain that was told nothing is told an empty line.
pub(crate) const FOLLOWER_SILENCE: u64 = 5;
