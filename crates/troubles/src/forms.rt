//! What the lines of a script have to be, for whoever wrote one that isn't.

ghost use Rattle.std.specs.Prelude.{◌≡◌};
ghost use Rattle.troubles.specs.Forms.{begins, form_text, head_order, name_text, network_order, order_of};

use process::rest_of;

/// What a line of a script is to be: one of the first five, or, by how it begins, one of the
/// events.
#[derive(Clone, Copy, Debug, PartialEq, Eq)]
pub enum Order {
    /// `n N`, the first line.
    Members,
    /// `t T`, the second.
    Liars,
    /// `questions Q`, the third.
    Questions,
    /// `liars M M ..`, the fourth.
    Listed,
    /// `seed S`, the fifth.
    Seed,
    Propose,
    Deliver,
    Group,
    Lie,
    Fuse,
    Crash,
    /// A crash that fills.
    Fill,
    Restart,
    Reset,
    Rounds,
    Random,
    Fair,
    /// No event begins so.
    Other,
}

/// Returns what the line is to be.
pub fn order_of(line: &[u8]) -> Order
    ensures { result ≡ order_of line.now }
{
    if begins(line, "propose") {
        return Order::Propose;
    }
    if begins(line, "deliver") {
        return Order::Deliver;
    }
    if begins(line, "group") {
        return Order::Group;
    }
    if begins(line, "lie ") {
        return Order::Lie;
    }
    if begins(line, "fuse") {
        return Order::Fuse;
    }
    if begins(line, "crash") {
        return Order::Crash;
    }
    network_order(line)
}

/// Returns what the line is to be, where it is none of a member's.
fn network_order(line: &[u8]) -> Order
    ensures { result ≡ network_order line.now }
{
    if begins(line, "restart") {
        return Order::Restart;
    }
    if begins(line, "reset") {
        return Order::Reset;
    }
    if begins(line, "rounds") {
        return Order::Rounds;
    }
    if begins(line, "random") {
        return Order::Random;
    }
    if begins(line, "fair") {
        return Order::Fair;
    }
    Order::Other
}

/// Returns `true` if the line begins with this word.
fn begins(line: &[u8], word: &str) -> bool
    ensures { result ≡ begins word.now line.now }
{
    match rest_of(line, word) {
        Some(_) => true,
        None => false,
    }
}

/// Returns which of the first five lines follows so many of them; none where all of them stand.
pub fn head_order(before: usize) -> Option<Order>
    ensures { result ≡ head_order before }
{
    match before {
        0 => Some(Order::Members),
        1 => Some(Order::Liars),
        2 => Some(Order::Questions),
        3 => Some(Order::Listed),
        4 => Some(Order::Seed),
        _ => None,
    }
}

/// The word with which such a line begins, or those with which an event does.
pub fn name_of(order: Order) -> &'static str
    ensures { result.now ≡ name_text order }
{
    match order {
        Order::Members => "n",
        Order::Liars => "t",
        Order::Questions => "questions",
        Order::Listed => "liars",
        Order::Seed => "seed",
        Order::Propose => "propose",
        Order::Deliver => "deliver",
        Order::Group => "group",
        Order::Lie => "lie",
        Order::Fuse => "fuse",
        Order::Crash | Order::Fill => "crash",
        Order::Restart => "restart",
        Order::Reset => "reset",
        Order::Rounds => "rounds",
        Order::Random => "random",
        Order::Fair => "fair",
        Order::Other =>
            "propose, deliver, group, lie, fuse, crash, restart, reset, rounds, random or fair",
    }
}

/// Returns how such a line is written, and what its words may be.
pub fn form_of(order: Order) -> &'static str
    ensures { result.now ≡ form_text order }
{
    match order {
        Order::Propose =>
            "an event is `propose M Q B`: member M, 0 to 255, question Q, 0 to 65535, bit B, 0 or 1",
        Order::Deliver =>
            "an event is `deliver A B next` or `deliver A B I`: members A and B, 0 to 255, number I",
        Order::Group => "an event is `group A B K`: members A and B, 0 to 255, K from 1 to 256",
        Order::Lie =>
            "an event is `lie L M HEX`: members L and M, 0 to 255, an even count of hexadecimal digits",
        Order::Fuse => "an event is `fuse M K` or `fuse M off`: member M, 0 to 255, number K",
        Order::Crash | Order::Fill =>
            "an event is `crash M kept`, `crash M lost` or `crash M fill HH`: member M, 0 to 255, two hexadecimal digits HH",
        Order::Restart => "an event is `restart M`: member M, 0 to 255",
        Order::Reset => "an event is `reset A B`: members A and B, 0 to 255",
        Order::Rounds => "an event is `rounds K`: number K",
        Order::Random => "an event is `random K`: number K",
        Order::Fair => "an event is `fair K`: number K",
        Order::Members => "the first line is `n N`: N members, 1 to 64",
        Order::Liars => "the second line is `t T`: T of them may lie, less than a third",
        Order::Questions => "the third line is `questions Q`: Q questions, 1 to 4096",
        Order::Listed =>
            "the fourth line is `liars M M ..`: the members that lie, each 0 to 255, perhaps none",
        Order::Seed => "the fifth line is `seed S`: a number S",
        Order::Other => "this is no event",
    }
}
