//! Members' words on a question, as a reading takes them.

ghost use Rattle.asking.specs.Polls.{Takes};

use client::Reading;

/// Gives the reading the bit that a member told, if it told one. Of each member the first
/// counts.
pub fn take_bit(reading: &mut Reading, member: u8, bit: Option<bool>)
    ensures { Takes reading.old member bit reading.new }
{
    let Some(bit) = bit else {
        return;
    };
    let _taken = reading.take(member, bit);
}
