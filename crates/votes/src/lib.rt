//! The senders of each value of a step, as masks of members: bit a is member a's. So a vote more
//! and a count cost the same however many there are.
//!
//! Steps 1 and 2 of a round have the values Zero and One, and step 3 has SureZero, SureOne and
//! Unsure. One mask serves Zero and SureZero, another One and SureOne, and who sent Unsure stands
//! in both, so who asks says whether the step is a third one. Callers give a member one vote at
//! most.
#![tactic(auto)]

ghost use Rattle.std.specs.Prelude.{◌≡◌, ◌<◌, ◌==◌, ◌^◌, ◌-◌, ℕ, Bool, true, None};
ghost use Rattle.terms_prelude.specs.Terms.{count_below, value_is, keep_or, given};
ghost use Rattle.votes.specs.Votes.{has_bit, zero_value, one_value, fits, value_of, no_votes, with_vote};

use terms::{Size, Value};

/// The senders of each value.
#[derive(Clone, Copy, Debug, PartialEq, Eq)]
pub struct Votes {
    /// The senders of Zero, or in step 3 of SureZero or Unsure: bit a is member a's.
    zero: u64,
    /// The senders of One, or in step 3 of SureOne or Unsure.
    one: u64,
}

impl Votes {
    /// Nobody sent anything.
    #[tactic(auto, unfolding(crate::specs::Votes::no_votes))]
    pub fn none() -> Votes
        ensures votes { result ≡ no_votes }
        ensures nobody { (third : Bool) → (member : ℕ) → value_of third result member ≡ None }
    {
        Votes { zero: 0, one: 0 }
    }

    /// The value that the member sent.
    #[tactic(auto, unfolding(crate::specs::Votes::value_of))]
    pub fn value(self, third: bool, member: u8) -> Option<Value>
        requires { member < 64 }
        ensures { result ≡ value_of third self member }
    {
        match (has_bit(self.zero, member), has_bit(self.one, member)) {
            (true, true) if third => Some(Value::Unsure),
            (true, _) => Some(zero_value(third)),
            (false, true) => Some(one_value(third)),
            (false, false) => None,
        }
    }

    /// The votes with one more, the member's.
    #[inline(always)]
    pub fn with(self, member: u8, value: Value) -> Votes
        requires { member < 64 }
        ensures votes { result ≡ with_vote self member value }
        ensures first { (third : Bool) → fits third value ≡ true →
            value_of third self member ≡ None → (other : ℕ) →
            value_of third result other ≡ keep_or (value_of third self other)
            (given (member == other) value) }
    {
        let bit = 1u64 << u32::from(member);
        match value {
            Value::Zero | Value::SureZero => Votes {
                zero: self.zero | bit,
                ..self
            },
            Value::One | Value::SureOne => Votes {
                one: self.one | bit,
                ..self
            },
            Value::Unsure => Votes {
                zero: self.zero | bit,
                one: self.one | bit,
            },
        }
    }

    /// Returns how many members sent the value.
    pub fn count(self, size: Size, third: bool, value: Value) -> u8
        ensures { result
            ≡ count_below size.n (λ member. value_is (value_of third self member) value) }
    {
        (self.senders(third, value) & everyone(size)).count_ones() as u8
    }

    /// Returns who sent the value, as a mask.
    fn senders(self, third: bool, value: Value) -> u64
        ensures { (member : ℕ) →
            has_bit result member ≡ value_is (value_of third self member) value }
    {
        let senders = self.senders_in_its_step(value);
        if fits(third, value) { senders } else { 0 }
    }

    /// Returns who sent the value, as a mask, where it fits the step.
    fn senders_in_its_step(self, value: Value) -> u64
        ensures { (third : Bool) → fits third value ≡ true → (member : ℕ) →
            has_bit result member ≡ value_is (value_of third self member) value }
    {
        let any = self.zero | self.one;
        match value {
            Value::Zero => self.zero,
            Value::SureZero => any ^ self.one,
            Value::One | Value::SureOne => any ^ self.zero,
            Value::Unsure => self.zero & self.one,
        }
    }
}

/// The value that speaks for 0, in step 3 or in another.
pub fn zero_value(third: bool) -> Value
    ensures { result ≡ zero_value third }
{
    if third { Value::SureZero } else { Value::Zero }
}

/// The value that speaks for 1, in step 3 or in another.
pub fn one_value(third: bool) -> Value
    ensures { result ≡ one_value third }
{
    if third { Value::SureOne } else { Value::One }
}

/// Returns `true` if it is a value of step 3, or of another.
pub fn fits(third: bool, value: Value) -> bool
    ensures { result ≡ fits third value }
{
    match value {
        Value::Zero | Value::One => !third,
        Value::SureZero | Value::SureOne | Value::Unsure => third,
    }
}

/// Returns `true` if the member's bit is set.
fn has_bit(mask: u64, member: u8) -> bool
    requires { member < 64 }
    ensures { result ≡ has_bit mask member }
{
    (mask >> u32::from(member)) & 1 == 1
}

/// The mask of all members.
fn everyone(size: Size) -> u64
    ensures { result ≡ 2 ^ size.n - 1 }
{
    let n = size.n();
    u64::MAX >> (64 - u32::from(n))
}
