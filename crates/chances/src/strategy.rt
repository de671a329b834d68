//! The adversary's rule: pure functions of what was said in a step.
//!
//! `values` are the values of the step's Initials by origin, those of correct members as they were
//! said, `None` where none was.

ghost use Rattle.std.specs.Prelude.{◌≡◌, ◌≤◌, ◌<◌, ◌^◌, IfOk, length};
ghost use Rattle.terms_prelude.specs.Terms.{FitsStep, IsPlain, value_is};
ghost use Rattle.chances.specs.Strategy as rule;

use std::alloc::{AllocError, Global};
use terms::{Size, Value};

/// Returns the value of a liar's Initial: Unsure in step 3; else the one that lacks more to a
/// majority, and Zero if both lack as much.
pub fn lie(size: Size, step: u8, values: &[Option<Value>]) -> Value
    requires { (1 ≤ step) × (step ≤ 3) }
    ensures value { result ≡ rule.lie size step values.now }
    ensures fits { FitsStep step result }
{
    if step == 3 {
        return Value::Unsure;
    }
    let _few = values.len();
    rarer(
        size,
        count_of(values, Value::Zero),
        count_of(values, Value::One),
    )
}

/// Returns the value that lacks more to a majority among n - t values, of which Zero needs half,
/// and One more than half.
fn rarer(size: Size, zeros: usize, ones: usize) -> Value
    requires zeros { zeros < 2 ^ 63 }
    requires ones { ones < 2 ^ 63 }
    ensures value { result ≡ rule.rarer size zeros ones }
    ensures fits { IsPlain result }
{
    let wait = usize::from(size.wait());
    if ones + wait.div_ceil(2) < zeros + wait / 2 + 1 {
        Value::One
    } else {
        Value::Zero
    }
}

/// Returns the number of origins of this value.
fn count_of(values: &[Option<Value>], value: Value) -> usize
    ensures value { result ≡ rule.count_of value values.now }
    ensures few { result ≤ length values.now }
{
    values.iter().filter(|said| is_value(**said, value)).count()
}

/// Returns the order in which the broadcasts of a step, 1 to 3, are brought to this receiver, by
/// origin.
pub fn order(
    alloc: Global,
    size: Size,
    step: u8,
    values: &[Option<Value>],
    receiver: u8,
) -> Result<Vec<u8>, AllocError>
    requires { length values.now ≤ 64 }
    ensures { IfOk result (λ order. order.items ≡ rule.order size step values.now receiver) }
{
    match step {
        1 => split_order(alloc, values, receiver),
        2 => even_order(alloc, size, values),
        _ => unsure_order(alloc, values),
    }
}

/// Returns the order for a first step: a member of an even number gets all Zeros before all Ones,
/// the others the reverse. So half of the members count more Zeros, and half more Ones.
fn split_order(alloc: Global, values: &[Option<Value>], receiver: u8) -> Result<Vec<u8>, AllocError>
    requires { length values.now ≤ 64 }
    ensures { IfOk result (λ order. order.items ≡ rule.split_order values.now receiver) }
{
    let (first, second) = if receiver % 2 == 0 {
        (Value::Zero, Value::One)
    } else {
        (Value::One, Value::Zero)
    };
    let mut order = origins_of(alloc, values, first)?;
    order.extend_from_slice(&origins_of(alloc, values, second)?)?;
    Ok(order)
}

/// Returns the order for a second step, the same for all: as many Zeros and Ones first as leave
/// neither more than half of all members, then the rest.
fn even_order(alloc: Global, size: Size, values: &[Option<Value>]) -> Result<Vec<u8>, AllocError>
    requires { length values.now ≤ 64 }
    ensures { IfOk result (λ order. order.items ≡ rule.even_order size values.now) }
{
    let zeros = origins_of(alloc, values, Value::Zero)?;
    let ones = origins_of(alloc, values, Value::One)?;
    let first = balanced(size, zeros.len(), ones.len());
    let mut order = Vec::new(alloc);
    order.extend_from_slice(&zeros[..first.zeros])?;
    order.extend_from_slice(&ones[..first.ones])?;
    order.extend_from_slice(&zeros[first.zeros..])?;
    order.extend_from_slice(&ones[first.ones..])?;
    Ok(order)
}

/// Returns the numbers that come first of so many Zeros and Ones: together n - t if there are as
/// many, and of neither more than half of all members.
fn balanced(size: Size, zeros: usize, ones: usize) -> Balance
    ensures zeros { result.zeros ≡ rule.first_zeros size zeros ones }
    ensures ones { result.ones ≡ rule.first_ones size zeros ones }
{
    let half = usize::from(size.n() / 2);
    let wait = usize::from(size.wait());
    let few = zeros.min(half).min(wait.div_ceil(2));
    let ones = ones.min(half).min(wait - few);
    let zeros = zeros.min(half).min(wait - ones);
    Balance { zeros, ones }
}

/// The numbers of Zeros and Ones that come first in a second step.
#[derive(Clone, Copy, Debug, PartialEq, Eq)]
struct Balance {
    zeros: usize,
    ones: usize,
}

/// Returns the order for a third step, the same for all: those that are unsure, then those that are
/// sure.
fn unsure_order(alloc: Global, values: &[Option<Value>]) -> Result<Vec<u8>, AllocError>
    requires { length values.now ≤ 64 }
    ensures { IfOk result (λ order. order.items ≡ rule.unsure_order values.now) }
{
    let mut order = origins_of(alloc, values, Value::Unsure)?;
    order.extend_from_slice(&origins_of(alloc, values, Value::SureZero)?)?;
    order.extend_from_slice(&origins_of(alloc, values, Value::SureOne)?)?;
    Ok(order)
}

/// Returns the origins of this value, ascending.
fn origins_of(alloc: Global, values: &[Option<Value>], value: Value) -> Result<Vec<u8>, AllocError>
    requires { length values.now ≤ 64 }
    ensures { IfOk result (λ origins. origins.items ≡ rule.origins_of value values.now) }
{
    let mut origins = Vec::new(alloc);
    for (origin, said) in values.iter().enumerate() {
        if is_value(*said, value) {
            origins.push(origin as u8)?;
        }
    }
    Ok(origins)
}

/// Returns `true` if this value was said.
fn is_value(said: Option<Value>, value: Value) -> bool
    ensures { result ≡ value_is said value }
{
    match said {
        Some(said) => said == value,
        None => false,
    }
}
