//! The word of a line of a script that is wrong, and what it has to be.

ghost use Rattle.std.specs.Prelude.{ℕ, ◌≡◌, ◌⊎◌, ◌<◌, ◌≤◌, true, IfOk, IfSome, option_map, string_bytes};
ghost use Rattle.std.specs.List.{list_any};
ghost use Rattle.numerals.specs.Numbers.{IsBelow};
ghost use Rattle.commands.specs.TextLines.{texts};
ghost use Rattle.troubles.specs.Misfits.{IsMisfitAt, IsPart, IsWhy, IsWhyOf, Misfits, empty_text, is_no_hex, is_other, misfit_text, part_at, part_text, parts_of, told_text, words_of, wrong_text};
ghost use Rattle.troubles.specs.declared.forms.Order.TheVariants as orders;
ghost use Rattle.troubles.specs.declared.misfits.Part.TheVariants as parts;

use crate::forms::{Order, name_of};
use numerals::{is, number, number8, number16};
use std::alloc::{AllocError, Global};

/// The form of a word of a line.
#[derive(Clone, Copy, Debug, PartialEq, Eq)]
pub enum Part {
    /// The name of the line.
    Name(Order),
    Member,
    Question,
    Bit,
    /// `next`, or the number of a statement.
    Which,
    /// The most statements of a group.
    Count,
    /// The bytes of a lie.
    Digits,
    /// The calls of a fuse, or `off`.
    Calls,
    /// The rest that a crash leaves.
    Left,
    /// The byte that a crash fills with.
    Byte,
    /// A number below 2^16.
    Small,
    /// A number below 2^64.
    Number,
}

/// Returns what is told of the word of a line of this order that is wrong, and a colon; nothing
/// where none is found.
pub fn why_words(alloc: Global, line: &[u8], order: Order) -> Result<String, AllocError>
    ensures { IfOk result (λ text. IsWhy order line.now (string_bytes text)) }
{
    let words = words_of(alloc, line)?;
    let order = whole_order(&words, order);
    let why = why_of(alloc, &words, order)?;
    Ok(why)
}

/// Returns what stands before, between and behind the blanks of the line.
fn words_of(alloc: Global, line: &[u8]) -> Result<Vec<&[u8]>, AllocError>
    ensures { IfOk result (λ words. texts words.items ≡ words_of line.now) }
{
    line.split(|byte| *byte == b' ').collect(alloc)
}

/// The order of a line, also by its third word, which may ask for a byte more.
fn whole_order(words: &[&[u8]], order: Order) -> Order
    ensures { (result ≡ order) ⊎ (result ≡ orders.Fill) }
{
    match words.get(2) {
        Some(word) if order == Order::Crash && is(word, "fill") => Order::Fill,
        _ => order,
    }
}

/// Returns what is told of the first of the words of a line of this order that is wrong, and a
/// colon; nothing where none is found.
fn why_of(alloc: Global, words: &[&[u8]], order: Order) -> Result<String, AllocError>
    ensures { IfOk result (λ text. IsWhyOf order (texts words.now) (string_bytes text)) }
{
    match misfit(words, order) {
        None => Ok(String::new(alloc)),
        Some(place) => {
            let told = told_words(alloc, words, order, place)?;
            Ok(told)
        }
    }
}

/// The first place of a line of this order at which its words aren't what they have to be.
fn misfit(words: &[&[u8]], order: Order) -> Option<usize>
    ensures misfit { IfSome result (IsMisfitAt order (texts words.now)) }
    ensures below { IfSome result (λ place. place < 5) }
{
    // Any count of liars may be listed.
    let most = if order == Order::Listed { 1 } else { 5 };
    for place in 0..most {
        if misfits(part_at(order, place), words.get(place).copied()) {
            return Some(place);
        }
    }
    None
}

/// Returns `true` if what stands at a place isn't what has to stand there.
fn misfits(part: Option<Part>, word: Option<&[u8]>) -> bool
    ensures { result ≡ true → Misfits part (option_map (λ word. word.now) word.entry) }
{
    match word {
        None => part.is_some(),
        Some(word) => match part {
            Some(part) => is_wrong(part, word),
            None => true,
        },
    }
}

/// Returns `true` if the word is wrong where this has to stand.
fn is_wrong(part: Part, word: &[u8]) -> bool
    ensures { result ≡ true → IsPart part word.now → ⊥ }
{
    match part {
        Part::Name(order) => !is(word, name_of(order)),
        Part::Member => is_no_byte(word),
        Part::Question | Part::Small => is_not_small(word),
        Part::Bit => is_no_bit(word),
        Part::Which => is_neither(word, "next"),
        Part::Count => is_no_count(word),
        Part::Digits => is_no_hex(word),
        Part::Calls => is_neither(word, "off"),
        Part::Left => is_nothing_left(word),
        Part::Byte => word.len() != 2 || is_no_hex(word),
        Part::Number => is_no_number(word),
    }
}

/// Returns `true` if the word isn't a number below 2^8.
fn is_no_byte(word: &[u8]) -> bool
    ensures { result ≡ true → (n : ℕ) → IsBelow 8 word.now n → ⊥ }
{
    match number8(word) {
        Some(_) => false,
        None => true,
    }
}

/// Returns `true` if the word isn't a number below 2^16.
fn is_not_small(word: &[u8]) -> bool
    ensures { result ≡ true → (n : ℕ) → IsBelow 16 word.now n → ⊥ }
{
    match number16(word) {
        Some(_) => false,
        None => true,
    }
}

/// Returns `true` if the word is no bit.
fn is_no_bit(word: &[u8]) -> bool
    ensures { result ≡ true → (n : ℕ) → IsBelow 64 word.now n → n ≤ 1 → ⊥ }
{
    match number(word) {
        Some(bit) => bit > 1,
        None => true,
    }
}

/// Returns `true` if the word isn't that one, and no number below 2^64 either.
fn is_neither(word: &[u8], name: &str) -> bool
    ensures name { result ≡ true → word.now ≡ name.now → ⊥ }
    ensures number { result ≡ true → (n : ℕ) → IsBelow 64 word.now n → ⊥ }
{
    !is(word, name) && is_no_number(word)
}

/// Returns `true` if the word isn't a number below 2^64.
fn is_no_number(word: &[u8]) -> bool
    ensures { result ≡ true → (n : ℕ) → IsBelow 64 word.now n → ⊥ }
{
    match number(word) {
        Some(_) => false,
        None => true,
    }
}

/// Returns `true` if the word isn't how many statements a group has.
fn is_no_count(word: &[u8]) -> bool
    ensures { result ≡ true → (n : ℕ) → IsBelow 16 word.now n → 1 ≤ n → n ≤ 256 → ⊥ }
{
    match number16(word) {
        Some(count) => count < 1 || count > 256,
        None => true,
    }
}

/// Returns `true` if the word isn't an even count of hexadecimal digits, at least two.
fn is_no_hex(word: &[u8]) -> bool
    ensures { result ≡ is_no_hex word.now }
{
    word.len() < 2 || word.len() % 2 == 1 || has_other(word)
}

/// Returns `true` if a byte of the word is no hexadecimal digit.
fn has_other(word: &[u8]) -> bool
    ensures { result ≡ list_any is_other word.now }
{
    word.iter().any(|byte| !byte.is_ascii_hexdigit())
}

/// Returns `true` if the word isn't what a crash may leave.
fn is_nothing_left(word: &[u8]) -> bool
    ensures { result ≡ true → IsPart parts.Left word.now → ⊥ }
{
    !is(word, "kept") && !is(word, "lost") && !is(word, "fill")
}

/// Returns what is told of the word at that place of a line of this order, and a colon.
fn told_words(
    alloc: Global,
    words: &[&[u8]],
    order: Order,
    place: usize,
) -> Result<String, AllocError>
    requires { place < 5 }
    ensures { IfOk result (λ text. string_bytes text ≡ told_text order (texts words.now) place) }
{
    let (part, word) = (part_at(order, place), words.get(place).copied());
    let told = misfit_words(alloc, place + 1, part, word)?;
    format!(in alloc; "{told}: ")
}

/// Returns what the word at that place of a line has to be, its name at place 0; none where no word
/// may stand.
fn part_at(order: Order, place: usize) -> Option<Part>
    ensures { result ≡ part_at order place }
{
    let (second, third, fourth) = parts_of(order);
    match place {
        0 => Some(Part::Name(order)),
        1 => second,
        2 => third,
        3 => fourth,
        _ => None,
    }
}

/// Returns what the words behind the name of a line have to be.
fn parts_of(order: Order) -> (Option<Part>, Option<Part>, Option<Part>)
    ensures { result ≡ parts_of order }
{
    let member = Some(Part::Member);
    match order {
        Order::Propose => (member, Some(Part::Question), Some(Part::Bit)),
        Order::Deliver => (member, member, Some(Part::Which)),
        Order::Group => (member, member, Some(Part::Count)),
        Order::Lie => (member, member, Some(Part::Digits)),
        Order::Fuse => (member, Some(Part::Calls), None),
        Order::Crash => (member, Some(Part::Left), None),
        Order::Fill => (member, Some(Part::Left), Some(Part::Byte)),
        Order::Restart => (member, None, None),
        Order::Reset => (member, member, None),
        Order::Rounds | Order::Random | Order::Fair | Order::Seed => (
            Some(Part::Number),
            None,
            None,
        ),
        Order::Members | Order::Liars | Order::Questions => (Some(Part::Small), None, None),
        Order::Listed | Order::Other => (None, None, None),
    }
}

/// Returns what is told of the word of that number, counted from 1, where this has to stand.
fn misfit_words(
    alloc: Global,
    number: usize,
    part: Option<Part>,
    word: Option<&[u8]>,
) -> Result<String, AllocError>
    ensures { IfOk result
        (λ text. string_bytes text ≡ misfit_text number part
        (option_map (λ word. word.now) word.entry)) }
{
    match word {
        Some([]) => empty_words(alloc, number),
        Some([_, ..]) | None => wrong_words(alloc, number, part),
    }
}

/// Returns what is told of a word that is empty.
fn empty_words(alloc: Global, number: usize) -> Result<String, AllocError>
    ensures { IfOk result (λ text. string_bytes text ≡ empty_text number) }
{
    format!(in alloc; "word {number} is empty: a blank before it is too many")
}

/// Returns what is told of a word that is missing, or isn't empty.
fn wrong_words(alloc: Global, number: usize, part: Option<Part>) -> Result<String, AllocError>
    ensures { IfOk result (λ text. string_bytes text ≡ wrong_text number part) }
{
    match part {
        Some(part) => format!(in alloc; "word {number} must be {}", part_text(part)),
        None => format!(in alloc; "word {number} is too many"),
    }
}

/// Returns what the word has to be, in words.
fn part_text(part: Part) -> &'static str
    ensures { result.now ≡ part_text part }
{
    match part {
        Part::Name(order) => name_of(order),
        Part::Member => "a member, 0 to 255",
        Part::Question => "a question, 0 to 65535",
        Part::Bit => "a bit, 0 or 1",
        Part::Which => "`next` or a number",
        Part::Count => "a number from 1 to 256",
        Part::Digits => "an even count of hexadecimal digits",
        Part::Calls => "`off` or a number",
        Part::Left => "`kept`, `lost` or `fill`",
        Part::Byte => "two hexadecimal digits",
        Part::Small => "a number from 0 to 65535",
        Part::Number => "a number below 2^64",
    }
}
