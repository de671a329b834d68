//! Slots of a chain, the epochs that a member runs, and their seeds.
//!
//! `slot FIRST QUESTIONS NUMBER` answers the slot's epoch, its question, the cluster's number or
//! `none`, and the slot's number again; `number QUESTIONS EPOCH QUESTION` the number of that slot,
//! or `none`; `epoch FIRST CLUSTER` the epoch, or `none`. `route N T NEWEST UNDONE ASKS CLUSTER`
//! answers the open epoch with that cluster number in a chain from 7 on, or `nobody`: UNDONE lists
//! epochs and ASKS pairs `MEMBER:EPOCH`, with commas between them, or is `-`. `seed HEX EPOCH`
//! answers the epoch's seed.

use chain::{Ask, Chain, Known, Slot, seed_of};
use std::alloc::Global;
use test_words::{bytes_of, size_of, words_of};

/// Plays a row.
pub fn told(alloc: Global, action: &str) -> Option<String> {
    let words = words_of(alloc, action)?;
    let (word, rest) = words.as_slice().split_first()?;
    worded(alloc, word, rest)
}

/// Plays a row of this word and of those behind it.
fn worded(alloc: Global, word: &str, rest: &[&str]) -> Option<String> {
    match word {
        "slot" => slot(alloc, rest),
        "number" => number(alloc, rest),
        "epoch" => epoch(alloc, rest),
        "route" => route(alloc, rest),
        "seed" => seed(alloc, rest),
        _ => None,
    }
}

/// Plays a row of a greeting.
fn route(alloc: Global, words: &[&str]) -> Option<String> {
    let [n, t, known @ .., cluster] = words else {
        return None;
    };
    let chain = Chain::new(7, size_of(n, t, "1")?);
    routed(alloc, &chain, cluster.parse().ok()?, known)
}

/// The open epoch of a cluster, by what is known of the others.
fn routed(alloc: Global, chain: &Chain, cluster: u64, known: &[&str]) -> Option<String> {
    let [newest, undone, asks] = known else {
        return None;
    };
    let newest = newest.parse().ok()?;
    let undone = epochs_of(alloc, undone)?;
    let asks = asks_of(alloc, asks)?;
    let known = Known {
        newest,
        undone: &undone,
        asks: &asks,
    };
    number_or(alloc, chain.route(&known, cluster), "nobody")
}

/// The epochs of a list.
fn epochs_of(alloc: Global, list: &str) -> Option<Vec<u64>> {
    if list == "-" {
        return Some(Vec::new(alloc));
    }
    let mut epochs = Vec::new(alloc);
    for word in list.split(',') {
        epochs.push(word.parse().ok()?).ok()?;
    }
    Some(epochs)
}

/// The asks of a list.
fn asks_of(alloc: Global, list: &str) -> Option<Vec<Ask>> {
    if list == "-" {
        return Some(Vec::new(alloc));
    }
    let mut asks = Vec::new(alloc);
    for word in list.split(',') {
        asks.push(ask_of(word)?).ok()?;
    }
    Some(asks)
}

/// The member and the epoch of a word.
fn ask_of(word: &str) -> Option<Ask> {
    let (peer, epoch) = word.split_once(':')?;
    let (Ok(peer), Ok(epoch)) = (peer.parse(), epoch.parse()) else {
        return None;
    };
    Some(Ask { peer, epoch })
}

/// Plays a row of an epoch's seed.
fn seed(alloc: Global, words: &[&str]) -> Option<String> {
    let [digits, epoch] = words else {
        return None;
    };
    let epoch = epoch.parse().ok()?;
    let bytes = bytes_of(alloc, digits)?;
    let seed: [u8; 32] = bytes.as_slice().try_into().ok()?;
    hex::encode(alloc, seed_of(&seed, epoch).as_slice()).ok()
}

/// Plays a row of a slot.
fn slot(alloc: Global, words: &[&str]) -> Option<String> {
    let [first, questions, number] = words else {
        return None;
    };
    slot_text(alloc, &chain_of(first, questions)?, number.parse().ok()?)
}

/// The slot with this number, its cluster, and its number again.
fn slot_text(alloc: Global, chain: &Chain, number: u64) -> Option<String> {
    let slot = chain.slot_of(number);
    let cluster = number_or(alloc, chain.cluster_of(slot.epoch), "none")?;
    let again = number_or(alloc, chain.number_of(slot), "none")?;
    format!(in alloc; "{} {} {cluster} {again}", slot.epoch, slot.question).ok()
}

/// Plays a row of a slot's number.
fn number(alloc: Global, words: &[&str]) -> Option<String> {
    let [questions, epoch, question] = words else {
        return None;
    };
    let (Ok(epoch), Ok(question)) = (epoch.parse(), question.parse()) else {
        return None;
    };
    let slot = Slot { epoch, question };
    number_or(alloc, chain_of("0", questions)?.number_of(slot), "none")
}

/// Plays a row of an epoch.
fn epoch(alloc: Global, words: &[&str]) -> Option<String> {
    let [first, cluster] = words else {
        return None;
    };
    let epoch = chain_of(first, "1")?.epoch_of(cluster.parse().ok()?);
    number_or(alloc, epoch, "none")
}

/// A chain of four members.
fn chain_of(first: &str, questions: &str) -> Option<Chain> {
    Some(Chain::new(first.parse().ok()?, size_of("4", "1", questions)?))
}

/// A number, or this word.
fn number_or(alloc: Global, number: Option<u64>, word: &str) -> Option<String> {
    match number {
        Some(number) => format!(in alloc; "{number}").ok(),
        None => format!(in alloc; "{word}").ok(),
    }
}
