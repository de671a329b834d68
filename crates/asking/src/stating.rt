//! A line for all members of a cluster, and the reply of each: begin at `propose_to_all`,
//! `status_of_all` and `epochs_of_all`.

ghost use Rattle.std.specs.Prelude.{ℕ, List, ◌≡◌, ◌≤◌, IfOk, Some, option_map, string_bytes};
ghost use Rattle.std.specs.Io.KnownBytes.{Appends};
ghost use Rattle.commands.specs.Talks.{HasStatus};
ghost use Rattle.asking.specs.Statings.{AreTold, HasStatusOf, HasStatusOfAll, IsPlaced, IsToldLine, line_for, reply_texts, wants_ready, words_for};

use crate::board::News;
use crate::callers::{Caller, Calls, Cluster, Lines};
use crate::calls::Manner;
use crate::clients::read_client;
use commands::{
    Told, epochs_line, links_line, propose_line, ready_status, state_line, status_line,
    tell_epochs, tell_object_of, tell_of, told_of,
};
use settings::ClientSettings;
use std::alloc::{AllocError, Global};
use std::io::{self, Write};
use troubles::{Failure, Fault};

/// The part of a member's state that is asked for, and its form.
#[derive(Clone, Copy, Debug, PartialEq, Eq)]
pub struct StateForm {
    /// Its links are asked for.
    pub links: bool,
    /// They are, and have to be enough.
    pub ready: bool,
    /// The state of this question is asked for, and not that of the member.
    pub question: Option<u16>,
    /// Set if JSON is printed.
    pub json: bool,
}

/// The words for a member that doesn't answer.
const NO_ANSWER: &[u8] = b"no answer";

/// Proposes a bit to each member of the cluster, all at once, and prints a line `member M REPLY`
/// for each, where REPLY is `no answer` for one that doesn't answer in time. The status is 0 where
/// each reply is a good one, and 1 else.
pub fn propose_to_all<R: Caller>(
    rt: &R,
    host: &HostRuntime,
    cluster: &Cluster<'_>,
    question: u16,
    bit: u8,
) -> Result<u8, Failure>
    ensures { IfOk result (λ status. status ≤ 1) }
{
    let client = read_client(host, cluster.file)?;
    let line = propose_line(host.alloc(), question, bit).map_err(|_| Fault::Memory)?;
    let lines = lines_of(host.alloc(), Manner::Once, line);
    let all = Replies::gather(rt, host, cluster, &client, lines)?;
    let form = StateForm {
        links: false,
        ready: false,
        question: None,
        json: false,
    };
    tell_all(host.alloc(), &all.replies, form, &mut io::writer(host))
}

/// Asks each member of the cluster for its state, all at once, and prints a line `member M REPLY`
/// for each, as `propose_to_all` does, or an object of JSON. The status is the highest of any.
pub fn status_of_all<R: Caller>(
    rt: &R,
    host: &HostRuntime,
    cluster: &Cluster<'_>,
    form: StateForm,
) -> Result<u8, Failure>
    ensures { IfOk result (λ status. status ≤ 1) }
{
    let client = read_client(host, cluster.file)?;
    let line = line_for(host.alloc(), form).map_err(|_| Fault::Memory)?;
    let lines = lines_of(host.alloc(), Manner::Once, line);
    let all = Replies::gather(rt, host, cluster, &client, lines)?;
    tell_all(host.alloc(), &all.replies, form, &mut io::writer(host))
}

/// Returns the line that asks for what the form has.
fn line_for(alloc: Global, form: StateForm) -> Result<String, AllocError>
    ensures { IfOk result (λ text. string_bytes text ≡ line_for form) }
{
    if let Some(question) = form.question {
        return state_line(alloc, question);
    }
    if form.links || form.ready {
        String::from_str(alloc, links_line())
    } else {
        String::from_str(alloc, status_line())
    }
}

/// Prints the replies by their members' numbers. The status is the highest of any; of members that
/// are to be ready, that of their links.
fn tell_all<W: Write>(
    alloc: Global,
    replies: &[Option<Vec<u8>>],
    form: StateForm,
    output: &mut W,
) -> Result<u8, Failure>
    ensures bound { IfOk result (λ status. status ≤ 1) }
    ensures status { IfOk result
        (HasStatusOfAll (wants_ready form) (reply_texts replies.now)) }
{
    let mut status = 0;
    let mut member = 0u8;
    for reply in replies {
        let told = tell_one(alloc, member, reply, form, output)?;
        status = status.max(told);
        member = member.saturating_add(1);
    }
    Ok(status)
}

/// Prints the reply of a member, or that there is none. The status is that of the reply, or, of a
/// member that is to be ready, that of its links.
fn tell_one<W: Write>(
    alloc: Global,
    member: u8,
    reply: &Option<Vec<u8>>,
    form: StateForm,
    output: &mut W,
) -> Result<u8, Fault>
    ensures status { IfOk result (HasStatusOf (wants_ready form)
        (option_map (λ sent. sent.items) reply.now)) }
    ensures text { IfOk result (λ _. (text : List ℕ) × IsToldLine form.json member
        (words_for (option_map (λ sent. sent.items) reply.now)) text
        × Appends (W.contents output.old) (W.contents output.new) text) }
{
    match reply {
        Some(reply) => tell_reply(alloc, member, reply, form, output),
        None => {
            tell_words(alloc, member, NO_ANSWER, form.json, output)?;
            Ok(1)
        }
    }
}

/// Prints the reply of a member. The status is that of the reply, or, of a member that is to be
/// ready, that of its links.
fn tell_reply<W: Write>(
    alloc: Global,
    member: u8,
    reply: &[u8],
    form: StateForm,
    output: &mut W,
) -> Result<u8, Fault>
    ensures status { IfOk result (HasStatusOf (wants_ready form) (Some reply.now)) }
    ensures text { IfOk result (λ _. (text : List ℕ) × IsToldLine form.json member reply.now text
        × Appends (W.contents output.old) (W.contents output.new) text) }
{
    let told = tell_words(alloc, member, reply, form.json, output)?;
    if wants_ready(form) {
        return Ok(ready_status(reply));
    }
    Ok(told)
}

/// Prints a reply of a member, or the words for none, as a line or as an object. The status is that
/// of the reply.
fn tell_words<W: Write>(
    alloc: Global,
    member: u8,
    words: &[u8],
    json: bool,
    output: &mut W,
) -> Result<u8, Fault>
    ensures status { IfOk result (HasStatus words.now) }
    ensures text { IfOk result (λ _. (text : List ℕ) × IsToldLine json member words.now text
        × Appends (W.contents output.old) (W.contents output.new) text) }
{
    if json {
        return match tell_object_of(alloc, member, words, output) {
            Ok(status) => Ok(status),
            Err(fault) => Err(Fault::Talk(fault)),
        };
    }
    match tell_of(alloc, member, words, output) {
        Ok(status) => Ok(status),
        Err(fault) => Err(Fault::Talk(fault)),
    }
}

/// Returns `true` if the members are to be ready.
fn wants_ready(form: StateForm) -> bool
    ensures { result ≡ wants_ready form }
{
    form.ready && form.question.is_none()
}

/// Asks each member of the cluster which epochs it has closed, all at once, and prints a line
/// `member M closed C newest N` for each, or its reply as `propose_to_all` does; and behind them
/// `closed C`, with the least C, or `closed unknown` if a member didn't tell its own. Or prints an
/// object of JSON. The status is 0 if each member told its C, and 1 else.
pub fn epochs_of_all<R: Caller>(
    rt: &R,
    host: &HostRuntime,
    cluster: &Cluster<'_>,
    json: bool,
) -> Result<u8, Failure>
    ensures { IfOk result (λ status. status ≤ 1) }
{
    let client = read_client(host, cluster.file)?;
    let line = String::from_str(host.alloc(), epochs_line()).map_err(|_| Fault::Memory)?;
    let lines = lines_of(host.alloc(), Manner::Epochs, line);
    let all = Replies::gather(rt, host, cluster, &client, lines)?;
    let Replies { replies, open: _ } = all;
    let words = words_of(host.alloc(), replies)?;
    match tell_epochs(host.alloc(), &words, json, &mut io::writer(host)) {
        Ok(status) => Ok(status),
        Err(fault) => Err(Failure::from(Fault::Talk(fault))),
    }
}

/// Returns the lines of one that is said once, in this manner.
fn lines_of(alloc: Global, manner: Manner, first: String) -> Lines {
    Lines {
        manner,
        first,
        wait: String::new(alloc),
    }
}

/// Returns the words of the members on their epochs, by their numbers.
fn words_of(alloc: Global, replies: Vec<Option<Vec<u8>>>) -> Result<Vec<Told>, Fault>
    ensures { IfOk result (λ words. AreTold (reply_texts replies.items) words.items) }
{
    let mut words = Vec::new(alloc);
    for reply in replies {
        words.push(told_of(reply))?;
    }
    Ok(words)
}

/// The replies of all members, by their numbers.
#[derive(Drop)]
struct Replies {
    replies: Vec<Option<Vec<u8>>>,
    /// The number of members of which nothing is known.
    open: u8,
}

impl Replies {
    ghost use Rattle.std.specs.Prelude.{◌≡◌, ◌-◌, IfOk, None, replicate};
    ghost use Rattle.asking.specs.Statings.{IsPlaced};

    /// No reply of so many members.
    fn new(alloc: Global, n: u8) -> Result<Replies, Fault>
        ensures none { IfOk result (λ all. all.replies.items ≡ replicate n None) }
        ensures unknown { IfOk result (λ all. all.open ≡ n) }
    {
        let mut replies = Vec::new(alloc);
        for _member in 0..n {
            replies.push(None)?;
        }
        Ok(Replies { replies, open: n })
    }

    /// Gathers the replies to these lines, until all are known or the time is over.
    fn gather<R: Caller>(
        rt: &R,
        host: &HostRuntime,
        cluster: &Cluster<'_>,
        client: &ClientSettings,
        lines: Lines,
    ) -> Result<Replies, Failure> {
        let deadline = cluster.deadline(host)?;
        let mut all = Replies::new(host.alloc(), client.size.n())?;
        let calls = Calls::start(rt, host.alloc(), client, lines, deadline)?;
        for _ in 0..u64::MAX {
            if all.open == 0 {
                break;
            }
            let Some(news) = calls.next(rt, host) else {
                break;
            };
            for one in news {
                all.take(one);
            }
        }
        Ok(all)
    }

    /// Takes a member's reply, or that it doesn't answer.
    fn take(&mut self, news: News)
        ensures placed { IsPlaced self.old.replies.items news.member news.reply
            self.new.replies.items }
        ensures unknown { self.new.open ≡ self.old.open - 1 }
    {
        let News { member, reply } = news;
        self.open = self.open.saturating_sub(1);
        place(&mut self.replies, member, reply);
    }
}

/// Puts a member's reply in its place, if there is such a member.
fn place(replies: &mut Vec<Option<Vec<u8>>>, member: u8, reply: Option<Vec<u8>>)
    ensures { IsPlaced replies.old.items member reply replies.new.items }
{
    match replies.get_mut(usize::from(member)) {
        Some(place) => *place = reply,
        None => {}
    }
}
