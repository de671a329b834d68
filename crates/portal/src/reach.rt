//! A cluster as the thread of a connection reaches it: through the book that all threads share.
//! Begin at `Reach`.

ghost use Rattle.std.specs.Prelude.{◌≡◌, IfOk};
ghost use Rattle.portal.specs.Served.{IsToldAt};

use crate::book::Motion;
use crate::cluster::{Answer, Cluster, Kind, Proposal, answer_of, good_answer};
use crate::fetching::{Fetched, Sent, fetch};
use crate::handed::{Handed, HandedOn};
use crate::shared::{Shared, time_now};
use crate::speaker::Speaker;
use crate::telling::{
    members_answer, metrics_answer, question_answer, questions_answer, ready_answer,
};
use gateway::{
    Moment, Refusal, Standing, Task, Transcript, proposal_text, refusal_text, status_of,
    transcript_text,
};
use ghost_record::GhostRecord;
use pages::live;
use std::alloc::AllocError;
use std::sync::atomic::Ordering;
use std::time::Duration;
use terms::Size;

/// The milliseconds in which members reply to a proposal.
const REPLIES: u64 = 3000;

/// The most transcripts that are fetched at once: one takes up to a hundred megabytes for some
/// seconds.
const MOST_FETCHES: u64 = 1;

/// The outcome of a proposal.
#[derive(Clone, Copy, Debug, PartialEq, Eq)]
struct Outcome {
    standing: Standing,
    /// The number of members that took it.
    taken: u8,
    /// The number of members that had one, or decided.
    have: u8,
}

/// A cluster as the thread of a connection reaches it.
#[derive(Drop)]
pub(crate) struct Reach<'a, R: 'static> {
    pub(crate) rt: &'a R,
    pub(crate) shared: &'a Shared,
    /// The proposals that this connection handed on.
    pub(crate) handed: GhostRecord<Handed>,
}

impl<'a, R: Speaker> Reach<'a, R> {
    /// Returns the answer about a question.
    fn question(&self, size: Size, question: u64, wait: u16) -> Result<Answer, AllocError>
        ensures { IfOk result
            (λ answer. answer.status ≡ 200 → IsToldAt size question answer.body.items) }
    {
        if let Some(refusal) = self.refusal(question) {
            return self.refuse(refusal);
        }
        self.await_decision(question, wait);
        let book = self.shared.book.lock(self.rt);
        question_answer(self.shared.alloc, &book, size, question)
    }

    /// Returns the answer about those of these questions that are in the window.
    fn questions(&self, from: u64, to: u64) -> Result<Answer, AllocError> {
        let book = self.shared.book.lock(self.rt);
        let moment = Moment {
            questions: self.shared.scope.size.questions(),
            from: book.watch().within(from),
            to: book.watch().within(to),
            after: book.position(self.shared.life),
        };
        questions_answer(self.shared.alloc, &book, &moment, time_now(self.rt))
    }

    /// Returns a transcript of the question.
    fn transcript(&self, question: u64) -> Result<Answer, AllocError> {
        if let Some(refusal) = self.refusal(question) {
            return self.refuse(refusal);
        }
        let decision = self.shared.book.lock(self.rt).decision(question);
        match decision {
            Some(bit) => self.turned(question, bit),
            None => self.without_decision(),
        }
    }

    /// Returns the reason why nothing is told of a question now.
    fn refusal(&self, question: u64) -> Option<Refusal> {
        self.shared.book.lock(self.rt).watch().refusal(question)
    }

    /// Returns a transcript of the question's decision, unless too many are being fetched.
    fn turned(&self, question: u64, bit: bool) -> Result<Answer, AllocError> {
        if self.shared.fetches.fetch_add(1, Ordering::SeqCst) >= MOST_FETCHES {
            self.shared.fetches.fetch_sub(1, Ordering::SeqCst);
            return self.refuse(Refusal::Busy);
        }
        let answer = self.fetched(question, bit);
        self.shared.fetches.fetch_sub(1, Ordering::SeqCst);
        answer
    }

    /// Returns a transcript of the question's decision.
    fn fetched(&self, question: u64, bit: bool) -> Result<Answer, AllocError> {
        match fetch(self.rt, self.shared, question, bit) {
            Ok(Fetched::Sent(sent)) => self.sent(question, bit, &sent),
            Ok(Fetched::Thin) => self.refuse(Refusal::Thin),
            Ok(Fetched::Silent) => self.refuse(Refusal::Silent),
            Err(_) => Err(AllocError),
        }
    }

    /// Returns the answer to a transcript that a member sent.
    fn sent(&self, question: u64, bit: bool, sent: &Sent) -> Result<Answer, AllocError> {
        let told = Transcript {
            question,
            bit,
            member: sent.member,
            proven: sent.proven,
            text: &sent.text,
        };
        let body = transcript_text(self.shared.alloc, &told)?;
        Ok(good_answer(Kind::Json, body))
    }

    /// Returns the refusal of a transcript of a question that isn't decided.
    fn without_decision(&self) -> Result<Answer, AllocError> {
        let reachable = self.shared.book.lock(self.rt).reachable();
        if reachable == 0 {
            self.refuse(Refusal::Silent)
        } else {
            self.refuse(Refusal::Undecided)
        }
    }

    /// Returns the outcome of a proposal of a question whose decision is known: nobody is asked.
    fn known(&self, question: u64) -> Option<Outcome> {
        let book = self.shared.book.lock(self.rt);
        let bit = book.decision(question)?;
        Some(Outcome {
            standing: Standing::Decided(bit),
            taken: 0,
            have: book.watch().teller_count(question),
        })
    }

    /// Returns the answer to a proposal of this number once members replied to it.
    fn replied(&self, number: u64, proposal: Proposal) -> Result<Answer, AllocError> {
        self.await_replies(number);
        if !self.is_refused(number) {
            self.await_decision(proposal.question, proposal.wait);
        }
        let mut book = self.shared.book.lock(self.rt);
        let standing = book.standing(proposal.question);
        let Some(motion) = book.end_motion(number) else {
            return Err(AllocError);
        };
        if !motion.is_heard() {
            book.withdraw(proposal.question);
        }
        drop(book);
        if !motion.is_heard() {
            return self.refuse(unheard(motion, self.shared.scope.size.t()));
        }
        let outcome = Outcome {
            standing,
            taken: motion.taken,
            have: motion.have,
        };
        self.proposed(proposal.question, outcome)
    }

    /// Returns `true` if more than t members refused a proposal, and none took it.
    fn is_refused(&self, number: u64) -> bool {
        match self.shared.book.lock(self.rt).motion(number) {
            Some(motion) => motion.is_refused(self.shared.scope.size.t()),
            None => false,
        }
    }

    /// Waits until each member that answers has replied to a proposal.
    fn await_replies(&self, number: u64) {
        let limit = Duration::from_millis(REPLIES);
        let book = self.shared.book.lock(self.rt);
        let (_book, _late) = self
            .shared
            .changed
            .wait_timeout_while(self.rt, book, limit, |book| { book.is_asked(number) });
    }

    /// Waits until the question is decided, for so many seconds.
    fn await_decision(&self, question: u64, seconds: u16) {
        if seconds == 0 {
            return;
        }
        let limit = Duration::from_secs(u64::from(seconds));
        let book = self.shared.book.lock(self.rt);
        let (_book, _late) = self
            .shared
            .changed
            .wait_timeout_while(self.rt, book, limit, |book| {
                book.awaits(question) && !self.shared.is_over()
            });
    }

    /// Returns the answer to a proposal of a question with this outcome.
    fn proposed(&self, question: u64, outcome: Outcome) -> Result<Answer, AllocError> {
        let Outcome {
            standing,
            taken,
            have,
        } = outcome;
        let text = proposal_text(self.shared.alloc, question, standing, taken, have)?;
        let status = match standing {
            Standing::Decided(_) => 200,
            _ => 202,
        };
        answer_of(self.shared.alloc, status, Kind::Json, text.as_bytes())
    }
}

impl<'a, R: Speaker> Cluster for Reach<'a, R> {
    ghost handed = { λ reach. reach.handed.value };

    fn read(&self, size: Size, task: Task) -> Result<Answer, AllocError> {
        let alloc = self.shared.alloc;
        match task {
            Task::Page => answer_of(alloc, 200, Kind::Page, live().as_bytes()),
            Task::Health => answer_of(alloc, 200, Kind::Json, b"{\"ok\":true}\n"),
            Task::Ready => ready_answer(self.shared, &self.shared.book.lock(self.rt)),
            Task::Metrics => metrics_answer(alloc, &self.shared.book.lock(self.rt)),
            Task::Members => members_answer(self.shared, &self.shared.book.lock(self.rt)),
            Task::Questions { from, to } => self.questions(from, to),
            Task::Question { question, wait } => self.question(size, question, wait),
            Task::Transcript(question) => self.transcript(question),
            Task::Decisions(after) => {
                let mut answer = answer_of(alloc, 200, Kind::Events, b"")?;
                answer.follow = Some(after);
                Ok(answer)
            }
            Task::Propose { .. } => self.refuse(Refusal::Method),
        }
    }

    fn propose(&mut self, proposal: Proposal) -> Result<Answer, AllocError> {
        if let Some(known) = self.known(proposal.question) {
            return self.proposed(proposal.question, known);
        }
        let time = time_now(self.rt);
        let begun = self
            .shared
            .book
            .lock(self.rt)
            .propose(proposal.question, proposal.bit, time);
        let number = match begun {
            Ok(number) => number,
            Err(refusal) => return self.refuse(refusal),
        };
        self.handed = self.handed.then(&HandedOn { proposal });
        self.shared.changed.notify_all();
        self.replied(number, proposal)
    }

    fn refuse(&self, refusal: Refusal) -> Result<Answer, AllocError> {
        self.shared.book.lock(self.rt).count_refusal();
        let text = refusal_text(self.shared.alloc, refusal)?;
        answer_of(
            self.shared.alloc,
            status_of(refusal),
            Kind::Json,
            text.as_bytes(),
        )
    }
}

/// Returns the refusal of a proposal that no member took: more than t refused it, or too few
/// answered.
fn unheard(motion: Motion, t: u8) -> Refusal {
    if motion.is_refused(t) {
        Refusal::Question
    } else {
        Refusal::Silent
    }
}
