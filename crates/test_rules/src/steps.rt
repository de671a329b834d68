//! What follows from the messages of a step, what is valid, and what a member says and decides by
//! it.
//!
//! `follow N T STEP ZERO ONE UNSURE` answers the values that follow from so many messages for 0,
//! for 1 and for neither. `question N T` is question 0 at member 0 of a cluster. `accept ROUND STEP
//! VALUE ..` accepts the values of a step, from origin 0 on, with `-` for none; `fill ROUND STEP
//! COUNT VALUE` that value of so many origins. `valid ROUND STEP` answers the values of all origins
//! that are valid, and `tally ROUND STEP` how many are for 0, for 1 and for neither. `say ROUND
//! STEP VALUE` is an Initial of its own, `heard KIND ORIGIN VALUE` another statement that is noted,
//! `decide QUESTION ROUND BIT` a decision. `next TOSS` answers the Initial that is due, `due` the
//! decision that is due, `verdict` the one that was made. `toss BYTE STREAM` is the first toss of a
//! stream, whose seed has that byte 32 times.
ghost use Rattle.std.specs.Prelude.{◌≡◌};
ghost use Rattle.validate.specs.Readers.{steps_size, steps_question};
ghost use Rattle.rounds.specs.Readers.{question_size, question_number};

use crate::places::name_of;
use rounds::{ChaChaTosser, Question, Tosser};
use std::alloc::{AllocError, Global};
use terms::Kind::Initial;
use terms::Value::{One, SureOne, SureZero, Unsure, Zero};
use terms::{Kind, Place, Record, Size, Statement, Value};
use test_words::{kind_of, size_of, toss_of, value_of, words_of};
use validate::{Steps, Tally, may_follow};

const VALUES: [Value; 5] = [Zero, One, SureZero, SureOne, Unsure];

/// A question and the steps of its messages, in a cluster.
#[derive(Drop)]
struct Asked {
    size: Size,
    steps: Steps,
    question: Question,
    ghost steps_for: { steps_size steps ≡ size },
    ghost steps_first: { steps_question steps ≡ 0 },
    ghost made_for: { question_size question ≡ size },
    ghost first: { question_number question ≡ 0 },
}

impl Asked {
    /// Plays a row of this word and of those behind it.
    fn told(&mut self, alloc: Global, word: &str, rest: &[&str]) -> Option<String> {
        match (word, rest) {
            ("valid", rest) => self.valid(alloc, rest),
            ("tally", rest) => self.tally(alloc, rest),
            ("next", rest) => self.next(alloc, rest),
            ("due", []) => decision_text(alloc, self.question.decision_due()),
            ("verdict", []) => decision_text(alloc, self.question.verdict()),
            (word, rest) => {
                self.hear(word, rest)?;
                Some(String::new(alloc))
            }
        }
    }

    /// The values of all origins that are valid.
    fn valid(&self, alloc: Global, words: &[&str]) -> Option<String> {
        let [round, step] = words else {
            return None;
        };
        let (round, step) = step_of(round, step)?;
        let mut text = String::new(alloc);
        for origin in 0..self.size.n() {
            let place = Place::new(0, origin, round, step)?;
            append(&mut text, self.steps.valid(place)).ok()?;
        }
        Some(text)
    }

    /// The numbers of values that are valid.
    fn tally(&self, alloc: Global, words: &[&str]) -> Option<String> {
        let [round, step] = words else {
            return None;
        };
        let (round, step) = step_of(round, step)?;
        let tally = self.steps.tally(round, step);
        format!(in alloc; "{} {} {}", tally.zero, tally.one, tally.unsure).ok()
    }

    /// The Initial that is due, or a dash.
    fn next(&self, alloc: Global, words: &[&str]) -> Option<String> {
        let [toss] = words else {
            return None;
        };
        match self.question.next(toss_of(alloc, toss)?) {
            Some(next) => {
                let (round, step, value) = (
                    next.place().round(),
                    next.place().step(),
                    next.value(),
                );
                format!(in alloc; "{round} {step} {value:?}").ok()
            }
            None => format!(in alloc; "-").ok(),
        }
    }

    /// Tells it what these words say.
    fn hear(&mut self, word: &str, rest: &[&str]) -> Option<()> {
        match word {
            "accept" => self.accept_all(rest),
            "fill" => self.accept_many(rest),
            "say" => self.say(rest),
            "heard" => self.note_heard(rest),
            "decide" => self.decide(rest),
            _ => None,
        }
    }

    /// Accepts the values of a step, from origin 0 on.
    fn accept_all(&mut self, words: &[&str]) -> Option<()> {
        let [round, step, values @ ..] = words else {
            return None;
        };
        let (round, step) = step_of(round, step)?;
        for (origin, value) in (0..32).zip(values) {
            self.accept_one(origin, round, step, value)?;
        }
        Some(())
    }

    /// Accepts a value of an origin, unless it is a dash.
    fn accept_one(&mut self, origin: u8, round: u8, step: u8, value: &str) -> Option<()> {
        if value == "-" {
            return Some(());
        }
        self.accept(origin, round, step, value_of(value)?)
    }

    /// Accepts one value of many origins.
    fn accept_many(&mut self, words: &[&str]) -> Option<()> {
        let [round, step, count, value] = words else {
            return None;
        };
        let (round, step) = step_of(round, step)?;
        let (Ok(count), Some(value)) = (count.parse(), value_of(value)) else {
            return None;
        };
        self.fill(round, step, count, value)
    }

    /// Accepts that value of so many origins.
    fn fill(&mut self, round: u8, step: u8, count: u8, value: Value) -> Option<()> {
        for origin in 0..count {
            self.accept(origin, round, step, value)?;
        }
        Some(())
    }

    /// Accepts a value of an origin, in the steps and in the question.
    fn accept(&mut self, origin: u8, round: u8, step: u8, value: Value) -> Option<()> {
        let Some(place) = Place::new(0, origin, round, step) else {
            return None;
        };
        let Some(said) = Statement::new(Initial, place, value) else {
            return None;
        };
        if origin >= self.size.n() {
            return None;
        }
        self.steps.accept(said.place(), said.value()).ok()?;
        self.question.accept(said.place(), said.value()).ok()
    }

    /// Notes an Initial of its own.
    fn say(&mut self, words: &[&str]) -> Option<()> {
        let [round, step, value] = words else {
            return None;
        };
        self.note(Initial, 0, step_of(round, step)?, value_of(value)?)
    }

    /// Notes another statement.
    fn note_heard(&mut self, words: &[&str]) -> Option<()> {
        let [kind, origin, value] = words else {
            return None;
        };
        let (Some(kind), Ok(origin), Some(value)) = (kind_of(kind), origin.parse(), value_of(value))
        else {
            return None;
        };
        self.note(kind, origin, (1, 1), value)
    }

    /// Notes that this was said.
    fn note(&mut self, kind: Kind, origin: u8, place: (u8, u8), value: Value) -> Option<()> {
        let (round, step) = place;
        let said = Statement::new(kind, Place::new(0, origin, round, step)?, value)?;
        self.question.note(&Record::Said(said));
        Some(())
    }

    /// Notes a decision.
    fn decide(&mut self, words: &[&str]) -> Option<()> {
        let [question, round, bit] = words else {
            return None;
        };
        let (Ok(question), Ok(round)) = (question.parse(), round.parse()) else {
            return None;
        };
        let decided = Record::Decided {
            question,
            round,
            bit: *bit == "1",
        };
        self.question.note(&decided);
        Some(())
    }
}

/// The question, where there is one.
#[derive(Drop)]
pub struct Questions {
    alloc: Global,
    asked: Option<Asked>,
}

impl Questions {
    /// No question yet.
    pub fn new(alloc: Global) -> Questions {
        Questions { alloc, asked: None }
    }

    /// Plays a row.
    pub fn told(&mut self, action: &str) -> Option<String> {
        let words = words_of(self.alloc, action)?;
        let (word, rest) = words.as_slice().split_first()?;
        self.worded(word, rest)
    }

    /// Plays a row of this word and of those behind it.
    fn worded(&mut self, word: &str, rest: &[&str]) -> Option<String> {
        match word {
            "question" => self.begin(rest),
            "follow" => followed(self.alloc, rest),
            "toss" => toss_text(self.alloc, rest),
            word => self.ask(word, rest),
        }
    }

    /// Begins with a question of a cluster of that size.
    fn begin(&mut self, words: &[&str]) -> Option<String> {
        let [n, t] = words else {
            return None;
        };
        self.asked = Some(unasked(self.alloc, size_of(n, t, "1")?));
        Some(String::new(self.alloc))
    }

    /// Plays a row of the question.
    fn ask(&mut self, word: &str, rest: &[&str]) -> Option<String> {
        match &mut self.asked {
            Some(asked) => asked.told(self.alloc, word, rest),
            None => None,
        }
    }
}

/// Plays a row of what follows.
fn followed(alloc: Global, words: &[&str]) -> Option<String> {
    let [n, t, step, counts @ ..] = words else {
        return None;
    };
    let (size, step) = (size_of(n, t, "1")?, step.parse().ok()?);
    followers(alloc, size, step, &tally_of(counts)?).ok()
}

/// Returns the tally of three numbers.
fn tally_of(words: &[&str]) -> Option<Tally> {
    let [zero, one, unsure] = words else {
        return None;
    };
    let (Ok(zero), Ok(one), Ok(unsure)) = (zero.parse(), one.parse(), unsure.parse()) else {
        return None;
    };
    Some(Tally { zero, one, unsure })
}

/// The values that follow, or a dash.
fn followers(alloc: Global, size: Size, step: u8, tally: &Tally) -> Result<String, AllocError> {
    let mut text = String::new(alloc);
    for value in VALUES {
        if may_follow(size, step, tally, value) {
            append(&mut text, Some(value))?;
        }
    }
    if text.is_empty() {
        append(&mut text, None)?;
    }
    Ok(text)
}

/// Appends a value, or a dash, with a space before it unless it is the first.
fn append(text: &mut String, value: Option<Value>) -> Result<(), AllocError> {
    if !text.is_empty() {
        text.push_str(" ")?;
    }
    text.push_str(name_of(value))
}

/// Returns the round and the step of two words.
fn step_of(round: &str, step: &str) -> Option<(u8, u8)> {
    Some((round.parse().ok()?, step.parse().ok()?))
}

/// A decision, or a dash.
fn decision_text(alloc: Global, decision: Option<(u8, bool)>) -> Option<String> {
    match decision {
        Some((round, bit)) => format!(in alloc; "{round} {}", u8::from(bit)).ok(),
        None => format!(in alloc; "-").ok(),
    }
}

/// Question 0 at member 0, of which nothing is known.
fn unasked(alloc: Global, size: Size) -> Asked {
    let steps = Steps::new(alloc, size, 0);
    let question = Question::new(alloc, size, 0, 0);
    Asked {
        size,
        steps,
        question,
    }
}

/// The first toss of a stream.
fn toss_text(alloc: Global, words: &[&str]) -> Option<String> {
    let [byte, stream] = words else {
        return None;
    };
    let (Ok(byte), Ok(stream)) = (byte.parse(), stream.parse()) else {
        return None;
    };
    let toss = ChaChaTosser::from_seed([byte; 32], stream).toss();
    format!(in alloc; "{:016x}", toss.0).ok()
}
