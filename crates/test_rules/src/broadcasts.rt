//! Reliable broadcast at one place.
//!
//! `at N T STEP` is member 1 of a cluster at the place of question 0, origin 0, round 1 and that
//! step. `hear FROM KIND VALUE` answers how the statement is taken, and what then stands: the value
//! of the Echo that is due, of the Ready that is due, and the one that is accepted. `say KIND
//! VALUE` answers what then stands. `receive FROM KIND VALUE` answers how the statement is taken
//! and what it brings, and says at once what is due for it.
ghost use Rattle.std.specs.Prelude.{◌≡◌, ◌<◌};
ghost use Rattle.rbc.specs.Readers.{broadcasts_size};

use crate::places::name_of;
use rbc::{Broadcasts, Taken};
use std::alloc::Global;
use terms::Kind::{Echo, Ready};
use terms::{Kind, Place, Size, Statement, Value};
use test_words::{kind_of, size_of, value_of, words_of};

/// The broadcasts, where there are some.
#[derive(Drop)]
pub struct Casts {
    alloc: Global,
    cast: Option<Cast>,
}

impl Casts {
    /// Of no cluster yet.
    pub fn new(alloc: Global) -> Casts {
        Casts { alloc, cast: None }
    }

    /// Plays a row.
    pub fn told(&mut self, action: &str) -> Option<String> {
        let words = words_of(self.alloc, action)?;
        let (word, rest) = words.as_slice().split_first()?;
        self.worded(word, rest)
    }

    /// Plays a row of this word and of those behind it.
    fn worded(&mut self, word: &str, rest: &[&str]) -> Option<String> {
        match (word, &mut self.cast) {
            ("at", _) => self.begin(rest),
            (word, Some(cast)) => cast.told(self.alloc, word, rest),
            (_, None) => None,
        }
    }

    /// Begins at a place.
    fn begin(&mut self, words: &[&str]) -> Option<String> {
        let [n, t, step] = words else {
            return None;
        };
        self.cast = unheard(self.alloc, size_of(n, t, "1")?, step.parse().ok()?);
        Some(String::new(self.alloc))
    }
}

/// Nothing was heard yet at the place of that step, in a cluster of that size.
fn unheard(alloc: Global, size: Size, step: u8) -> Option<Cast> {
    let Some(place) = Place::new(0, 0, 1, step) else {
        return None;
    };
    if place.origin() >= size.n() {
        return None;
    }
    let broadcasts = Broadcasts::new(alloc, size, 1);
    Some(Cast {
        size,
        place,
        broadcasts,
    })
}

/// The broadcasts of a cluster, and the place of the rows.
#[derive(Drop)]
struct Cast {
    size: Size,
    place: Place,
    broadcasts: Broadcasts,
    ghost made_for: { broadcasts_size broadcasts ≡ size },
    ghost origin: { place.origin < size.n },
}

impl Cast {
    /// Plays a row of this word and of those behind it.
    fn told(&mut self, alloc: Global, word: &str, rest: &[&str]) -> Option<String> {
        match word {
            "hear" => self.hear(alloc, rest),
            "say" => self.tell(alloc, rest),
            "receive" => self.bring(alloc, rest),
            _ => None,
        }
    }

    /// Hears a statement.
    fn hear(&mut self, alloc: Global, words: &[&str]) -> Option<String> {
        let (from, kind, value) = heard_of(words)?;
        let Some(said) = Statement::new(kind, self.place, value) else {
            return None;
        };
        if from >= self.size.n() {
            return None;
        }
        let heard = self.broadcasts.hear(from, &said).ok()?;
        let state = self.state(alloc)?;
        format!(in alloc; "{heard:?} {state}").ok()
    }

    /// Says a statement, and answers what then stands.
    fn tell(&mut self, alloc: Global, words: &[&str]) -> Option<String> {
        let [kind, value] = words else {
            return None;
        };
        self.say(kind_of(kind)?, value_of(value)?)?;
        self.state(alloc)
    }

    /// Returns what stands at the place.
    fn state(&self, alloc: Global) -> Option<String> {
        let due = self.broadcasts.due(self.place);
        names(
            alloc,
            due.echo,
            due.ready,
            self.broadcasts.accepted(self.place),
        )
    }

    /// Receives a statement, and says what is due for it.
    fn bring(&mut self, alloc: Global, words: &[&str]) -> Option<String> {
        match self.receive(words)? {
            Taken::News(brought) => {
                if let Some(echo) = brought.due.echo {
                    self.say(Echo, echo)?;
                }
                if let Some(ready) = brought.due.ready {
                    self.say(Ready, ready)?;
                }
                let values = names(alloc, brought.due.echo, brought.due.ready, brought.accepted)?;
                format!(in alloc; "News {values}").ok()
            }
            Taken::Repeat => format!(in alloc; "Repeat").ok(),
            Taken::Foreign => format!(in alloc; "Foreign").ok(),
        }
    }

    /// Receives a statement.
    fn receive(&mut self, words: &[&str]) -> Option<Taken> {
        let (from, kind, value) = heard_of(words)?;
        let Some(said) = Statement::new(kind, self.place, value) else {
            return None;
        };
        if from >= self.size.n() {
            return None;
        }
        self.broadcasts.receive(from, &said).ok()
    }

    /// Says a statement, where it is one.
    fn say(&mut self, kind: Kind, value: Value) -> Option<()> {
        let Some(said) = Statement::new(kind, self.place, value) else {
            return None;
        };
        self.broadcasts.say(&said).ok()
    }
}

/// Returns the sender, the kind and the value of three words.
fn heard_of(words: &[&str]) -> Option<(u8, Kind, Value)> {
    let [from, kind, value] = words else {
        return None;
    };
    let (Ok(from), Some(kind), Some(value)) = (from.parse(), kind_of(kind), value_of(value)) else {
        return None;
    };
    Some((from, kind, value))
}

/// The names of three values.
fn names(
    alloc: Global,
    echo: Option<Value>,
    ready: Option<Value>,
    accepted: Option<Value>,
) -> Option<String> {
    let (echo, ready, accepted) = (name_of(echo), name_of(ready), name_of(accepted));
    format!(in alloc; "{echo} {ready} {accepted}").ok()
}
