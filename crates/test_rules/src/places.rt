//! Sizes, places and statements of the words of rows, and the names of values.

use terms::{Place, Size, Statement, Value};
use test_words::{kind_of, size_of, value_of};

/// Returns the size of three numbers.
pub fn size_in(words: &[&str]) -> Option<Size> {
    let [n, t, questions] = words else {
        return None;
    };
    size_of(n, t, questions)
}

/// Returns the statement of six words.
pub fn statement_of(words: &[&str]) -> Option<Statement> {
    let [kind, place @ .., value] = words else {
        return None;
    };
    Statement::new(kind_of(kind)?, place_of(place)?, value_of(value)?)
}

/// Returns the place of four numbers.
pub fn place_of(words: &[&str]) -> Option<Place> {
    let [question, origin, round, step] = words else {
        return None;
    };
    let (Ok(question), Ok(origin), Ok(round), Ok(step)) = (
        question.parse(),
        origin.parse(),
        round.parse(),
        step.parse(),
    ) else {
        return None;
    };
    Place::new(question, origin, round, step)
}

/// Returns a value's name, or a dash.
pub fn name_of(value: Option<Value>) -> &'static str {
    match value {
        Some(Value::Zero) => "Zero",
        Some(Value::One) => "One",
        Some(Value::SureZero) => "SureZero",
        Some(Value::SureOne) => "SureOne",
        Some(Value::Unsure) => "Unsure",
        None => "-",
    }
}
