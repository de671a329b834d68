//! Runs of answers: of each the first number, the last one and the answer.

use std::alloc::{AllocError, Global};

/// A text of runs, and the run that isn't ended yet.
#[derive(Drop)]
pub struct Runs {
    alloc: Global,
    text: String,
    first: usize,
    next: usize,
    answer: Option<String>,
}

impl Runs {
    /// Of no number yet.
    pub fn new(alloc: Global) -> Runs {
        Runs {
            alloc,
            text: String::new(alloc),
            first: 0,
            next: 0,
            answer: None,
        }
    }

    /// The next number has that answer.
    pub fn take(&mut self, answer: String) -> Result<(), AllocError> {
        if !self.has(answer.as_str()) {
            self.end()?;
            self.answer = Some(answer);
        }
        self.next = self.next.saturating_add(1);
        Ok(())
    }

    /// Returns `true` if the run has that answer.
    fn has(&self, answer: &str) -> bool {
        match &self.answer {
            Some(own) => own.as_str() == answer,
            None => false,
        }
    }

    /// All runs.
    pub fn finish(mut self) -> Result<String, AllocError> {
        self.end()?;
        Ok(self.text)
    }

    /// Ends the run.
    fn end(&mut self) -> Result<(), AllocError> {
        if let Some(answer) = &self.answer {
            let space = if self.first == 0 { "" } else { " " };
            let (first, last) = (self.first, self.next.saturating_sub(1));
            let run = format!(in self.alloc; "{space}{first}-{last} {answer}")?;
            self.text.push_str(run.as_str())?;
        }
        self.first = self.next;
        Ok(())
    }
}
