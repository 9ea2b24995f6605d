// How the rows of a file came out, and what is printed of it.
use std::{fmt, io};

// How a row came out; one of several that make up an input is unfinished before the last.
#[derive(Clone, Copy)]
pub enum Outcome {
    Right,
    Wrong,
    Skipped,
    Unfinished,
}

impl From<bool> for Outcome {
    fn from(same: bool) -> Outcome {
        if same { Outcome::Right } else { Outcome::Wrong }
    }
}

// The rows of a file that were run, that failed and that were skipped.
#[derive(Clone, Copy)]
pub struct Tally {
    file: &'static str,
    run: u64,
    failed: u64,
    skipped: u64,
}

impl Tally {
    pub fn new(file: &'static str) -> Self {
        Self {
            file,
            run: 0,
            failed: 0,
            skipped: 0,
        }
    }

    // Counts a row, and names it if it was not right.
    pub fn count(&mut self, rt: &impl Print, row: u64, outcome: Outcome) -> io::Result<()> {
        let file = self.file;
        match outcome {
            Outcome::Right => {
                self.run = self.run.saturating_add(1);
                Ok(())
            }
            Outcome::Wrong => {
                self.run = self.run.saturating_add(1);
                self.failed = self.failed.saturating_add(1);
                println!(rt; "{file}: failed row {row}")
            }
            Outcome::Skipped => {
                self.skipped = self.skipped.saturating_add(1);
                println!(rt; "{file}: skipped row {row}")
            }
            Outcome::Unfinished => Ok(()),
        }
    }
}

impl fmt::Display for Tally {
    fn fmt<W: fmt::Write>(&self, f: &mut fmt::Formatter<W>) -> fmt::Result {
        write!(
            f,
            "{}: {} run, {} failed, {} skipped",
            self.file, self.run, self.failed, self.skipped
        )
    }
}
