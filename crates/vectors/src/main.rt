// Runs the outside vectors through the public calls, and prints for each file the rows that fail or are skipped and how many there were.
#![tactic(auto)]

use input::Input;
use row::Columns;
use std::io::Read;
use std::rt::Files;
use std::{fs, io};
use tally::{Outcome, Tally};

mod input;
mod pairing;
mod reading;
mod record;
mod row;
mod tally;
mod timing;
mod walking;
mod writing;

// A file of rows: the length of a row, and the column at which it says which line of the vectors' file it was made of.
#[derive(Clone, Copy)]
struct File {
    name: &'static str,
    path: &'static str,
    size: usize,
    line: usize,
}

const CASES: File = File {
    name: "cases",
    path: "cases.txt",
    size: 764,
    line: 0,
};

const READ: File = File {
    name: "read",
    path: "read.txt",
    size: 1698,
    line: 880,
};

const WRITE: File = File {
    name: "write",
    path: "write.txt",
    size: 1569,
    line: 880,
};

const PAIR: File = File {
    name: "pair",
    path: "pair.txt",
    size: 2253,
    line: 1760,
};

const TIME: File = File {
    name: "time",
    path: "time.txt",
    size: 68,
    line: 0,
};

// Runs the rows of a file. The turns are counted, up to a number that no run comes to, since nothing says that a file ends.
fn run_rows<F: FnMut(&[u8]) -> Outcome>(
    rt: &impl Print,
    rows: &mut impl Read,
    file: File,
    mut outcome: F,
) -> io::Result<Tally>
    requires { F.IsAlwaysCallable outcome }
{
    let mut lent = [0u8; 4096];
    let mut tally = Tally::new(file.name);
    for _ in 0..u64::MAX {
        let Some(row) = row::next_row(rows, &mut lent, file.size)? else {
            break;
        };
        tally.count(rt, Columns::of(row, file.line).number(0), outcome(row))?;
    }
    Ok(tally)
}

fn run<F: FnMut(&[u8]) -> Outcome>(
    rt: &(impl Files + Print),
    file: File,
    outcome: F,
) -> io::Result<()>
    requires { F.IsAlwaysCallable outcome }
{
    let mut rows = fs::open(rt, file.path)?;
    let tally = run_rows(rt, &mut rows, file, outcome)?;
    println!(rt; "{tally}")
}

// Ends with an error where a file can't be opened or read, or a line can't be written.
fn main(rt: HostRuntime) -> io::Result<()> {
    let mut input = Input::new();
    run(&rt, CASES, |row| input.take(row))?;
    run(&rt, READ, reading::run)?;
    run(&rt, WRITE, writing::run)?;
    run(&rt, PAIR, pairing::run)?;
    run(&rt, TIME, timing::run)?;
    let tally = walking::run(&rt)?;
    println!(&rt; "{tally}")
}
