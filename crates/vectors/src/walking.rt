// The rows of `recordings`, and for each those of `walk`: a start, and the window that is found from there.
use crate::row::{Columns, digit, next_row};
use crate::tally::{Outcome, Tally};
use recording::{FoundWindow, WalkRefusal};
use std::io::Read;
use std::rt::Files;
use std::{array, fs, io};

// The columns of a recording's length, of whether it is nothing but zeros, and of its symbols.
const LENGTH: usize = 17;

const ZEROS: usize = 34;

const SYMBOLS: usize = 51;

// The columns of a start, and of the answer's number, start, end and place.
const START: usize = 17;

const ANSWER: usize = 34;

// The lengths of the rows.
const RECORDING: usize = 3102;

const WALK: usize = 102;

fn symbols(row: &[u8]) -> [u8; 3050] {
    let symbols = Columns::of(row, SYMBOLS);
    array::from_fn(|k| digit(symbols.letter(k)))
}

// As the rows have an answer: its number, and the window's start and where the walk then stands, or what stands in their place.
fn numbers(found: Result<FoundWindow, WalkRefusal>) -> (u8, usize, usize) {
    match found {
        Ok(window) => (0, window.start, window.after),
        Err(refusal) => (refusal.number(), refusal.place(), refusal.place()),
    }
}

fn outcome(recording: &[u8], row: &[u8]) -> Outcome {
    let from = Columns::of(row, START).number(0) as usize;
    let (number, start, after) = numbers(recording::find(recording, from));
    let end = start.wrapping_add(recording::window(recording, from).len());
    let found = [u64::from(number), start as u64, end as u64, after as u64];
    let answer = Columns::of(row, ANSWER);
    (found == array::from_fn(|k| answer.number(k))).into()
}

// Runs the next rows of `walk` over a recording.
fn run_starts(
    rt: &impl Print,
    walk: &mut impl Read,
    recording: &[u8],
    rows: u64,
    tally: &mut Tally,
) -> io::Result<()> {
    let mut lent = [0u8; WALK];
    for _ in 0..rows {
        let Some(row) = next_row(walk, &mut lent, WALK)? else {
            break;
        };
        tally.count(rt, Columns::of(row, 0).number(0), outcome(recording, row))?;
    }
    Ok(())
}

// Runs the rows of `walk` over the recording of a row: its symbols or as many zeros, at most as many as there are.
fn run_recording(
    rt: &impl Print,
    walk: &mut impl Read,
    row: &[u8],
    tally: &mut Tally,
) -> io::Result<()> {
    let rows = Columns::of(row, 0).number(0);
    let length = Columns::of(row, LENGTH);
    if Columns::of(row, ZEROS).flag(0) {
        let n = length.at_most(0, 65537);
        run_starts(rt, walk, &[0; 65537][..n], rows, tally)
    } else {
        let n = length.at_most(0, 3050);
        run_starts(rt, walk, &symbols(row)[..n], rows, tally)
    }
}

// Runs all recordings. The turns are counted, up to a number that no run comes to, since nothing says that a file ends.
pub fn run(rt: &(impl Files + Print)) -> io::Result<Tally> {
    let mut recordings = fs::open(rt, "recordings.txt")?;
    let mut walk = fs::open(rt, "walk.txt")?;
    let mut lent = [0u8; RECORDING];
    let mut tally = Tally::new("walk");
    for _ in 0..u64::MAX {
        let Some(row) = next_row(&mut recordings, &mut lent, RECORDING)? else {
            break;
        };
        run_recording(rt, &mut walk, row, &mut tally)?;
    }
    Ok(tally)
}
