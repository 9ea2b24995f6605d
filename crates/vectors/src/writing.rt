// Rows of `write`: a record and room, and what the writer answers.
use crate::record;
use crate::row::{Columns, LENT_AS};
use crate::tally::Outcome;
use navic::WriteRefusal;
use std::array;

// The columns of whether the row is run, of the room, of the refusal and the number beside it, and of the lent bytes afterwards.
const RUN: usize = 897;

const ROOM: usize = 914;

const REFUSAL: usize = 931;

const LENT: usize = 965;

// The most bytes that are lent.
const MOST: usize = 603;

// As the rows have an answer: its number, and the number beside it.
fn numbers(written: Result<(), WriteRefusal>) -> (u32, u32) {
    match written {
        Ok(()) => (0, 0),
        Err(refusal) => (refusal.number(), u32::from(refusal.first_bit())),
    }
}

// What a letter says of a lent byte; one that was not lent is as it was.
fn lent(letter: u8) -> u8 {
    match letter {
        b'0' => 0,
        b'1' => 1,
        _ => LENT_AS,
    }
}

// The lent bytes afterwards.
fn lent_bytes(row: &[u8]) -> [u8; MOST] {
    let letters = Columns::of(row, LENT);
    array::from_fn(|k| lent(letters.letter(k)))
}

pub fn run(row: &[u8]) -> Outcome {
    if Columns::of(row, RUN).number(0) == 0 {
        return Outcome::Skipped;
    }
    let mut bytes = [LENT_AS; MOST];
    let n = Columns::of(row, ROOM).at_most(0, MOST);
    let written = numbers(navic::write(record::entry(row), &mut bytes[..n]));
    let refusal = Columns::of(row, REFUSAL);
    let same = written == (refusal.plain(0), refusal.plain(1)) && bytes == lent_bytes(row);
    same.into()
}
