// Rows of `read`: symbols and room, and what the reader answers.
use crate::record::{beside, case, same_record};
use crate::row::{Columns, LENT_AS};
use crate::tally::Outcome;
use message::Beside;
use navic::{Numbers, ReadRefusal, Reading};
use std::array;

// The columns of the room, of the line's six numbers, of the lent bytes afterwards and of the symbols.
const ROOM: usize = 897;

const LINE: usize = 914;

const LENT: usize = 1016;

const SYMBOLS: usize = 1097;

// The most bytes that are lent.
const MOST: usize = 40;

fn symbols(row: &[u8]) -> [u8; 600] {
    let symbols = Columns::of(row, SYMBOLS);
    array::from_fn(|k| u8::from(symbols.letter(k) == b'1'))
}

// A line's six numbers, from a column on.
pub fn line(row: &[u8], first: usize) -> Numbers {
    let numbers = Columns::of(row, first);
    Numbers {
        refusal: numbers.plain(0),
        corrected: numbers.plain(1),
        polarity: numbers.plain(2),
        subframe: numbers.plain(3),
        towc: numbers.plain(4),
        message_id: numbers.plain(5),
    }
}

// The lent bytes afterwards, where n were lent; the others are as they were.
fn lent_bytes(row: &[u8], n: usize) -> [u8; MOST] {
    let bytes = Columns::of(row, LENT);
    array::from_fn(|k| if k < n { bytes.byte(k) } else { LENT_AS })
}

fn same_reading(read: Result<Reading, ReadRefusal>, row: &[u8]) -> bool {
    match read {
        Ok(reading) => same_record(reading.entry, row) && reading.entry.beside == beside(row),
        Err(_) => case(row) == 0 && beside(row) == Beside::nothing(),
    }
}

pub fn run(row: &[u8]) -> Outcome {
    let symbols = symbols(row);
    let mut bytes = [LENT_AS; MOST];
    let n = Columns::of(row, ROOM).at_most(0, MOST);
    let read = navic::read(&symbols, &mut bytes[..n]);
    let same = navic::line(read) == line(row, LINE)
        && bytes == lent_bytes(row, n)
        && same_reading(read, row);
    same.into()
}
