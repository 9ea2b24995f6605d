// Rows of `cases`: an input of the program in pieces, and the line that it prints.
use crate::reading;
use crate::row::Columns;
use crate::tally::Outcome;

// The columns of whether the piece is the input's last, of its length, of the line's six numbers and of the piece, and the longest piece.
const LAST: usize = 17;

const LENGTH: usize = 34;

const LINE: usize = 51;

const PIECE: usize = 153;

const LONGEST: usize = 610;

// The piece of a row.
fn piece<'a>(row: &'a [u8]) -> &'a [u8] {
    let n = Columns::of(row, LENGTH).at_most(0, LONGEST);
    row.get(PIECE..PIECE + n).unwrap_or(&[])
}

// The symbols of an input that were kept, and how many there were.
#[derive(Drop)]
pub struct Input {
    kept: [u8; 600],
    count: u64,
}

impl Input {
    pub fn new() -> Self {
        Self {
            kept: [0; 600],
            count: 0,
        }
    }

    // Takes the piece of a row; at the last one tells how the input came out, and the next begins with nothing counted.
    pub fn take(&mut self, row: &[u8]) -> Outcome {
        self.count = navic::input::gather(&mut self.kept, self.count, piece(row));
        if Columns::of(row, LAST).number(0) == 0 {
            return Outcome::Unfinished;
        }
        let line = navic::input::line(&self.kept, self.count);
        self.count = 0;
        (line == reading::line(row, LINE)).into()
    }
}
