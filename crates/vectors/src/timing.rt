// Rows of `time`: a count, and the second at which its subframe began.
use crate::row::Columns;
use crate::tally::Outcome;
use weektime::Towc;

// The column of the count, the refusal and the second.
const COUNT: usize = 17;

pub fn run(row: &[u8]) -> Outcome {
    let row = Columns::of(row, COUNT);
    // As the rows have an answer: its number, and the second or 0.
    let found = match weektime::began_at(Towc::new(row.plain(0))) {
        Some(second) => (0, second.second()),
        None => (7, 0),
    };
    (found == (row.plain(1), row.plain(2))).into()
}
