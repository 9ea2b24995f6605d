// Rows of `pair`: two records, and the ephemeris that they make.
use crate::record::record;
use crate::row::Columns;
use crate::tally::Outcome;
use ephemeris::Ephemeris;

// The columns of the second record, of whether the row is run, of the refusal and of the ephemeris's 26 numbers.
const SECOND: usize = 880;

const RUN: usize = 1777;

const REFUSAL: usize = 1794;

const NUMBERS: usize = 1811;

// A row from its second record on.
fn second<'a>(row: &'a [u8]) -> &'a [u8] {
    row.get(SECOND..).unwrap_or(row)
}

// The numbers of an ephemeris, in the row's order.
fn numbers(e: Ephemeris) -> [f64; 26] {
    [
        e.wn,
        e.af0,
        e.af1,
        e.af2,
        e.ura,
        e.toc,
        e.tgd,
        e.delta_n,
        e.iodec,
        e.l5_flag,
        e.s_flag,
        e.cuc,
        e.cus,
        e.cic,
        e.cis,
        e.crc,
        e.crs,
        e.idot,
        e.m0,
        e.toe,
        e.e,
        e.root_a,
        e.omega0,
        e.omega,
        e.omega_dot,
        e.i0,
    ]
}

// Whether each has the bit pattern of the row's number, so that +0 and -0 differ; a NaN has none.
fn same_numbers(numbers: [f64; 26], row: Columns) -> bool {
    numbers
        .into_iter()
        .enumerate()
        .all(|(k, x)| !x.is_nan() && x.to_bits() == row.number(k))
}

// Tells how a row came out; one that no records can hold is skipped.
pub fn run(row: &[u8]) -> Outcome {
    if Columns::of(row, RUN).number(0) == 0 {
        return Outcome::Skipped;
    }
    // As the rows have an answer: its number, and the ephemeris or +0 throughout.
    let (refusal, ephemeris) = match ephemeris::pair(record(row), record(second(row))) {
        Some(ephemeris) => (0, ephemeris),
        None => (11, Ephemeris::zero()),
    };
    let same = refusal == Columns::of(row, REFUSAL).number(0)
        && same_numbers(numbers(ephemeris), Columns::of(row, NUMBERS));
    same.into()
}
