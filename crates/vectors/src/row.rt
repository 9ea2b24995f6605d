// What a row of a file holds: numbers, bytes and letters by their columns.
ghost use Rattle.std.specs.Prelude.{◌<◌, ◌≤◌};

use std::io::{self, ErrorKind, Read};

// What a byte that is lent holds before the call.
pub const LENT_AS: u8 = 0xa5;

// What a hexadecimal digit means; 0 for any other letter, A to F too, which std's `to_digit` takes.
pub fn digit(letter: u8) -> u8
    ensures { result < 16 }
{
    match letter {
        b'0'..=b'9' => letter - b'0',
        b'a'..=b'f' => letter - b'a' + 10,
        _ => 0,
    }
}

// A row from a column on.
#[derive(Clone, Copy)]
pub struct Columns<'a>(&'a [u8]);

impl<'a> Columns<'a> {
    pub fn of(row: &'a [u8], first: usize) -> Self {
        Self(row.get(first..).unwrap_or(&[]))
    }

    // The k-th letter; past the row's end the digit 0.
    pub fn letter(self, k: usize) -> u8 {
        self.0.get(k).copied().unwrap_or(b'0')
    }

    // The k-th of the bytes, two digits each.
    pub fn byte(self, k: usize) -> u8 {
        let (bytes, _) = self.0.as_chunks::<2>();
        match bytes.get(k) {
            Some(&[high, low]) => digit(high) * 16 + digit(low),
            None => 0,
        }
    }

    // The k-th of the numbers, sixteen digits and a blank each; past the row's end 0.
    pub fn number(self, k: usize) -> u64 {
        let (numbers, _) = self.0.as_chunks::<17>();
        match numbers.get(k) {
            Some(number) => number
                .iter()
                .take(16)
                .fold(0, |n, &letter| n << 4 | u64::from(digit(letter))),
            None => 0,
        }
    }

    // The same as a length of at most so much.
    pub fn at_most(self, k: usize, limit: usize) -> usize
        ensures { result ≤ limit }
    {
        self.number(k).min(limit as u64) as usize
    }

    // The same as the field of a record.
    pub fn plain(self, k: usize) -> u32 {
        (self.number(k) & 0xffff_ffff) as u32
    }

    // The same by its sign and its lowest 31 bits.
    pub fn signed(self, k: usize) -> i32 {
        let n = self.number(k);
        let sign = (n >> 63) as u32;
        let low = (n & 0x7fff_ffff) as u32;
        (sign << 31 | low).cast_signed()
    }

    pub fn flag(self, k: usize) -> bool {
        self.number(k) == 1
    }
}

// Reads the next row of a file, if there is a whole one, into what is lent. Its callers loop by themselves: with one loop over a closure that calls
// another the search finds no proof that it may be called.
pub fn next_row<'a>(
    rows: &mut impl Read,
    lent: &'a mut [u8],
    size: usize,
) -> io::Result<Option<&'a [u8]>> {
    let Some(row) = lent.get_mut(..size) else {
        return Ok(None);
    };
    match rows.read_exact(row) {
        Ok(()) => Ok(Some(row)),
        Err(e) if e.kind() == ErrorKind::UnexpectedEof => Ok(None),
        Err(e) => Err(e),
    }
}
