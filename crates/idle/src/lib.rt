// The idle patterns: words that a satellite sends where it has nothing to say.
#![tactic(auto)]

ghost use Rattle.std.specs.Prelude.{◌≡◌};
ghost use Rattle.idle.specs.Idle.{alternates, Inside, pattern_of, idle_of, row_of};

// A subframe's idle pattern.
#[derive(Clone, Copy)]
pub struct Row {
    // The subframe ID, and whether the alert flag is set.
    pub subframe: u8,
    pub alert: bool,
    // The first bit and the last, counted from 1.
    pub first: usize,
    pub last: usize,
    // Whether the check is sent spoiled.
    pub spoiled: bool,
}

// A row of the table, written in the order of the fields.
macro_rules! row {
    ($subframe:expr, $alert:expr, $first:expr, $last:expr, $spoiled:expr) => {
        Row {
            subframe: $subframe,
            alert: $alert,
            first: $first,
            last: $last,
            spoiled: $spoiled,
        }
    };
}

const ROWS: [Row; 4] = [
    row!(0, true, 41, 262, false),
    row!(1, true, 31, 262, false),
    row!(2, false, 37, 256, true),
    row!(3, false, 37, 256, true),
];

// The row of a body's own subframe, by bits 28 and 29.
fn row_of(body: &[u8; 262]) -> Row
    ensures value { result ≡ row_of body.now }
    ensures inside { Inside result }
{
    ROWS[usize::from(body[27] % 2) * 2 + usize::from(body[28] % 2)]
}

// Whether the bits alternate from 0.
fn alternate(bits: &[u8]) -> bool
    ensures { result ≡ alternates 0 bits.now }
{
    bits.iter()
        .enumerate()
        .all(|(i, bit)| usize::from(bit % 2) == i % 2)
}

// Whether the idle pattern of its own subframe stands in a body, bits 1 to 262 of a word.
pub fn pattern(body: &[u8; 262]) -> bool
    ensures { result ≡ pattern_of body.now }
{
    let row = row_of(body);
    let alert = u8::from(row.alert);
    body[25] % 2 == alert && alternate(&body[row.first - 1..row.last])
}

// Whether a word is idle where its check disagrees.
pub fn idle(word: &[u8; 286]) -> bool
    ensures { result ≡ idle_of word.now }
{
    let body = word.first_chunk().unwrap();
    row_of(body).spoiled && pattern(body)
}
