// The calls for C and for Rust, over numbers and slices. A record is 42 numbers of C's int64_t in the table's order, what stands beside it among
// them, and 0 behind them; here they are the same 64 bits as u64.
#![tactic(auto)]

ghost use Rattle.std.specs.Prelude.{◌≡◌, length};
ghost use Rattle.demands.specs.Family.{write_into};
ghost use Rattle.recording.specs.Walk.{found_from};
ghost use Rattle.navic_c.specs.Numbers.{numbered};
ghost use Rattle.navic_c.specs.declared.Refusal.TheVariants.{Record};
ghost use Rattle.navic_c.specs.Calls.{int64, read_from, line_of_numbers, word_after, numbers_after, written_as, written_of, pair_in, paired_as, paired_of, idle_of_numbers, found_as, began_as, began_from, counted_as, counted_from, decoded_as, nearest_answer, nearest_into};

use ephemeris::Ephemeris;
use given::Given;
use navic::{Numbers, WriteRefusal};
use recording::{FoundWindow, WalkRefusal};
use weektime::{SecondOfWeek, Towc};

mod given;
mod lent;

// Why numbers are not written: they are not 42, or the record that they say is refused.
#[derive(Clone, Copy, Debug, PartialEq, Eq)]
pub enum Refusal {
    Count,
    Record(WriteRefusal),
}

impl From<WriteRefusal> for Refusal {
    ghost from_gives = { λ y z. z ≡ Record y };

    fn from(refusal: WriteRefusal) -> Refusal {
        Refusal::Record(refusal)
    }
}

// Why the decoder alone gives no word.
#[derive(Clone, Copy, Debug, PartialEq, Eq)]
pub enum DecodeRefusal {
    Length,
    Room,
    BadSymbol,
}

// C reads the structs below, so a refusal is its number of include/navic.h there, with 0 beside it where nothing is said.

// What the writer answers; beside 8 the first bit of the lowest field at fault.
#[repr(C)]
#[derive(Clone, Copy)]
pub struct Written {
    pub refusal: u32,
    pub first_bit: u32,
}

impl From<Result<(), Refusal>> for Written {
    ghost from_gives = { λ y w. w ≡ written_as y };

    fn from(answer: Result<(), Refusal>) -> Written {
        let (refusal, first_bit) = match answer {
            Ok(()) => (0, 0),
            Err(Refusal::Count) => (1, 0),
            Err(Refusal::Record(y)) => (y.number(), u32::from(y.first_bit())),
        };
        Written { refusal, first_bit }
    }
}

// Refusal 0 or 11; +0 throughout where refused.
#[repr(C)]
#[derive(Clone, Copy)]
pub struct Paired {
    pub refusal: u8,
    pub ephemeris: Ephemeris,
}

impl From<Option<Ephemeris>> for Paired {
    ghost from_gives = { λ n p. p ≡ paired_as n };

    fn from(pair: Option<Ephemeris>) -> Paired {
        match pair {
            Some(ephemeris) => Paired {
                refusal: 0,
                ephemeris,
            },
            None => Paired {
                refusal: 11,
                ephemeris: Ephemeris::zero(),
            },
        }
    }
}

// A window: 0, where it starts, and where the walk then stands; 4 and twice the recording's end where no such place is left; 1 and zeros for a recording
// above 65,536 symbols.
#[repr(C)]
#[derive(Clone, Copy)]
pub struct Found {
    pub number: u8,
    pub start: usize,
    pub after: usize,
}

impl From<Result<FoundWindow, WalkRefusal>> for Found {
    ghost from_gives = { λ w f. f ≡ found_as w };

    fn from(found: Result<FoundWindow, WalkRefusal>) -> Found {
        let (number, start, after) = match found {
            Ok(window) => (0, window.start, window.after),
            Err(refusal) => (refusal.number(), refusal.place(), refusal.place()),
        };
        Found {
            number,
            start,
            after,
        }
    }
}

// The second at which a subframe began, or 7.
#[repr(C)]
#[derive(Clone, Copy)]
pub struct Began {
    pub refusal: u32,
    pub second: u32,
}

impl From<Option<SecondOfWeek>> for Began {
    ghost from_gives = { λ s b. b ≡ began_as s };

    fn from(began: Option<SecondOfWeek>) -> Began {
        match began {
            Some(s) => Began {
                refusal: 0,
                second: s.second(),
            },
            None => Began {
                refusal: 7,
                second: 0,
            },
        }
    }
}

// The count of the subframe in which a second lies, or 7: alike but for the number's name, by which C asks for it.
#[repr(C)]
#[derive(Clone, Copy)]
pub struct Counted {
    pub refusal: u32,
    pub towc: u32,
}

impl From<Option<Towc>> for Counted {
    ghost from_gives = { λ t c. c ≡ counted_as t };

    fn from(counted: Option<Towc>) -> Counted {
        match counted {
            Some(t) => Counted {
                refusal: 0,
                towc: t.count(),
            },
            None => Counted {
                refusal: 7,
                towc: 0,
            },
        }
    }
}

// What the decoder alone answers: 0, 1, 2 or 3, and the corrected count.
#[repr(C)]
#[derive(Clone, Copy)]
pub struct Decoded {
    pub refusal: u32,
    pub corrected: u32,
}

impl From<Result<u32, DecodeRefusal>> for Decoded {
    ghost from_gives = { λ n d. d ≡ decoded_as n };

    fn from(answer: Result<u32, DecodeRefusal>) -> Decoded {
        let (refusal, corrected) = match answer {
            Ok(corrected) => (0, corrected),
            Err(DecodeRefusal::Length) => (1, 0),
            Err(DecodeRefusal::Room) => (2, 0),
            Err(DecodeRefusal::BadSymbol) => (3, 0),
        };
        Decoded { refusal, corrected }
    }
}

// Reads 600 symbols. Done, the word's bits are put into the first 36 bytes of `word` and the record's numbers into the first 42 of `numbers`.
#[tactic(auto, using(crate::proofs::Answered::few_value, crate::proofs::Answered::few_word, crate::proofs::Answered::few_numbers, crate::proofs::Answered::enough_value, crate::proofs::Answered::enough_word, crate::proofs::Answered::enough_numbers))]
#[unsafe(no_mangle)]
pub extern "C" fn navic_read(symbols: &[u8], word: &mut [u8], numbers: &mut [u64]) -> Numbers
    ensures value { result ≡ line_of_numbers (read_from symbols.now (length word.old) (length numbers.old)) }
    ensures word_after { word.new ≡ word_after symbols.now word.old (length numbers.old) }
    ensures numbers_after { numbers.new ≡ numbers_after (read_from symbols.now (length word.old) (length numbers.old)) numbers.old }
{
    if numbers.len() < 42 {
        return lent::no_room(symbols);
    }
    let read = navic::read(symbols, word);
    lent::lend(read, numbers);
    navic::line(read)
}

// Writes a record as 600 upright symbols.
#[unsafe(no_mangle)]
pub extern "C" fn navic_write(numbers: &[u64], symbols: &mut [u8]) -> Written
    ensures value { result ≡ written_of (int64 numbers.now) (length symbols.old) }
    ensures symbols_after { symbols.new ≡ write_into numbered (int64 numbers.now) symbols.old }
{
    Written::from(given::write(numbers, symbols))
}

// The ephemeris of the numbers of subframe 1 and of subframe 2, if each fits and they pair.
#[tactic(auto, using(crate::proofs::Judged::not_42, crate::proofs::Judged::unfitted, crate::proofs::Judged::fitted, crate::proofs::Answered::first_unfit, crate::proofs::Answered::second_unfit, crate::proofs::Answered::pair_told))]
fn pair(first: &[u64], second: &[u64]) -> Option<Ephemeris>
    ensures { result ≡ pair_in (int64 first.now) (int64 second.now) }
{
    let first = Given::of(first)?;
    let second = Given::of(second)?;
    // Both are tested before a record is made of either.
    if !(first.fits() && second.fits()) {
        return None;
    }
    ephemeris::pair(first.record(), second.record())
}

// The ephemeris of the numbers of subframe 1 and of subframe 2.
#[tactic(auto, unfolding(crate::specs::Calls::paired_of))]
#[unsafe(no_mangle)]
pub extern "C" fn navic_pair(first: &[u64], second: &[u64]) -> Paired
    ensures { result ≡ paired_of (int64 first.now) (int64 second.now) }
{
    Paired::from(pair(first, second))
}

// Whether numbers of subframe 1 or 2 are an idle pattern, which passes for data.
#[tactic(auto, using(crate::proofs::Answered::idle_unfit, crate::proofs::Answered::idle_told))]
#[unsafe(no_mangle)]
pub extern "C" fn navic_is_idle_pattern(numbers: &[u64]) -> bool
    ensures { result ≡ idle_of_numbers (int64 numbers.now) }
{
    given::record(numbers).is_some_and(ephemeris::is_idle_pattern)
}

// The first window of a recording at or after a place.
#[unsafe(no_mangle)]
pub extern "C" fn navic_find(recording: &[u8], from: usize) -> Found
    ensures { result ≡ found_as (found_from recording.now from) }
{
    Found::from(recording::find(recording, from))
}

// The second of the week at which the subframe of a count began.
#[tactic(auto, unfolding(crate::specs::Calls::began_from))]
#[unsafe(no_mangle)]
pub extern "C" fn navic_began_at(towc: u32) -> Began
    ensures { result ≡ began_from towc }
{
    Began::from(weektime::began_at(Towc::new(towc)))
}

// The count of the subframe in which a second of the week lies.
#[tactic(auto, unfolding(crate::specs::Calls::counted_from))]
#[unsafe(no_mangle)]
pub extern "C" fn navic_count_in(second: u32) -> Counted
    ensures { result ≡ counted_from second }
{
    Counted::from(weektime::count_in(SecondOfWeek::new(second)))
}

// The word nearest to 584 coded symbols, its 286 bits a byte each, and how many symbols its code differs in.
#[unsafe(no_mangle)]
pub extern "C" fn navic_nearest(coded: &[u8], word: &mut [u8]) -> Decoded
    ensures value { result ≡ nearest_answer coded.now (length word.old) }
    ensures word_after { word.new ≡ nearest_into coded.now word.old }
{
    Decoded::from(lent::decode(coded, word))
}
