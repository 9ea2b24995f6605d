// What is put into the lent numbers and bytes.
ghost use Rattle.std.specs.Prelude.{◌≡◌, ◌≤◌, length};
ghost use Rattle.demands.specs.Family.{reading_of};
ghost use Rattle.navic_c.specs.Numbers.{numbered};
ghost use Rattle.navic_c.specs.Calls.{line_of_numbers, numbers_by, decoded_as, nearest_answer, nearest_into};

use crate::DecodeRefusal;
use navic::{Numbers, ReadRefusal, Reading};

// The line where too few numbers are lent: 1 for a wrong length, else 2.
pub fn no_room(symbols: &[u8]) -> Numbers
    ensures { result ≡ line_of_numbers (reading_of numbered symbols.now 0) }
{
    if symbols.len() != 600 {
        return navic::line(Err(ReadRefusal::Length));
    }
    navic::line(Err(ReadRefusal::Room))
}

// Done, the record's numbers are put into the first 42 lent.
pub fn lend(read: Result<Reading, ReadRefusal>, numbers: &mut [u64])
    requires { 42 ≤ length numbers.old }
    ensures { numbers.new ≡ numbers_by read numbers.old }
{
    if let Ok(reading) = read {
        let table = reading.entry.numbers();
        numbers[..42].copy_from_slice(&table);
    }
}

// The nearest word of 584 coded symbols, put into the first 286 bytes lent, and its corrected count. Refused, all that is lent stays.
#[tactic(auto, using(crate::proofs::Answered::not_584, crate::proofs::Answered::not_584_after, crate::proofs::Answered::word_room, crate::proofs::Answered::word_room_after, crate::proofs::Answered::bad_symbols, crate::proofs::Answered::bad_symbols_after, crate::proofs::Answered::decoded, crate::proofs::Answered::decoded_after))]
pub fn decode(coded: &[u8], word: &mut [u8]) -> Result<u32, DecodeRefusal>
    ensures value { decoded_as result ≡ nearest_answer coded.now (length word.old) }
    ensures word_after { word.new ≡ nearest_into coded.now word.old }
{
    let Some(coded) = coded.as_array() else {
        return Err(DecodeRefusal::Length);
    };
    if word.len() < 286 {
        return Err(DecodeRefusal::Room);
    }
    if !framing::clean(1, coded) {
        return Err(DecodeRefusal::BadSymbol);
    }
    let mut bits = [0u8; 286];
    let corrected = nearest::nearest(coded, &mut bits);
    word[..286].copy_from_slice(&bits);
    Ok(u32::from(corrected))
}
