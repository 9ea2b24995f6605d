// The reader and the writer.
#![tactic(auto)]

ghost use Rattle.std.specs.Prelude.{◌≡◌, ◌++◌, ◌≤◌, length, drop};
ghost use Rattle.demands.specs.Family.{symbols_of};
ghost use Rattle.navic.specs.Navic.{family, answer, lent_after_read, line_of, write_answer, lent_after_write};

use message::Entry;

pub mod input;
mod lines;
mod reader;

// How well a subframe was received: the corrected count, and whether it came turned over, a bool as in `link::Received`.
#[derive(Clone, Copy, Debug, PartialEq, Eq)]
pub struct Quality {
    pub corrected: u16,
    pub turned_over: bool,
}

// A record that was read with what stands beside it, and how well its subframe was received.
#[derive(Clone, Copy)]
pub struct Reading {
    pub entry: Entry,
    pub quality: Quality,
}

// Why the reader gives no record. In README's numbers: 1, 2, 3, 4, 10, 5, 6, 7.
#[derive(Clone, Copy, Debug, PartialEq, Eq)]
pub enum ReadRefusal {
    Length,
    Room,
    BadSymbol,
    NoSync,
    NoWord,
    Idle(Quality),
    BadCheck(Quality),
    BadTime(Quality),
}

// Why the writer writes nothing. In README's numbers: 2, 9, 7, 8 with the first bit of the lowest field at fault.
#[derive(Clone, Copy, Debug, PartialEq, Eq)]
pub enum WriteRefusal {
    Room,
    Id,
    Time,
    Field(u16),
}

// The six numbers that the program prints. The refusal is one of them, 0 for none, since C and the program's line read it as a number.
#[repr(C)]
#[derive(Clone, Copy, Debug, PartialEq, Eq)]
pub struct Numbers {
    pub refusal: u32,
    pub corrected: u32,
    pub polarity: u32,
    pub subframe: u32,
    pub towc: u32,
    pub message_id: u32,
}

// Reads the 600 symbols of a subframe. Done, bits 1 to 286 are put into the first 36 bytes lent; what is lent beyond them stays, and all of it
// beside a refusal.
#[tactic(auto, using(crate::proofs::Answers::length_answer, crate::proofs::Answers::room_answer, crate::proofs::Answers::length_kept, crate::proofs::Answers::little_kept))]
pub fn read(symbols: &[u8], room: &mut [u8]) -> Result<Reading, ReadRefusal>
    ensures value { result ≡ answer symbols.now (length room.old) }
    ensures room_after { room.new ≡ lent_after_read symbols.now room.old }
{
    let Some(symbols) = symbols.as_array::<600>() else {
        return Err(ReadRefusal::Length);
    };
    if room.len() < 36 {
        return Err(ReadRefusal::Room);
    }
    let received = link::receive(symbols)?;
    let reading = reader::reading(&received)?;
    put(room, &reader::pack(&received.word));
    Ok(reading)
}

// Puts bytes at the start of what is lent; what stands beyond them stays.
fn put(room: &mut [u8], bytes: &[u8])
    requires { length bytes.now ≤ length room.old }
    ensures { room.new ≡ bytes.now ++ drop (length bytes.now) room.old }
{
    room[..bytes.len()].copy_from_slice(bytes);
}

// Writes a record and what stands beside it as 600 upright symbols. What is lent beyond them stays, and all of it beside a refusal.
#[tactic(auto, using(crate::proofs::Answers::accepted_room, crate::proofs::Answers::refused_as, crate::proofs::Answers::symbols_long, crate::proofs::Theorems::lent_written, crate::proofs::Theorems::lent_unwritten))]
pub fn write(entry: Entry, room: &mut [u8]) -> Result<(), WriteRefusal>
    ensures value { result ≡ write_answer entry (length room.old) }
    ensures room_after { room.new ≡ lent_after_write entry room.old }
{
    check(entry, room.len())?;
    put(room, &symbols(entry));
    Ok(())
}

// Whether the writer takes a record and what stands beside it, lent so many bytes.
#[tactic(auto, using(crate::proofs::Answers::little, crate::proofs::Answers::foreign, crate::proofs::Answers::untimely, crate::proofs::Answers::faulty, crate::proofs::Answers::sound))]
fn check(entry: Entry, room: usize) -> Result<(), WriteRefusal>
    ensures { result ≡ write_answer entry room }
{
    if room < 600 {
        return Err(WriteRefusal::Room);
    }
    if entry.record.id_refused() {
        return Err(WriteRefusal::Id);
    }
    if weektime::refused(entry.record.towc()) {
        return Err(WriteRefusal::Time);
    }
    if let Some(first_bit) = entry.fault() {
        return Err(WriteRefusal::Field(first_bit));
    }
    Ok(())
}

// The 600 upright symbols of a record and what stands beside it.
#[tactic(auto, using(crate::proofs::Answers::symbols_answer))]
fn symbols(entry: Entry) -> [u8; 600]
    ensures { result ≡ symbols_of family entry }
{
    link::send(&crc24q::with_check(&entry.body()))
}

// The line of an answer: `Numbers::from` under the name that README has for it.
pub fn line(read: Result<Reading, ReadRefusal>) -> Numbers
    ensures { result ≡ line_of read }
{
    Numbers::from(read)
}

// The line of some symbols, read with 36 bytes of its own: what the programs print.
pub fn line_of_symbols(symbols: &[u8]) -> Numbers
    ensures { result ≡ line_of (answer symbols.now 36) }
{
    line(read(symbols, &mut [0; 36]))
}
