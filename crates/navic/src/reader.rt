// The reader's steps, from what the link receives to a record and to the bytes lent.
ghost use Rattle.std.specs.Prelude.{◌≡◌, ◌*◌, ◌<◌, Ok, length};
ghost use Rattle.bits.specs.Lists.{part, build};
ghost use Rattle.bits.specs.Numbers.{number};
ghost use Rattle.demands.specs.Family.{by_link, packed};
ghost use Rattle.navic.specs.Navic.{family, of_link, read_of};

use crate::{Quality, ReadRefusal, Reading};
use link::{LinkRefusal, Received};
use message::Entry;
use std::array;

impl From<LinkRefusal> for ReadRefusal {
    ghost from_gives = { λ link read. read ≡ of_link link };

    fn from(refusal: LinkRefusal) -> Self {
        match refusal {
            LinkRefusal::BadSymbol => ReadRefusal::BadSymbol,
            LinkRefusal::NoSync => ReadRefusal::NoSync,
            LinkRefusal::NoWord => ReadRefusal::NoWord,
        }
    }
}

// 5 or 6 where the check disagrees, and then 7, or the record.
pub fn reading(received: &Received) -> Result<Reading, ReadRefusal>
    ensures { result ≡ read_of (by_link family (Ok received.now)) }
{
    let word = &received.word;
    let quality = Quality {
        corrected: received.corrected,
        turned_over: received.turned_over,
    };
    if !received.agrees {
        return Err(if idle::idle(word) {
            ReadRefusal::Idle(quality)
        } else {
            ReadRefusal::BadCheck(quality)
        });
    }
    let entry = Entry::parse(word.first_chunk().unwrap());
    if weektime::refused(entry.record.towc()) {
        return Err(ReadRefusal::BadTime(quality));
    }
    Ok(Reading { entry, quality })
}

// The byte that eight bits spell, most significant first. A function of its own beside that of `fields` for 63 bits: one for both numbers would have
// to be generic over their arithmetic, or to narrow what it gives.
#[tactic(auto, using(bits::proofs::Numbers::number_next, bits::proofs::Numbers::number_few), unfolding(bits::specs::Numbers::number))]
fn byte_of(bits: &[u8; 8]) -> u8
    ensures { result ≡ number bits.now }
{
    let mut n: u8 = 0;
    for bit in bits {
        n = n * 2 + bit % 2;
    }
    n
}

// The byte of the eight bits that follow the first 8 i.
fn byte_at(bits: &[u8; 288], i: usize) -> u8
    requires { i < 36 }
    ensures { result ≡ number (part bits.now (8 * i) 8) }
{
    byte_of(bits[8 * i..].first_chunk().unwrap())
}

// The bytes that bits spell, eight for each.
fn bytes_of(bits: &[u8; 288]) -> [u8; 36]
    ensures { result ≡ build 36 (λ i. number (part bits.now (8 * i) 8)) }
{
    array::from_fn(|i| byte_at(bits, i))
}

// The word's bits in 36 bytes, the two lowest bits of the last 0.
pub fn pack(word: &[u8; 286]) -> [u8; 36]
    ensures { result ≡ packed word.now }
{
    let mut bits = [0u8; 288];
    bits[..286].copy_from_slice(word);
    bytes_of(&bits)
}
