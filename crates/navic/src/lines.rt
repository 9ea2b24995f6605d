// The six numbers of an answer, as the program prints them.
ghost use Rattle.std.specs.Prelude.{◌≡◌, Some, Err};
ghost use Rattle.navic.specs.Navic.{line_from, line_of, refusal_number, refusal_quality, text_of, written_beside, written_number};

use crate::{Numbers, Quality, ReadRefusal, Reading, WriteRefusal};
use std::fmt;

impl ReadRefusal {
    // Its number in README.
    pub fn number(self) -> u32
        ensures { result ≡ refusal_number self }
    {
        match self {
            ReadRefusal::Length => 1,
            ReadRefusal::Room => 2,
            ReadRefusal::BadSymbol => 3,
            ReadRefusal::NoSync => 4,
            ReadRefusal::NoWord => 10,
            ReadRefusal::Idle(_) => 5,
            ReadRefusal::BadCheck(_) => 6,
            ReadRefusal::BadTime(_) => 7,
        }
    }

    // The corrected count and the polarity beside it; zeros where no word was received, and not an Option, since C and the program's line read
    // numbers there.
    pub fn quality(self) -> Quality
        ensures { result ≡ refusal_quality self }
    {
        match self {
            ReadRefusal::Idle(q) | ReadRefusal::BadCheck(q) | ReadRefusal::BadTime(q) => q,
            _ => Quality {
                corrected: 0,
                turned_over: false,
            },
        }
    }
}

impl WriteRefusal {
    // Its number in README.
    pub fn number(self) -> u32
        ensures { result ≡ written_number (Err self) }
    {
        match self {
            WriteRefusal::Room => 2,
            WriteRefusal::Id => 9,
            WriteRefusal::Time => 7,
            WriteRefusal::Field(_) => 8,
        }
    }

    // The first bit of the lowest field at fault, and 0 beside every other refusal.
    pub fn first_bit(self) -> u16
        ensures { result ≡ written_beside (Err self) }
    {
        match self {
            WriteRefusal::Field(first_bit) => first_bit,
            _ => 0,
        }
    }
}

impl Numbers {
    fn new(refusal: u32, q: Quality, subframe: u32, towc: u32, message_id: u32) -> Self
        ensures { result ≡ line_from refusal q subframe towc message_id }
    {
        Self {
            refusal,
            corrected: u32::from(q.corrected),
            polarity: u32::from(q.turned_over),
            subframe,
            towc,
            message_id,
        }
    }
}

impl From<Result<Reading, ReadRefusal>> for Numbers {
    ghost from_gives = { λ read numbers. numbers ≡ line_of read };

    fn from(read: Result<Reading, ReadRefusal>) -> Self {
        match read {
            Ok(Reading { entry, quality }) => {
                let record = entry.record;
                Self::new(
                    0,
                    quality,
                    record.subframe(),
                    record.towc().count(),
                    record.message_id(),
                )
            }
            Err(refusal) => Self::new(refusal.number(), refusal.quality(), 0, 0, 0),
        }
    }
}

impl fmt::Display for Numbers {
    ghost output = { λ numbers. Some (text_of numbers) };

    fn fmt<W: fmt::Write>(&self, f: &mut fmt::Formatter<W>) -> fmt::Result {
        write!(
            f,
            "{} {} {} {} {} {}",
            self.refusal, self.corrected, self.polarity, self.subframe, self.towc, self.message_id
        )
    }
}
