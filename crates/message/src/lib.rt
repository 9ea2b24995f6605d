// The typed records of the message, and the way between a record and a body of 262 bits.
#![tactic(auto)]

ghost use Rattle.std.specs.Prelude.{◌≡◌};
ghost use Rattle.message.specs.Numbers.{slot_id, nothing};
ghost use Rattle.message.specs.Records.{alone, from_body, to_body, fault_of, id_refused, head_in, id_of, subframe_of, message_id_of, layout_of, layout_by, message_layout, numbers_of};
ghost use Rattle.fields.specs.Patterns.{patterns, unless_0};

use fields::Layout;
use weektime::{Towc, Week};

mod numbers;
mod records;
mod sorts;
mod unused;

// Bits 1 to 30, which every record keeps; the subframe's number is told by the record's case.
#[derive(Clone, Copy)]
pub struct Head {
    pub tlm: u32,
    pub towc: Towc,
    pub alert: bool,
    pub auto_nav: bool,
    pub spare: u32,
}

// Which of subframes 3 and 4 a message was.
#[derive(Clone, Copy, Debug, PartialEq, Eq)]
pub enum Slot {
    Subframe3,
    Subframe4,
}

#[derive(Clone, Copy)]
pub struct Subframe1 {
    pub head: Head,
    pub wn: Week,
    pub af0: i32,
    pub af1: i32,
    pub af2: i32,
    pub ura: u32,
    pub toc: u32,
    pub tgd: i32,
    pub delta_n: i32,
    pub iodec: u32,
    pub reserved: u32,
    pub l5_flag: bool,
    pub s_flag: bool,
    pub cuc: i32,
    pub cus: i32,
    pub cic: i32,
    pub cis: i32,
    pub crc: i32,
    pub crs: i32,
    pub idot: i32,
    pub spare: u32,
}

#[derive(Clone, Copy)]
pub struct Subframe2 {
    pub head: Head,
    pub m0: i32,
    pub toe: u32,
    pub e: u32,
    pub root_a: u32,
    pub omega0: i32,
    pub omega: i32,
    pub omega_dot: i32,
    pub i0: i32,
    pub spare: u32,
}

// Message type 5; its fifteen pairs stand beside the record.
#[derive(Clone, Copy)]
pub struct IonoGrid {
    pub head: Head,
    pub slot: Slot,
    pub mask: u32,
    pub region: u32,
    pub iodi: u32,
    pub spare: u32,
    pub prn: u32,
}

// Message type 7.
#[derive(Clone, Copy)]
pub struct Almanac {
    pub head: Head,
    pub slot: Slot,
    pub wna: Week,
    pub e: u32,
    pub toa: u32,
    pub i0: i32,
    pub omega_dot: i32,
    pub root_a: u32,
    pub omega0: i32,
    pub omega: i32,
    pub m0: i32,
    pub af0: i32,
    pub af1: i32,
    pub prn_almanac: u32,
    pub isc: i32,
    pub spare: u32,
    pub prn: u32,
}

// Message types 9 and 26, whose fields are the same.
#[derive(Clone, Copy)]
pub struct TimeOffsets {
    pub head: Head,
    pub slot: Slot,
    pub a0_utc: i32,
    pub a1_utc: i32,
    pub a2_utc: i32,
    pub leap_seconds: i32,
    pub t_utc: u32,
    pub wn_utc: Week,
    pub wn_leap: Week,
    pub day_leap: u32,
    pub leap_seconds_next: i32,
    pub a0: i32,
    pub a1: i32,
    pub a2: i32,
    pub t_gnss: u32,
    pub wn_gnss: Week,
    pub gnss_id: u32,
    pub spare: u64,
    pub prn: u32,
}

// Message type 11.
#[derive(Clone, Copy)]
pub struct EarthIono {
    pub head: Head,
    pub slot: Slot,
    pub t_eop: u32,
    pub pm_x: i32,
    pub pm_x_dot: i32,
    pub pm_y: i32,
    pub pm_y_dot: i32,
    pub d_ut1: i32,
    pub d_ut1_dot: i32,
    pub alpha0: i32,
    pub alpha1: i32,
    pub alpha2: i32,
    pub alpha3: i32,
    pub beta0: i32,
    pub beta1: i32,
    pub beta2: i32,
    pub beta3: i32,
    pub spare: u32,
    pub prn: u32,
}

// Message ID 0; its 220 bits stand beside the record.
#[derive(Clone, Copy)]
pub struct Null {
    pub head: Head,
    pub slot: Slot,
    pub prn: u32,
}

// Every other message; its 220 bits stand beside the record.
#[derive(Clone, Copy)]
pub struct Unread {
    pub head: Head,
    pub slot: Slot,
    pub id: u32,
    pub prn: u32,
}

// A case for each kind of subframe or message.
#[derive(Clone, Copy)]
pub enum Record {
    Subframe1(Subframe1),
    Subframe2(Subframe2),
    IonoGrid(IonoGrid),
    Almanac(Almanac),
    GpsTime(TimeOffsets),
    EarthIono(EarthIono),
    GnssTime(TimeOffsets),
    Null(Null),
    Unread(Unread),
}

// One of type 5's pairs.
#[derive(Clone, Copy, Debug, Default, PartialEq, Eq)]
pub struct Pair {
    pub givei: u8,
    pub givd: u16,
}

const NO_PAIR: Pair = Pair { givei: 0, givd: 0 };

// What needs an array: 220 bits, first bit highest, the low four bits of the last byte unused; and type 5's pairs. It stands apart from the record,
// of which some calls speak alone, and is 0 where the case doesn't use it: `fault` tells `UNUSED` of what isn't.
#[derive(Clone, Copy, Debug, Default, PartialEq, Eq)]
pub struct Beside {
    pub bits: [u8; 28],
    pub pairs: [Pair; 15],
}

// What `fault` tells if only an unused bit or number is not 0.
pub const UNUSED: u16 = 293;

// A record and what stands beside it.
#[derive(Clone, Copy)]
pub struct Entry {
    pub record: Record,
    pub beside: Beside,
}

// A field of a record by its sort, in the table's order; a number beside the record by its place there.
#[derive(Clone, Copy)]
enum Field {
    Plain(u32),
    Signed(i32),
    Flag(bool),
    WeekNumber(Week),
    Wide(u64),
    Givei(usize),
    Givd(usize),
    Byte(usize),
}

impl Slot {
    // Its subframe ID.
    fn id(self) -> u32
        ensures { result ≡ slot_id self }
    {
        match self {
            Slot::Subframe3 => 2,
            Slot::Subframe4 => 3,
        }
    }
}

impl Record {
    // Which rows its body has.
    pub fn layout(self) -> Layout
        ensures { result ≡ layout_of self }
    {
        match self {
            Record::Subframe1(_) => Layout::Subframe1,
            Record::Subframe2(_) => Layout::Subframe2,
            Record::IonoGrid(_) => Layout::IonoGrid,
            Record::Almanac(_) => Layout::Almanac,
            Record::EarthIono(_) => Layout::EarthIono,
            Record::GpsTime(_) | Record::GnssTime(_) => Layout::TimeOffsets,
            Record::Null(_) | Record::Unread(_) => Layout::Data,
        }
    }

    // What every record keeps.
    pub fn head(self) -> Head
        ensures { result ≡ head_in self }
    {
        match self {
            Record::Subframe1(c) => c.head,
            Record::Subframe2(c) => c.head,
            Record::IonoGrid(c) => c.head,
            Record::Almanac(c) => c.head,
            Record::GpsTime(c) | Record::GnssTime(c) => c.head,
            Record::EarthIono(c) => c.head,
            Record::Null(c) => c.head,
            Record::Unread(c) => c.head,
        }
    }

    pub fn towc(self) -> Towc
        ensures { result ≡ (head_in self).towc }
    {
        self.head().towc
    }

    // The subframe ID, 0 to 3.
    fn id(self) -> u32
        ensures { result ≡ id_of self }
    {
        let slot = match self {
            Record::Subframe1(_) => return 0,
            Record::Subframe2(_) => return 1,
            Record::IonoGrid(c) => c.slot,
            Record::Almanac(c) => c.slot,
            Record::GpsTime(c) | Record::GnssTime(c) => c.slot,
            Record::EarthIono(c) => c.slot,
            Record::Null(c) => c.slot,
            Record::Unread(c) => c.slot,
        };
        slot.id()
    }

    // The subframe, 1 to 4.
    pub fn subframe(self) -> u32
        ensures { result ≡ subframe_of self }
    {
        self.id() + 1
    }

    // The message ID, 0 for subframes 1 and 2.
    pub fn message_id(self) -> u32
        ensures { result ≡ message_id_of self }
    {
        match self {
            Record::Subframe1(_) | Record::Subframe2(_) | Record::Null(_) => 0,
            Record::IonoGrid(_) => 5,
            Record::Almanac(_) => 7,
            Record::GpsTime(_) => 9,
            Record::EarthIono(_) => 11,
            Record::GnssTime(_) => 26,
            Record::Unread(c) => c.id,
        }
    }

    // Whether it is an unread message with the ID of another case, or with one above 63.
    pub fn id_refused(self) -> bool
        ensures { result ≡ id_refused self }
    {
        let Record::Unread(c) = self else {
            return false;
        };
        matches!(c.id, 0 | 5 | 7 | 9 | 11 | 26) || 63 < c.id
    }
}

impl Beside {
    // What stands beside a record that uses none of it.
    pub fn nothing() -> Self
        ensures { result ≡ nothing }
    {
        Self::default()
    }
}

// A record with nothing beside it.
impl From<Record> for Entry {
    ghost from_gives = { λ r e. e ≡ alone r };

    fn from(only: Record) -> Self {
        Self {
            record: only,
            beside: Beside::nothing(),
        }
    }
}

impl Entry {
    // The record of a body, and what stands beside it. It is read as data first, for the two IDs, which every message has at the same places (of
    // subframes 1 and 2 number 6 is no ID and is not used); then by its own layout.
    pub fn parse(body: &[u8; 262]) -> Self
        ensures { result ≡ from_body body.now }
    {
        let ids = fields::read(body, Layout::Data);
        let subframe = ids[4];
        let id = ids[6];
        let numbers = fields::read(body, layout_by(subframe, id));
        records::entry(subframe, id, &sorts::View(&numbers))
    }

    // By `numbers_of`, here and in `fault`: `numbers` doesn't say that each number is within its field's type, which these two proofs need.
    #[tactic(auto, using(crate::proofs::Laying::laid_body))]
    pub fn body(self) -> [u8; 262]
        ensures { result ≡ to_body self.record self.beside }
    {
        fields::write(self.record.layout(), numbers::numbers_of(self))
    }

    // Its numbers in the table's order, as patterns, and 0 behind them.
    pub fn numbers(self) -> [u64; 42]
        ensures { result ≡ patterns (numbers_of self.record self.beside) }
    {
        numbers::numbers_of(self)
    }

    // The first bit of the lowest field that is outside its width; `UNUSED` if only an unused bit or number is not 0.
    pub fn fault(self) -> Option<u16>
        ensures { result ≡ unless_0 (fault_of self.record self.beside) }
    {
        let layout = self.record.layout();
        match fields::fault(layout, numbers::numbers_of(self)) {
            Some(bit) => Some(bit as u16),
            None => (!unused::unused_zero(layout, &self.beside)).then_some(UNUSED),
        }
    }
}

// The layout of a body with these IDs. A switch of its own beside `records::entry`: the numbers are read by the layout, and the entry is made of them;
// and two IDs may have one layout.
#[tactic(auto, unfolding(crate::specs::Records::layout_by))]
pub fn layout_by(subframe: u64, id: u64) -> Layout
    ensures { result ≡ layout_by subframe id }
{
    match subframe {
        0 => Layout::Subframe1,
        1 => Layout::Subframe2,
        _ => message_layout(id),
    }
}

fn message_layout(id: u64) -> Layout
    ensures { result ≡ message_layout id }
{
    match id {
        5 => Layout::IonoGrid,
        7 => Layout::Almanac,
        9 | 26 => Layout::TimeOffsets,
        11 => Layout::EarthIono,
        _ => Layout::Data,
    }
}
