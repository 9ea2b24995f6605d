// Subframes 1 and 2 paired into one ephemeris.
#![tactic(auto)]

ghost use Rattle.std.specs.Prelude.{◌≡◌, ltb};
ghost use Rattle.message.specs.Records.{subframe_of};
ghost use Rattle.ephemeris.specs.Pairing.{ephemeris_of, no_ephemeris, sound, fit, pair_of, idle_in};

mod powers;

use fields::Layout;
use message::{Entry, Record, Subframe1, Subframe2};
use powers::Scales;

// The fields of both subframes from bit 31 to bit 260 except the ten reserved bits, each exactly its raw number times the scale of its row; angles
// in semi-circles.
#[repr(C)]
#[derive(Clone, Copy, Default)]
pub struct Ephemeris {
    pub wn: f64,
    pub af0: f64,
    pub af1: f64,
    pub af2: f64,
    pub ura: f64,
    pub toc: f64,
    pub tgd: f64,
    pub delta_n: f64,
    pub iodec: f64,
    pub l5_flag: f64,
    pub s_flag: f64,
    pub cuc: f64,
    pub cus: f64,
    pub cic: f64,
    pub cis: f64,
    pub crc: f64,
    pub crs: f64,
    pub idot: f64,
    pub m0: f64,
    pub toe: f64,
    pub e: f64,
    pub root_a: f64,
    pub omega0: f64,
    pub omega: f64,
    pub omega_dot: f64,
    pub i0: f64,
}

impl Ephemeris {
    // +0 throughout: what stands beside a refusal.
    #[tactic(auto, unfolding(crate::specs::Pairing::no_ephemeris))]
    pub fn zero() -> Self
        ensures { result ≡ no_ephemeris }
    {
        Self::default()
    }
}

// The numbers of both halves, each times the scale of its row.
#[tactic(auto, unfolding(fields::specs::Table::head, fields::specs::Table::subframe1, fields::specs::Table::subframe2))]
fn joined(a: Subframe1, b: Subframe2) -> Ephemeris
    ensures { result ≡ ephemeris_of a b }
{
    let one = Scales::of(Layout::Subframe1);
    let two = Scales::of(Layout::Subframe2);
    Ephemeris {
        wn: one.scaled(6, a.wn.number()),
        af0: one.scaled(7, a.af0),
        af1: one.scaled(8, a.af1),
        af2: one.scaled(9, a.af2),
        ura: one.scaled(10, a.ura),
        toc: one.scaled(11, a.toc),
        tgd: one.scaled(12, a.tgd),
        delta_n: one.scaled(13, a.delta_n),
        iodec: one.scaled(14, a.iodec),
        l5_flag: one.scaled(16, a.l5_flag),
        s_flag: one.scaled(17, a.s_flag),
        cuc: one.scaled(18, a.cuc),
        cus: one.scaled(19, a.cus),
        cic: one.scaled(20, a.cic),
        cis: one.scaled(21, a.cis),
        crc: one.scaled(22, a.crc),
        crs: one.scaled(23, a.crs),
        idot: one.scaled(24, a.idot),
        m0: two.scaled(6, b.m0),
        toe: two.scaled(7, b.toe),
        e: two.scaled(8, b.e),
        root_a: two.scaled(9, b.root_a),
        omega0: two.scaled(10, b.omega0),
        omega: two.scaled(11, b.omega),
        omega_dot: two.scaled(12, b.omega_dot),
        i0: two.scaled(13, b.i0),
    }
}

// Whether a record alone, nothing beside it counted, has no fault of 7 or 8.
#[tactic(auto, using(crate::proofs::Alone::told, crate::proofs::Alone::fault_alone), unfolding(crate::specs::Pairing::sound))]
fn is_sound(record: Record) -> bool
    ensures { result ≡ sound «record» }
{
    !weektime::refused(record.towc()) && Entry::from(record).fault().is_none()
}

// Whether the two halves fit together.
#[tactic(auto, unfolding(crate::specs::Pairing::fit))]
fn fit(a: Subframe1, b: Subframe2) -> bool
    ensures { result ≡ fit a b }
{
    a.toc == b.toe && is_sound(Record::Subframe1(a)) && is_sound(Record::Subframe2(b))
}

// The ephemeris of subframe 1 and then subframe 2; None, which is 11, where they are not these two, or toc differs from toe, or either record alone has
// a fault of 7 or 8. An idle subframe 1 and an idle subframe 2 (003, 5.10.3: alert flag set, the data alternating from 0, so toc and toe both 5555 hex)
// pass for a pair: leave such records out by `is_idle_pattern`.
#[tactic(auto, unfolding(crate::specs::Pairing::pair_of))]
pub fn pair(first: Record, second: Record) -> Option<Ephemeris>
    ensures { result ≡ pair_of first second }
{
    let Record::Subframe1(a) = first else {
        return None;
    };
    let Record::Subframe2(b) = second else {
        return None;
    };
    if !fit(a, b) {
        return None;
    }
    Some(joined(a, b))
}

// Whether a record is of subframe 1 or 2.
fn is_half(record: Record) -> bool
    ensures { result ≡ ltb (subframe_of «record») 3 }
{
    matches!(record, Record::Subframe1(_) | Record::Subframe2(_))
}

// Whether the data part of a record of subframe 1 or 2 is the idle pattern of 003: from bit 41 or from bit 31 to bit 262 alternating from 0, the alert
// flag set. A record with a field outside its width has no data part.
#[tactic(auto, using(crate::proofs::Alone::told), unfolding(crate::specs::Pairing::idle_in))]
pub fn is_idle_pattern(record: Record) -> bool
    ensures { result ≡ idle_in «record» }
{
    let entry = Entry::from(record);
    is_half(record) && entry.fault().is_none() && idle::pattern(&entry.body())
}
