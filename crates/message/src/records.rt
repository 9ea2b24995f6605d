// From the numbers of a body to its record.
ghost use Rattle.std.specs.Prelude.{◌≡◌, ◌+◌, ◌*◌, ◌<◌, eqb};
ghost use Rattle.bits.specs.Lists.{pick};
ghost use Rattle.message.specs.Numbers.{subframe1_of, subframe2_of, iono_grid_of, almanac_of, time_offsets_of, earth_iono_of, null_of, unread_of, pairs_of, data_of};
ghost use Rattle.message.specs.Records.{message_by, entry_by};
ghost use Rattle.message.specs.Raw.{look};

use crate::sorts::View;
use crate::{
    Almanac, Beside, EarthIono, Entry, IonoGrid, Null, Pair, Record, Subframe1, Subframe2,
    TimeOffsets, Unread,
};
use std::array;

fn subframe1_of(t: &View) -> Subframe1
    ensures { result ≡ subframe1_of (look t.now.0.now) }
{
    Subframe1 {
        head: t.head(),
        wn: t.week(6),
        af0: t.signed(7),
        af1: t.signed(8),
        af2: t.signed(9),
        ura: t.plain(10),
        toc: t.plain(11),
        tgd: t.signed(12),
        delta_n: t.signed(13),
        iodec: t.plain(14),
        reserved: t.plain(15),
        l5_flag: t.flag(16),
        s_flag: t.flag(17),
        cuc: t.signed(18),
        cus: t.signed(19),
        cic: t.signed(20),
        cis: t.signed(21),
        crc: t.signed(22),
        crs: t.signed(23),
        idot: t.signed(24),
        spare: t.plain(25),
    }
}

fn subframe2_of(t: &View) -> Subframe2
    ensures { result ≡ subframe2_of (look t.now.0.now) }
{
    Subframe2 {
        head: t.head(),
        m0: t.signed(6),
        toe: t.plain(7),
        e: t.plain(8),
        root_a: t.plain(9),
        omega0: t.signed(10),
        omega: t.signed(11),
        omega_dot: t.signed(12),
        i0: t.signed(13),
        spare: t.plain(14),
    }
}

fn iono_grid_of(t: &View) -> IonoGrid
    ensures { result ≡ iono_grid_of (look t.now.0.now) }
{
    IonoGrid {
        head: t.head(),
        slot: t.slot(),
        mask: t.plain(7),
        region: t.plain(8),
        iodi: t.plain(39),
        spare: t.plain(40),
        prn: t.plain(41),
    }
}

fn almanac_of(t: &View) -> Almanac
    ensures { result ≡ almanac_of (look t.now.0.now) }
{
    Almanac {
        head: t.head(),
        slot: t.slot(),
        wna: t.week(7),
        e: t.plain(8),
        toa: t.plain(9),
        i0: t.signed(10),
        omega_dot: t.signed(11),
        root_a: t.plain(12),
        omega0: t.signed(13),
        omega: t.signed(14),
        m0: t.signed(15),
        af0: t.signed(16),
        af1: t.signed(17),
        prn_almanac: t.plain(18),
        isc: t.signed(19),
        spare: t.plain(20),
        prn: t.plain(21),
    }
}

fn time_offsets_of(t: &View) -> TimeOffsets
    ensures { result ≡ time_offsets_of (look t.now.0.now) }
{
    TimeOffsets {
        head: t.head(),
        slot: t.slot(),
        a0_utc: t.signed(7),
        a1_utc: t.signed(8),
        a2_utc: t.signed(9),
        leap_seconds: t.signed(10),
        t_utc: t.plain(11),
        wn_utc: t.week(12),
        wn_leap: t.week(13),
        day_leap: t.plain(14),
        leap_seconds_next: t.signed(15),
        a0: t.signed(16),
        a1: t.signed(17),
        a2: t.signed(18),
        t_gnss: t.plain(19),
        wn_gnss: t.week(20),
        gnss_id: t.plain(21),
        spare: t.wide(22),
        prn: t.plain(23),
    }
}

fn earth_iono_of(t: &View) -> EarthIono
    ensures { result ≡ earth_iono_of (look t.now.0.now) }
{
    EarthIono {
        head: t.head(),
        slot: t.slot(),
        t_eop: t.plain(7),
        pm_x: t.signed(8),
        pm_x_dot: t.signed(9),
        pm_y: t.signed(10),
        pm_y_dot: t.signed(11),
        d_ut1: t.signed(12),
        d_ut1_dot: t.signed(13),
        alpha0: t.signed(14),
        alpha1: t.signed(15),
        alpha2: t.signed(16),
        alpha3: t.signed(17),
        beta0: t.signed(18),
        beta1: t.signed(19),
        beta2: t.signed(20),
        beta3: t.signed(21),
        spare: t.plain(22),
        prn: t.plain(23),
    }
}

fn null_of(t: &View) -> Null
    ensures { result ≡ null_of (look t.now.0.now) }
{
    Null {
        head: t.head(),
        slot: t.slot(),
        prn: t.plain(35),
    }
}

fn unread_of(t: &View) -> Unread
    ensures { result ≡ unread_of (look t.now.0.now) }
{
    Unread {
        head: t.head(),
        slot: t.slot(),
        id: t.plain(6),
        prn: t.plain(35),
    }
}

// One of type 5's pairs.
fn pair_at(t: &View, i: usize) -> Pair
    requires { i < 15 }
    ensures givei { result.givei ≡ (look t.now.0.now).nibble (9 + 2 * i) }
    ensures givd { result.givd ≡ (look t.now.0.now).short (10 + 2 * i) }
{
    Pair {
        givei: (t.wide(9 + 2 * i) % 16) as u8,
        givd: (t.wide(10 + 2 * i) % 65536) as u16,
    }
}

// Type 5's pairs.
fn pairs_of(t: &View) -> Beside
    ensures { result ≡ pairs_of (look t.now.0.now) }
{
    Beside {
        pairs: array::from_fn(|i| pair_at(t, i)),
        ..Beside::nothing()
    }
}

// A byte of a message's 220 bits, of which the last has four.
fn byte_at(t: &View, i: usize) -> u8
    requires { i < 28 }
    ensures { result ≡ pick (eqb i 27) ((look t.now.0.now).nibble 34 * 16) ((look t.now.0.now).byte (7 + i)) }
{
    if i == 27 {
        (t.wide(34) % 16) as u8 * 16
    } else {
        (t.wide(7 + i) % 256) as u8
    }
}

// The 220 bits of a message.
fn data_of(t: &View) -> Beside
    ensures { result ≡ data_of (look t.now.0.now) }
{
    Beside {
        bits: array::from_fn(|i| byte_at(t, i)),
        ..Beside::nothing()
    }
}

// The record of a message and what stands beside it, by its ID.
fn message_entry(id: u64, t: &View) -> Entry
    ensures { result ≡ message_by id (look t.now.0.now) }
{
    match id {
        5 => Entry {
            record: Record::IonoGrid(iono_grid_of(t)),
            beside: pairs_of(t),
        },
        7 => Entry::from(Record::Almanac(almanac_of(t))),
        9 => Entry::from(Record::GpsTime(time_offsets_of(t))),
        11 => Entry::from(Record::EarthIono(earth_iono_of(t))),
        26 => Entry::from(Record::GnssTime(time_offsets_of(t))),
        0 => Entry {
            record: Record::Null(null_of(t)),
            beside: data_of(t),
        },
        _ => Entry {
            record: Record::Unread(unread_of(t)),
            beside: data_of(t),
        },
    }
}

// The same of a body, by its subframe ID.
#[tactic(auto, unfolding(crate::specs::Records::entry_by))]
pub fn entry(subframe: u64, id: u64, t: &View) -> Entry
    ensures { result ≡ entry_by subframe id (look t.now.0.now) }
{
    match subframe {
        0 => Entry::from(Record::Subframe1(subframe1_of(t))),
        1 => Entry::from(Record::Subframe2(subframe2_of(t))),
        _ => message_entry(id, t),
    }
}
