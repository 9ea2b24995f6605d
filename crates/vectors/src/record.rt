// The records of a row, and whether a record that was read is that of its row. The structs of `message` are built by name here again, so that a
// wrong place in `message` shows.
use crate::row::Columns;
use message::{
    Almanac, Beside, EarthIono, Entry, Head, IonoGrid, Null, Pair, Record, Slot, Subframe1,
    Subframe2, TimeOffsets, Unread,
};
use std::array;
use weektime::{Towc, Week};

// The columns at which a record's fields begin, in the table's order, and what stands beside it.
const FIELDS: usize = 17;

const BITS: usize = 731;

const GIVEI: usize = 788;

const GIVD: usize = 819;

fn head(fields: Columns) -> Head {
    Head {
        tlm: fields.plain(0),
        towc: Towc::new(fields.plain(1)),
        alert: fields.flag(2),
        auto_nav: fields.flag(3),
        spare: fields.plain(5),
    }
}

fn slot(fields: Columns) -> Slot {
    if fields.plain(4) == 2 {
        Slot::Subframe3
    } else {
        Slot::Subframe4
    }
}

fn subframe1(fields: Columns) -> Subframe1 {
    Subframe1 {
        head: head(fields),
        wn: Week::new(fields.plain(6)),
        af0: fields.signed(7),
        af1: fields.signed(8),
        af2: fields.signed(9),
        ura: fields.plain(10),
        toc: fields.plain(11),
        tgd: fields.signed(12),
        delta_n: fields.signed(13),
        iodec: fields.plain(14),
        reserved: fields.plain(15),
        l5_flag: fields.flag(16),
        s_flag: fields.flag(17),
        cuc: fields.signed(18),
        cus: fields.signed(19),
        cic: fields.signed(20),
        cis: fields.signed(21),
        crc: fields.signed(22),
        crs: fields.signed(23),
        idot: fields.signed(24),
        spare: fields.plain(25),
    }
}

fn subframe2(fields: Columns) -> Subframe2 {
    Subframe2 {
        head: head(fields),
        m0: fields.signed(6),
        toe: fields.plain(7),
        e: fields.plain(8),
        root_a: fields.plain(9),
        omega0: fields.signed(10),
        omega: fields.signed(11),
        omega_dot: fields.signed(12),
        i0: fields.signed(13),
        spare: fields.plain(14),
    }
}

fn iono_grid(fields: Columns) -> IonoGrid {
    IonoGrid {
        head: head(fields),
        slot: slot(fields),
        mask: fields.plain(7),
        region: fields.plain(8),
        iodi: fields.plain(39),
        spare: fields.plain(40),
        prn: fields.plain(41),
    }
}

fn almanac(fields: Columns) -> Almanac {
    Almanac {
        head: head(fields),
        slot: slot(fields),
        wna: Week::new(fields.plain(7)),
        e: fields.plain(8),
        toa: fields.plain(9),
        i0: fields.signed(10),
        omega_dot: fields.signed(11),
        root_a: fields.plain(12),
        omega0: fields.signed(13),
        omega: fields.signed(14),
        m0: fields.signed(15),
        af0: fields.signed(16),
        af1: fields.signed(17),
        prn_almanac: fields.plain(18),
        isc: fields.signed(19),
        spare: fields.plain(20),
        prn: fields.plain(21),
    }
}

fn time_offsets(fields: Columns) -> TimeOffsets {
    TimeOffsets {
        head: head(fields),
        slot: slot(fields),
        a0_utc: fields.signed(7),
        a1_utc: fields.signed(8),
        a2_utc: fields.signed(9),
        leap_seconds: fields.signed(10),
        t_utc: fields.plain(11),
        wn_utc: Week::new(fields.plain(12)),
        wn_leap: Week::new(fields.plain(13)),
        day_leap: fields.plain(14),
        leap_seconds_next: fields.signed(15),
        a0: fields.signed(16),
        a1: fields.signed(17),
        a2: fields.signed(18),
        t_gnss: fields.plain(19),
        wn_gnss: Week::new(fields.plain(20)),
        gnss_id: fields.plain(21),
        spare: fields.number(22),
        prn: fields.plain(23),
    }
}

fn earth_iono(fields: Columns) -> EarthIono {
    EarthIono {
        head: head(fields),
        slot: slot(fields),
        t_eop: fields.plain(7),
        pm_x: fields.signed(8),
        pm_x_dot: fields.signed(9),
        pm_y: fields.signed(10),
        pm_y_dot: fields.signed(11),
        d_ut1: fields.signed(12),
        d_ut1_dot: fields.signed(13),
        alpha0: fields.signed(14),
        alpha1: fields.signed(15),
        alpha2: fields.signed(16),
        alpha3: fields.signed(17),
        beta0: fields.signed(18),
        beta1: fields.signed(19),
        beta2: fields.signed(20),
        beta3: fields.signed(21),
        spare: fields.plain(22),
        prn: fields.plain(23),
    }
}

fn null(fields: Columns) -> Null {
    Null {
        head: head(fields),
        slot: slot(fields),
        prn: fields.plain(35),
    }
}

fn unread(fields: Columns) -> Unread {
    Unread {
        head: head(fields),
        slot: slot(fields),
        id: fields.plain(6),
        prn: fields.plain(35),
    }
}

// The case of a record, from 1 on; 0 where there is none.
pub fn case(row: &[u8]) -> u64 {
    Columns::of(row, 0).number(0)
}

// The record of a row.
pub fn record(row: &[u8]) -> Record {
    let fields = Columns::of(row, FIELDS);
    match case(row) {
        1 => Record::Subframe1(subframe1(fields)),
        2 => Record::Subframe2(subframe2(fields)),
        3 => Record::IonoGrid(iono_grid(fields)),
        4 => Record::Almanac(almanac(fields)),
        5 => Record::GpsTime(time_offsets(fields)),
        6 => Record::EarthIono(earth_iono(fields)),
        7 => Record::GnssTime(time_offsets(fields)),
        8 => Record::Null(null(fields)),
        _ => Record::Unread(unread(fields)),
    }
}

fn bits(row: &[u8]) -> [u8; 28] {
    let bits = Columns::of(row, BITS);
    array::from_fn(|k| bits.byte(k))
}

// Type 5's pairs: two digits each, and four.
fn pairs(row: &[u8]) -> [Pair; 15] {
    let giveis = Columns::of(row, GIVEI);
    let givds = Columns::of(row, GIVD);
    array::from_fn(|k| Pair {
        givei: giveis.byte(k),
        givd: u16::from_be_bytes([givds.byte(2 * k), givds.byte(2 * k + 1)]),
    })
}

// What stands beside the record of a row.
pub fn beside(row: &[u8]) -> Beside {
    Beside {
        bits: bits(row),
        pairs: pairs(row),
    }
}

// The record of a row and what stands beside it.
pub fn entry(row: &[u8]) -> Entry {
    Entry {
        record: record(row),
        beside: beside(row),
    }
}

// The case of a record, as `case` counts them.
fn case_of(record: Record) -> u64 {
    match record {
        Record::Subframe1(_) => 1,
        Record::Subframe2(_) => 2,
        Record::IonoGrid(_) => 3,
        Record::Almanac(_) => 4,
        Record::GpsTime(_) => 5,
        Record::EarthIono(_) => 6,
        Record::GnssTime(_) => 7,
        Record::Null(_) => 8,
        Record::Unread(_) => 9,
    }
}

// The numbers of a record's fields, in the table's order.
fn numbers(row: &[u8]) -> [u64; 42] {
    let fields = Columns::of(row, FIELDS);
    array::from_fn(|k| fields.number(k))
}

// Whether an entry's record is that of a row: its case, and the numbers of its fields in the table's order. That each name stands at its place in
// that order the rows of `write` tell, whose records are built by name.
pub fn same_record(entry: Entry, row: &[u8]) -> bool {
    case_of(entry.record) == case(row) && entry.numbers() == numbers(row)
}
