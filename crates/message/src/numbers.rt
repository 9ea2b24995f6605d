// From a record to the numbers of its body.
ghost use Rattle.std.specs.Prelude.{◌≡◌, ◌≤◌, ◌++◌, length};
ghost use Rattle.bits.specs.Lists.{at};
ghost use Rattle.fields.specs.Patterns.{pattern};
ghost use Rattle.message.specs.Numbers.{number_of, giveis, givds, byte_at, head_fields, message_fields, subframe1_fields, subframe2_fields, iono_grid_fields, almanac_fields, time_offsets_fields, earth_iono_fields, data_fields};
ghost use Rattle.message.specs.Records.{own_fields, fields_of};
ghost use Rattle.message.specs.Raw.{own, Good, Laid};

use crate::{
    Almanac, Beside, EarthIono, Entry, Field, Head, IonoGrid, NO_PAIR, Pair, Record, Subframe1,
    Subframe2, TimeOffsets,
};

impl Beside {
    // The pair at a place, and zeros past the end.
    fn pair(&self, k: usize) -> Pair
        ensures givei { result.givei ≡ at (giveis self.now) k }
        ensures givd { result.givd ≡ at (givds self.now) k }
    {
        self.pairs.get(k).copied().unwrap_or(NO_PAIR)
    }

    // The byte at a place, of which the last has four bits.
    fn byte(&self, k: usize) -> u8
        ensures { result ≡ byte_at self.now k }
    {
        let byte = self.bits.get(k).copied().unwrap_or(0);
        if k == 27 { byte / 16 } else { byte }
    }
}

// A field's number as a pattern.
fn number(field: Field, beside: &Beside) -> u64
    ensures value { result ≡ pattern (number_of beside.now field) }
    ensures good { Good beside.now field }
{
    match field {
        Field::Plain(n) => u64::from(n),
        Field::Signed(x) => fields::pattern(x),
        Field::Flag(set) => u64::from(set),
        Field::WeekNumber(w) => u64::from(w.number()),
        Field::Wide(n) => n,
        Field::Givei(k) => u64::from(beside.pair(k).givei),
        Field::Givd(k) => u64::from(beside.pair(k).givd),
        Field::Byte(k) => u64::from(beside.byte(k)),
    }
}

// The numbers of the head's fields and of those behind it. By index, since two arrays are read as one and a third is written.
fn lay(lead: [Field; 6], own: [Field; 36], beside: &Beside) -> [u64; 42]
    ensures { Laid (lead ++ own) beside.now result }
{
    let mut numbers = [0; 42];
    for i in 0..42 {
        let field = if i < 6 { lead[i] } else { own[i - 6] };
        numbers[i] = number(field, beside);
    }
    numbers
}

// A kind's own fields, and zeros behind them.
fn padded(fields: &[Field]) -> [Field; 36]
    requires { length fields.now ≤ 36 }
    ensures { result ≡ own fields.now }
{
    let mut all = [Field::Plain(0); 36];
    all[..fields.len()].copy_from_slice(fields);
    all
}

fn head_fields(head: Head, id: u32) -> [Field; 6]
    ensures { result ≡ head_fields head id }
{
    [
        Field::Plain(head.tlm),
        Field::Plain(head.towc.count()),
        Field::Flag(head.alert),
        Field::Flag(head.auto_nav),
        Field::Plain(id),
        Field::Plain(head.spare),
    ]
}

fn subframe1_fields(c: Subframe1) -> [Field; 36]
    ensures { result ≡ own (subframe1_fields c) }
{
    padded(&[
        Field::WeekNumber(c.wn),
        Field::Signed(c.af0),
        Field::Signed(c.af1),
        Field::Signed(c.af2),
        Field::Plain(c.ura),
        Field::Plain(c.toc),
        Field::Signed(c.tgd),
        Field::Signed(c.delta_n),
        Field::Plain(c.iodec),
        Field::Plain(c.reserved),
        Field::Flag(c.l5_flag),
        Field::Flag(c.s_flag),
        Field::Signed(c.cuc),
        Field::Signed(c.cus),
        Field::Signed(c.cic),
        Field::Signed(c.cis),
        Field::Signed(c.crc),
        Field::Signed(c.crs),
        Field::Signed(c.idot),
        Field::Plain(c.spare),
    ])
}

fn subframe2_fields(c: Subframe2) -> [Field; 36]
    ensures { result ≡ own (subframe2_fields c) }
{
    padded(&[
        Field::Signed(c.m0),
        Field::Plain(c.toe),
        Field::Plain(c.e),
        Field::Plain(c.root_a),
        Field::Signed(c.omega0),
        Field::Signed(c.omega),
        Field::Signed(c.omega_dot),
        Field::Signed(c.i0),
        Field::Plain(c.spare),
    ])
}

fn almanac_fields(id: u32, c: Almanac) -> [Field; 36]
    ensures { result ≡ own (message_fields id (almanac_fields c) c.prn) }
{
    padded(&[
        Field::Plain(id),
        Field::WeekNumber(c.wna),
        Field::Plain(c.e),
        Field::Plain(c.toa),
        Field::Signed(c.i0),
        Field::Signed(c.omega_dot),
        Field::Plain(c.root_a),
        Field::Signed(c.omega0),
        Field::Signed(c.omega),
        Field::Signed(c.m0),
        Field::Signed(c.af0),
        Field::Signed(c.af1),
        Field::Plain(c.prn_almanac),
        Field::Signed(c.isc),
        Field::Plain(c.spare),
        Field::Plain(c.prn),
    ])
}

fn time_offsets_fields(id: u32, c: TimeOffsets) -> [Field; 36]
    ensures { result ≡ own (message_fields id (time_offsets_fields c) c.prn) }
{
    padded(&[
        Field::Plain(id),
        Field::Signed(c.a0_utc),
        Field::Signed(c.a1_utc),
        Field::Signed(c.a2_utc),
        Field::Signed(c.leap_seconds),
        Field::Plain(c.t_utc),
        Field::WeekNumber(c.wn_utc),
        Field::WeekNumber(c.wn_leap),
        Field::Plain(c.day_leap),
        Field::Signed(c.leap_seconds_next),
        Field::Signed(c.a0),
        Field::Signed(c.a1),
        Field::Signed(c.a2),
        Field::Plain(c.t_gnss),
        Field::WeekNumber(c.wn_gnss),
        Field::Plain(c.gnss_id),
        Field::Wide(c.spare),
        Field::Plain(c.prn),
    ])
}

fn earth_iono_fields(id: u32, c: EarthIono) -> [Field; 36]
    ensures { result ≡ own (message_fields id (earth_iono_fields c) c.prn) }
{
    padded(&[
        Field::Plain(id),
        Field::Plain(c.t_eop),
        Field::Signed(c.pm_x),
        Field::Signed(c.pm_x_dot),
        Field::Signed(c.pm_y),
        Field::Signed(c.pm_y_dot),
        Field::Signed(c.d_ut1),
        Field::Signed(c.d_ut1_dot),
        Field::Signed(c.alpha0),
        Field::Signed(c.alpha1),
        Field::Signed(c.alpha2),
        Field::Signed(c.alpha3),
        Field::Signed(c.beta0),
        Field::Signed(c.beta1),
        Field::Signed(c.beta2),
        Field::Signed(c.beta3),
        Field::Plain(c.spare),
        Field::Plain(c.prn),
    ])
}

// The fields of type 5, and the bytes of a message below, are listed one by one, as the definitions list them: so the check finds them alike at once.
fn iono_grid_fields(id: u32, c: IonoGrid) -> [Field; 36]
    ensures { result ≡ own (message_fields id (iono_grid_fields c) c.prn) }
{
    padded(&[
        Field::Plain(id),
        Field::Plain(c.mask),
        Field::Plain(c.region),
        Field::Givei(0),
        Field::Givd(0),
        Field::Givei(1),
        Field::Givd(1),
        Field::Givei(2),
        Field::Givd(2),
        Field::Givei(3),
        Field::Givd(3),
        Field::Givei(4),
        Field::Givd(4),
        Field::Givei(5),
        Field::Givd(5),
        Field::Givei(6),
        Field::Givd(6),
        Field::Givei(7),
        Field::Givd(7),
        Field::Givei(8),
        Field::Givd(8),
        Field::Givei(9),
        Field::Givd(9),
        Field::Givei(10),
        Field::Givd(10),
        Field::Givei(11),
        Field::Givd(11),
        Field::Givei(12),
        Field::Givd(12),
        Field::Givei(13),
        Field::Givd(13),
        Field::Givei(14),
        Field::Givd(14),
        Field::Plain(c.iodi),
        Field::Plain(c.spare),
        Field::Plain(c.prn),
    ])
}

fn data_fields(id: u32, prn: u32) -> [Field; 36]
    ensures { result ≡ own (message_fields id data_fields prn) }
{
    padded(&[
        Field::Plain(id),
        Field::Byte(0),
        Field::Byte(1),
        Field::Byte(2),
        Field::Byte(3),
        Field::Byte(4),
        Field::Byte(5),
        Field::Byte(6),
        Field::Byte(7),
        Field::Byte(8),
        Field::Byte(9),
        Field::Byte(10),
        Field::Byte(11),
        Field::Byte(12),
        Field::Byte(13),
        Field::Byte(14),
        Field::Byte(15),
        Field::Byte(16),
        Field::Byte(17),
        Field::Byte(18),
        Field::Byte(19),
        Field::Byte(20),
        Field::Byte(21),
        Field::Byte(22),
        Field::Byte(23),
        Field::Byte(24),
        Field::Byte(25),
        Field::Byte(26),
        Field::Byte(27),
        Field::Plain(prn),
    ])
}

// The fields behind bit 30.
fn own_fields(record: Record) -> [Field; 36]
    ensures { result ≡ own (own_fields «record») }
{
    let id = record.message_id();
    match record {
        Record::Subframe1(c) => subframe1_fields(c),
        Record::Subframe2(c) => subframe2_fields(c),
        Record::IonoGrid(c) => iono_grid_fields(id, c),
        Record::Almanac(c) => almanac_fields(id, c),
        Record::EarthIono(c) => earth_iono_fields(id, c),
        Record::GpsTime(c) | Record::GnssTime(c) => time_offsets_fields(id, c),
        Record::Null(c) => data_fields(id, c.prn),
        Record::Unread(c) => data_fields(id, c.prn),
    }
}

// The numbers of a record and of what stands beside it.
pub fn numbers_of(entry: Entry) -> [u64; 42]
    ensures { Laid (fields_of entry.«record») entry.beside result }
{
    let record = entry.record;
    let lead = head_fields(record.head(), record.id());
    lay(lead, own_fields(record), &entry.beside)
}
