// The one table of fields, and reading and writing by it.
#![tactic(auto)]

ghost use Rattle.std.specs.Prelude.{◌≡◌, ◌+◌, ◌-◌, ◌%◌, ◌^◌, ◌<◌, ◌≤◌, length};
ghost use Rattle.std.specs.Int.{w32, w64};
ghost use Rattle.std.proofs.Common.{to_z, of_z};
ghost use Rattle.bits.specs.Numbers.{number, bits_of};
ghost use Rattle.fields.specs.Table.{first, width, rows_of};
ghost use Rattle.fields.specs.Fields.{twos, value_at, values};
ghost use Rattle.fields.specs.Patterns.{pattern, patterns, packed, fits, pattern_fault, unless_0};

// A field: its first bit, from 1, its width, whether it is two's complement, and the exponent of its scale. It is a tuple, since the table's rows
// read best as columns. The bounds of a width are in the contracts and not in the type: `no_row` of specs, past a layout's rows, has width 0.
#[derive(Clone, Copy)]
pub struct Row(pub usize, pub usize, pub bool, pub i32);

// Which rows a body has.
#[derive(Clone, Copy, Debug, PartialEq, Eq)]
pub enum Layout {
    Subframe1,
    Subframe2,
    IonoGrid,
    Almanac,
    TimeOffsets,
    EarthIono,
    Data,
}

// The rows of a subframe: bits 1 to 30, which every subframe has, and its own.
macro_rules! subframe {
    ($($row:expr),* $(,)?) => {
        [
            Row(1, 8, false, 0),
            Row(9, 17, false, 0),
            Row(26, 1, false, 0),
            Row(27, 1, false, 0),
            Row(28, 2, false, 0),
            Row(30, 1, false, 0),
            $($row),*
        ]
    };
}

// Those of a message: the message ID and the PRN stand around its own.
macro_rules! message {
    ($($row:expr),* $(,)?) => {
        subframe![
            Row(31, 6, false, 0),
            $($row,)*
            Row(257, 6, false, 0),
        ]
    };
}

// Subframe 1.
const SUBFRAME1: &[Row] = &subframe![
    Row(31, 10, false, 0),
    Row(41, 22, true, -31),
    Row(63, 16, true, -43),
    Row(79, 8, true, -55),
    Row(87, 4, false, 0),
    Row(91, 16, false, 4),
    Row(107, 8, true, -31),
    Row(115, 22, true, -41),
    Row(137, 8, false, 0),
    Row(145, 10, false, 0),
    Row(155, 1, false, 0),
    Row(156, 1, false, 0),
    Row(157, 15, true, -28),
    Row(172, 15, true, -28),
    Row(187, 15, true, -28),
    Row(202, 15, true, -28),
    Row(217, 15, true, -4),
    Row(232, 15, true, -4),
    Row(247, 14, true, -43),
    Row(261, 2, false, 0),
];

// Subframe 2.
const SUBFRAME2: &[Row] = &subframe![
    Row(31, 32, true, -31),
    Row(63, 16, false, 4),
    Row(79, 32, false, -33),
    Row(111, 32, false, -19),
    Row(143, 32, true, -31),
    Row(175, 32, true, -31),
    Row(207, 22, true, -41),
    Row(229, 32, true, -31),
    Row(261, 2, false, 0),
];

// Message type 5.
const IONO_GRID: &[Row] = &message![
    Row(37, 10, false, 0),
    Row(47, 4, false, 0),
    Row(51, 4, false, 0),
    Row(55, 9, false, -3),
    Row(64, 4, false, 0),
    Row(68, 9, false, -3),
    Row(77, 4, false, 0),
    Row(81, 9, false, -3),
    Row(90, 4, false, 0),
    Row(94, 9, false, -3),
    Row(103, 4, false, 0),
    Row(107, 9, false, -3),
    Row(116, 4, false, 0),
    Row(120, 9, false, -3),
    Row(129, 4, false, 0),
    Row(133, 9, false, -3),
    Row(142, 4, false, 0),
    Row(146, 9, false, -3),
    Row(155, 4, false, 0),
    Row(159, 9, false, -3),
    Row(168, 4, false, 0),
    Row(172, 9, false, -3),
    Row(181, 4, false, 0),
    Row(185, 9, false, -3),
    Row(194, 4, false, 0),
    Row(198, 9, false, -3),
    Row(207, 4, false, 0),
    Row(211, 9, false, -3),
    Row(220, 4, false, 0),
    Row(224, 9, false, -3),
    Row(233, 4, false, 0),
    Row(237, 9, false, -3),
    Row(246, 3, false, 0),
    Row(249, 8, false, 0),
];

// Message type 7.
const ALMANAC: &[Row] = &message![
    Row(37, 10, false, 0),
    Row(47, 16, false, -21),
    Row(63, 16, false, 4),
    Row(79, 24, true, -23),
    Row(103, 16, true, -38),
    Row(119, 24, false, -11),
    Row(143, 24, true, -23),
    Row(167, 24, true, -23),
    Row(191, 24, true, -23),
    Row(215, 11, true, -20),
    Row(226, 11, true, -38),
    Row(237, 6, false, 0),
    Row(243, 8, true, -31),
    Row(251, 6, false, 0),
];

// Message types 9 and 26.
const TIME_OFFSETS: &[Row] = &message![
    Row(37, 16, true, -35),
    Row(53, 13, true, -51),
    Row(66, 7, true, -68),
    Row(73, 8, true, 0),
    Row(81, 16, false, 4),
    Row(97, 10, false, 0),
    Row(107, 10, false, 0),
    Row(117, 4, false, 0),
    Row(121, 8, true, 0),
    Row(129, 16, true, -35),
    Row(145, 13, true, -51),
    Row(158, 7, true, -68),
    Row(165, 16, false, 4),
    Row(181, 10, false, 0),
    Row(191, 3, false, 0),
    Row(194, 63, false, 0),
];

// Message type 11.
const EARTH_IONO: &[Row] = &message![
    Row(37, 16, false, 4),
    Row(53, 21, true, -20),
    Row(74, 15, true, -21),
    Row(89, 21, true, -20),
    Row(110, 15, true, -21),
    Row(125, 31, true, -24),
    Row(156, 19, true, -25),
    Row(175, 8, true, -30),
    Row(183, 8, true, -27),
    Row(191, 8, true, -24),
    Row(199, 8, true, -24),
    Row(207, 8, true, 11),
    Row(215, 8, true, 14),
    Row(223, 8, true, 16),
    Row(231, 8, true, 16),
    Row(239, 18, false, 0),
];

// A message's 220 bits by the byte.
const DATA: &[Row] = &message![
    Row(37, 8, false, 0),
    Row(45, 8, false, 0),
    Row(53, 8, false, 0),
    Row(61, 8, false, 0),
    Row(69, 8, false, 0),
    Row(77, 8, false, 0),
    Row(85, 8, false, 0),
    Row(93, 8, false, 0),
    Row(101, 8, false, 0),
    Row(109, 8, false, 0),
    Row(117, 8, false, 0),
    Row(125, 8, false, 0),
    Row(133, 8, false, 0),
    Row(141, 8, false, 0),
    Row(149, 8, false, 0),
    Row(157, 8, false, 0),
    Row(165, 8, false, 0),
    Row(173, 8, false, 0),
    Row(181, 8, false, 0),
    Row(189, 8, false, 0),
    Row(197, 8, false, 0),
    Row(205, 8, false, 0),
    Row(213, 8, false, 0),
    Row(221, 8, false, 0),
    Row(229, 8, false, 0),
    Row(237, 8, false, 0),
    Row(245, 8, false, 0),
    Row(253, 4, false, 0),
];

// The rows of a layout, each const named here alone.
#[tactic(auto, unfolding(crate::specs::Table::head, crate::specs::Table::message_id, crate::specs::Table::prn, crate::specs::Table::subframe1, crate::specs::Table::subframe2, crate::specs::Table::iono_grid, crate::specs::Table::almanac, crate::specs::Table::time_offsets, crate::specs::Table::earth_iono, crate::specs::Table::data_bytes))]
pub fn table(layout: Layout) -> &'static [Row]
    ensures { result.now ≡ rows_of layout }
{
    match layout {
        Layout::Subframe1 => SUBFRAME1,
        Layout::Subframe2 => SUBFRAME2,
        Layout::IonoGrid => IONO_GRID,
        Layout::Almanac => ALMANAC,
        Layout::TimeOffsets => TIME_OFFSETS,
        Layout::EarthIono => EARTH_IONO,
        Layout::Data => DATA,
    }
}

// How many rows a layout has.
pub fn count(layout: Layout) -> usize
    ensures { result ≡ length (rows_of layout) }
{
    table(layout).len()
}

// The number that a field's bits spell, the first the most significant; a byte counts by its lowest bit.
#[tactic(auto, using(bits::proofs::Numbers::number_next, bits::proofs::Numbers::number_few), unfolding(bits::specs::Numbers::number))]
fn field(bits: &[u8]) -> u64
    requires { length bits.now ≤ 63 }
    ensures { result ≡ number bits.now }
{
    let mut n = 0;
    for bit in bits {
        n = n * 2 + u64::from(*bit % 2);
    }
    n
}

// The pattern of the number that `width` bits spell by two's complement: the sign is the field's own first bit.
#[tactic(auto, using(crate::proofs::Halves::half_shifted, crate::proofs::Halves::half_small, crate::proofs::Halves::two_halves, crate::proofs::Twos::twos_low, crate::proofs::Twos::twos_high))]
fn extend(n: u64, width: usize) -> u64
    requires { (0 < width) × (width ≤ 63) × (n < 2 ^ width) }
    ensures { result ≡ pattern (twos width n) }
{
    let half: u64 = 1 << (width - 1);
    if n < half {
        n
    } else {
        n.wrapping_sub(2 * half)
    }
}

// The pattern of a field's number.
#[tactic(auto, using(bits::proofs::Numbers::number_lt), unfolding(crate::specs::Fields::value_at))]
fn value(body: &[u8], row: Row) -> u64
    requires { (0 < first row) × (first row - 1 + width row ≤ length body.now) × (0 < width row) × (width row ≤ 63) }
    ensures { result ≡ pattern (value_at body.now row) }
{
    let Row(first, width, is_signed, _) = row;
    let at = first - 1;
    let n = field(&body[at..at + width]);
    if is_signed { extend(n, width) } else { n }
}

// The numbers of a body's fields, as patterns; a byte counts by its lowest bit.
pub fn read(body: &[u8; 262], layout: Layout) -> [u64; 42]
    ensures { result ≡ patterns (values (rows_of layout) body.now) }
{
    let mut numbers = [0; 42];
    for (i, row) in table(layout).iter().enumerate() {
        numbers[i] = value(body, *row);
    }
    numbers
}

// The lowest bits of `n`, as many as there are places.
fn put(bits: &mut [u8], n: u64)
    ensures { bits.new ≡ bits_of (length bits.old) n }
{
    let mut left = n;
    // By the index: after `iter_mut().rev()` a proof knows no element.
    for k in (0..bits.len()).rev() {
        bits[k] = (left % 2) as u8;
        left /= 2;
    }
}

// The body whose fields hold these patterns' lowest bits.
pub fn write(layout: Layout, numbers: [u64; 42]) -> [u8; 262]
    ensures { result ≡ packed (rows_of layout) numbers }
{
    let mut body = [0; 262];
    for (row, number) in table(layout).iter().zip(&numbers) {
        let Row(first, width, _, _) = *row;
        let at = first - 1;
        put(&mut body[at..at + width], *number);
    }
    body
}

// Whether a field holds the number of a pattern.
#[tactic(auto, using(crate::proofs::Halves::half_shifted, crate::proofs::Halves::half_small, crate::proofs::Halves::shifted), unfolding(crate::specs::Patterns::fits))]
fn holds(row: Row, n: u64) -> bool
    requires { (0 < width row) × (width row ≤ 63) }
    ensures { result ≡ fits row n }
{
    let Row(_, width, is_signed, _) = row;
    if is_signed {
        let half: u64 = 1 << (width - 1);
        n < half || half.wrapping_neg() <= n
    } else {
        n < 1 << width
    }
}

// The first bit of the first field that does not hold its number, if there is one.
pub fn fault(layout: Layout, numbers: [u64; 42]) -> Option<usize>
    ensures { result ≡ unless_0 (pattern_fault (rows_of layout) numbers) }
{
    // A loop: `find`'s closure would have to repeat what `holds` requires and ensures, so it is no plainer.
    for (row, number) in table(layout).iter().zip(&numbers) {
        if !holds(*row, *number) {
            return Some(row.0);
        }
    }
    None
}

// The number of a pattern whose field has at most 32 bits.
pub fn signed(p: u64) -> i32
    ensures { result ≡ to_z w32 (p % 2 ^ 32) }
{
    ((p % (1 << 32)) as u32).cast_signed()
}

// The pattern of a number.
pub fn pattern(x: i32) -> u64
    ensures { result ≡ of_z w64 x }
{
    i64::from(x).cast_unsigned()
}
