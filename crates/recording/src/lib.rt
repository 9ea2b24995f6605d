// The walk over a recording of symbols.
#![tactic(auto)]

ghost use Rattle.std.specs.Prelude.{◌≡◌, ◌≤◌, Err, length};
ghost use Rattle.bits.specs.Lists.{part};
ghost use Rattle.framing.specs.Sync.{sync_of};
ghost use Rattle.recording.specs.Walk.{held, found_from, number_in, start_in, after_in, PartOf, HandedOn};

// The most symbols of a recording.
pub const LONGEST: usize = 65536;

// A window: where it starts, and where the walk then stands.
#[derive(Clone, Copy, Debug, PartialEq, Eq)]
pub struct FoundWindow {
    pub start: usize,
    pub after: usize,
}

// Why the walk gives no window: the recording is above 65,536 symbols, or none is left before its end, where the walk then stands.
#[derive(Clone, Copy, Debug, PartialEq, Eq)]
pub enum WalkRefusal {
    TooLong,
    NoWindow { end: usize },
}

impl WalkRefusal {
    // Its number, 1 or 4.
    pub fn number(self) -> u8
        ensures { result ≡ number_in (Err self) }
    {
        match self {
            WalkRefusal::TooLong => 1,
            WalkRefusal::NoWindow { .. } => 4,
        }
    }

    // Where the walk then stands: at 0, or at the recording's end.
    pub fn place(self) -> usize
        ensures { result ≡ start_in (Err self) }
    {
        match self {
            WalkRefusal::TooLong => 0,
            WalkRefusal::NoWindow { end } => end,
        }
    }
}

// Whether the sync rule holds at a place. The first symbol is told before the rule, which goes over all sixteen, so that symbols above 1 are soon passed.
#[tactic(auto, using(crate::proofs::Search::first_above))]
fn holds(recording: &[u8], place: usize) -> bool
    ensures { result ≡ held (sync_of 1 (part recording.now place 16)) }
{
    match recording.get(place) {
        Some(&level) if level > 1 => false,
        _ => framing::sync(1, recording, place).is_some(),
    }
}

// The first window at or after a place.
#[tactic(auto, using(crate::proofs::Search::found_refused, crate::proofs::Search::found_none, crate::proofs::Search::first_none))]
pub fn find(recording: &[u8], from: usize) -> Result<FoundWindow, WalkRefusal>
    ensures { result ≡ found_from recording.now from }
{
    let end = recording.len();
    if end > LONGEST {
        return Err(WalkRefusal::TooLong);
    }
    // 600 symbols remain at each of these places
    let start = (from..end.saturating_sub(599))
        .find(|&start| holds(recording, start))
        .ok_or(WalkRefusal::NoWindow { end })?;
    Ok(FoundWindow {
        start,
        after: start + 600,
    })
}

// The window, or the empty one at the place at which the walk then stands.
fn stretch(found: Result<FoundWindow, WalkRefusal>) -> FoundWindow
    ensures { result ≡ record { start = start_in found; after = after_in found } }
{
    found.unwrap_or_else(|refusal| {
        let place = refusal.place();
        FoundWindow {
            start: place,
            after: place,
        }
    })
}

// The part of the recording from a window's start to where the walk then stands.
fn cut<'a>(recording: &'a [u8], found: Result<FoundWindow, WalkRefusal>) -> &'a [u8]
    requires { (start_in found ≤ after_in found) × (after_in found ≤ length recording.now) }
    ensures { PartOf recording.entry found result }
{
    let FoundWindow { start, after } = stretch(found);
    &recording[start..after]
}

// The symbols of the first window at or after a place, as a part of the recording.
pub fn window<'a>(recording: &'a [u8], from: usize) -> &'a [u8]
    ensures { PartOf recording.entry (found_from recording.now from) result }
{
    cut(recording, find(recording, from))
}

// The walker: the recording and the place at which the walk stands.
#[derive(Drop)]
pub struct Walker<'a> {
    recording: &'a [u8],
    place: usize,
}

// What a walker hands on: the window or why there is none, and the window's symbols as a part of the recording.
// The symbols stand beside the Result, not in its Ok: beside a refusal `HandedOn` promises them too, as the empty part where the walk then stands.
#[derive(Clone, Copy)]
pub struct Handed<'a> {
    pub found: Result<FoundWindow, WalkRefusal>,
    pub symbols: &'a [u8],
}

impl<'a> Walker<'a> {
    // A walker at the recording's start.
    pub fn new(recording: &'a [u8]) -> Walker<'a>
        ensures { (result.recording ≡ recording.entry) × (result.place ≡ 0) }
    {
        Walker {
            recording,
            place: 0,
        }
    }

    // The next window and its symbols, and the walk then stands at the window's end.
    pub fn next(&mut self) -> Handed<'a>
        ensures { HandedOn self.old self.new result }
    {
        let recording = self.recording;
        let found = find(recording, self.place);
        self.place = stretch(found).after;
        let symbols = cut(recording, found);
        Handed { found, symbols }
    }
}
