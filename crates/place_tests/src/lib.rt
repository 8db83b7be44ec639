// The tests of the frames' places and of the free map, one function for each test of store/specs/Sound.antt. Any store may come in; chains must be those of the
// store. By hand: `s.frames ≤ 1024` and `s.count ≤ 512`, which are tested before, stand at each test that follows: `all_bits` asks neither, so that a type with both as ghost fields would tighten it.
#![tactic(auto)]

ghost use Rattle.std.specs.Prelude.{◌≡◌, true, false, ℕ, ◌+◌, ◌*◌, ◌≤◌, ◌<◌, get_or, IsOk};
ghost use Rattle.chains.specs.Chains.{Linked};
ghost use Rattle.charts.specs.Charts.{chain_at, Empty, FrameChains, RangeChains};
ghost use Rattle.lists.specs.Every.{all_below};
ghost use Rattle.places.specs.Places.{place_at};
ghost use Rattle.range_tests.specs.Chaining.{Charted};
ghost use Rattle.store.specs.Abs.{used};
ghost use Rattle.store.specs.Sound.{alone?, stands?};
ghost use Rattle.table.specs.Table.{number_of};
ghost use Rattle.range_tests.specs.Agree.{back_at};
ghost use Rattle.place_tests.specs.Alone.{Used};
ghost use Rattle.place_tests.specs.Bits.{kept?, place_kept?, word_kept?};
ghost use Rattle.place_tests.specs.Placed.{placed_at?, Placed, Seated};
ghost use Rattle.place_tests.specs.Seats.{seated?, seated_at};

mod finding;

use chains::Chains;
use finding::{Covering, Finder, Seeking};
use places::Place;
use store::Store;
use table::BackingPages;
use window_cover::{Cover, Interval};
use window_search::{GaveUpAt, Windows};

// Whether no frame before frame f, which is in use, stands at its place: a walk along its chain.
fn alone(s: &Store, chains: &Chains, f: usize, place: Place) -> bool
    requires in_table { f < 1024 }
    requires stands { (place ≡ place_at s.now.places f) × Used s.now.places f }
    requires linked { Linked (chain_at s.now.places) (f + 1) chains.now.next }
    ensures { result ≡ alone? s.now.places f }
{
    for earlier in chains.falling_before(f) {
        if s.places[earlier].stands_at(place.backing, place.index) {
            return false;
        }
    }
    true
}

// "Each frame is free or stands in exactly one backing at one index, no two at the same": of frame f, which is in use. It is put into its chain, before the frames that it is
// compared with.
fn linked(s: &Store, chains: &mut Chains, f: usize, place: Place) -> bool
    requires in_table { f < 1024 }
    requires stands { (place ≡ place_at s.now.places f) × Used s.now.places f }
    requires charted { Charted (chain_at s.now.places) f chains.old }
    ensures answer { result ≡ alone? s.now.places f }
    ensures charted { Charted (chain_at s.now.places) (f + 1) chains.new }
{
    chains.put(charts::chain_to(place.backing, place.index), f);
    alone(s, chains, f, place)
}

// "Each frame is free or stands in exactly one backing at one index, no two at the same", and "each vector entry lies in the window of some range that holds the vector": of the
// frames from `first` up to `end`, those before having passed. Where the finder gives up, the frames before that frame pass, and are chained. Compiled by itself, so that its
// loop keeps what it needs in registers.
#[inline(never)]
fn seat_frames<F: Finder>(
    s: &Store,
    finder: &mut F,
    chains: &mut Chains,
    first: usize,
    end: usize,
) -> Result<bool, GaveUpAt>
    requires bounds { (first ≤ end) × (end ≤ 1024) }
    requires ranges { F.ranges finder.old ≡ used s.now }
    requires seated { Seated s.now first chains.old }
    ensures placed { Placed s.now end chains.new result }
    ensures tireless { F.tires ≡ false → IsOk result }
    ensures ranges { F.ranges finder.new ≡ used s.now }
{
    for (k, place) in s.places[first..end].iter().enumerate() {
        if place.is_free() {
            continue;
        }
        let frame = first + k;
        if !finder.finds(*place).map_err(|_| GaveUpAt { frame })? {
            return Ok(false);
        }
        if !linked(s, chains, frame, *place) {
            return Ok(false);
        }
    }
    Ok(true)
}

// The same of all frames, by searches. Words of the map with every bit set are passed over: those frames are free. Searches have 640 steps, enough for four that go by halving.
fn seat_words(s: &Store, ranges: &Chains, chains: &mut Chains) -> Result<bool, GaveUpAt>
    requires few { (s.now.frames ≤ 1024) × (s.now.count ≤ 512) }
    requires kept { all_below (kept? s.now.frames s.now.places s.now.free) 1024 ≡ true }
    requires ranges { RangeChains s.now.ranges s.now.count ranges.now }
    requires seated { Seated s.now 0 chains.old }
    ensures { Placed s.now s.now.frames chains.new result }
{
    let windows = Windows {
        ranges: &s.ranges[..s.count],
        chains: ranges,
    };
    let mut seeking = Seeking {
        windows,
        window: Interval::default(),
        hint: None,
        steps: 640,
    };
    for (i, word) in s.free[..s.frames.div_ceil(64)].iter().enumerate() {
        if *word == u64::MAX {
            continue;
        }
        let end = s.frames.min(i * 64 + 64);
        if !seat_frames(s, &mut seeking, chains, i * 64, end)? {
            return Ok(false);
        }
    }
    Ok(true)
}

// The same of the frames from `first` on, those before having passed, by the intervals that windows cover. Not compiled into `seat_all`, which then makes no room for intervals.
#[cold]
#[inline(never)]
fn seat_rest(s: &Store, chains: &mut Chains, first: usize) -> bool
    requires few { (s.now.frames ≤ 1024) × (s.now.count ≤ 512) }
    requires in_store { first ≤ s.now.frames }
    requires seated { Seated s.now first chains.old }
    ensures answer { result ≡ all_below (placed_at? s.now) s.now.frames }
    ensures chained { result ≡ true → FrameChains s.now.places s.now.frames chains.new }
{
    let ranges = &s.ranges[..s.count];
    let mut cover = Cover::empty();
    cover.fill(ranges);
    let mut covering = Covering {
        ranges,
        cover: &cover,
        last: Interval::default(),
    };
    seat_frames(s, &mut covering, chains, first, s.frames).is_ok_and(|passed| passed)
}

// The same of all frames, which are chained by their places. Where searches have no step left, windows are found by intervals from that frame on.
pub fn seat_all(s: &Store, ranges: &Chains, chains: &mut Chains) -> bool
    requires few { (s.now.frames ≤ 1024) × (s.now.count ≤ 512) }
    requires kept { all_below (kept? s.now.frames s.now.places s.now.free) 1024 ≡ true }
    requires ranges { RangeChains s.now.ranges s.now.count ranges.now }
    requires empty { Empty chains.old }
    ensures answer { result ≡ all_below (placed_at? s.now) s.now.frames }
    ensures chained { result ≡ true → FrameChains s.now.places s.now.frames chains.new }
{
    match seat_words(s, ranges, chains) {
        Ok(passed) => passed,
        Err(GaveUpAt { frame }) => seat_rest(s, chains, frame),
    }
}

// The frames of a store, chained by their places.
#[derive(Clone, Copy)]
struct Frames<'a> {
    s: &'a Store,
    chains: &'a Chains,
    ghost few: { s.now.frames ≤ 1024 },
    ghost chained: { FrameChains s.now.places s.now.frames chains.now },
}

impl Frames<'_> {
    // Whether one of them stands at index 0 of a backing: a walk along the chain of that place.
    fn stands(&self, backing: u32) -> bool
        requires numbered { 0 < backing }
        ensures { result ≡ stands? self.now.s.now.places self.now.s.now.frames backing 0 }
    {
        for frame in self.chains.falling(charts::chain_to(backing, 0)) {
            if self.s.places[frame].stands_at(backing, 0) {
                return true;
            }
        }
        false
    }

    // "A `Single` range has .. its frame at index 0", of the range with this backing. A range of another kind passes.
    fn seated(&self, backing: BackingPages) -> bool
        requires numbered { 0 < number_of backing }
        ensures { result ≡ seated? self.now.s.now.frames self.now.s.now.places backing }
    {
        match backing {
            BackingPages::Single(b) => self.stands(b),
            _ => true,
        }
    }
}

// The same of every range.
pub fn all_seated(s: &Store, chains: &Chains) -> bool
    requires few_frames { s.now.frames ≤ 1024 }
    requires few_ranges { s.now.count ≤ 512 }
    requires chained { FrameChains s.now.places s.now.frames chains.now }
    requires numbered { (i : ℕ) → i < s.now.count → 0 < number_of (back_at s.now.ranges i) }
    ensures { result ≡ all_below (seated_at s.now.ranges s.now.places s.now.frames) s.now.count }
{
    let frames = Frames { s, chains };
    for r in &s.ranges[..s.count] {
        if !frames.seated(r.backing) {
            return false;
        }
    }
    true
}

// Whether the bit of frame f is set exactly if the frame is free, and its place is that of a frame of the store in use, or zero.
#[tactic(auto, using(crate::specs::Bits::bit_free, crate::specs::Bits::bit_used, crate::specs::Bits::bit_beyond))]
fn bit(set: bool, p: &Place, frames: usize, f: usize) -> bool
    ensures { result ≡ place_kept? frames f set p.now }
{
    if f < frames {
        if set {
            *p == Place::NOWHERE
        } else {
            !p.is_free()
        }
    } else {
        !set && *p == Place::NOWHERE
    }
}

// The same of the 64 frames of word i of the map, whose bits are the word's, the lowest first. Words of used frames alone, and of free ones alone, are tested at once.
#[tactic(auto, using(lists::specs::Every::below_zero, lists::specs::Every::below_next, lists::specs::Every::below_fails))]
fn word_bits(s: &Store, i: usize) -> bool
    requires { i < 16 }
    ensures { result ≡ all_below (word_kept? s.now.frames s.now.places (get_or s.now.free i 0) (i * 64)) 64 }
{
    let word = s.free[i];
    let first = i * 64;
    let places = &s.places[first..first + 64];
    if first + 64 <= s.frames {
        // by hand: `all` stops at the first place that fails, and so goes one at a time; `fold` goes several at a time
        if word == 0 {
            return places.iter().fold(true, |all, p| all & !p.is_free());
        }
        if word == u64::MAX {
            return places
                .iter()
                .fold(true, |all, p| all & (*p == Place::NOWHERE));
        }
    }
    for (k, p) in places.iter().enumerate() {
        if !bit((word >> k) % 2 == 1, p, s.frames, first + k) {
            return false;
        }
    }
    true
}

// "a map of free frames, one bit each"; "bits of frames beyond the count are clear"; "unused slots are zero": the places of free frames and of frames
// beyond the count.
#[tactic(auto, using(lists::specs::Every::below_zero, crate::specs::Bits::words_next, crate::specs::Bits::words_fail))]
pub fn all_bits(s: &Store) -> bool
    ensures { result ≡ all_below (kept? s.now.frames s.now.places s.now.free) 1024 }
{
    for i in 0..16 {
        if !word_bits(s, i) {
            return false;
        }
    }
    true
}
