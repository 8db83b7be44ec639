// A store built by hand, the same with something else in one place, and what the calls say of a store, for the programs that run the calls.
// By hand: `object`, `start`, `length`, `offset` are the fields of a range, in their order, so that a case tells its ranges in lines of a table; `s`, `object`, `page`
// are those that document 01 gives a look-up; `i < 512` is asked of a slot whose number stands in the case, and is proved there without an answer.
#![tactic(auto)]

ghost use Rattle.std.specs.Prelude.{◌≡◌, ◌+◌, ◌<◌, max, replicate, set};
ghost use Rattle.table.specs.Table.{zero_range};

use calls::Numbers;
use look::State;
use page::PageNumber;
use places::Place;
use refusals::Refusal;
pub use reports::report;
use std::array;
use std::convert::AsSlice;
use store::Store;
use table::{BackingPages, PageRange};

// ---- the parts of a store
pub fn range(
    object: u32,
    start: usize,
    length: u32,
    offset: u32,
    backing: BackingPages,
) -> PageRange
    ensures { result ≡ record { object = object; start = record { 0 = start }; length = length; offset = offset; backing = backing } }
{
    PageRange {
        object,
        start: PageNumber(start),
        length,
        offset,
        backing,
    }
}

pub fn many(object: u32, start: usize, length: u32, offset: u32, n: u32) -> PageRange {
    range(object, start, length, offset, BackingPages::Many(n))
}

pub fn single(object: u32, start: usize, length: u32, offset: u32, n: u32) -> PageRange {
    range(object, start, length, offset, BackingPages::Single(n))
}

pub fn nothing(object: u32, start: usize, length: u32, offset: u32) -> PageRange {
    range(object, start, length, offset, BackingPages::Nothing)
}

pub fn place(backing: u32, index: u32) -> Place {
    Place { backing, index }
}

// Where a free frame stands.
pub const FREE: Place = Place::NOWHERE;

// An array that begins so, the rest filled up.
fn padded<T: Copy, const N: usize>(first: &[T], rest: T) -> [T; N] {
    array::from_fn(|k| first.get(k).copied().unwrap_or(rest))
}

// A store with these ranges from slot 0 on, with frames at these places from frame 0 on, and with a free map that begins so. One of more ranges than slots is not sound.
pub fn store(
    frames: usize,
    live: u32,
    ranges: &[PageRange],
    places: &[Place],
    free: &[u64],
) -> Store {
    Store {
        frames,
        live,
        count: ranges.len(),
        ranges: padded(ranges, PageRange::ZERO),
        places: padded(places, FREE),
        free: padded(free, 0),
    }
}

// A store of no object.
pub fn blank(frames: usize, free: &[u64]) -> Store
    ensures frames { result.frames ≡ frames }
    ensures no_range { (result.count ≡ 0) × (result.ranges ≡ replicate 512 zero_range) }
{
    Store {
        frames,
        live: 0,
        count: 0,
        ranges: [PageRange::ZERO; 512],
        places: [FREE; 1024],
        free: padded(free, 0),
    }
}

// ---- the good store
// Four frames, names 0 and 1 live. Page 0 of object 0 is in backing 1 and frame 3; pages 5 up to 8 of objects 0 and 1 are in backing 2, which they share, and page 6 is in frame 2. Frames 0 and 1 are free.
pub fn good() -> Store {
    store(
        4,
        3,
        &[
            single(0, 0, 1, 0, 1),
            many(0, 5, 3, 0, 2),
            many(1, 5, 3, 0, 2),
        ],
        &[FREE, FREE, place(2, 1), place(1, 0)],
        &[3],
    )
}

// The same with something else in one place.
pub fn with_counts(frames: usize, live: u32, count: usize) -> Store {
    Store {
        frames,
        live,
        count,
        ..good()
    }
}

pub fn with_range(i: usize, r: PageRange) -> Store
    requires { i < 512 }
{
    let mut s = good();
    s.ranges[i] = r;
    s
}

pub fn with_ranges(i: usize, r: PageRange, j: usize, q: PageRange) -> Store
    requires { (i < 512) × (j < 512) }
{
    let mut s = with_range(i, r);
    s.ranges[j] = q;
    s
}

pub fn with_word(i: usize, w: u64) -> Store
    requires { i < 16 }
{
    let mut s = good();
    s.free[i] = w;
    s
}

pub fn with_place(f: usize, p: Place, w: u64) -> Store
    requires { f < 1024 }
{
    seated(good(), f, p, w)
}

// ---- any store with something else in one place
// This range in a slot, or in the next one.
pub fn ranged(mut s: Store, i: usize, r: PageRange) -> Store
    requires { i < 512 }
    ensures range { result.ranges ≡ set s.ranges i r }
    ensures count { result.count ≡ max s.count (i + 1) }
{
    s.ranges[i] = r;
    s.count = s.count.max(i + 1);
    s
}

// Frame f at this place, and this first word of the free map.
pub fn seated(mut s: Store, f: usize, p: Place, w: u64) -> Store
    requires { f < 1024 }
    ensures place { result.places ≡ set s.places f p }
    ensures word { result.free ≡ set s.free 0 w }
{
    s.places[f] = p;
    s.free[0] = w;
    s
}

// ---- a full table
// A table without an unused slot: every other page of object 0, each an index of backing 1.
pub fn full_table() -> [PageRange; 512] {
    array::from_fn(|k| many(0, k * 2, 1, k as u32, 1))
}

pub fn full(count: usize) -> Store {
    Store {
        count,
        ..store(4, 1, &full_table(), &[], &[15])
    }
}

// ---- what the calls say of a store
pub fn state(s: Store, object: u32, page: usize) -> Result<State, Refusal> {
    calls::look_up(s, object, PageNumber(page))
}

pub fn absent(s: Store, object: u32, page: usize) -> bool {
    state(s, object, page) == Ok(State::Absent)
}

pub fn private(s: Store, object: u32, page: usize) -> bool {
    state(s, object, page) == Ok(State::Private)
}

pub fn shared(s: Store, object: u32, page: usize) -> bool {
    state(s, object, page) == Ok(State::Shared)
}

// A store that is not sound: every call is refused with 1.
pub fn spoiled<N: AsSlice<u8> + Drop>(name: N, s: Store) {
    let why = Refusal::Spoiled;
    let counted = calls::counts(s) == Err(why);
    let looked = state(s, 0, 0) == Err(why) && state(s, 32, 262144) == Err(why);
    let named = [5, 32]
        .iter()
        .all(|object| calls::new_object(s, *object) == Err(why));
    let dropped = [0, 32]
        .iter()
        .all(|object| calls::drop_object(s, *object) == Err(why));
    report(name, counted && looked && named && dropped);
}

// A sound one with so many frames in use and ranges.
pub fn sound<N: AsSlice<u8> + Drop>(name: N, s: Store, frames: usize, ranges: usize) {
    report(name, calls::counts(s) == Ok(Numbers { frames, ranges }));
}
