// Runs the functions of `frames`, `places`, `page_steps` and `freeing` that work on frames, on edge values, and compares with answers written here by hand.
// One line each: the case, and ok or WRONG. What is asked here of numbers is what those functions ask, or that a table has such a place.
#![tactic(auto)]

ghost use Rattle.std.specs.Prelude.{◌≡◌, ◌<◌, ◌≤◌};

use calls::Numbers;
use places::Place;
use reports::report;
use samples::{FREE, blank, place, range};
use store::Store;
use table::BackingPages;

// Words: all bits, all but bit 0, all but bit 63, bit 63 alone, bits 0 and 63.
const ALL: u64 = u64::MAX;

const BUT_0: u64 = 0xffff_ffff_ffff_fffe;

const BUT_63: u64 = 0x7fff_ffff_ffff_ffff;

const TOP: u64 = 0x8000_0000_0000_0000;

const ENDS: u64 = 0x8000_0000_0000_0001;

// A place.
const SEAT: Place = Place {
    backing: 1,
    index: 2,
};

// The table in which every frame is free, and that in which every frame stands at this place.
const NOWHERE: [Place; 1024] = [FREE; 1024];

const CROWDED: [Place; 1024] = [SEAT; 1024];

// The map whose words are all v, but w at i.
fn words(v: u64, i: usize, w: u64) -> [u64; 16]
    requires { i < 16 }
{
    let mut words = [v; 16];
    words[i] = w;
    words
}

// A table with frame f at this place.
fn with(mut t: [Place; 1024], f: usize, p: Place) -> [Place; 1024]
    requires { f < 1024 }
{
    t[f] = p;
    t
}

// Frames 63 and 64 at index 2 of backings 1 and b, and frame 1023 at index 3 of backing 1.
fn three(b: u32) -> [Place; 1024] {
    with(
        with(with(NOWHERE, 63, SEAT), 64, place(b, 2)),
        1023,
        place(1, 3),
    )
}

// So many frames, which stand so.
#[derive(Clone, Copy)]
struct Frames {
    places: [Place; 1024],
    count: usize,
    ghost few: { count ≤ 1024 },
}

impl Frames {
    fn new(places: [Place; 1024], count: usize) -> Frames
        requires { count ≤ 1024 }
    {
        Frames { places, count }
    }

    // The store of these frames, and of no object.
    fn store(self) -> Store
        ensures { result.frames ≤ 1024 }
    {
        let places = self.places;
        Store {
            places,
            ..blank(self.count, &[])
        }
    }
}

// One case of each kind: a name, the arguments, and the answer that is right.
fn highest(name: &str, free: [u64; 16], want: usize) {
    let s = blank(0, &free);
    report(name, page_steps::next_frame(&s) == Some(want));
}

fn taken(name: &str, free: [u64; 16], f: usize, want: [u64; 16])
    requires { f < 1024 }
{
    let mut s = blank(0, &free);
    page_steps::take_frame(&mut s, f);
    report(name, s.free == want);
}

fn map_is(name: &str, frames: Frames, want: [u64; 16]) {
    let mut s = frames.store();
    freeing::renew(&mut s);
    report(name, s.free == want);
}

fn found(name: &str, frames: Frames, p: Place, want: Option<usize>) {
    let s = frames.store();
    report(name, page_steps::frame_at(&s, p.backing, p.index) == want);
}

// The frames in use of a store whose one range, of object 0, has the first 1,024 indexes of backing 1 in its window.
fn used(name: &str, standing: Frames, frames: usize) {
    let mut s = standing.store();
    s.ranges[0] = range(0, 0, 1024, 0, BackingPages::Many(1));
    s.count = 1;
    s.live = 1;
    freeing::renew(&mut s);
    report(name, calls::counts(s) == Ok(Numbers { frames, ranges: 1 }));
}

fn stands(name: &str, s: &Store, f: usize, want: Place) {
    report(name, s.places.get(f) == Some(&want));
}

fn bit_cases() {
    report("zeros above: no bit", 0u64.leading_zeros() == 64);
    report("zeros above: bit 0", 1u64.leading_zeros() == 63);
    report("zeros above: bit 63", TOP.leading_zeros() == 0);
    report("top bit: bit 0", frames::top_bit(1) == 0);
    report("top bit: bits 0 and 63", frames::top_bit(ENDS) == 63);
    report("top bit: all but bit 63", frames::top_bit(BUT_63) == 62);
}

fn highest_cases() {
    highest("highest: full map", [ALL; 16], 1023);
    highest("highest: frame 0 alone", words(0, 0, 1), 0);
    highest("highest: frame 63 alone", words(0, 0, TOP), 63);
    highest("highest: frame 64 alone", words(0, 1, 1), 64);
    highest("highest: frame 1023 alone", words(0, 15, TOP), 1023);
    highest("highest: frames 0 and 63", words(0, 0, ENDS), 63);
    highest("highest: frames 0 to 62", words(0, 0, BUT_63), 62);
    highest("highest: all but the last word", words(ALL, 15, 0), 959);
    highest("highest: all but frame 1023", words(ALL, 15, BUT_63), 1022);
}

fn taken_cases() {
    let full = [ALL; 16];
    let first = words(ALL, 0, BUT_0);
    taken("taken: frame 0 of the full map", full, 0, first);
    let last = words(ALL, 0, BUT_63);
    taken("taken: frame 63 of the full map", full, 63, last);
    let next = words(ALL, 1, BUT_0);
    taken("taken: frame 64 of the full map", full, 64, next);
    let top = words(ALL, 15, BUT_63);
    taken("taken: frame 1023 of the full map", full, 1023, top);
    let one = words(0, 1, 1);
    taken("taken: the only frame", one, 64, [0; 16]);
    taken("taken: a frame that is not free", one, 63, one);
    let empty = [0; 16];
    taken("taken: frame 1023 of the empty map", empty, 1023, empty);
}

// So many frames, none of them in use.
fn free(count: usize) -> Frames
    requires { count ≤ 1024 }
{
    Frames::new(NOWHERE, count)
}

fn map_cases() {
    map_is("free map: no frame", free(0), [0; 16]);
    map_is("free map: one frame", free(1), words(0, 0, 1));
    map_is("free map: 63 frames", free(63), words(0, 0, BUT_63));
    map_is("free map: 64 frames", free(64), words(0, 0, ALL));
    let but_last = words(ALL, 15, BUT_63);
    map_is("free map: 1023 frames", free(1023), but_last);
    map_is("free map: 1024 frames", free(1024), [ALL; 16]);
}

fn used_map_cases() {
    let last = Frames::new(with(NOWHERE, 1023, place(1, 0)), 1024);
    let but_last = words(ALL, 15, BUT_63);
    map_is("free map: frame 1023 in use", last, but_last);
    let t = with(NOWHERE, 0, place(1, 0));
    let first = Frames::new(t, 1024);
    let but_first = words(ALL, 0, BUT_0);
    map_is("free map: frame 0 in use", first, but_first);
    let only = Frames::new(t, 1);
    map_is("free map: the only frame in use", only, [0; 16]);
    let all = Frames::new(CROWDED, 1024);
    map_is("free map: all frames in use", all, [0; 16]);
}

fn place_cases() {
    let p = SEAT;
    report("stands at: its place", p.stands_at(1, 2));
    report("stands at: another index", !p.stands_at(1, 3));
    report("stands at: another backing", !p.stands_at(2, 2));
    report("stands at: backing 0", !place(0, 2).stands_at(0, 2));
}

fn search_cases() {
    let t = Frames::new(three(1), 1024);
    let (p, q) = (SEAT, place(1, 3));
    found("frame at: the first of two", t, p, Some(63));
    found("frame at: frame 1023", t, q, Some(1023));
    found("frame at: another index", t, place(1, 4), None);
    found("frame at: another backing", t, place(2, 2), None);
    let fewer = Frames::new(three(1), 1023);
    found("frame at: beyond the frames", fewer, q, None);
    found("frame at: backing 0", t, place(0, 0), None);
    let all = Frames::new(CROWDED, 1024);
    found("frame at: all frames at one place", all, p, Some(0));
    found("frame at: no frame", Frames::new(CROWDED, 0), p, None);
    let empty = free(1024);
    found("frame at: an empty table", empty, p, None);
}

// What stands at this place is released.
fn released(frames: Frames, p: Place) -> Store
    ensures { result.frames ≤ 1024 }
{
    let mut s = frames.store();
    page_steps::release(&mut s, p);
    s
}

fn released_cases() {
    let p = SEAT;
    let s = released(Frames::new(three(2), 1024), p);
    stands("released: frame 63", &s, 63, FREE);
    stands("released: another backing stays", &s, 64, place(2, 2));
    stands("released: another index stays", &s, 1023, place(1, 3));
    let found = page_steps::frame_at(&s, 1, 2);
    report("released: none is found again", found.is_none());
    let s = released(Frames::new(CROWDED, 1), p);
    stands("released: one frame, frame 0", &s, 0, FREE);
    stands("released: one frame, frame 1 stays", &s, 1, p);
}

fn kept_cases() {
    let p = SEAT;
    let s = released(Frames::new(with(NOWHERE, 5, p), 5), p);
    stands("released: beyond the frames it stays", &s, 5, p);
    let q = place(0, 7);
    let s = released(Frames::new(with(NOWHERE, 5, q), 1024), q);
    stands("released: backing 0 changes nothing", &s, 5, q);
}

// Every frame at one place, and then one elsewhere.
fn placed_cases() {
    let p = place(u32::MAX, u32::MAX);
    let s = Frames::new(with(CROWDED, 1023, p), 1024).store();
    stands("placed: frame 1023", &s, 1023, p);
    stands("placed: frame 1022 stays", &s, 1022, SEAT);
    let s = Frames::new(with(CROWDED, 0, FREE), 1024).store();
    stands("placed: frame 0", &s, 0, FREE);
    stands("placed: frame 1 stays", &s, 1, SEAT);
}

// Frame f at index f of backing 1.
fn spread() -> [Place; 1024] {
    let mut t = NOWHERE;
    for (index, p) in (0..).zip(&mut t) {
        *p = place(1, index);
    }
    t
}

fn used_cases() {
    used("used: an empty table", free(1024), 0);
    used("used: all frames", Frames::new(spread(), 1024), 1024);
    used(
        "used: one frame",
        Frames::new(with(NOWHERE, 0, place(1, 0)), 1),
        1,
    );
    let mut t = with(NOWHERE, 63, SEAT);
    t[64] = place(1, 1023);
    t[1023] = place(1, 3);
    used("used: three frames", Frames::new(t, 1024), 3);
    used(
        "used: one at index 0",
        Frames::new(with(NOWHERE, 0, place(1, 0)), 1024),
        1,
    );
}

// The parts, one after another. By hand: a table of functions and a loop over it say no more than the calls.
fn main() {
    bit_cases();
    highest_cases();
    taken_cases();
    map_cases();
    used_map_cases();
    place_cases();
    search_cases();
    released_cases();
    kept_cases();
    placed_cases();
    used_cases();
}
