// Runs add and write where the last frame is taken, and where too few are free. Answers are written by hand from document 01. One line a case.
#![tactic(auto)]

use access_samples::{
    add_refused, adds, extent, frames, fresh, high, leaves, puts, small, turned, twice_full,
    write_refused,
};
use places::Place;
use refusals::Refusal;
use samples::{FREE, many, place, ranged, report, seated, single, store};
use store::Store;

// A store of one frame, name 0 live; and page 0 of object 0 in it.
fn none() -> Store {
    store(1, 1, &[], &[], &[1])
}

fn one() -> Store {
    store(1, 1, &[single(0, 0, 1, 0, 1)], &[place(1, 0)], &[0])
}

fn one_frame_taken() {
    let mut pool = [9; 4096];
    let r = access::write(none(), &mut pool, 0, 5, b"k");
    let mut want = [0; 4096];
    want[5] = b'k';
    report("one frame: a first byte", leaves(r, one()) && pool == want);
}

fn one_frame_kept() {
    let mut pool = [9; 4096];
    let r = access::write(one(), &mut pool, 0, 6, b"l");
    let mut want = [9; 4096];
    want[6] = b'l';
    report("one frame: another byte", r == Ok(one()) && pool == want);
}

fn one_frame_short() {
    let why = Refusal::NoFrame;
    report(
        "one frame: another page",
        write_refused(one(), 4096, extent(0, 4096, 1), why),
    );
    report(
        "one frame: two pages",
        write_refused(none(), 4096, extent(0, 4095, 2), why),
    );
    report(
        "one frame: its page added again",
        add_refused(one(), 4096, 0, 0, why),
    );
}

// Pages 0 up to 5 of object 0, pages 0 to 3 in frames 4 to 1, page 4 where frame 0 is.
fn last(first: Place, w: u64) -> Store {
    let p = [first, place(1, 3), place(1, 2), place(1, 1), place(1, 0)];
    small(1, &[many(0, 0, 5, 0, 1)], &p, w)
}

fn last_frame() {
    let s = last(FREE, 1);
    let t = last(place(1, 4), 0);
    let want = fresh(0, 1, b'k');
    puts("the last frame written", s, 0, 16385, b"k", t, &want);
    adds("the last frame added", s, 0, 4, 0, t);
}

fn no_frame() {
    let s = last(place(1, 4), 0);
    let why = Refusal::NoFrame;
    turned("8: a page that would join", s, 5, 20480, why);
    turned("8: a page that would start a range", s, 100, 409600, why);
    report("8: a present page added", add_refused(s, 20480, 0, 0, why));
    report(
        "8: one absent page of five",
        write_refused(s, 20480, extent(0, 4096, 16385), why),
    );
}

// Of object 0, page 0 in frame 4, page 1 absent, page 2 shared and in frame 3, page 3 not covered. By hand: the store of a case is told by
// a table of its own.
fn mixed() -> Store {
    let a = [
        many(0, 0, 2, 0, 1),
        single(0, 2, 1, 0, 2),
        single(1, 2, 1, 0, 2),
    ];
    small(3, &a, &high(place(2, 0), place(1, 0)), 7)
}

// The same with frame 2 in use elsewhere.
fn mixed_less() -> Store {
    let s = ranged(mixed(), 3, single(1, 9, 1, 0, 3));
    seated(s, 2, place(3, 0), 3)
}

// From the last byte of page 0 to the first of page 3.
fn four_pages() -> [u8; 8194] {
    let mut a = [12; 8194];
    a[4097..].fill(13);
    a[0] = 11;
    a[8193] = 14;
    a
}

fn three_frames() {
    let a = [
        many(0, 0, 2, 0, 1),
        many(0, 2, 2, 0, 3),
        single(1, 2, 1, 0, 2),
    ];
    let p = [
        place(3, 1),
        place(3, 0),
        place(1, 1),
        place(2, 0),
        place(1, 0),
    ];
    let mut want: [u8; 20480] = frames(&[0, 13, 12, 4, 5]);
    want[0] = 14;
    want[20479] = 11;
    puts(
        "three frames needed, three free",
        mixed(),
        0,
        4095,
        &four_pages(),
        small(3, &a, &p, 0),
        &want,
    );
}

fn two_frames() {
    let bytes = extent(0, 4095, 8194);
    report(
        "8: three frames needed, two free",
        write_refused(mixed_less(), 20480, bytes, Refusal::NoFrame),
    );
}

// Pages 0 and 1 of object 0 are the same page, in frame 4, and frame 3 alone is free.
fn gross() {
    report(
        "8: two pages count that would take one frame",
        write_refused(
            twice_full(1, 0),
            20480,
            extent(0, 4095, 2),
            Refusal::NoFrame,
        ),
    );
}

// The parts, one after another. By hand: a table of functions and a loop over it say no more than the calls.
fn main() {
    one_frame_taken();
    one_frame_kept();
    one_frame_short();
    last_frame();
    no_frame();
    three_frames();
    two_frames();
    gross();
}
