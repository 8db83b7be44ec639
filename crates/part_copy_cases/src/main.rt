// Runs copies of whole pages between partly touched ones, and of pages that the source does not cover. Answers are written by hand from document 01. One line a case.
#![tactic(auto)]

use access_samples::{filled, five, frames, high, leaves, read_is, small};
use copy_samples::{across, copied, copy, quiet};
use places::Place;
use samples::{FREE, absent, many, place, private, report, shared, single, sound, store};
use store::Store;
use table::PageRange;

// ---- whole pages between partly touched ones, on eight frames
// Frame f is f + 1 in each byte.
fn eight() -> [u8; 32768] {
    frames(&[1, 2, 3, 4, 5, 6, 7, 8])
}

// Pages 0 to 4 of object 0 in frames 7 to 3, and these places of frames 1 and 2.
fn wide(ranges: &[PageRange], one: Place, two: Place, w: u64) -> Store {
    let p = [
        FREE,
        one,
        two,
        place(1, 4),
        place(1, 3),
        place(1, 2),
        place(1, 1),
        place(1, 0),
    ];
    store(8, 3, ranges, &p, &[w])
}

fn wide_then() -> Store {
    let a = [
        many(0, 0, 5, 0, 1),
        single(1, 0, 1, 0, 2),
        many(1, 1, 3, 1, 1),
        single(1, 4, 1, 0, 3),
    ];
    wide(&a, place(3, 0), place(2, 0), 1)
}

// 96 bytes of page 0, pages 1 to 3, and 10 bytes of page 4.
fn parts() {
    let mut pool = eight();
    let s = wide(&[many(0, 0, 5, 0, 1)], FREE, FREE, 7);
    let r = copy(s, &mut pool, across(4000, 4000, 12394));
    let want = filled(frames(&[1, 0, 0, 4, 5, 6, 7, 8]), 12192, 96, 8);
    let want = filled(want, 4096, 10, 4);
    let right = leaves(r, wide_then()) && pool == want;
    report("three pages between parts of two", right);
    parts_read(r.unwrap_or(s), &pool);
}

fn parts_read(s: Store, pool: &[u8]) {
    sound("two frames more, and four ranges", s, 7, 4);
    report(
        "the parts are private",
        private(s, 1, 0) && private(s, 1, 4),
    );
    let pages = [1, 2, 3];
    let are_shared = pages.iter().all(|page| shared(s, 1, *page));
    report("the pages are shared", are_shared);
    let are_shared = pages.iter().all(|page| shared(s, 0, *page));
    report("in the source too", are_shared);
    report("the first part begins", read_is(s, pool, 1, 3999, &[0, 8]));
    report("and ends", read_is(s, pool, 1, 4095, &[8, 7]));
    report("the last part begins", read_is(s, pool, 1, 16383, &[5, 4]));
    report("and ends with it", read_is(s, pool, 1, 16393, &[4, 0]));
}

// Pages 0 up to 3 of object 0 are absent; those of object 1 are in frames 4 to 2. Page 1 goes, and page 2 is shared with page 0 then: it takes frame 1.
fn parts_cut() {
    let a = many(0, 0, 3, 0, 2);
    let p = [FREE, FREE, place(1, 2), place(1, 1), place(1, 0)];
    let s = small(3, &[a, many(1, 0, 3, 0, 1)], &p, 3);
    let b = [
        a,
        many(1, 0, 1, 0, 1),
        many(1, 1, 1, 1, 2),
        single(1, 2, 1, 0, 3),
    ];
    let p = [FREE, place(3, 0), FREE, FREE, place(1, 0)];
    let t = small(3, &b, &p, 13);
    let want: [u8; 20480] = filled(frames(&[1, 3, 3, 4, 5]), 20384, 96, 0);
    let want = filled(want, 4096, 10, 0);
    copied(
        "a last page that is shared when it is reached",
        s,
        across(4000, 4000, 4202),
        t,
        &want,
    );
    report("(1, 1) is absent", absent(t, 1, 1));
}

// ---- pages that the source does not cover
// Page 0 of object 0 in frame 4, page 1 of object 1 in frame 3.
fn trailing() {
    let a = single(0, 0, 1, 0, 1);
    let b = single(1, 1, 1, 0, 2);
    let p = high(place(2, 0), place(1, 0));
    let s = small(3, &[a, b], &p, 7);
    let t = small(3, &[a, single(1, 0, 1, 0, 1), b], &p, 7);
    let passage = across(0, 0, 8192);
    quiet("a trailing uncovered page is skipped", s, passage, t);
    report(
        "the destination keeps its page",
        read_is(t, &five(), 1, 4095, &[5, 4]),
    );
}

// And page 2 of object 0 in frame 2: ten bytes of it make a page that joins page 1.
fn trailing_part() {
    let a = single(0, 0, 1, 0, 1);
    let b = single(0, 2, 1, 0, 3);
    let p = [FREE, FREE, place(3, 0), place(2, 0), place(1, 0)];
    let s = small(3, &[a, b, single(1, 1, 1, 0, 2)], &p, 3);
    let r = [a, b, single(1, 0, 1, 0, 1), many(1, 1, 2, 0, 2)];
    let p = [FREE, place(2, 1), place(3, 0), place(2, 0), place(1, 0)];
    let t = small(3, &r, &p, 1);
    let want: [u8; 20480] = filled(frames(&[1, 0, 3, 4, 5]), 4096, 10, 3);
    copied(
        "part of a page behind a skipped one",
        s,
        across(0, 0, 8202),
        t,
        &want,
    );
}

// Page 4 of object 1 is index 1 of a backing of which page 5 is index 0. Page 4 is cut out, pages 5 and 6 are skipped, and page 7 joins page 5: page 6 would be index 1.
fn gone_at_once() {
    let a = single(0, 4, 1, 0, 2);
    let r = [a, many(1, 4, 1, 1, 1), many(1, 5, 1, 0, 1)];
    let p = [FREE, FREE, place(2, 0), place(1, 0), place(1, 1)];
    let s = small(3, &r, &p, 3);
    let r = [a, single(1, 4, 1, 0, 3), many(1, 5, 3, 0, 1)];
    let p = [place(1, 2), place(3, 0), place(2, 0), place(1, 0), FREE];
    let t = small(3, &r, &p, 16);
    let want: [u8; 20480] = filled(frames(&[0, 5, 3, 4, 5]), 8096, 96, 3);
    copied(
        "a range extended over what was cut out",
        s,
        across(20384, 20384, 8298),
        t,
        &want,
    );
    report("what was cut out does not return", absent(t, 1, 6));
}

// The parts, one after another. By hand: a table of functions and a loop over it say no more than the calls.
fn main() {
    parts();
    parts_cut();
    trailing();
    trailing_part();
    gone_at_once();
}
