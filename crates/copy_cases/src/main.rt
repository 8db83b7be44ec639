// Runs copies of bytes, from and to pages that are present, absent or shared. Answers are written by hand from document 01. One line a case.
#![tactic(auto)]

use access_samples::{
    bare, filled, five, frames, fresh, halves, high, leaves, read_is, small, thirds, two_pages,
};
use copy_samples::{across, copied, copy, quiet, shadows};
use refusals::Passage;
use samples::{FREE, many, place, private, report, single};
use store::Store;

// ---- bytes between present pages
// Pages 0 and 1 of object 0 in frames 4 and 3, of object 1 in frames 2 and 1; no frame is free. By hand: the store of a case is told by a table of its own.
fn both() -> Store {
    let a = [
        many(0, 0, 2, 0, 1),
        many(1, 0, 2, 0, 2),
        single(1, 9, 1, 0, 3),
    ];
    let p = [
        place(3, 0),
        place(2, 1),
        place(2, 0),
        place(1, 1),
        place(1, 0),
    ];
    small(3, &a, &p, 0)
}

// The bytes at one place of the pool are b then; the store stays.
fn lands(name: &str, passage: Passage, at: usize, b: u8) {
    let want = filled(five(), at, passage.n, b);
    copied(name, both(), passage, both(), &want);
}

fn bytes() {
    lands("50 bytes inside a page", across(100, 100, 50), 8292, 5);
    lands(
        "50 bytes to another place inside a page",
        across(100, 200, 50),
        8392,
        5,
    );
    lands("one byte to another page", across(1, 4097, 1), 4097, 5);
    lands("all but the edges of a page", across(1, 1, 4094), 8193, 5);
    lands("up to an edge", across(4000, 4000, 96), 12192, 5);
    lands("from an edge", across(4096, 0, 10), 8192, 4);
    let p = across(20490, 10, 50);
    lands("50 bytes of an uncovered page", p, 8202, 0);
    let p = across(20490, 11, 50);
    lands("50 bytes of it to another place", p, 8203, 0);
}

// The bytes but the last are b at one place, and the last is c at another.
fn crosses(name: &str, passage: Passage, at: usize, b: u8, then: usize, c: u8) {
    let want = filled(five(), at, passage.n.saturating_sub(1), b);
    let want = filled(want, then, 1, c);
    copied(name, both(), passage, both(), &want);
}

fn bytes_over_edges() {
    crosses("over both edges", across(4095, 4095, 2), 12287, 5, 4096, 4);
    let p = across(4095, 10, 2);
    crosses("over a source edge", p, 8202, 5, 8203, 4);
    let p = across(10, 4095, 2);
    crosses("over a destination edge", p, 12287, 5, 4096, 5);
    let p = across(0, 1, 4096);
    crosses("a page one byte further", p, 8193, 5, 4096, 5);
    let p = across(8191, 100, 2);
    crosses("over the end of the last covered page", p, 8292, 4, 8293, 0);
}

fn no_bytes() {
    let s = both();
    let end = across(1073741824, 1073741824, 0);
    quiet("(i) nothing at 100", s, across(100, 100, 0), s);
    quiet("nothing at unequal places", s, across(100, 7, 0), s);
    quiet("nothing at an edge", s, across(4096, 4096, 0), s);
    quiet("nothing at the end", s, end, s);
    shadows("nothing shadowed", s, across(0, 100, 0), s);
    shadows("nothing shadowed at the end", s, end, s);
}

// ---- bytes where pages are absent
// Of object 0, page 0 absent, page 1 all sevens.
fn sevens() {
    let a = many(0, 0, 2, 0, 1);
    let s = small(3, &[a], &high(FREE, place(1, 1)), 15);
    let mut pool = frames::<20480>(&[1, 2, 3, 4, 7]);
    let r = copy(s, &mut pool, across(4000, 0, 4096));
    let p = high(place(2, 0), place(1, 1));
    let t = small(3, &[a, single(1, 0, 1, 0, 2)], &p, 7);
    let want = filled(frames(&[1, 2, 3, 7, 7]), 12288, 96, 0);
    report(
        "(k) 96 zeros, then 4000 sevens",
        leaves(r, t) && pool == want,
    );
}

// Page 1 of object 0 in frame 4, page 0 of object 1 in frame 3.
fn each_page() {
    let a = [single(0, 1, 1, 0, 1), single(1, 0, 1, 0, 2)];
    let s = small(3, &a, &high(place(2, 0), place(1, 0)), 7);
    let mut want = five();
    want[12288] = 0;
    want[12289] = 5;
    copied(
        "an absent page, then a present one",
        s,
        across(4095, 0, 2),
        s,
        &want,
    );
    want[12288] = 4;
    want[12289] = 4;
    want[12295] = 5;
    want[12296] = 0;
    copied(
        "a present page, then an absent one",
        s,
        across(8191, 7, 2),
        s,
        &want,
    );
}

fn from_nothing() {
    let s = bare();
    let a = [single(1, 0, 1, 0, 1)];
    let t = small(3, &a, &high(FREE, place(1, 0)), 15);
    let want = fresh(4, 16384, 0);
    copied(
        "bytes of nothing add a page",
        s,
        across(100, 100, 50),
        t,
        &want,
    );
    copied(
        "a page of nothing at unequal places adds one",
        s,
        across(1, 0, 4096),
        t,
        &want,
    );
    let all = across(0, 0, 1073741824);
    quiet("whole pages of nothing are skipped", s, all, s);
    shadows("and shadowed", s, all, s);
}

// Two pages of object 0, in frames 4 and 3, one byte further: object 1 has three then.
fn unequal_pool() -> [u8; 20480] {
    let mut p = frames(&[0, 4, 5, 4, 5]);
    p[0] = 4;
    p[4096] = 5;
    p[8192] = 0;
    p
}

fn unequal_pages() {
    let p = [
        place(2, 2),
        place(2, 1),
        place(2, 0),
        place(1, 1),
        place(1, 0),
    ];
    let a = [many(0, 0, 2, 0, 1), many(1, 0, 3, 0, 2)];
    let t = small(3, &a, &p, 0);
    copied(
        "two pages at unequal places become three",
        two_pages(),
        across(0, 1, 8192),
        t,
        &unequal_pool(),
    );
    report("the source stays private", private(t, 0, 0));
    report("the copy is private", private(t, 1, 1));
}

// Page 6 of the halves, which begins with a nine, copied one byte further into itself.
fn into_shared() {
    let mut pool = five();
    pool[12288] = 9;
    let r = copy(halves(), &mut pool, across(24576, 24577, 2));
    let mut want = frames(&[1, 2, 4, 4, 5]);
    want[8192] = 9;
    want[8193] = 9;
    want[12288] = 9;
    report(
        "a page that both objects have",
        leaves(r, thirds()) && pool == want,
    );
    let s = r.unwrap_or(halves());
    report("the copy", read_is(s, &pool, 1, 24576, &[9, 9, 4, 4]));
    report("the source", read_is(s, &pool, 0, 24576, &[9, 4, 4, 4]));
}

// The parts, one after another. By hand: a table of functions and a loop over it say no more than the calls.
fn main() {
    bytes();
    bytes_over_edges();
    no_bytes();
    sevens();
    each_page();
    from_nothing();
    unequal_pages();
    into_shared();
}
