// Runs add where a page starts a range, joins one, is replaced or is cut out of a shared one. Answers are written by hand from document 01. One line a case.
#![tactic(auto)]

use access_samples::{adds, bare, halved, halves, high, hole_filled, holed, small, windows_apart};
use samples::{FREE, many, place, single};
use store::Store;

// ---- adding a page
// Pages 0 up to 5 of object 0, page 4 in frame 4.
fn front(offset: u32, index: u32) -> Store {
    let p = high(FREE, place(1, index));
    small(3, &[many(0, 0, 5, offset, 1)], &p, 15)
}

// The same, longer, with frame 3 at another index.
fn longer(length: u32, offset: u32, index: u32, more: u32) -> Store {
    let p = high(place(1, more), place(1, index));
    small(3, &[many(0, 0, length, offset, 1)], &p, 7)
}

fn started() {
    let a = [single(0, 7, 1, 0, 1)];
    let t = small(3, &a, &high(FREE, place(1, 0)), 15);
    adds("a first page", bare(), 0, 7, 4, t);
    let p = high(place(2, 0), place(1, 4));
    let b = [many(0, 0, 5, 0, 1), single(0, 21, 1, 0, 2)];
    let t = small(3, &b, &p, 7);
    adds("(g) page 21 starts a range", front(0, 4), 0, 21, 3, t);
    let c = [many(0, 0, 5, 0, 1), single(1, 5, 1, 0, 2)];
    adds(
        "another object's range is not joined",
        front(0, 4),
        1,
        5,
        3,
        small(3, &c, &p, 7),
    );
    let d = many(0, 10, 5, 0, 1);
    let s = small(3, &[d], &high(FREE, place(1, 4)), 15);
    adds(
        "the range after it is not joined",
        s,
        0,
        9,
        3,
        small(3, &[single(0, 9, 1, 0, 2), d], &p, 7),
    );
}

fn joined() {
    adds(
        "(f) page 20 joins",
        front(0, 4),
        0,
        20,
        3,
        longer(21, 0, 4, 20),
    );
    adds("page 5 joins", front(0, 4), 0, 5, 3, longer(6, 0, 4, 5));
    adds(
        "page 20 joins at an offset",
        front(100, 104),
        0,
        20,
        3,
        longer(21, 100, 104, 120),
    );
    adds(
        "an absent page of a range",
        front(0, 4),
        0,
        2,
        3,
        longer(5, 0, 4, 2),
    );
}

fn replaced() {
    let p = high(place(1, 4), FREE);
    let t = small(3, &[many(0, 0, 5, 0, 1)], &p, 23);
    adds("a present page is replaced", front(0, 4), 0, 4, 3, t);
    adds("the highest free frame", holed(), 0, 1, 3, hole_filled());
}

fn joined_single() {
    let a = [single(0, 0, 1, 0, 1)];
    let s = small(3, &a, &high(FREE, place(1, 0)), 15);
    let b = [many(0, 0, 17, 0, 1)];
    let t = small(3, &b, &high(place(1, 16), place(1, 0)), 7);
    adds("page 16 joins a single page", s, 0, 16, 3, t);
    let c = [single(0, 0, 1, 0, 1), single(0, 17, 1, 0, 2)];
    let u = small(3, &c, &high(place(2, 0), place(1, 0)), 7);
    adds("page 17 does not", s, 0, 17, 3, u);
    let v = small(3, &a, &high(place(1, 0), FREE), 23);
    adds("a single page is replaced", s, 0, 0, 3, v);
}

// Two ranges with a gap between.
fn joined_between() {
    let p = high(FREE, place(1, 4));
    let s = small(3, &[many(0, 0, 5, 0, 1), many(0, 8, 2, 0, 2)], &p, 15);
    let a = [many(0, 0, 7, 0, 1), many(0, 8, 2, 0, 2)];
    let t = small(3, &a, &high(place(1, 6), place(1, 4)), 7);
    adds("page 6 joins the range before the gap", s, 0, 6, 3, t);
    let b = [many(0, 0, 5, 0, 1), many(0, 8, 5, 0, 2)];
    let u = small(3, &b, &high(place(2, 4), place(1, 4)), 7);
    adds("page 12 joins the range after it", s, 0, 12, 3, u);
}

// Pages 0 up to 5 at a great offset, with a range of its own for the page.
fn far_started(offset: u32, page: usize) -> Store {
    let a = [many(0, 0, 5, offset, 1), single(0, page, 1, 0, 2)];
    small(3, &a, &high(FREE, place(2, 0)), 15)
}

// The range made longer, with the page at index 1048575.
fn far_joined(length: u32, offset: u32) -> Store {
    let p = high(FREE, place(1, 1048575));
    small(3, &[many(0, 0, length, offset, 1)], &p, 15)
}

// A page added to pages 0 up to 5 at that offset.
fn at_offset(name: &str, offset: u32, page: usize, t: Store) {
    let s = small(3, &[many(0, 0, 5, offset, 1)], &[], 31);
    adds(name, s, 0, page, 4, t);
}

fn long() {
    at_offset(
        "page 20 joins up to 1048576",
        1048555,
        20,
        far_joined(21, 1048555),
    );
    at_offset(
        "page 20 would pass 1048576",
        1048556,
        20,
        far_started(1048556, 20),
    );
    at_offset(
        "page 5 joins up to 1048576",
        1048570,
        5,
        far_joined(6, 1048570),
    );
    at_offset(
        "page 5 would pass 1048576",
        1048571,
        5,
        far_started(1048571, 5),
    );
    at_offset(
        "index 1048575 inside a range",
        1048571,
        4,
        far_joined(5, 1048571),
    );
}

// ---- adding where a backing is shared
fn cut() {
    let first = single(0, 0, 1, 0, 1);
    let other = many(1, 5, 3, 0, 2);
    let t = halved(&[
        first,
        many(0, 5, 1, 0, 2),
        single(0, 6, 1, 0, 3),
        many(0, 7, 1, 2, 2),
        other,
    ]);
    adds("a shared page is cut out", halves(), 0, 6, 2, t);
    let u = halved(&[first, single(0, 5, 1, 0, 3), many(0, 6, 2, 1, 2), other]);
    adds("the first of a shared range", halves(), 0, 5, 2, u);
    let v = halved(&[first, many(0, 5, 2, 0, 2), single(0, 7, 1, 0, 3), other]);
    adds("the last of a shared range", halves(), 0, 7, 2, v);
    let w = halved(&[first, many(0, 5, 3, 0, 2), single(0, 8, 1, 0, 3), other]);
    adds("a shared range is not joined", halves(), 0, 8, 2, w);
}

fn cut_alone() {
    let p = high(FREE, place(1, 0));
    let s = small(3, &[single(0, 0, 1, 0, 1), single(1, 0, 1, 0, 1)], &p, 15);
    let q = high(place(2, 0), place(1, 0));
    let t = small(3, &[single(0, 0, 1, 0, 1), single(1, 0, 1, 0, 2)], &q, 7);
    adds("a shared range of one page", s, 1, 0, 3, t);
    let a = many(0, 0, 2, 0, 1);
    let b = many(0, 10, 2, 0, 1);
    let u = small(3, &[a, b], &p, 15);
    let v = small(3, &[a, single(0, 2, 1, 0, 2), b], &q, 7);
    adds("a range shared in one object is not joined", u, 0, 2, 3, v);
}

fn cut_free() {
    let b = [
        many(0, 0, 1, 0, 1),
        single(0, 1, 1, 0, 2),
        many(0, 2, 1, 2, 1),
        many(1, 0, 1, 5, 1),
    ];
    let t = small(3, &b, &high(place(2, 0), FREE), 23);
    adds("an entry in no window goes", windows_apart(), 0, 1, 3, t);
}

// The parts, one after another. By hand: a table of functions and a loop over it say no more than the calls.
fn main() {
    started();
    joined();
    replaced();
    joined_single();
    joined_between();
    long();
    cut();
    cut_alone();
    cut_free();
}
