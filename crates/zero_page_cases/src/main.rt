// Runs zeroing of whole pages, alone and between partly touched ones. Answers are written by hand from document 01. One line a case.
#![tactic(auto)]

use access_samples::{
    adds, bare, extent, filled, five, frames, halves, high, holed, paged, read_is, small,
    three_pages, two_pages,
};
use copy_samples::{uncovers, zeroes};
use samples::{FREE, absent, many, place, private, report, single};
use store::Store;

// ---- whole pages
// Pages 0, 3, 4, 5 and 9 of 0 up to 10 in frames 4 to 0.
fn whole_ten() {
    let mut p = [
        place(1, 9),
        place(1, 5),
        place(1, 4),
        place(1, 3),
        place(1, 0),
    ];
    let s = small(3, &[many(0, 0, 10, 0, 1)], &p, 0);
    let (a, b) = (many(0, 0, 3, 0, 1), many(0, 5, 5, 5, 1));
    p[2] = FREE;
    p[3] = FREE;
    let t = small(3, &[a, b], &p, 12);
    let pages = extent(0, 12288, 8192);
    uncovers("(j) pages 3 and 4 of 0 up to 10", s, pages, t);
    let ninth = read_is(t, &five(), 0, 36864, &[1]);
    report("page 9 reads as before", ninth);
    report("page 4 is absent", absent(t, 0, 4));
    p[3] = place(2, 0);
    let t_then = small(3, &[a, b, single(1, 0, 1, 0, 2)], &p, 4);
    adds("its frames are the next call's", t, 1, 0, 3, t_then);
}

// Page 0 of object 0 is left, in frame 4.
fn first_left() -> Store {
    small(3, &[many(0, 0, 1, 0, 1)], &high(FREE, place(1, 0)), 15)
}

fn whole_front() {
    let s = three_pages();
    let a = [many(0, 0, 1, 0, 1), many(0, 2, 1, 2, 1)];
    let p = [FREE, FREE, place(1, 2), FREE, place(1, 0)];
    let t = small(3, &a, &p, 11);
    let middle = extent(0, 4096, 4096);
    uncovers("the front of the only range stays", s, middle, t);
    let last = extent(0, 8192, 4096);
    uncovers("and with its end zeroed", s, last, two_pages());
    let p = [FREE, FREE, place(1, 2), place(1, 1), FREE];
    let t = small(3, &[many(0, 1, 2, 1, 1)], &p, 19);
    uncovers("its end stays", s, extent(0, 0, 4096), t);
}

// Page 1 erased, then page 2 added: the range 0 to 1 is extended over page 1.
fn whole_extended() {
    let t = first_left();
    let page = extent(0, 4096, 4096);
    uncovers("page 1 of two zeroed", two_pages(), page, t);
    let p = high(place(1, 2), place(1, 0));
    let u = small(3, &[many(0, 0, 3, 0, 1)], &p, 7);
    adds("page 2 extends the range", t, 0, 2, 3, u);
    report("page 1 does not return", absent(u, 0, 1));
    report(
        "page 1 reads as zeros",
        read_is(u, &five(), 0, 4095, &[5, 0]),
    );
}

fn whole_shared() {
    let s = halves();
    let (a, b) = (single(0, 0, 1, 0, 1), many(0, 5, 3, 0, 2));
    let p = high(place(2, 1), place(1, 0));
    let t = small(3, &[a, b], &p, 7);
    uncovers("shared pages", s, extent(1, 20480, 12288), t);
    report("(0, 6) is private then", private(t, 0, 6));
    let r = [a, b, many(1, 5, 1, 0, 2), many(1, 7, 1, 2, 2)];
    let t = small(3, &r, &p, 7);
    let page = extent(1, 24576, 4096);
    uncovers("a shared page in the middle", s, page, t);
}

fn whole_object() {
    let all = extent(0, 0, 1073741824);
    uncovers("1 GiB", paged(), all, bare());
    let p = high(place(2, 1), FREE);
    let t = small(3, &[many(1, 5, 3, 0, 2)], &p, 23);
    uncovers("1 GiB beside another object", halves(), all, t);
    uncovers("1 GiB of nothing", bare(), all, bare());
    let h = holed();
    uncovers("one page of nothing", h, extent(0, 12288, 4096), h);
}

fn whole_many() {
    let s = holed();
    let behind = extent(0, 8192, 1073733632);
    let t = small(3, &[many(0, 0, 2, 0, 1)], &high(FREE, place(1, 0)), 15);
    uncovers("two ranges and what is between", s, behind, t);
    let t = small(3, &[single(0, 4, 1, 0, 2)], &[place(2, 0)], 30);
    let before = extent(0, 0, 16384);
    uncovers("a range and the page behind it", s, before, t);
}

// ---- whole pages between partly touched ones
// Page 1 goes; page 2 is shared with page 0 then, and takes frame 1.
fn parts() {
    let a = [many(0, 0, 1, 0, 1), single(0, 2, 1, 0, 2)];
    let p = [FREE, place(2, 0), FREE, FREE, place(1, 0)];
    let t = small(3, &a, &p, 13);
    let want: [u8; 20480] = filled(frames(&[1, 3, 3, 4, 5]), 20384, 96, 0);
    let want = filled(want, 4096, 10, 0);
    let parts = extent(0, 4000, 4202);
    zeroes(
        "a page between parts of two",
        three_pages(),
        parts,
        t,
        &want,
    );
    report("(0, 0) is private", private(t, 0, 0));
    report("(0, 2) is private", private(t, 0, 2));
    uncovers("parts of nothing", bare(), parts, bare());
}

fn part_before() {
    let want = filled(five(), 20384, 96, 0);
    zeroes(
        "part of a page and those behind it",
        three_pages(),
        extent(0, 4000, 8288),
        first_left(),
        &want,
    );
}

fn part_behind() {
    let p = [FREE, FREE, place(1, 2), FREE, FREE];
    let t = small(3, &[many(0, 2, 1, 2, 1)], &p, 27);
    let want = filled(five(), 8192, 10, 0);
    zeroes(
        "two pages and part of the next",
        three_pages(),
        extent(0, 0, 8202),
        t,
        &want,
    );
}

// The parts, one after another. By hand: a table of functions and a loop over it say no more than the calls.
fn main() {
    whole_ten();
    whole_front();
    whole_extended();
    whole_shared();
    whole_object();
    whole_many();
    parts();
    part_before();
    part_behind();
}
