// Runs zeroing of bytes, of pages that are private, absent or shared. Answers are written by hand from document 01. One line a case.
#![tactic(auto)]

use access_samples::{
    extent, filled, five, frames, halves, holed, leaves, paged, read_is, thirds, twice, twice_cut,
};
use copy_samples::{uncovers, zero, zeroes};
use samples::{private, report, shared};

// ---- bytes of pages
// n bytes at one place of the pool and m at another are zero then; the store stays, and no frame is free.
fn clears(name: &str, offset: usize, n: usize, at: usize, m: usize, then: usize) {
    let want = filled(filled(five(), at, n, 0), then, m, 0);
    let bytes = extent(0, offset, n.saturating_add(m));
    zeroes(name, paged(), bytes, paged(), &want);
}

fn bytes() {
    clears("(h) 50 bytes from 100 of a page", 100, 50, 16484, 0, 0);
    clears("one byte inside a page", 4097, 1, 12289, 0, 0);
    clears("all but the edges of a page", 1, 4094, 16385, 0, 0);
    clears("the first byte", 0, 1, 16384, 0, 0);
    clears("up to one byte before an edge", 0, 4095, 16384, 0, 0);
    clears("up to an edge", 4000, 96, 20384, 0, 0);
    clears("from an edge", 4096, 10, 12288, 0, 0);
    clears("over an edge", 4095, 1, 20479, 1, 12288);
    clears(
        "all but the edges of two pages",
        1,
        4095,
        16385,
        4095,
        12288,
    );
}

fn no_bytes() {
    let s = paged();
    uncovers("nothing zeroed at 100", s, extent(0, 100, 0), s);
    uncovers("nothing zeroed at an edge", s, extent(0, 4096, 0), s);
    let end = extent(0, 1073741824, 0);
    uncovers("nothing zeroed at the end", s, end, s);
    let bytes = extent(1, 4000, 106);
    uncovers("bytes of uncovered pages", s, bytes, s);
    let h = halves();
    let bytes = extent(1, 20485, 3);
    uncovers("bytes of an absent page of a shared range", h, bytes, h);
}

fn bytes_holed() {
    let s = holed();
    let mut want = five();
    want[20479] = 0;
    let bytes = extent(0, 4095, 2);
    zeroes("a present and an absent page", s, bytes, s, &want);
}

// ---- bytes of shared pages
// Bytes 10 and 11 of page 6 of object 1.
fn bytes_shared() {
    let mut pool = five();
    let r = zero(halves(), &mut pool, extent(1, 24586, 2));
    let want = filled(frames(&[1, 2, 4, 4, 5]), 8202, 2, 0);
    report(
        "bytes of a shared page",
        leaves(r, thirds()) && pool == want,
    );
    let s = r.unwrap_or(halves());
    let zeros = read_is(s, &pool, 1, 24585, &[4, 0, 0, 4]);
    report("they read as zeros", zeros);
    let other = read_is(s, &pool, 0, 24585, &[4, 4, 4, 4]);
    report("the other object reads as before", other);
    report("(1, 6) is private", private(s, 1, 6));
    report("(0, 6) is shared", shared(s, 0, 6));
}

// Pages 0 and 1 of object 0 are the same page: the first is copied, the second is private by then.
fn bytes_twice() {
    let mut want: [u8; 20480] = frames(&[1, 2, 3, 5, 5]);
    want[16383] = 0;
    want[16384] = 0;
    zeroes(
        "a page that is private when it is reached",
        twice(),
        extent(0, 4095, 2),
        twice_cut(),
        &want,
    );
}

// The parts, one after another. By hand: a table of functions and a loop over it say no more than the calls.
fn main() {
    bytes();
    no_bytes();
    bytes_holed();
    bytes_shared();
    bytes_twice();
}
