// Runs reads and writes at the ends of an object, at the edges of pages and over pages that are absent. Answers are written by hand from document 01. One line a case.
#![tactic(auto)]

use access_samples::{
    adds, bare, extent, five, frames, fresh, gets, high, holed, leaves, paged, puts, puts_nothing,
    read_is, read_refused, small, span, stored, write_refused,
};
use refusals::Refusal;
use samples::{FREE, absent, many, place, private, report, single};
use store::Store;

// ---- the end of an object
fn nothing_written() {
    puts_nothing("nothing written at the end", paged(), 0, 1073741824);
    puts_nothing("nothing written at an edge", paged(), 0, 4096);
    puts_nothing("nothing written to an absent page", bare(), 0, 100);
}

fn nothing_read() {
    gets("nothing read at the end", paged(), 0, 1073741824, &[]);
    gets("nothing read at an edge", paged(), 0, 4096, &[]);
}

// A read and a write that are refused with 6.
fn past(name: &str, offset: usize, n: usize) {
    let s = paged();
    let there = extent(0, offset, n);
    let read = read_refused(s, 20480, there, Refusal::PastEnd);
    report(
        name,
        read && write_refused(s, 20480, there, Refusal::PastEnd),
    );
}

fn past_the_end() {
    past("1 byte at the end", 1073741824, 1);
    past("2 bytes at the last byte", 1073741823, 2);
    past("20480 bytes, the last one past the end", 1073721345, 20480);
    past("nothing past the end", 1073741825, 0);
    past("1 byte past the end", 1073741825, 1);
    past("nothing at the last number", 18446744073709551615, 0);
    past("1 byte at the last number", 18446744073709551615, 1);
    past(
        "20480 bytes at the last number",
        18446744073709551615,
        20480,
    );
}

// Page 262143 of object 0 in frame 4.
fn ended() -> Store {
    let a = [single(0, 262143, 1, 0, 1)];
    small(3, &a, &high(FREE, place(1, 0)), 15)
}

fn last_byte() {
    let mut pool = five();
    let r = access::write(bare(), &mut pool, 0, 1073741823, b"z");
    report(
        "the last byte written",
        leaves(r, ended()) && pool == fresh(4, 20479, b'z'),
    );
    let s = r.unwrap_or(bare());
    report("the last byte read", read_is(s, &pool, 0, 1073741823, b"z"));
    report(
        "the last byte and the one before",
        read_is(s, &pool, 0, 1073741822, &[0, b'z']),
    );
    report("page 262143 is private", private(s, 0, 262143));
    report("page 262142 is absent", absent(s, 0, 262142));
}

// Pages 262139 to 262143 of object 0, in frames 4 to 0.
fn last_pages() {
    let t = small(3, &[many(0, 262139, 5, 0, 1)], &paged().places, 0);
    let src = [8; 20480];
    puts(
        "the last five pages written",
        bare(),
        0,
        1073721344,
        &src,
        t,
        &src,
    );
    adds("page 262143 added", bare(), 0, 262143, 4, ended());
}

// ---- the edges of pages
// abcde written: n bytes of it stand at one place of the pool and the others at another.
fn edge(name: &str, offset: usize, at: usize, n: usize, then: usize) {
    let s = paged();
    let mut pool = five();
    let r = access::write(s, &mut pool, 0, offset, b"abcde");
    let (head, tail) = b"abcde".split_at_checked(n).unwrap_or((&[], &[]));
    let want = stored(stored(five(), at, head), then, tail);
    let back = read_is(s, &pool, 0, offset, b"abcde");
    report(name, r == Ok(s) && pool == want && back);
}

fn edges() {
    edge("inside a page", 100, 16484, 5, 0);
    edge("from the first byte", 0, 16384, 5, 0);
    edge("up to one byte before an edge", 4090, 20474, 5, 0);
    edge("up to an edge", 4091, 20475, 5, 0);
    edge("up to one byte after an edge", 4092, 20476, 4, 12288);
    edge("from one byte before an edge", 4095, 20479, 1, 12288);
    edge("from an edge", 4096, 12288, 5, 0);
    edge("from one byte after an edge", 4097, 12289, 5, 0);
    edge("up to the end of page 4", 20475, 4091, 5, 0);
}

fn over_pages() {
    let s = paged();
    let src = span();
    let mut want: [u8; 20480] = frames(&[1, 2, 3, 12, 5]);
    want[20479] = 11;
    want[8192] = 13;
    puts("three pages written", s, 0, 4095, &src, s, &want);
    report("three pages read", read_is(s, &want, 0, 4095, &src));
}

// Page p of object 0 stands in frame 4 - p.
fn all_pages() {
    let s = paged();
    let src = five();
    let want: [u8; 20480] = frames(&[5, 4, 3, 2, 1]);
    puts("five pages written", s, 0, 0, &src, s, &want);
    report("five pages read", read_is(s, &src, 0, 0, &want));
}

// ---- reading
fn read_holes() {
    let s = holed();
    let want: [u8; 20480] = frames(&[5, 0, 3, 0, 1]);
    gets("present, absent and uncovered pages", s, 0, 0, &want);
    gets(
        "the same, from the last byte of page 0",
        s,
        0,
        4095,
        &want[4095..16385],
    );
    gets("from present to absent", s, 0, 4095, &[5, 0]);
    gets("from absent to present", s, 0, 8191, &[0, 3]);
    gets("from present to uncovered", s, 0, 12287, &[3, 0]);
    gets("from uncovered to present", s, 0, 16383, &[0, 1]);
    gets("past the last range", s, 0, 20479, &[1, 0]);
    gets("uncovered pages alone", s, 0, 409600, &[0; 20480]);
    gets("an object without a range", s, 1, 0, &[0; 20480]);
}

// Index 8 of backing 1 is page 4 of object 0 and page 0 of object 1.
fn read_windows() {
    let a = [many(0, 3, 2, 7, 1), many(1, 0, 1, 8, 1)];
    let s = small(3, &a, &high(FREE, place(1, 8)), 15);
    gets("a page by its index", s, 0, 16383, &[0, 5]);
    gets("the same in another window", s, 1, 4095, &[5, 0]);
}

// The parts, one after another. By hand: a table of functions and a loop over it say no more than the calls.
fn main() {
    nothing_written();
    nothing_read();
    past_the_end();
    last_byte();
    last_pages();
    edges();
    over_pages();
    all_pages();
    read_holes();
    read_windows();
}
