// Runs writes to pages that are shared or absent, and one page handed over. Answers are written by hand from document 01. One line a case.
#![tactic(auto)]

use access_samples::{
    adds, bare, five, frames, fresh, halved, halves, hole_filled, holed, leaves, puts, read_is,
    small, span, thirds, three_pages, twice, twice_cut, windows_apart,
};
use refusals::Refusal;
use samples::{FREE, many, place, private, ranged, report, seated, shared, single, sound, store};
use store::Store;
use table::PageRange;

// ---- writing where a backing is shared
// Byte 10 of page 6 of object 1.
fn written_shared() {
    let mut pool = five();
    let r = access::write(halves(), &mut pool, 1, 24586, b"z");
    let mut want = frames(&[1, 2, 4, 4, 5]);
    want[8202] = b'z';
    report("a shared page written", leaves(r, thirds()) && pool == want);
    let s = r.unwrap_or(halves());
    report(
        "it reads as written",
        read_is(s, &pool, 1, 24585, &[4, b'z', 4]),
    );
    report(
        "the other object reads as before",
        read_is(s, &pool, 0, 24585, &[4, 4, 4]),
    );
    report("(1, 6) is private", private(s, 1, 6));
    report("(0, 6) is shared", shared(s, 0, 6));
}

fn written_same() {
    puts(
        "the bytes that it has cut it out too",
        halves(),
        1,
        24586,
        &[4, 4],
        thirds(),
        &frames::<20480>(&[1, 2, 4, 4, 5]),
    );
}

fn written_absent() {
    let t = halved(&[
        single(0, 0, 1, 0, 1),
        single(0, 5, 1, 0, 3),
        many(0, 6, 2, 1, 2),
        many(1, 5, 3, 0, 2),
    ]);
    puts(
        "an absent page of a shared range",
        halves(),
        0,
        20480,
        b"a",
        t,
        &fresh(2, 8192, b'a'),
    );
}

fn written_uncovered() {
    let t = halved(&[
        single(0, 0, 1, 0, 1),
        many(0, 5, 3, 0, 2),
        single(1, 0, 1, 0, 3),
        many(1, 5, 3, 0, 2),
    ]);
    let want = fresh(2, 8192, b'a');
    puts("an uncovered page", halves(), 1, 0, b"a", t, &want);
}

fn written_hole() {
    puts(
        "an absent page of an unshared range",
        holed(),
        0,
        4101,
        b"a",
        hole_filled(),
        &fresh(3, 12293, b'a'),
    );
}

// From the last byte of page 0, nothing covered: page 1 joins page 0, and page 2 both.
fn written_new() {
    let mut want: [u8; 20480] = frames(&[1, 2, 0, 12, 0]);
    want[20479] = 11;
    want[8192] = 13;
    puts(
        "three uncovered pages become one range",
        bare(),
        0,
        4095,
        &span(),
        three_pages(),
        &want,
    );
}

// From the last byte of page 6: a shared page, an absent one of a shared range, and one that joins the page before it.
fn mixed() -> Store {
    let a = [
        single(0, 0, 1, 0, 1),
        many(0, 5, 3, 0, 2),
        many(1, 5, 1, 0, 2),
        single(1, 6, 1, 0, 3),
        many(1, 7, 2, 0, 4),
    ];
    let p = [
        place(4, 1),
        place(4, 0),
        place(3, 0),
        place(2, 1),
        place(1, 0),
    ];
    small(3, &a, &p, 0)
}

fn written_mixed() {
    let mut want: [u8; 20480] = frames(&[0, 12, 4, 4, 5]);
    want[0] = 13;
    want[12287] = 11;
    puts(
        "shared, absent and uncovered pages",
        halves(),
        1,
        28671,
        &span(),
        mixed(),
        &want,
    );
}

// Pages 0 and 1 of object 0 are the same page: the first is copied, the second is private by then.
fn written_twice() {
    let mut want: [u8; 20480] = frames(&[1, 2, 3, 5, 5]);
    want[16383] = b'x';
    want[16384] = b'y';
    puts(
        "a page that is private when it is reached",
        twice(),
        0,
        4095,
        b"xy",
        twice_cut(),
        &want,
    );
}

// Page 1 is in frame 4, which goes when the page is cut out; page 2 still takes frame 2.
fn released() -> Store {
    let a = [
        many(0, 0, 1, 0, 1),
        single(0, 1, 1, 0, 2),
        single(0, 2, 1, 0, 3),
        many(1, 0, 1, 5, 1),
    ];
    let p = [FREE, FREE, place(3, 0), place(2, 0)];
    small(3, &a, &p, 19)
}

// The same with page 9 of object 1 in frame 4.
fn taken() -> Store {
    let s = ranged(released(), 4, single(1, 9, 1, 0, 4));
    seated(s, 4, place(4, 0), 3)
}

fn written_released() {
    let t = released();
    let mut want: [u8; 20480] = frames(&[1, 2, 0, 5, 5]);
    want[8192] = b'y';
    want[16383] = b'x';
    puts(
        "a released frame is not used in the call",
        windows_apart(),
        0,
        8191,
        b"xy",
        t,
        &want,
    );
    adds("it is the next call's", t, 1, 9, 4, taken());
}

// ---- a page handed over, as in the lines of document 01
// Sixteen frames, with two pages in frames 15 and 14.
fn sixteen(ranges: &[PageRange]) -> Store {
    let mut s = store(16, 3, ranges, &[], &[16383]);
    s.places[15] = place(1, 0);
    s.places[14] = place(1, 1);
    s
}

// Objects 0 and 1 of a new store; four bytes over an edge of object 0.
fn write_new(pool: &mut [u8]) -> Result<Store, Refusal> {
    let s = calls::create(16)?;
    let s = calls::new_object(s, 0)?;
    let s = calls::new_object(s, 1)?;
    access::write(s, pool, 0, 4094, &[170, 187, 204, 221])
}

fn first_write(pool: &mut [u8]) {
    let r = write_new(pool);
    let t = sixteen(&[many(0, 0, 2, 0, 1)]);
    report("four bytes over an edge", leaves(r, t));
    sound("two frames and one range", r.unwrap_or(bare()), 2, 1);
}

// Both pages are shared with object 1, and object 1 writes to the first.
fn handed() -> Store {
    sixteen(&[many(0, 0, 2, 0, 1), many(1, 0, 2, 0, 1)])
}

fn second_write(s: Store, pool: &[u8]) {
    sound("three frames and three ranges", s, 3, 3);
    report(
        "object 0 keeps its bytes",
        read_is(s, pool, 0, 4094, &[170, 187, 204, 221]),
    );
    report(
        "object 1 has them too",
        read_is(s, pool, 1, 4094, &[170, 187, 204, 221]),
    );
    report("object 1 has its own byte", read_is(s, pool, 1, 0, &[17]));
    report("object 0 has not", read_is(s, pool, 0, 0, &[0]));
    report("(1, 0) is private", private(s, 1, 0));
    report("(1, 1) is shared", shared(s, 1, 1));
    let t = calls::drop_object(s, 0).unwrap_or(s);
    sound("object 0 dropped: two frames and two ranges", t, 2, 2);
    report("(1, 1) is private then", private(t, 1, 1));
    report(
        "object 1 keeps the bytes",
        read_is(t, pool, 1, 4094, &[170, 187, 204, 221]),
    );
}

fn handed_over() {
    let mut pool = [9; 65536];
    first_write(&mut pool);
    let s = handed();
    let t = access::write(s, &mut pool, 1, 0, &[17]).unwrap_or(s);
    second_write(t, &pool);
}

// The parts, one after another. By hand: a table of functions and a loop over it say no more than the calls.
fn main() {
    written_shared();
    written_same();
    written_absent();
    written_uncovered();
    written_hole();
    written_new();
    written_mixed();
    written_twice();
    written_released();
    handed_over();
}
