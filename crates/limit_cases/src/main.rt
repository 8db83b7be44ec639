// Runs add, read and write where they are refused, and where the last slot is taken. Answers are written by hand from document 01. One line a case.
#![tactic(auto)]

ghost use Rattle.std.specs.Prelude.{◌≤◌};

use access_samples::{
    add_refused, adds, extent, five, frames, fresh, gets, halves, high, paged, puts, puts_nothing,
    read_refused, small, spoiled_halves, turned, write_refused,
};
use places::Place;
use refusals::{Extent, Refusal};
use samples::{FREE, full, many, place, ranged, report, seated, single};
use std::array;
use store::Store;
use table::PageRange;

// ---- the table of refusals: a page and some bytes, in a pool of which n bytes are lent
fn all_refused(name: &str, s: Store, n: usize, page: usize, bytes: Extent, why: Refusal) {
    let added = add_refused(s, n, bytes.object, page, why);
    let read = read_refused(s, n, bytes, why);
    report(name, added && read && write_refused(s, n, bytes, why));
}

// Page 0 of an object and its first byte.
fn refused(name: &str, s: Store, n: usize, object: u32, why: Refusal) {
    all_refused(name, s, n, 0, extent(object, 0, 1), why);
}

// The page after an object's last one, and its first byte.
fn end_refused(name: &str, s: Store, object: u32, why: Refusal) {
    all_refused(name, s, 20480, 262144, extent(object, 1073741824, 1), why);
}

fn table_spoiled() {
    let why = Refusal::Spoiled;
    refused("1: 513 ranges", full(513), 16384, 0, why);
    refused("1: a count of 2", spoiled_halves(7, 2), 20480, 0, why);
    refused("1: a bit too many", spoiled_halves(15, 3), 20480, 0, why);
    refused("1 comes before 2", spoiled_halves(15, 3), 0, 0, why);
    refused("1 comes before 3", spoiled_halves(15, 3), 20480, 32, why);
}

fn table_pool() {
    let s = halves();
    refused("2: a byte short", s, 20479, 0, Refusal::Pool);
    refused("2: a byte long", s, 20481, 0, Refusal::Pool);
    refused("2: a frame short", s, 16384, 0, Refusal::Pool);
    refused("2: a frame long", s, 24576, 0, Refusal::Pool);
    refused("2: an empty pool", s, 0, 0, Refusal::Pool);
    refused("2 comes before 3", s, 20479, 32, Refusal::Pool);
}

fn table_object() {
    let s = halves();
    refused("3: name 2", s, 20480, 2, Refusal::NoObject);
    refused("3: name 31", s, 20480, 31, Refusal::NoObject);
    refused("3: name 32", s, 20480, 32, Refusal::NoObject);
    refused("3: the last name", s, 20480, 4294967295, Refusal::NoObject);
    end_refused("3 comes before 6", s, 2, Refusal::NoObject);
}

fn table_end() {
    end_refused("6: page 262144", halves(), 0, Refusal::PastEnd);
    all_refused(
        "6: the last number",
        halves(),
        20480,
        18446744073709551615,
        extent(0, 18446744073709551615, 1),
        Refusal::PastEnd,
    );
    end_refused("6 comes before 8", paged(), 0, Refusal::PastEnd);
    end_refused("6 comes before 9", slots(512), 0, Refusal::PastEnd);
}

// ---- the last slot
// Page 0 and every 32nd page after it, each a range and a backing of its own.
fn far_table() -> [PageRange; 512] {
    array::from_fn(|k| many(0, k * 32, 1, 0, k as u32 + 1))
}

// The first ranges of it, and these places.
fn far(count: usize, places: &[Place], w: u64) -> Store
    requires { count ≤ 512 }
{
    small(1, &far_table()[..count], places, w)
}

// Page 0 is in frame 4.
fn slots(count: usize) -> Store
    requires { count ≤ 512 }
{
    far(count, &high(FREE, place(1, 0)), 15)
}

fn two_slots() {
    let s = slots(510);
    let p = high(place(600, 0), place(1, 0));
    adds(
        "510 ranges: a page starts a range",
        s,
        0,
        16305,
        3,
        ranged(far(510, &p, 7), 510, single(0, 16305, 1, 0, 600)),
    );
    let q = high(place(510, 16), place(1, 0));
    adds(
        "510 ranges: a page joins",
        s,
        0,
        16304,
        3,
        ranged(far(510, &q, 7), 509, many(0, 16288, 17, 0, 510)),
    );
    let t = far(510, &high(place(1, 0), FREE), 23);
    adds("510 ranges: a page is replaced", s, 0, 0, 3, t);
}

// 510 ranges, of which slots 508 and 509 hold three pages each of one backing.
fn wide() -> Store {
    let s = ranged(slots(510), 508, many(0, 16256, 3, 0, 600));
    ranged(s, 509, many(0, 16288, 3, 0, 600))
}

// Page 16289 cut out of the last one.
fn wide_cut() -> Store {
    let s = ranged(wide(), 509, many(0, 16288, 1, 0, 600));
    let s = ranged(s, 510, single(0, 16289, 1, 0, 601));
    let s = ranged(s, 511, many(0, 16290, 1, 2, 600));
    seated(s, 3, place(601, 0), 7)
}

fn both_slots() {
    let s = wide();
    let t = wide_cut();
    adds("510 ranges: an added page is cut out", s, 0, 16289, 3, t);
    puts(
        "510 ranges: a written page is cut out",
        s,
        0,
        66719744,
        b"k",
        t,
        &fresh(3, 12288, b'k'),
    );
}

fn no_slots() {
    let s = slots(511);
    let why = Refusal::NoSlot;
    turned(
        "9: a page that would start a range",
        s,
        262143,
        1073737728,
        why,
    );
    turned("9: a page that would join", s, 1, 4096, why);
    turned("9: an absent page of a range", s, 32, 131072, why);
    report("9: a present page added", add_refused(s, 20480, 0, 0, why));
    let p = [
        place(2, 0),
        place(3, 0),
        place(4, 0),
        place(5, 0),
        place(1, 0),
    ];
    turned(
        "8 comes before 9",
        far(512, &p, 0),
        1,
        4096,
        Refusal::NoFrame,
    );
}

fn full_slots() {
    let s = slots(512);
    let mut want = five();
    want[16387] = b'k';
    puts(
        "512 ranges: a private page written",
        s,
        0,
        3,
        b"k",
        s,
        &want,
    );
    gets("512 ranges: two pages read", s, 0, 4095, &[5, 0]);
}

fn full_nothing() {
    puts_nothing(
        "512 ranges: nothing written to an absent page",
        slots(512),
        0,
        4096,
    );
}

// The last byte of a page and the first of the next.
fn four_slots() {
    let p = [FREE, FREE, place(600, 1), place(600, 0), place(1, 0)];
    let t = ranged(far(508, &p, 3), 508, many(0, 262000, 2, 0, 600));
    let mut want: [u8; 20480] = frames(&[1, 2, 0, 0, 5]);
    want[8192] = b'y';
    want[16383] = b'x';
    puts(
        "508 ranges: two absent pages",
        slots(508),
        0,
        1073156095,
        b"xy",
        t,
        &want,
    );
    let two = extent(0, 1073156095, 2);
    report(
        "9: two absent pages, 509 ranges",
        write_refused(slots(509), 20480, two, Refusal::NoSlot),
    );
}

// The parts, one after another. By hand: a table of functions and a loop over it say no more than the calls.
fn main() {
    table_spoiled();
    table_pool();
    table_object();
    table_end();
    two_slots();
    both_slots();
    no_slots();
    full_slots();
    full_nothing();
    four_slots();
}
