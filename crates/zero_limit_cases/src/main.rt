// Runs zeroing where it is refused, and where the last frame or the last slot is taken. Answers are written by hand from document 01. One line a case.
#![tactic(auto)]

use access_samples::{
    extent, filled, five, frames, halves, high, paged, shared_full, small, spoiled_halves,
    twice_full,
};
use copy_samples::{packed, packed_full, rows, uncovers, zero_refused, zeroes};
use refusals::{Extent, Refusal};
use samples::{FREE, full, many, place, ranged, report, seated, single};
use store::Store;

// ---- the table of refusals, where the first n bytes of a pool of sevens are lent: the pool stays
fn refused(name: &str, s: Store, n: usize, extent: Extent, why: Refusal) {
    report(name, zero_refused(s, n, extent, why));
}

// On five frames.
fn turned(name: &str, s: Store, extent: Extent, why: Refusal) {
    refused(name, s, 20480, extent, why);
}

fn table_store() {
    let byte = extent(0, 0, 1);
    let spoiled = spoiled_halves(15, 3);
    let why = Refusal::Spoiled;
    refused("1: 513 ranges", full(513), 16384, byte, why);
    turned("1: a count of 2", spoiled_halves(7, 2), byte, why);
    let none = extent(0, 0, 0);
    turned("1: a bit too many, nothing zeroed", spoiled, none, why);
    refused("1 comes before 2", spoiled, 0, byte, why);
    let s = halves();
    let why = Refusal::Pool;
    refused("2: a byte short", s, 20479, byte, why);
    refused("2: a frame long", s, 24576, byte, why);
    refused("2: an empty pool, nothing zeroed", s, 0, none, why);
    refused("2 comes before 3", s, 20479, extent(32, 0, 1), why);
}

fn table_object() {
    let s = halves();
    let why = Refusal::NoObject;
    turned("3: name 2", s, extent(2, 0, 1), why);
    turned("3: name 31, nothing zeroed", s, extent(31, 0, 0), why);
    turned("3: name 32", s, extent(32, 0, 1), why);
    turned("3: the last name", s, extent(u32::MAX, 0, 1), why);
    turned("3 comes before 6", s, extent(2, 1073741824, 1), why);
}

fn table_end() {
    let s = halves();
    let end = 1073741824;
    let why = Refusal::PastEnd;
    turned("6: 1 byte at the end", s, extent(0, end, 1), why);
    let last = extent(0, 1073737728, 4097);
    turned("6: a page and a byte at the last page", s, last, why);
    turned("6: 1 GiB from 1", s, extent(0, 1, end), why);
    turned("6: nothing past the end", s, extent(0, 1073741825, 0), why);
    turned("6: a sum of 0", s, extent(0, 4096, usize::MAX - 4095), why);
    let last = extent(0, usize::MAX, usize::MAX);
    turned("6: the last numbers", s, last, why);
    turned("6 comes before 8", paged(), extent(0, 4000, end), why);
    turned("6 comes before 9", packed(), extent(0, 4096, end), why);
}

// ---- the last frame
// Three pages of object 0 and one of object 1, and frame 0 free.
fn one_free() {
    let b = single(1, 9, 1, 0, 2);
    let p = [FREE, place(2, 0), place(1, 2), place(1, 1), place(1, 0)];
    let s = small(3, &[many(0, 0, 3, 0, 1), b], &p, 1);
    turned(
        "8: parts of two private pages, one frame free",
        s,
        extent(0, 4000, 4202),
        Refusal::NoFrame,
    );
    let p = [FREE, place(2, 0), FREE, FREE, place(1, 0)];
    let t = small(3, &[many(0, 0, 1, 0, 1), b], &p, 13);
    let want = filled(five(), 20384, 96, 0);
    let part = extent(0, 4000, 8288);
    zeroes("part of one, one frame free", s, part, t, &want);
}

fn no_frame() {
    let s = paged();
    let why = Refusal::NoFrame;
    turned("8: part of a private page", s, extent(0, 0, 4106), why);
    let part = extent(1, 4000, 4192);
    turned("8: part of an uncovered page", s, part, why);
    let p = [place(1, 4), place(1, 3), place(1, 2), place(1, 1)];
    let t = small(3, &[many(0, 1, 4, 1, 1)], &p, 16);
    uncovers("no frame free: a whole page", s, extent(0, 0, 4096), t);
}

// Page 0 of both objects in frame 4, the other frames in use.
fn no_frame_shared() {
    let s = shared_full();
    let byte = extent(0, 5, 1);
    turned("8: a byte of a shared page", s, byte, Refusal::NoFrame);
    let t = small(3, &s.ranges[1..3], &s.places, 0);
    let page = extent(0, 0, 4096);
    uncovers("no frame free: a whole shared page", s, page, t);
}

// Pages 0 and 1 of object 0 are the same page, and frame 3 alone is free.
fn no_frame_twice() {
    turned(
        "8: two pages count that would take one frame",
        twice_full(1, 0),
        extent(0, 4095, 2),
        Refusal::NoFrame,
    );
}

// ---- the last slot
fn no_slot() {
    let s = packed();
    let why = Refusal::NoSlot;
    let page = extent(0, 0, 4096);
    turned("9: a whole page, 512 ranges", s, page, why);
    let all = extent(1, 0, 1073741824);
    turned("9: 1 GiB of nothing, 512 ranges", s, all, why);
    let byte = extent(0, 0, 1);
    turned("9: a byte of a shared page, 512 ranges", s, byte, why);
    let bytes = extent(0, 4101, 3);
    uncovers("512 ranges: bytes of an uncovered page", s, bytes, s);
    uncovers("512 ranges: nothing zeroed", s, extent(0, 0, 0), s);
    let part = extent(0, 0, 4106);
    turned("8 comes before 9", packed_full(), part, Refusal::NoFrame);
}

fn no_slot_private() {
    let s = ranged(packed(), 0, single(0, 0, 1, 0, 2));
    let s = seated(s, 4, place(2, 0), 15);
    let mut want = five();
    want[16389] = 0;
    let byte = extent(0, 5, 1);
    zeroes("512 ranges: a byte of a private page", s, byte, s, &want);
}

// Page 1021 of 1020 up to 1023.
fn one_slot() {
    let s = rows(510, &[many(0, 1020, 3, 510, 1)], &[], 31);
    let t = rows(511, &[many(0, 1022, 1, 512, 1)], &[], 31);
    let page = extent(0, 4182016, 4096);
    uncovers("511 ranges: a whole page", s, page, t);
    turned(
        "9: a page and part of the next, 511 ranges",
        s,
        extent(0, 0, 4106),
        Refusal::NoSlot,
    );
}

// Page 1019 of 1018 up to 1021, which is shared and in frame 4.
fn two_slots() {
    let a = many(0, 1018, 3, 509, 1);
    let p = high(FREE, place(1, 510));
    let s = rows(509, &[a], &p, 15);
    let last = [single(0, 1019, 1, 0, 2), many(0, 1020, 1, 511, 1)];
    let t = rows(510, &last, &high(place(2, 0), FREE), 23);
    let mut want: [u8; 20480] = frames(&[1, 2, 3, 5, 5]);
    want[12288] = 0;
    let byte = extent(0, 4173824, 1);
    zeroes("510 ranges: a byte of a shared page", s, byte, t, &want);
    let u = rows(509, &[a, many(0, 1022, 1, 511, 1)], &p, 15);
    turned(
        "9: a byte of a shared page, 511 ranges",
        u,
        byte,
        Refusal::NoSlot,
    );
}

// A part and a whole page need three slots.
fn three_slots() {
    turned(
        "9: part of a page and the next, 510 ranges",
        rows(510, &[], &[], 31),
        extent(0, 4000, 4192),
        Refusal::NoSlot,
    );
    let s = rows(509, &[], &[], 31);
    uncovers(
        "509 ranges: two pages of nothing and part of the next",
        s,
        extent(1, 0, 8202),
        s,
    );
}

// The parts, one after another. By hand: a table of functions and a loop over it say no more than the calls.
fn main() {
    table_store();
    table_object();
    table_end();
    one_free();
    no_frame();
    no_frame_shared();
    no_frame_twice();
    no_slot();
    no_slot_private();
    one_slot();
    two_slots();
    three_slots();
}
