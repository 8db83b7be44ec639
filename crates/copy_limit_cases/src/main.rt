// Runs copies and shadow copies where the last frame or the last slot is taken, and where too few are free. Answers are written by hand from document 01. One line a case.
#![tactic(auto)]

ghost use Rattle.std.specs.Prelude.{◌+◌, ◌≤◌, length};

use access_samples::{done, filled, five, fresh, high, paged, shared_full, small, twice_full};
use copy_samples::{across, copied, copy, copy_turned, packed, packed_full, rows, shadow, turned};
use refusals::{Passage, Refusal};
use samples::{FREE, many, place, report, single};
use store::Store;
use table::PageRange;

// Both calls leave this store, and the pool as it was.
fn both(name: &str, s: Store, passage: Passage, t: Store) {
    let copied = done(|pool| copy(s, pool, passage), t, &five());
    let shadowed = done(|pool| shadow(s, pool, passage), t, &five());
    report(name, copied && shadowed);
}

// ---- the last frame
// Pages 0 up to 3 of object 0 are absent; those of object 1 are private. Frame 0 is free.
fn one_free() {
    let a = many(0, 0, 3, 0, 2);
    let b = single(1, 9, 1, 0, 3);
    let p = [FREE, place(3, 0), place(1, 2), place(1, 1), place(1, 0)];
    let s = small(3, &[a, many(1, 0, 3, 0, 1), b], &p, 1);
    copy_turned(
        "8: parts of two private pages, one frame free",
        s,
        across(4000, 4000, 4202),
        Refusal::NoFrame,
    );
    let r = [
        a,
        many(1, 0, 1, 0, 1),
        many(1, 1, 1, 1, 2),
        many(1, 2, 1, 2, 1),
        b,
    ];
    let p = [FREE, place(3, 0), place(1, 2), FREE, place(1, 0)];
    let t = small(3, &r, &p, 9);
    let want = filled(five(), 20384, 96, 0);
    let passage = across(4000, 4000, 4192);
    copied("part of one, one frame free", s, passage, t, &want);
}

// Page 0 of object 0 in frame 4, and frame 0 free.
fn one_free_unequal() {
    let a = single(0, 0, 1, 0, 1);
    let b = many(0, 100, 3, 0, 2);
    let mut p = [FREE, place(2, 0), place(2, 1), place(2, 2), place(1, 0)];
    let s = small(3, &[a, b], &p, 1);
    copy_turned(
        "8: unequal places in two absent pages, one frame free",
        s,
        across(0, 1, 4096),
        Refusal::NoFrame,
    );
    p[0] = place(3, 0);
    let t = small(3, &[a, b, single(1, 0, 1, 0, 3)], &p, 0);
    let mut want = filled(five(), 1, 4095, 5);
    want[0] = 0;
    copied(
        "unequal places in one, one frame free",
        s,
        across(0, 1, 4095),
        t,
        &want,
    );
}

fn no_frame() {
    let s = paged();
    let why = Refusal::NoFrame;
    let bytes = across(0, 0, 10);
    copy_turned("8: bytes to an uncovered page", s, bytes, why);
    let byte = across(0, 1, 1);
    copy_turned("8: a byte to another place of it", s, byte, why);
    copy_turned(
        "8: part of an uncovered page and a whole one",
        s,
        across(4000, 4000, 4192),
        why,
    );
    let parts = across(1, 1, 1073741822);
    copy_turned("8: parts of nothing beside 1 GiB", s, parts, why);
}

// Page 0 of both objects in frame 4, the other frames in use.
fn no_frame_shared() {
    let s = shared_full();
    let why = Refusal::NoFrame;
    copy_turned("8: a byte to a shared page", s, across(5, 5, 1), why);
    copy_turned(
        "8: a byte to another place of a shared page",
        s,
        across(5, 6, 1),
        why,
    );
    let page = across(0, 0, 4096);
    both("no frame free: a shared page copied again", s, page, s);
}

// Pages 0 and 1 of object 1 are the same page, and frame 3 alone is free.
fn no_frame_twice() {
    let s = twice_full(3, 1);
    let why = Refusal::NoFrame;
    copy_turned(
        "8: two pages count that would take one frame",
        s,
        across(4095, 4095, 2),
        why,
    );
    copy_turned("8: and at unequal places", s, across(0, 4095, 2), why);
}

// ---- the last slot
// The first slots of a full table, its page 0 in frame 4, and these ranges behind them. By hand, here and in `slots_then`: the bound is that of `rows`,
// for which a struct would be made at each call.
fn slots(first: usize, last: &[PageRange]) -> Store
    requires { first + length last.now ≤ 512 }
{
    rows(first, last, &high(FREE, place(1, 0)), 15)
}

// The same where page 0 or 1 of object 1 has frame 3.
fn slots_then(first: usize, last: &[PageRange]) -> Store
    requires { first + length last.now ≤ 512 }
{
    rows(first, last, &high(place(2, 0), place(1, 0)), 7)
}

fn no_slot() {
    let s = packed();
    let why = Refusal::NoSlot;
    turned("9: a page, 512 ranges", s, across(0, 0, 4096), why);
    let all = across(0, 0, 1073741824);
    turned("9: 1 GiB, 512 ranges", s, all, why);
    let bytes = across(0, 0, 10);
    copy_turned("9: bytes to an absent page, 512 ranges", s, bytes, why);
    copy_turned(
        "9: a byte to another place of it, 512 ranges",
        s,
        across(0, 1, 1),
        why,
    );
    let page = across(4096, 4096, 4096);
    both("512 ranges: a page of nothing", s, page, s);
    both("512 ranges: nothing copied", s, across(0, 0, 0), s);
    copy_turned("8 comes before 9", packed_full(), bytes, Refusal::NoFrame);
}

fn two_slots() {
    let s = slots(511, &[]);
    let why = Refusal::NoSlot;
    let page = across(0, 0, 4096);
    turned("9: a page, 511 ranges", s, page, why);
    let bytes = across(4096, 4096, 10);
    copy_turned("9: bytes to an absent page, 511 ranges", s, bytes, why);
    let s = slots(510, &[]);
    let t = slots(510, &[many(1, 0, 1, 0, 1)]);
    both("510 ranges: a page", s, page, t);
    copied(
        "510 ranges: bytes to an absent page",
        s,
        bytes,
        slots_then(510, &[single(1, 1, 1, 0, 2)]),
        &fresh(3, 12288, 0),
    );
}

// Pages 0 to 2 of object 0 are two ranges.
fn four_slots() {
    let pages = across(0, 0, 12288);
    let s = slots(509, &[]);
    let why = Refusal::NoSlot;
    turned("9: two source ranges, 509 ranges", s, pages, why);
    let t = slots(508, &[many(1, 0, 1, 0, 1), many(1, 2, 1, 1, 1)]);
    both("508 ranges: two source ranges", slots(508, &[]), pages, t);
}

// 96 bytes of page 1, which is not covered, and page 2.
fn four_slots_part() {
    let passage = across(8096, 8096, 4192);
    copy_turned(
        "9: part of a page and the next, 509 ranges",
        slots(509, &[]),
        passage,
        Refusal::NoSlot,
    );
    copied(
        "508 ranges: part of a page and the next",
        slots(508, &[]),
        passage,
        slots_then(508, &[single(1, 1, 1, 0, 2), many(1, 2, 1, 1, 1)]),
        &fresh(3, 12288, 0),
    );
}

// The parts, one after another. By hand: a table of functions and a loop over it say no more than the calls.
fn main() {
    one_free();
    one_free_unequal();
    no_frame();
    no_frame_shared();
    no_frame_twice();
    no_slot();
    two_slots();
    four_slots();
    four_slots_part();
}
