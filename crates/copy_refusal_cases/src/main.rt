// Runs copies and shadow copies through the table of refusals. Answers are written by hand from document 01. One line a case.
#![tactic(auto)]

use access_samples::{halves, paged, spoiled_halves};
use copy_samples::{
    across, both_refused, copy_refused, copy_turned, packed, shadow_refused, turned,
};
use refusals::{Passage, Refusal};
use samples::{full, report};
use store::Store;

// ---- one case a line
// One page at 0, from one object to another.
fn page(source: u32, object: u32) -> Passage {
    Passage {
        source,
        from: 0,
        object,
        to: 0,
        n: 4096,
    }
}

// By both calls, where the first m bytes of a pool are lent.
fn refused(name: &str, s: Store, m: usize, passage: Passage, why: Refusal) {
    report(name, both_refused(s, m, passage, why));
}

// By copy_range_to_shadow, on five frames.
fn shadow_turned(name: &str, s: Store, passage: Passage, why: Refusal) {
    report(name, shadow_refused(s, 20480, passage, why));
}

// ---- the table of refusals
fn table_store() {
    let p = page(0, 1);
    let spoiled = spoiled_halves(15, 3);
    let why = Refusal::Spoiled;
    refused("1: 513 ranges", full(513), 16384, p, why);
    refused("1: a count of 2", spoiled_halves(7, 2), 20480, p, why);
    let none = across(0, 0, 0);
    turned("1: a bit too many, nothing copied", spoiled, none, why);
    refused("1 comes before 2", spoiled, 0, p, why);
    refused("1 comes before 3", spoiled, 20480, page(32, 1), why);
}

fn table_pool() {
    let p = page(0, 1);
    let s = halves();
    let why = Refusal::Pool;
    refused("2: a byte short", s, 20479, p, why);
    refused("2: a frame long", s, 24576, p, why);
    refused("2: an empty pool", s, 0, p, why);
    refused("2 comes before 3", s, 20479, page(0, 32), why);
    refused("2 comes before 5", s, 20479, page(0, 0), why);
}

fn table_object() {
    let s = halves();
    let why = Refusal::NoObject;
    turned("3: from name 2", s, page(2, 1), why);
    turned("3: to name 2", s, page(0, 2), why);
    turned("3: from name 32", s, page(32, 1), why);
    turned("3: to name 31", s, page(0, 31), why);
    turned("3: to the last name", s, page(0, u32::MAX), why);
    turned("3 comes before 5", s, page(2, 2), why);
    let far = Passage {
        object: 2,
        ..across(1073741824, 0, 1)
    };
    turned("3 comes before 6", s, far, why);
}

fn table_same() {
    let s = halves();
    let why = Refusal::Same;
    let itself = Passage {
        source: 1,
        ..across(4096, 8192, 0)
    };
    turned("5: object 0", s, page(0, 0), why);
    turned("5: nothing from 1 to 1", s, itself, why);
    let far = Passage {
        source: 1,
        ..across(1073741824, 0, 1)
    };
    turned("5 comes before 6", s, far, why);
    let odd = Passage {
        object: 0,
        ..across(1, 0, 4096)
    };
    shadow_turned("5 comes before 7", s, odd, why);
    let byte = Passage {
        source: 1,
        ..across(0, 0, 1)
    };
    copy_turned("5 comes before 8", paged(), byte, why);
    turned("5 comes before 9", packed(), page(0, 0), why);
}

fn table_end() {
    let s = halves();
    let end = 1073741824;
    let why = Refusal::PastEnd;
    turned("6: a page from the end", s, across(end, 0, 4096), why);
    turned("6: a page to the end", s, across(0, end, 4096), why);
    copy_turned("6: 1 byte from the end", s, across(end, 0, 1), why);
    let last = across(0, 1073741823, 2);
    copy_turned("6: 2 bytes to the last byte", s, last, why);
    let last = across(0, 1073737729, 4096);
    turned("6: a page to the last page and a byte", s, last, why);
    turned("6: 1 GiB from page 1", s, across(4096, 0, end), why);
    let past = across(1073745920, 0, 0);
    turned("6: nothing from past the end", s, past, why);
    let past = across(0, 1073741825, 0);
    turned("6: nothing to past the end", s, past, why);
}

fn table_far_end() {
    let s = halves();
    let end = 1073741824;
    let far = usize::MAX - 4095;
    let why = Refusal::PastEnd;
    turned("6: a sum of 0", s, across(far, 0, 4096), why);
    let long = across(4096, 0, far);
    turned("6: a length near the last number", s, long, why);
    let last = across(0, usize::MAX, 4096);
    turned("6: to the last number", s, last, why);
    shadow_turned("6 comes before 7", s, across(1, end, 1), why);
    copy_turned("6 comes before 8", paged(), across(0, 4000, end), why);
    turned("6 comes before 9", packed(), across(0, 4096, end), why);
}

fn table_whole() {
    let s = halves();
    let why = Refusal::NotWhole;
    shadow_turned("7: a page from 1", s, across(1, 0, 4096), why);
    shadow_turned("7: a page from 1 to 1", s, across(1, 1, 4096), why);
    shadow_turned("7: a page from 4095", s, across(4095, 0, 4096), why);
    shadow_turned("7: 1 byte", s, across(0, 0, 1), why);
    shadow_turned("7: 4097 bytes", s, across(4096, 0, 4097), why);
    shadow_turned("7: up to an edge", s, across(1, 0, 4095), why);
    shadow_turned("7: nothing from 1", s, across(1, 0, 0), why);
    shadow_turned("7 comes before 9", packed(), across(0, 0, 4097), why);
}

// The parts, one after another. By hand: a table of functions and a loop over it say no more than the calls.
fn main() {
    table_store();
    table_pool();
    table_object();
    table_same();
    table_end();
    table_far_end();
    table_whole();
}
