// Runs the calls that need no page bytes on a good store. Answers are written by hand from document 01. One line a case.
#![tactic(auto)]

use page::PageNumber;
use refusals::Refusal;
use samples::{
    FREE, absent, blank, good, many, place, private, report, shared, sound, state, store,
    with_counts, with_range, with_word,
};
use store::Store;
use table::PageRange;

fn looked() {
    let s = good();
    sound("the good store is sound", s, 2, 3);
    report("(0, 0) is private", private(s, 0, 0));
    report("(0, 6) is shared", shared(s, 0, 6));
    report("(1, 6) is shared", shared(s, 1, 6));
    report("(0, 5) is absent", absent(s, 0, 5));
    report("(0, 7) is absent", absent(s, 0, 7));
    report("(0, 9) is absent", absent(s, 0, 9));
    report("(1, 0) is absent", absent(s, 1, 0));
    report("page 262143 is absent", absent(s, 0, 262143));
}

// A page that is looked up, and why that is refused.
fn unseen(name: &str, object: u32, page: usize, why: Refusal) {
    report(name, state(good(), object, page) == Err(why));
}

fn unknown() {
    unseen("page 262144 is past the end", 0, 262144, Refusal::PastEnd);
    unseen(
        "the last number is past the end",
        0,
        18446744073709551615,
        Refusal::PastEnd,
    );
    unseen("name 2 is no object", 2, 0, Refusal::NoObject);
    unseen("name 32 is no object", 32, 0, Refusal::NoObject);
    unseen(
        "the last name is no object",
        4294967295,
        0,
        Refusal::NoObject,
    );
    unseen(
        "no object comes before past the end",
        2,
        262144,
        Refusal::NoObject,
    );
}

fn named() {
    let s = good();
    let taken = Err(Refusal::Taken);
    let none = Err(Refusal::NoObject);
    report("a new 0 is taken", calls::new_object(s, 0) == taken);
    report("a new 1 is taken", calls::new_object(s, 1) == taken);
    report("a new 32 is no object", calls::new_object(s, 32) == none);
    report(
        "a new 2",
        calls::new_object(s, 2) == Ok(with_counts(4, 7, 3)),
    );
    report(
        "a new 31",
        calls::new_object(s, 31) == Ok(with_counts(4, 2147483651, 3)),
    );
    report("a drop of 2 is no object", calls::drop_object(s, 2) == none);
    report(
        "a drop of 32 is no object",
        calls::drop_object(s, 32) == none,
    );
}

// A creation that is refused hands back the empty store of one frame.
fn not_created(name: &str, frames: usize) {
    let right = calls::create(frames).is_err_and(|e| e.refusal == Refusal::Pool
        && e.store == blank(1, &[1]));
    report(name, right);
}

fn made(name: &str, frames: usize, free: &[u64]) {
    let right = calls::create(frames).is_ok_and(|s| s == blank(frames, free));
    report(name, right);
}

fn created() {
    not_created("no frame", 0);
    not_created("1025 frames", 1025);
    not_created("too many frames", 18446744073709551615);
    made("1 frame", 1, &[1]);
    made("1024 frames", 1024, &[18446744073709551615; 16]);
    made("65 frames", 65, &[18446744073709551615, 1]);
}

// Object 0's ranges alone.
fn without_one() -> Store {
    Store {
        live: 1,
        count: 2,
        ..with_range(2, PageRange::ZERO)
    }
}

// Object 1's range alone: frame 3 is free again.
fn without_zero() -> Store {
    let r = [many(1, 5, 3, 0, 2)];
    store(4, 2, &r, &[FREE, FREE, place(2, 1)], &[11])
}

fn dropped() {
    let r = calls::drop_object(good(), 1);
    report("1 dropped", r == Ok(without_one()));
    let s = r.unwrap_or(good());
    sound("1 dropped: the frames stay", s, 2, 2);
    report("1 dropped: (0, 6) is private", private(s, 0, 6));
    report(
        "1 dropped: 1 is no object",
        state(s, 1, 6) == Err(Refusal::NoObject),
    );
    let q = calls::drop_object(s, 0);
    report("both dropped", q == Ok(blank(4, &[15])));
    sound("both dropped: nothing in use", q.unwrap_or(s), 0, 0);
    let u = calls::drop_object(good(), 0);
    report("0 dropped", u == Ok(without_zero()));
    let v = u.unwrap_or(good());
    sound("0 dropped: one frame stays", v, 1, 1);
    report("0 dropped: (1, 6) is private", private(v, 1, 6));
}

// The length of the part shown and its first byte; none where it is empty.
fn part(s: Store, pool: &[u8], object: u32, page: usize) -> Option<(usize, u8)> {
    let part = view::show(s, pool, object, PageNumber(page));
    part.first().map(|b| (part.len(), *b))
}

// Frame 2 begins with a 5, frame 3 with a 7.
fn shown() {
    let s = good();
    let mut pool = [0; 16384];
    pool[8192] = 5;
    pool[12288] = 7;
    report("(0, 0) is shown", part(s, &pool, 0, 0) == Some((4096, 7)));
    report("(1, 6) is shown", part(s, &pool, 1, 6) == Some((4096, 5)));
    report("an absent page shows nothing", part(s, &pool, 0, 5) == None);
    report("name 2 shows nothing", part(s, &pool, 2, 0) == None);
    report(
        "page 262144 shows nothing",
        part(s, &pool, 0, 262144) == None,
    );
    report(
        "a pool too short shows nothing",
        part(s, &pool[..16383], 0, 0) == None,
    );
    report(
        "a spoiled store shows nothing",
        part(with_word(0, 0), &pool, 0, 0) == None,
    );
}

// The parts, one after another. By hand: a table of functions and a loop over it say no more than the calls.
fn main() {
    looked();
    unknown();
    named();
    created();
    dropped();
    shown();
}
