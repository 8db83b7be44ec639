// Runs copies and shadow copies of whole pages, which are shared then, and pages handed on from object to object. Answers are written by hand from document 01. One line a case.
#![tactic(auto)]

use access_samples::{five, halves, holed, paged, read_is, small};
use copy_samples::{across, quiet, shadows};
use refusals::Refusal;
use samples::{FREE, absent, many, place, private, ranged, report, shared, single, sound};
use store::Store;
use table::PageRange;

// ---- whole pages at equal places
// The five pages of object 0, and this range of object 1.
fn paged_beside(r: PageRange) -> Store {
    ranged(paged(), 1, r)
}

fn whole() {
    let s = paged();
    let t = paged_beside(many(1, 10, 2, 1, 1));
    quiet(
        "two pages to another place",
        s,
        across(4096, 40960, 8192),
        t,
    );
    let t = paged_beside(many(1, 0, 5, 0, 1));
    quiet("1 GiB", s, across(0, 0, 1073741824), t);
    let t = paged_beside(many(1, 262143, 1, 4, 1));
    quiet("to the last page", s, across(16384, 1073737728, 4096), t);
    let h = halves();
    let p = across(20480, 20480, 12288);
    quiet("pages that are shared already", h, p, h);
}

// Pages 0 and 1 of object 0, page 0 in frame 4, and page 3, in frame 3. Pages 0 up to 6 of object 1, pages 0, 2 and 5 in frames 0, 2 and 1.
fn met() -> Store {
    let a = [
        many(0, 0, 2, 0, 1),
        single(0, 3, 1, 0, 2),
        many(1, 0, 6, 0, 3),
    ];
    let p = [
        place(3, 0),
        place(3, 5),
        place(3, 2),
        place(2, 0),
        place(1, 0),
    ];
    small(3, &a, &p, 0)
}

// Pages 0 up to 5 copied: page 0 of object 1 is gone, and pages 2, 4 and 5 keep their indexes.
fn met_then() -> Store {
    let a = [
        many(0, 0, 2, 0, 1),
        single(0, 3, 1, 0, 2),
        many(1, 0, 2, 0, 1),
        many(1, 2, 1, 2, 3),
        single(1, 3, 1, 0, 2),
        many(1, 4, 2, 4, 3),
    ];
    let p = [FREE, place(3, 5), place(3, 2), place(2, 0), place(1, 0)];
    small(3, &a, &p, 1)
}

fn whole_met() {
    let (s, t) = (met(), met_then());
    quiet("a range for each source range", s, across(0, 0, 20480), t);
    shadows(
        "and shadowed, a range for each",
        s,
        across(0, 4095, 20480),
        t,
    );
    report(
        "a present page is shared",
        shared(t, 1, 0) && shared(t, 0, 0),
    );
    report("a covered page is absent", absent(t, 1, 1));
    report(
        "pieces of what was there are shared",
        shared(t, 1, 2) && shared(t, 1, 5),
    );
    let pool = five();
    let first = read_is(t, &pool, 1, 4095, &[5, 0]);
    let second = read_is(t, &pool, 1, 8191, &[0, 3]);
    report("pages 0 to 2 read back", first && second);
    let first = read_is(t, &pool, 1, 16383, &[4, 0]);
    let second = read_is(t, &pool, 1, 20479, &[0, 2]);
    report("pages 3 to 5 read back", first && second);
}

// ---- shadows
fn shadowed() {
    let s = paged();
    let t = paged_beside(many(1, 1, 2, 1, 1));
    shadows("a shadow at an edge", s, across(4096, 4096, 8192), t);
    let p = across(4096, 4196, 8192);
    shadows("a shadow 100 bytes behind it", s, p, t);
    let p = across(4096, 8191, 8192);
    shadows("a shadow one byte before the next", s, p, t);
    report("both are shared", shared(t, 0, 1) && shared(t, 1, 1));
    let t = paged_beside(many(1, 262143, 1, 4, 1));
    let p = across(16384, 1073737728, 4096);
    shadows("a shadow at the last page", s, p, t);
}

fn shadowed_holes() {
    let s = holed();
    let t = ranged(s, 2, many(1, 0, 3, 0, 1));
    let t = ranged(t, 3, single(1, 4, 1, 0, 2));
    shadows("a shadow of what has a hole", s, across(0, 5, 20480), t);
}

// ---- pages handed on from object to object
fn chain_start(pool: &mut [u8]) -> Result<Store, Refusal> {
    let mut s = calls::create(16)?;
    for object in 0..3 {
        s = calls::new_object(s, object)?;
    }
    let s = access::write(s, pool, 0, 4094, &[170, 187, 204, 221])?;
    let s = copies::copy_ranges(s, pool, 0, 0, 1, 0, 8192)?;
    sound("copied to object 1: two frames and two ranges", s, 2, 2);
    Ok(s)
}

fn chain_on(s: Store, pool: &mut [u8]) -> Result<Store, Refusal> {
    let s = access::write(s, pool, 1, 0, &[17])?;
    sound("written: three frames and three ranges", s, 3, 3);
    let s = copies::copy_ranges(s, pool, 1, 0, 2, 0, 8192)?;
    sound("copied to object 2: three frames and five ranges", s, 3, 5);
    let s = calls::drop_object(s, 0)?;
    sound("object 0 dropped: two frames and four ranges", s, 2, 4);
    Ok(s)
}

// Whether both writes are read of an object.
fn has_both(s: Store, pool: &[u8], object: u32) -> bool {
    let first = read_is(s, pool, object, 4094, &[170, 187, 204, 221]);
    first && read_is(s, pool, object, 0, &[17, 0])
}

fn chain_read(s: Store, pool: &[u8]) {
    report("object 1 has both writes", has_both(s, pool, 1));
    report("object 2 has both writes", has_both(s, pool, 2));
    let pages = [(1, 0), (1, 1), (2, 0), (2, 1)];
    let are_shared = pages.iter().all(|(object, page)| shared(s, *object, *page));
    report("they share both pages", are_shared);
}

fn chain_end(s: Store, pool: &mut [u8]) -> Result<(), Refusal> {
    let s = access::write(s, pool, 2, 4096, &[33])?;
    sound("object 2 written: three frames and four ranges", s, 3, 4);
    let kept = read_is(s, pool, 1, 4095, &[187, 204, 221]);
    report("object 1 keeps its bytes", kept);
    let own = read_is(s, pool, 2, 4095, &[187, 33, 221]);
    report("object 2 has its own", own);
    let s = calls::drop_object(s, 1)?;
    sound("object 1 dropped: two frames and two ranges", s, 2, 2);
    let alone = private(s, 2, 0) && private(s, 2, 1);
    report(
        "object 2 is alone",
        alone && read_is(s, pool, 2, 0, &[17, 0]),
    );
    Ok(())
}

fn chain() -> Result<(), Refusal> {
    let mut pool = [9; 65536];
    let s = chain_start(&mut pool)?;
    let s = chain_on(s, &mut pool)?;
    chain_read(s, &pool);
    chain_end(s, &mut pool)
}

// The parts, one after another. By hand: a table of functions and a loop over it say no more than the calls.
fn main() -> Result<(), Refusal> {
    whole();
    whole_met();
    shadowed();
    shadowed_holes();
    chain()
}
