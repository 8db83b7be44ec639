// What the programs that run calls on bytes share: small stores and pools, and the comparing of answers. Backings are compared as document 01 has them: their numbers and kinds are free.
// By hand: a case is told in one call, so that it stands in one line: `s`, the store, with `object` and `offset`, which document 01 gives the calls; or, of a
// refusal, `n`, the bytes of the pool that are lent, and `why`, the refusal or its number of the table.
#![tactic(auto)]

ghost use Rattle.std.specs.Prelude.{◌≡◌};

use access::Added;
use page::PageNumber;
use places::Place;
use refusals::{Extent, Refusal};
use samples::{FREE, many, place, report, seated, single, store};
use std::convert::AsSlice;
use store::Store;
use table::{BackingPages, PageRange};

// ---- pools and stores of five frames
// A pool whose frames hold these bytes, each in all of its places.
pub fn frames<const N: usize>(bytes: &[u8]) -> [u8; N] {
    let mut p = [0; N];
    for (frame, b) in p.chunks_exact_mut(PageNumber::PAGE_SIZE).zip(bytes) {
        frame.fill(*b);
    }
    p
}

// Frame f is f + 1 in each byte.
pub fn five() -> [u8; 20480] {
    frames(&[1, 2, 3, 4, 5])
}

// The same with one frame zeroed.
fn zeroed(frame: usize) -> [u8; 20480] {
    let mut bytes = [1, 2, 3, 4, 5];
    if let Some(b) = bytes.get_mut(frame) {
        *b = 0;
    }
    frames(&bytes)
}

// A pool with n of its bytes, from one place on, all b.
pub fn filled<const N: usize>(mut pool: [u8; N], at: usize, n: usize, b: u8) -> [u8; N] {
    for byte in pool.iter_mut().skip(at).take(n) {
        *byte = b;
    }
    pool
}

// A pool with these bytes from one place on.
pub fn stored(mut pool: [u8; 20480], at: usize, bytes: &[u8]) -> [u8; 20480] {
    for (byte, b) in pool.iter_mut().skip(at).zip(bytes) {
        *byte = *b;
    }
    pool
}

// The five frames with one zeroed and then one byte stored.
pub fn fresh(frame: usize, at: usize, b: u8) -> [u8; 20480] {
    filled(zeroed(frame), at, 1, b)
}

// 11, then a page of twelves, then 13.
pub fn span() -> [u8; 4098] {
    let mut a = [12; 4098];
    a[0] = 11;
    a[4097] = 13;
    a
}

// Frames 3 and 4 alone.
pub fn high(d: Place, e: Place) -> [Place; 5] {
    [FREE, FREE, FREE, d, e]
}

// Five frames: these ranges, these places, and a free map whose first word is w.
pub fn small(live: u32, ranges: &[PageRange], places: &[Place], w: u64) -> Store {
    store(5, live, ranges, places, &[w])
}

// Names 0 and 1 live, nothing else.
pub fn bare() -> Store {
    small(3, &[], &[], 31)
}

// Pages 0 to 4 of object 0 in frames 4 to 0.
pub fn paged() -> Store {
    let p = [
        place(1, 4),
        place(1, 3),
        place(1, 2),
        place(1, 1),
        place(1, 0),
    ];
    small(3, &[many(0, 0, 5, 0, 1)], &p, 0)
}

// Pages 0 and 1 of object 0 in frames 4 and 3; and page 2 in frame 2.
pub fn two_pages() -> Store {
    let p = high(place(1, 1), place(1, 0));
    small(3, &[many(0, 0, 2, 0, 1)], &p, 7)
}

pub fn three_pages() -> Store {
    let p = [FREE, FREE, place(1, 2), place(1, 1), place(1, 0)];
    small(3, &[many(0, 0, 3, 0, 1)], &p, 3)
}

// Of object 0, page 0 in frame 4, page 1 absent, page 2 in frame 2, page 3 not covered, page 4 in frame 0; and page 1 in frame 3.
pub fn holed() -> Store {
    let a = [many(0, 0, 3, 0, 1), single(0, 4, 1, 0, 2)];
    let p = [place(2, 0), FREE, place(1, 2), FREE, place(1, 0)];
    small(3, &a, &p, 10)
}

pub fn hole_filled() -> Store {
    seated(holed(), 3, place(1, 1), 2)
}

// Two windows of one backing; frame 4 at an index that object 0 alone has in its window.
pub fn windows_apart() -> Store {
    let a = [many(0, 0, 3, 0, 1), many(1, 0, 1, 5, 1)];
    small(3, &a, &high(FREE, place(1, 1)), 15)
}

// Page 0 of object 0 in frame 4; pages 5 up to 8 of objects 0 and 1 in one backing, page 6 in frame 3. By hand: the store of
// a case is told by a table of its own.
pub fn halves() -> Store {
    let a = [
        single(0, 0, 1, 0, 1),
        many(0, 5, 3, 0, 2),
        many(1, 5, 3, 0, 2),
    ];
    small(3, &a, &high(place(2, 1), place(1, 0)), 7)
}

// The halves, with something spoiled: a bit of the free map, the number of ranges.
pub fn spoiled_halves(w: u64, count: usize) -> Store {
    let mut s = halves();
    s.free[0] = w;
    s.count = count;
    s
}

// The halves with other ranges, and frame 2 in backing 3.
pub fn halved(ranges: &[PageRange]) -> Store {
    let p = [FREE, FREE, place(3, 0), place(2, 1), place(1, 0)];
    small(3, ranges, &p, 3)
}

// The halves with object 1 cut in three at page 6, which is in frame 2.
pub fn thirds() -> Store {
    halved(&[
        single(0, 0, 1, 0, 1),
        many(0, 5, 3, 0, 2),
        many(1, 5, 1, 0, 2),
        single(1, 6, 1, 0, 3),
        many(1, 7, 1, 2, 2),
    ])
}

// Pages 0 and 1 of object 0 are the same page, in frame 4; and page 0 cut out of it, in frame 3.
pub fn twice() -> Store {
    let a = [single(0, 0, 1, 0, 1), single(0, 1, 1, 0, 1)];
    small(3, &a, &high(FREE, place(1, 0)), 15)
}

pub fn twice_cut() -> Store {
    let a = [single(0, 0, 1, 0, 2), single(0, 1, 1, 0, 1)];
    small(3, &a, &high(place(2, 0), place(1, 0)), 7)
}

// Pages 0 and 1 of an object are the same page, in frame 4, and frame 3 alone is free.
pub fn twice_full(live: u32, object: u32) -> Store {
    let a = [
        single(object, 0, 1, 0, 1),
        single(object, 1, 1, 0, 1),
        many(object, 100, 3, 0, 2),
    ];
    let p = [place(2, 0), place(2, 1), place(2, 2), FREE, place(1, 0)];
    small(live, &a, &p, 8)
}

// Page 0 of both objects in frame 4, the other frames in use. By hand: the store of a case is told by a table of its own.
pub fn shared_full() -> Store {
    let a = [
        single(0, 0, 1, 0, 1),
        single(1, 0, 1, 0, 1),
        many(1, 9, 4, 0, 2),
    ];
    let p = [
        place(2, 0),
        place(2, 1),
        place(2, 2),
        place(2, 3),
        place(1, 0),
    ];
    small(3, &a, &p, 0)
}

// ---- stores that are the same but for the numbers and kinds of their backings
// The first slot that holds a backing, 512 where none does; for 0 it is the first unused slot. By hand: 512 is a number as good as any other to compare such slots by.
fn holder(s: &Store, backing: u32) -> u32 {
    s.ranges
        .iter()
        .zip(0..512)
        .find(|(r, _)| r.backing.number() == backing)
        .map_or(512, |(_, k)| k)
}

// The same store, with each backing numbered by its holder.
fn numbered(s: &Store) -> Store {
    let mut t = *s;
    for r in &mut t.ranges {
        r.backing = BackingPages::Many(holder(s, r.backing.number()));
    }
    for p in &mut t.places {
        p.backing = holder(s, p.backing);
    }
    t
}

// A store that is sound and is this one.
pub fn is(s: Store, t: Store) -> bool {
    calls::counts(s).is_ok() && numbered(&s) == numbered(&t)
}

// ---- answers
// The call leaves this store.
pub fn leaves(r: Result<Store, Refusal>, t: Store) -> bool {
    r.is_ok_and(|s| is(s, t))
}

// The added page has this frame.
pub fn hands(r: Result<Added, Refusal>, frame: usize, t: Store) -> bool {
    r.is_ok_and(|a| a.frame == frame && is(a.store, t))
}

// A read is done and gives these bytes.
pub fn read_is(s: Store, pool: &[u8], object: u32, offset: usize, want: &[u8]) -> bool {
    let mut buf = [170; 20480];
    let Some(buf) = buf.get_mut(..want.len()) else {
        return false;
    };
    access::read(s, pool, object, offset, buf).is_ok() && &*buf == want
}

// On the pool of five frames the call is done, and leaves this store and this pool.
pub fn done<F>(call: F, t: Store, want: &[u8]) -> bool
where
    F: FnOnce(&mut [u8]) -> Result<Store, Refusal>,
    requires { F.IsAlwaysCallable call }
{
    let mut pool = five();
    leaves(call(&mut pool), t) && pool.as_slice() == want
}

// ---- refusals, where the first n bytes of a pool of sevens are lent: pool and buffer stay. A case that asks for more bytes than there are goes wrong.
pub fn refused<T: Drop, W: Into<u8> + Drop, F>(call: F, n: usize, why: W) -> bool
where
    F: FnOnce(&mut [u8]) -> Result<T, Refusal>,
    requires { F.IsAlwaysCallable call }
{
    let mut pool = [7; 24576];
    let Some(lent) = pool.get_mut(..n) else {
        return false;
    };
    call(lent).err().map(u8::from) == Some(why.into()) && pool == [7; 24576]
}

// n bytes of an object, from an offset on. By hand: the parameters are the fields of what it makes.
pub fn extent(object: u32, offset: usize, n: usize) -> Extent
    ensures { result ≡ record { object = object; offset = offset; n = n } }
{
    Extent { object, offset, n }
}

pub fn add_refused<W: Into<u8> + Drop>(
    s: Store,
    n: usize,
    object: u32,
    page: usize,
    why: W,
) -> bool {
    let page = PageNumber(page);
    refused(|pool| access::add(s, pool, object, page), n, why)
}

pub fn read_refused<W: Into<u8> + Drop>(s: Store, n: usize, extent: Extent, why: W) -> bool {
    let mut buf = five();
    let Some(there) = buf.get_mut(..extent.n) else {
        return false;
    };
    let right = refused(
        |pool| access::read(s, pool, extent.object, extent.offset, there),
        n,
        why,
    );
    right && buf == five()
}

pub fn write_refused<W: Into<u8> + Drop>(s: Store, n: usize, extent: Extent, why: W) -> bool {
    let src = five();
    let Some(src) = src.get(..extent.n) else {
        return false;
    };
    refused(
        |pool| access::write(s, pool, extent.object, extent.offset, src),
        n,
        why,
    )
}

// ---- one case a line, on the pool of five frames
// The page added has this frame, which is zeroed; all other bytes stay.
pub fn adds<N: AsSlice<u8> + Drop>(
    name: N,
    s: Store,
    object: u32,
    page: usize,
    frame: usize,
    t: Store,
) {
    let mut pool = five();
    let r = access::add(s, &mut pool, object, PageNumber(page));
    report(name, hands(r, frame, t) && pool == zeroed(frame));
}

// The write is done and leaves this store and this pool. By hand: `object`, `offset` and the bytes are those of the call.
pub fn puts<N: AsSlice<u8> + Drop>(
    name: N,
    s: Store,
    object: u32,
    offset: usize,
    src: &[u8],
    t: Store,
    want: &[u8],
) {
    let right = done(|pool| access::write(s, pool, object, offset, src), t, want);
    report(name, right);
}

// A write of no bytes is done and changes nothing.
pub fn puts_nothing<N: AsSlice<u8> + Drop>(name: N, s: Store, object: u32, offset: usize) {
    puts(name, s, object, offset, &[], s, &five());
}

// The read is done and gives these bytes.
pub fn gets<N: AsSlice<u8> + Drop>(name: N, s: Store, object: u32, offset: usize, want: &[u8]) {
    report(name, read_is(s, &five(), object, offset, want));
}

// An add, and a write of one byte, that are refused.
pub fn turned<N: AsSlice<u8> + Drop, W: Into<u8> + Drop>(
    name: N,
    s: Store,
    page: usize,
    offset: usize,
    why: W,
) {
    let why: u8 = why.into();
    let added = add_refused(s, 20480, 0, page, why);
    let written = write_refused(s, 20480, extent(0, offset, 1), why);
    report(name, added && written);
}
