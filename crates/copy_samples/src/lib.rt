// What the programs that run copies, shadow copies and zeroing share: cases that are done, and cases that are refused.
// By hand: a case is told in one call, so that it stands in one line: `s`, the store, and `passage`, what is copied, with `t`, the store that is left; or, of a
// refusal, `m`, the bytes of the pool that are lent, and `why`, the refusal or its number of the table.
#![tactic(auto)]

ghost use Rattle.std.specs.Prelude.{◌≡◌, ◌+◌, ◌≤◌, length};

use access_samples::{done, five, high, paged, refused, small};
use places::Place;
use refusals::{Extent, Passage, Refusal};
use samples::{FREE, full_table, place, report};
use std::convert::AsSlice;
use store::Store;
use table::PageRange;

// ---- a store
// The first slots of a full table, these ranges behind them, and these places. By hand: a struct with the bound as its ghost field would be made for each call, and for that alone.
pub fn rows(first: usize, last: &[PageRange], places: &[Place], w: u64) -> Store
    requires { first + length last.now ≤ 512 }
{
    let mut table = full_table();
    let end = first + last.len();
    table[first..end].copy_from_slice(last);
    small(3, &table[..end], places, w)
}

// A table without an unused slot, its page 0 in frame 4.
pub fn packed() -> Store {
    rows(512, &[], &high(FREE, place(1, 0)), 15)
}

// And no frame free: they stand as those of five pages.
pub fn packed_full() -> Store {
    rows(512, &[], &paged().places, 0)
}

// ---- the calls
// n bytes of object 0, to object 1.
pub fn across(from: usize, to: usize, n: usize) -> Passage
    ensures { result ≡ record { source = 0; from = from; object = 1; to = to; n = n } }
{
    Passage {
        source: 0,
        from,
        object: 1,
        to,
        n,
    }
}

pub fn copy(s: Store, pool: &mut [u8], p: Passage) -> Result<Store, Refusal> {
    copies::copy_ranges(s, pool, p.source, p.from, p.object, p.to, p.n)
}

pub fn shadow(s: Store, pool: &[u8], p: Passage) -> Result<Store, Refusal> {
    copies::copy_range_to_shadow(s, pool, p.source, p.from, p.object, p.to, p.n)
}

pub fn zero(s: Store, pool: &mut [u8], e: Extent) -> Result<Store, Refusal> {
    copies::zero_ranges(s, pool, e.object, e.offset, e.n)
}

// ---- one case a line, on the pool of five frames
// The copy is done and leaves this store and this pool.
pub fn copied<N: AsSlice<u8> + Drop>(name: N, s: Store, passage: Passage, t: Store, want: &[u8]) {
    report(name, done(|pool| copy(s, pool, passage), t, want));
}

// It leaves this store, and the pool as it was.
pub fn quiet<N: AsSlice<u8> + Drop>(name: N, s: Store, passage: Passage, t: Store) {
    copied(name, s, passage, t, &five());
}

// The shadow copy is done and leaves this store.
pub fn shadows<N: AsSlice<u8> + Drop>(name: N, s: Store, passage: Passage, t: Store) {
    report(name, done(|pool| shadow(s, pool, passage), t, &five()));
}

// The zeroing is done and leaves this store and this pool.
pub fn zeroes<N: AsSlice<u8> + Drop>(name: N, s: Store, extent: Extent, t: Store, want: &[u8]) {
    report(name, done(|pool| zero(s, pool, extent), t, want));
}

// The zeroing leaves this store, and the pool as it was.
pub fn uncovers<N: AsSlice<u8> + Drop>(name: N, s: Store, extent: Extent, t: Store) {
    zeroes(name, s, extent, t, &five());
}

// ---- refusals, where the first m bytes of a pool of sevens are lent: the pool stays
pub fn copy_refused<W: Into<u8> + Drop>(s: Store, m: usize, passage: Passage, why: W) -> bool {
    refused(|pool| copy(s, pool, passage), m, why)
}

pub fn shadow_refused<W: Into<u8> + Drop>(s: Store, m: usize, passage: Passage, why: W) -> bool {
    refused(|pool| shadow(s, pool, passage), m, why)
}

pub fn zero_refused<W: Into<u8> + Drop>(s: Store, m: usize, extent: Extent, why: W) -> bool {
    refused(|pool| zero(s, pool, extent), m, why)
}

// By both calls.
pub fn both_refused<W: Into<u8> + Drop>(s: Store, m: usize, passage: Passage, why: W) -> bool {
    let why: u8 = why.into();
    copy_refused(s, m, passage, why) && shadow_refused(s, m, passage, why)
}

// One case a line, on five frames: by copy_ranges, and by both calls.
pub fn copy_turned<N: AsSlice<u8> + Drop, W: Into<u8> + Drop>(
    name: N,
    s: Store,
    passage: Passage,
    why: W,
) {
    report(name, copy_refused(s, 20480, passage, why));
}

pub fn turned<N: AsSlice<u8> + Drop, W: Into<u8> + Drop>(
    name: N,
    s: Store,
    passage: Passage,
    why: W,
) {
    report(name, both_refused(s, 20480, passage, why));
}
