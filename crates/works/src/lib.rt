// WHAT IS MEASURED, turn after turn, by the public calls alone. Each function says how many turns went as they should. A turn that changes the store
// starts from the same store as the turn before: what it leaves is dropped. Record 30 has no page; where it takes no part, its name comes and goes, so that
// no turn is like the one before. By hand: each work is handed `s`, `pool` and `times`, the store, the page memory and how many turns, as a line of a program
// has them; a struct of them would be made anew at each call, and for that call alone.
#![tactic(auto)]

ghost use Rattle.std.specs.Prelude.{◌*◌, ◌≤◌, ◌<◌, length};

use fills::{Pages, Parts};
use look::State;
use page::PageNumber;
use refusals::Refusal;
use store::Store;

// The bits of `live` that change from turn to turn: none, or that of record 30.
const STEADY: u32 = 0;

const BLINKING: u32 = 1 << 30;

// Not compiled into the turns: there the store stays in one piece, and a call takes it as it lies, with no copy made for the call.
#[inline(never)]
fn toggle(s: &mut Store, change: u32) {
    s.live ^= change;
}

// How many of so many turns, numbered from 0, went as they should. By hand: tried, `filter` and `count` over a closure that is handed in did not prove.
fn turns<F: FnMut(&Store, usize) -> bool>(
    s: &Store,
    change: u32,
    times: usize,
    mut right: F,
) -> usize
    requires { F.IsAlwaysCallable right }
    ensures { result ≤ times }
{
    let mut t = *s;
    let mut count = 0;
    for i in 0..times {
        toggle(&mut t, change);
        count += usize::from(right(&t, i));
    }
    count
}

// ---- the fixed cost of a call
// One copy of the store a turn, to one place and to the other; what is there at the end is looked at. By hand: the index chooses one of two places, and goes
// through none.
pub fn copied(s: &Store, times: usize) -> usize {
    let mut t = *s;
    let mut two = [t; 2];
    for i in 0..times {
        t.live ^= BLINKING;
        two[i % 2] = t;
    }
    calls::counts(two[times % 2]).map_or(0, |_| times)
}

pub fn tested(s: &Store, times: usize) -> usize {
    turns(s, BLINKING, times, |t, _| soundness::sound(*t))
}

pub fn counted(s: &Store, times: usize) -> usize {
    turns(
        s,
        BLINKING,
        times,
        |t, _| calls::counts(*t).is_ok_and(|k| k.ranges == t.count),
    )
}

// A read of the first bytes of a range, the ranges in turn.
pub fn read(s: &Store, pool: &[u8], own: Parts, buf: &mut [u8], times: usize) -> usize {
    turns(s, BLINKING, times, |t, i| {
        let range = own.apart(i % own.ranges);
        let at = range.first * PageNumber::PAGE_SIZE;
        access::read(*t, pool, range.object, at, buf).is_ok()
    })
}

pub fn shown(s: &Store, pool: &[u8], times: usize) -> usize {
    turns(s, BLINKING, times, |t, i| {
        view::show(*t, pool, 0, PageNumber(i % 2)).len() == PageNumber::PAGE_SIZE
    })
}

// ---- small calls
// 64 bytes to the first two pages of record 0, which are present and private. A turn starts from the store that the turn before left.
pub fn written(s: &Store, pool: &mut [u8], src: &[u8], times: usize) -> usize {
    let mut t = *s;
    (0..times)
        .filter(|i| {
            access::write(t, pool, 0, i % 128 * 64, src)
                .map(|store| t = store)
                .is_ok()
        })
        .count()
}

// The first bytes of a record, which an upload goes round in.
#[derive(Clone, Copy)]
pub struct Head {
    pub object: u32,
    pub bytes: usize,
    ghost some: { 0 < bytes },
}

impl Head {
    pub fn new(object: u32, bytes: usize) -> Head
        requires { 0 < bytes }
    {
        Head { object, bytes }
    }
}

// The hand reader's upload: 300 records of 64 bytes, one call each.
fn upload(mut s: Store, pool: &mut [u8], head: Head) -> Result<(), Refusal> {
    let mut src = [7; 64];
    for i in 0..300 {
        src[0] = (i % 256) as u8;
        s = access::write(s, pool, head.object, i * 64 % head.bytes, &src)?;
    }
    Ok(())
}

pub fn uploaded(s: &Store, pool: &mut [u8], head: Head, times: usize) -> usize {
    turns(s, STEADY, times, |t, _| upload(*t, pool, head).is_ok())
}

pub fn added(s: &Store, pool: &mut [u8], times: usize) -> usize {
    turns(s, STEADY, times, |t, i| {
        access::add(*t, pool, 30, PageNumber(i % 1024)).is_ok()
    })
}

pub fn named(s: &Store, times: usize) -> usize {
    turns(s, BLINKING, times, |t, _| calls::new_object(*t, 31).is_ok())
}

pub fn dropped(s: &Store, times: usize) -> usize {
    turns(s, BLINKING, times, |t, _| calls::drop_object(*t, 0).is_ok())
}

// ---- look up of every page of record 0: how many are present
fn range_looked(s: &Store, range: Pages) -> usize
    ensures { result ≤ range.count }
{
    turns(s, BLINKING, range.count, |t, i| {
        let page = PageNumber(range.first.saturating_add(i));
        calls::look_up(*t, 0, page).is_ok_and(|state| state != State::Absent)
    })
}

// Each eighth range is in record 0.
fn record_looked(s: &Store, own: Parts) -> bool {
    (0..own.ranges).step_by(8).all(|i| {
        let range = own.apart(i);
        range_looked(s, range) == range.count
    })
}

pub fn looked(s: &Store, own: Parts, times: usize) -> usize {
    turns(s, STEADY, times, |t, _| record_looked(t, own))
}

// ---- zeroing record 0, hand-over of record 0 to record 30
pub fn zeroed(s: &Store, pool: &mut [u8], offset: usize, bytes: usize, times: usize) -> usize {
    turns(s, STEADY, times, |t, _| {
        copies::zero_ranges(*t, pool, 0, offset, bytes).is_ok()
    })
}

// Turned down for this reason, or for none.
pub fn handed_over(
    s: &Store,
    pool: &mut [u8],
    bytes: usize,
    refusal: Option<Refusal>,
    times: usize,
) -> usize {
    turns(s, STEADY, times, |t, _| {
        copies::copy_ranges(*t, pool, 0, 0, 30, 0, bytes).err() == refusal
    })
}

pub fn shadowed(s: &Store, pool: &[u8], bytes: usize, times: usize) -> usize {
    turns(s, STEADY, times, |t, _| {
        copies::copy_range_to_shadow(*t, pool, 0, 0, 30, 0, bytes).is_ok()
    })
}

// 100 single bytes into the copy of such a record: its ranges in turn, and in each of them every seventh page.
fn touch(mut s: Store, pool: &mut [u8], parts: Parts) -> Result<(), Refusal> {
    for k in 0..100 {
        let page = parts.in_record(k % parts.ranges).first + 7 * (k / parts.ranges);
        s = access::write(s, pool, 30, page * PageNumber::PAGE_SIZE, &[9])?;
    }
    Ok(())
}

pub fn touched(s: &Store, pool: &mut [u8], parts: Parts, times: usize) -> usize {
    turns(s, STEADY, times, |t, _| touch(*t, pool, parts).is_ok())
}

// ---- many bytes, in one call and page by page
pub fn bulk_written(s: &Store, pool: &mut [u8], src: &[u8], times: usize) -> usize {
    turns(s, STEADY, times, |t, _| {
        access::write(*t, pool, 0, 0, src).is_ok()
    })
}

pub fn bulk_read(s: &Store, pool: &[u8], buf: &mut [u8], times: usize) -> usize {
    turns(
        s,
        STEADY,
        times,
        |t, _| access::read(*t, pool, 0, 0, buf).is_ok(),
    )
}

fn write_pages(mut s: Store, pool: &mut [u8], src: &[u8]) -> Result<(), Refusal> {
    for (i, page) in src.chunks_exact(PageNumber::PAGE_SIZE).enumerate() {
        s = access::write(s, pool, 0, i * PageNumber::PAGE_SIZE, page)?;
    }
    Ok(())
}

pub fn pages_written(s: &Store, pool: &mut [u8], src: &[u8], times: usize) -> usize {
    turns(s, STEADY, times, |t, _| write_pages(*t, pool, src).is_ok())
}

fn read_pages(s: Store, pool: &[u8], buf: &mut [u8]) -> Result<(), Refusal> {
    for (i, page) in buf.chunks_exact_mut(PageNumber::PAGE_SIZE).enumerate() {
        access::read(s, pool, 0, i * PageNumber::PAGE_SIZE, page)?;
    }
    Ok(())
}

pub fn pages_read(s: &Store, pool: &[u8], buf: &mut [u8], times: usize) -> usize {
    turns(s, STEADY, times, |t, _| read_pages(*t, pool, buf).is_ok())
}

// So many bytes from byte 100 of record 0 to byte 0 of another record.
pub fn shifted(s: &Store, pool: &mut [u8], object: u32, bytes: usize, times: usize) -> usize {
    turns(s, STEADY, times, |t, _| {
        copies::copy_ranges(*t, pool, 0, 100, object, 0, bytes).is_ok()
    })
}
