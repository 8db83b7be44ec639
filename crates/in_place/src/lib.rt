// BYTES OF AN OBJECT WHERE THEY ARE: read, written over, and copied over those of another object, page by page, while the store stays.
#![tactic(auto)]

ghost use Rattle.std.specs.Prelude.{◌≡◌, ◌+◌, ◌*◌, ◌/◌, ◌%◌, ◌≤◌, ◌<◌, length, drop, take, MatchOption};
ghost use Rattle.std.proofs.Math.Seq.{paste};
ghost use Rattle.book.specs.Page.{over};
ghost use Rattle.book.specs.Bytes.{reading};
ghost use Rattle.book.specs.Book.{entry};
ghost use Rattle.ranges.specs.Range.{line};
ghost use Rattle.store.specs.Abs.{book_of};
ghost use Rattle.store.specs.Spare.{work_of};
ghost use Rattle.reads.specs.Reading.{page_bytes};
ghost use Rattle.table.specs.Table.{Table};
ghost use Rattle.pages.specs.Inside.{Inside, Wrote};
ghost use Rattle.writes.specs.Written.{Room};
ghost use Rattle.writes.specs.Going.{Going};
ghost use Rattle.moves.specs.Copying.{Copying};
ghost use Rattle.moves.specs.Moving.{Away};
ghost use Rattle.lookup.specs.Charted.{Finds};

use lookup::{Pages, States};
use page::PageNumber;
use page_parts::{Part, Parts};
use refusals::Passage;
use store::Store;

// A part of a read stored in buf: a slot to begin at when the next page is looked for, as this one is looked for from the slot `hint` on. "Absent bytes
// read as zero."
fn read_part(
    pages: &Pages,
    pool: &[u8],
    object: u32,
    part: Part,
    hint: usize,
    buf: &mut [u8],
) -> usize
    requires pool { length pool.now ≡ pages.now.store.now.frames * 4096 }
    requires room { part.done + part.n ≤ length buf.old }
    ensures { buf.new ≡ paste buf.old part.done (drop part.place (page_bytes pages.now.store.now pool.now (line object part.page.0))) part.n }
{
    let near = pages.locate_near(table::line_of(object, part.page), hint);
    match near.found {
        None => pool::fill(buf, part.done, part.n, 0),
        Some(l) => {
            let from = l.frame * PageNumber::PAGE_SIZE + part.place;
            pool::copy(buf, part.done, pool, from, part.n);
        }
    }
    near.slot
}

// The bytes of an object from offset on, as many as fill buf. By hand: the slice tells how many, so an `Extent` would tell it twice.
pub fn read_pages(pages: &Pages, pool: &[u8], object: u32, offset: usize, buf: &mut [u8])
    requires pool { length pool.now ≡ pages.now.store.now.frames * 4096 }
    requires buf_bound { offset + length buf.old ≤ 1073741824 }
    ensures { buf.new ≡ reading object offset (length buf.old) (entry (book_of pages.now.store.now pool.now)) }
{
    lookup::lengths(pages.store);
    let mut slot = 0;
    for part in Parts::new(offset, buf.len()) {
        slot = read_part(pages, pool, object, part, slot, buf);
    }
}

// A part of src written to its page where that is present and private: the store stays. Else nothing is written, and the answer is None. Where it is
// written, the answer is a slot to begin at when the next page is looked for, as this one is looked for from the slot `hint` on. By hand, here and below: a struct of states
// and pool would be lent `&mut` where only the pool changes.
fn overwrite_part(
    states: &States,
    pool: &mut [u8],
    object: u32,
    part: Part,
    hint: usize,
    src: &[u8],
) -> Option<usize>
    requires { (Inside states.now.pages.store.now pool.old) × (part.done + part.n ≤ length src.now) }
    ensures { MatchOption result (pool.new ≡ pool.old) (λ _. Wrote states.now.pages.store.now pool.old object part.page.0 (over part.place (take part.n (drop part.done src.now))) states.now.pages.store.now pool.new) }
{
    let near = states.private_near(table::line_of(object, part.page), hint);
    let frame = near.found?;
    let at = frame * PageNumber::PAGE_SIZE + part.place;
    pool::copy(pool, at, src, part.done, part.n);
    Some(near.slot)
}

// The bytes of src written from `offset` on as far as the pages are present and private, so that the store stays: how many bytes are written. By hand: the slice
// tells how many there are, so an `Extent` would tell it twice.
pub fn overwrite_pages(
    states: &States,
    pool: &mut [u8],
    object: u32,
    offset: usize,
    src: &[u8],
) -> usize
    requires { Room states.now.pages.store.now pool.old object offset (length src.now) }
    ensures { Going states.now.pages.store.now pool.old object offset src.now result states.now.pages.store.now pool.new }
{
    let mut slot = 0;
    for part in Parts::new(offset, src.len()) {
        match overwrite_part(states, pool, object, part, slot, src) {
            Some(next) => slot = next,
            None => return part.done,
        }
    }
    src.len()
}

// n bytes from place k of page g of the line, looked for from the slot `hint` on, stored in the pool from index at: a slot to begin at for the next page.
// `frame_of` finds the frame that stands at a backing and index. "Absent bytes read as zero."
fn move_part<F: Fn(u32, u32) -> Option<usize>>(
    s: &Store,
    pool: &mut [u8],
    g: usize,
    hint: usize,
    k: usize,
    at: usize,
    n: usize,
    frame_of: F,
) -> usize
    requires table { (Table s.now.ranges s.now.count) × (s.now.frames ≤ 1024) × (length pool.old ≡ s.now.frames * 4096) }
    requires n_bound { (k + n ≤ 4096) × (at + n ≤ length pool.old) }
    requires callable { F.IsAlwaysCallable frame_of }
    requires finds { Finds s.now (F.post frame_of) }
    ensures { pool.new ≡ paste pool.old at (drop k (page_bytes s.now pool.old g)) n }
{
    let near = lookup::locate_by(s, g, hint, frame_of);
    match near.found {
        None => pool::fill(pool, at, n, 0),
        Some(l) => pool::move_within(pool, at, l.frame * PageNumber::PAGE_SIZE + k, n),
    }
    near.slot
}

// m bytes of object source from offset `from` on, stored from index at in a frame that has none of its pages: a slot to begin at for the next bytes, as
// these are looked for from the slot `hint` on. "Each source page is judged separately."
pub fn move_in<F: Fn(u32, u32) -> Option<usize>>(
    s: &Store,
    pool: &mut [u8],
    source: u32,
    from: usize,
    hint: usize,
    at: usize,
    m: usize,
    frame_of: F,
) -> usize
    requires table { (Table s.now.ranges s.now.count) × (s.now.frames ≤ 1024) × (length pool.old ≡ s.now.frames * 4096) }
    requires m_bound { (from + m ≤ 1073741824) × (at % 4096 + m ≤ 4096) × (at + m ≤ length pool.old) × (Away s.now source (at / 4096)) }
    requires callable { F.IsAlwaysCallable frame_of }
    requires finds { Finds s.now (F.post frame_of) }
    ensures { pool.new ≡ paste pool.old at (reading source from m (work_of s.now pool.old)) m }
{
    lookup::lengths(s);
    let g = table::line_of(source, PageNumber::from_offset(from));
    let a = PageNumber::in_page(from, m);
    let slot = move_part(s, pool, g, hint, PageNumber::place(from), at, a, &frame_of);
    move_part(s, pool, g + 1, slot, 0, at + a, m - a, &frame_of)
}

// Slots to begin at when the next page, and the next bytes of its source, are looked for.
#[derive(Clone, Copy)]
struct Slots {
    to: usize,
    from: usize,
}

// A part of a copy written to its page where that is present and private: the store stays. Else nothing is written, and the answer is None. Where it is
// written, the answer is the slots to begin at for the next part.
fn overcopy_part(
    states: &States,
    pool: &mut [u8],
    passage: Passage,
    part: Part,
    hints: Slots,
) -> Option<Slots>
    requires inside { Inside states.now.pages.store.now pool.old }
    requires passage { (passage.source ≡ passage.object → ⊥) × (passage.from + part.done + part.n ≤ 1073741824) }
    ensures { MatchOption result (pool.new ≡ pool.old) (λ _. Wrote states.now.pages.store.now pool.old passage.object part.page.0 (over part.place (reading passage.source (passage.from + part.done) part.n (work_of states.now.pages.store.now pool.old))) states.now.pages.store.now pool.new) }
{
    let near = states.private_near(table::line_of(passage.object, part.page), hints.to);
    let frame = near.found?;
    let at = frame * PageNumber::PAGE_SIZE + part.place;
    let from = passage.from + part.done;
    let Pages { store, charts } = states.pages;
    let next = move_in(
        store,
        pool,
        passage.source,
        from,
        hints.from,
        at,
        part.n,
        |backing, index| lookup::frame_of(store, charts, backing, index),
    );
    Some(Slots {
        to: near.slot,
        from: next,
    })
}

// A copy done as far as the pages that are written are present and private, so that the store stays: how many bytes are written.
pub fn overcopy_pages(states: &States, pool: &mut [u8], passage: Passage) -> usize
    requires { (Room states.now.pages.store.now pool.old passage.object passage.to passage.n) × (passage.source ≡ passage.object → ⊥) × (passage.from + passage.n ≤ 1073741824) }
    ensures { Copying states.now.pages.store.now pool.old passage.source passage.from passage.object passage.to passage.n result states.now.pages.store.now pool.new }
{
    let mut slots = Slots { to: 0, from: 0 };
    for part in Parts::new(passage.to, passage.n) {
        match overcopy_part(states, pool, passage, part, slots) {
            Some(next) => slots = next,
            None => return part.done,
        }
    }
    passage.n
}
