// BYTES WRITTEN TO MANY PAGES, from a slice or from another object within the pool, page after page, in a store and a pool that are lent inside a call.
#![tactic(auto)]

ghost use Rattle.std.specs.Prelude.{◌≡◌, ◌+◌, ◌≤◌, length, take, Some};
ghost use Rattle.book.specs.Page.{over};
ghost use Rattle.book.specs.Bytes.{reading};
ghost use Rattle.places.specs.Places.{frame_at};
ghost use Rattle.pages.specs.Inside.{Wrote};
ghost use Rattle.pages.specs.Present as pagesPresent;
ghost use Rattle.writes.specs.Written.{Room, Written};
ghost use Rattle.charts.specs.Charts.{RangeChains};
ghost use Rattle.lookup.specs.Charted.{Charted, Lone};
ghost use Rattle.page_steps.specs.Lent.{Same, state};
ghost use Rattle.page_writes.specs.Copied.{Copied};

use charts::{Charts, chain_to};
use lookup::{Pages, States};
use page::PageNumber;
use page_parts::{Part, Parts};
use page_steps::{PageAddress, Work};
use refusals::{Between, Passage};
use store::Store;

// The bytes of src written from `offset` on: "Calls work in page order". By hand: the slice tells how many, so an `Extent` would tell it twice.
pub fn write_pages(work: &mut Work, object: u32, offset: usize, src: &[u8])
    requires { Room work.old.store.now work.old.pool.now object offset (length src.now) }
    ensures { (Written work.old.store.now work.old.pool.now object offset src.now work.new.store.now work.new.pool.now) × (Same work.old work.new) }
{
    for part in Parts::new(offset, src.len()) {
        let address = PageAddress {
            object,
            page: part.page,
        };
        let bytes = &src[part.done..part.done + part.n];
        work.write_page(address, part.place, bytes);
    }
}

// The frame that stands at this backing and index: looked for among the first eight of the chain that this place had when the call began, and else among all. Nothing is asked of the
// charts: a frame that stands there now is the only one.
fn frame_by(s: &Store, charts: &Charts, backing: u32, index: u32) -> Option<usize>
    requires { Lone s.now }
    ensures { result ≡ frame_at backing index 0 (take s.now.frames s.now.places) }
{
    let places = s.frame_places();
    charts
        .frames
        .falling(chain_to(backing, index))
        .take(8)
        .find(|frame| *frame < places.len() && places[*frame].stands_at(backing, index))
        .or_else(|| page_steps::frame_at(s, backing, index))
}

// A copy from one object to another, and the charts that its call began with.
#[derive(Clone, Copy)]
pub struct Copier<'a> {
    pub charts: &'a Charts,
    pub between: Between,
}

impl<'a> Copier<'a> {
    // A part of it: n bytes from byte `done` on.
    pub fn part(&self, done: usize, n: usize) -> Copier<'a>
        requires { done + n ≤ self.now.between.passage.n }
        ensures passage { result.between.passage ≡ record { source = self.now.between.passage.source; from = self.now.between.passage.from + done; object = self.now.between.passage.object; to = self.now.between.passage.to + done; n = n } }
        ensures charts { result.charts.now ≡ self.now.charts.now }
    {
        let Copier { charts, between } = *self;
        let passage = Passage {
            from: between.passage.from + done,
            to: between.passage.to + done,
            n,
            ..between.passage
        };
        Copier {
            charts,
            between: Between { passage },
        }
    }

    // A part written to its page, as its source is looked for from the slot `hint` on: a slot to begin at for the next part. By hand, here and below: a struct of
    // copier and work would be lent `&mut` where only the work changes.
    fn copy_part(&self, work: &mut Work, part: Part, hint: usize) -> usize
        requires room { pagesPresent.Room work.old.store.now work.old.pool.now self.now.between.passage.object part.page.0 }
        requires within { part.done + part.n ≤ self.now.between.passage.n }
        ensures { (Wrote work.old.store.now work.old.pool.now self.now.between.passage.object part.page.0 (over part.place (reading self.now.between.passage.source (self.now.between.passage.from + part.done) part.n (state work.old))) work.new.store.now work.new.pool.now) × (Same work.old work.new) }
    {
        let passage = self.between.passage;
        let address = PageAddress {
            object: passage.object,
            page: part.page,
        };
        let frame = work.make_writable(address);
        let at = frame * PageNumber::PAGE_SIZE + part.place;
        let from = passage.from + part.done;
        let store: &Store = work.store;
        let charts = self.charts;
        in_place::move_in(
            store,
            work.pool,
            passage.source,
            from,
            hint,
            at,
            part.n,
            |backing, index| frame_by(store, charts, backing, index),
        )
    }

    // Its bytes, page after page: "At unequal places all is bytes". By hand: as above.
    pub fn copy_bytes(&self, work: &mut Work)
        requires { Room work.old.store.now work.old.pool.now self.now.between.passage.object self.now.between.passage.to self.now.between.passage.n }
        ensures { Copied self.now.between.passage work.old work.new }
    {
        let mut slot = 0;
        for part in Parts::new(self.between.passage.to, self.between.passage.n) {
            slot = self.copy_part(work, part, slot);
        }
    }

    // The same, over the pages that are present and private first, which are found by the chains: from the first other one on the store changes. By hand: as above.
    pub fn copy_over(&self, work: &mut Work)
        requires charted { (Charted work.old.store.now self.now.charts.now) × (RangeChains work.old.store.now.ranges work.old.store.now.count self.now.charts.now.ranges) }
        requires room { Room work.old.store.now work.old.pool.now self.now.between.passage.object self.now.between.passage.to self.now.between.passage.n }
        ensures { Copied self.now.between.passage work.old work.new }
    {
        let passage = self.between.passage;
        let pages = Pages {
            store: work.store,
            charts: self.charts,
        };
        let done = in_place::overcopy_pages(&States { pages }, work.pool, passage);
        if done < passage.n {
            self.part(done, passage.n - done).copy_bytes(work);
        }
    }
}
