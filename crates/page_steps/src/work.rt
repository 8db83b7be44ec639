// THE PAGE STEPS: a page added, made writable, written or cleared, in a store and a pool inside a call.

ghost use Rattle.std.specs.Prelude.{◌≡◌, true, ◌+◌, ◌/◌, ◌%◌, ◌≤◌, ◌<◌, length, replicate, Some};
ghost use Rattle.ranges.specs.Range.{line};
ghost use Rattle.book.specs.Page.{over};
ghost use Rattle.book.specs.Work.{add_page, is_shared, next, writable};
ghost use Rattle.frames.specs.Free.{highest_below};
ghost use Rattle.table.specs.Table.{ranges_of};
ghost use Rattle.places.specs.Places.{place_at};
ghost use Rattle.store.specs.Abs.{used};
ghost use Rattle.look.specs.Look.{located};
ghost use Rattle.pages.specs.Any.{zeros};
ghost use Rattle.pages.specs.Clear.{Spared, Cleared};
ghost use Rattle.pages.specs.Inside.{Inside};
ghost use Rattle.pages.specs.Leaving.{Gentle};
ghost use Rattle.pages.specs.Present.{HasRoom, Present, Room};
ghost use Rattle.pages.specs.Settling.{Lodged, Placed};
ghost use Rattle.pages.specs.Unique.{inside_prop};

use crate::PageAddress;
use crate::settling::{frame_at, next_frame, settle};
use crate::spots::{is_shared, own_spot, spot_of};
use look::Located;
use page::PageNumber;
use pages::Spot;
use store::Store;

// A store and a pool inside a call, which are lent together.
#[derive(Drop)]
pub struct Work<'a> {
    pub store: &'a mut Store,
    pub pool: &'a mut [u8],
    pub ghost inside: { Inside store.now pool.now } by { inside_prop store.now pool.now },
}

// The frame taken next settled at this spot.
fn settle_next(s: &mut Store, address: PageAddress, q: Spot) -> usize
    requires lodged { (Inside s.old (zeros s.old)) × (Lodged s.old address.object address.page.0 q) × (Gentle s.old address.object address.page.0 q) }
    requires room { HasRoom s.old }
    ensures { (highest_below s.old.free 1024 ≡ Some result) × (Placed s.old q result s.new) }
{
    let Some(f) = next_frame(s) else {
        unreachable!()
    };
    settle(s, address, q, f);
    f
}

impl Work<'_> {
    ghost use Rattle.page_steps.specs.Lent.{Same, state, Steps, Writes};

    // A page, its frame found among all: in a call that changes the store no charts stand.
    fn locate(&self, address: PageAddress) -> Option<Located>
        ensures { result ≡ located self.now.store.now (line address.object address.page.0) }
    {
        let s: &Store = self.store;
        lookup::locate_by(
            s,
            address.line(),
            0,
            |backing, index| frame_at(s, backing, index),
        )
        .found
    }

    // "Adding to a present page replaces it by a zeroed frame"; a page of a shared range is cut out; an uncovered one joins a range or starts one. The answer is the frame.
    pub fn add_page(&mut self, address: PageAddress) -> usize
        requires { HasRoom self.old.store.now }
        ensures { (Steps self.old address (add_page address.object address.page.0 (state self.old)) self.new result) × (result ≡ next (state self.old)) }
    {
        let q = spot_of(self.store, address);
        let f = settle_next(self.store, address, q);
        pool::zero_frame(self.pool, f);
        f
    }

    // "it starts with a copy of its bytes": a page of a shared range, which has the frame `from`. By hand: its spot and its bytes are others than those of an added page, and what
    // is in common is a call.
    fn copy_page(&mut self, address: PageAddress, from: usize) -> usize
        requires room { HasRoom self.old.store.now }
        requires present { (Present self.old.store.now self.old.pool.now address.object address.page.0 from) × (is_shared (place_at self.old.store.now.places from).backing (ranges_of (used self.old.store.now)) ≡ true) }
        ensures { Steps self.old address (writable address.object address.page.0 (state self.old)) self.new result }
    {
        let q = own_spot(self.store, address);
        let f = settle_next(self.store, address, q);
        pool::copy_frame(self.pool, f, from);
        f
    }

    // A page made present and private: "An absent page written is first added." The answer is its frame.
    pub fn make_writable(&mut self, address: PageAddress) -> usize
        requires { Room self.old.store.now self.old.pool.now address.object address.page.0 }
        ensures { Steps self.old address (writable address.object address.page.0 (state self.old)) self.new result }
    {
        match self.locate(address) {
            None => self.add_page(address),
            Some(l) if is_shared(self.store, l.backing) => self.copy_page(address, l.frame),
            Some(l) => l.frame,
        }
    }

    // Bytes written to a page, from a place in it on.
    pub fn write_page(&mut self, address: PageAddress, place: usize, bytes: &[u8])
        requires room { Room self.old.store.now self.old.pool.now address.object address.page.0 }
        requires within { place + length bytes.now ≤ 4096 }
        ensures { Writes self.old address (over place bytes.now) self.new }
    {
        let at = self.make_writable(address) * PageNumber::PAGE_SIZE + place;
        pool::copy(self.pool, at, bytes, 0, bytes.len());
    }

    // "clears bytes in present partial pages": n bytes from offset on, all in one page. A shared page gets a private copy; an absent one stays. By hand: where n is 0
    // the offset may be the object's end, which is in no page, so no address stands for it.
    pub fn clear_page(&mut self, object: u32, offset: usize, n: usize)
        requires { (offset + n ≤ 1073741824) × (offset % 4096 + n ≤ 4096) × (0 < n → Spared self.old.store.now self.old.pool.now object (offset / 4096)) }
        ensures { (Cleared self.old.store.now self.old.pool.now object offset n self.new.store.now self.new.pool.now) × (Same self.old self.new) }
    {
        if n == 0 {
            return;
        }
        let address = PageAddress::from_offset(object, offset);
        if self.locate(address).is_some() {
            let at = self.make_writable(address) * PageNumber::PAGE_SIZE
                + PageNumber::place(offset);
            pool::fill(self.pool, at, n, 0);
        }
    }
}
