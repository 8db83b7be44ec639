// THE PAGE STEP: a range put into the table for a page, what leaves with it, and a frame that gets the page.

ghost use Rattle.std.specs.Prelude.{◌≡◌, ◌+◌, ◌≤◌, ◌<◌, take, IfSome};
ghost use Rattle.ranges.specs.Range.{slot_at};
ghost use Rattle.frames.specs.Free.{highest_below};
ghost use Rattle.table.specs.Table.{ranges_of, Table};
ghost use Rattle.places.specs.Places.{frame_at};
ghost use Rattle.store.specs.Abs.{used};
ghost use Rattle.store.specs.With.{with_places};
ghost use Rattle.pages.specs.Any.{zeros};
ghost use Rattle.pages.specs.Inside.{Inside};
ghost use Rattle.pages.specs.Leaving.{Gentle};
ghost use Rattle.pages.specs.Settling.{Lodged, Placed};
ghost use Rattle.page_steps.specs.Depart.{departed, gone_at, old_slot, Taken};

use crate::PageAddress;
use frames::top_bit;
use look::index_in;
use pages::Spot;
use places::Place;
use range_table::{covering, has_window, put_range};
use store::Store;

// The first frame that stands at this backing and index.
pub fn frame_at(s: &Store, backing: u32, index: u32) -> Option<usize>
    ensures frame { result ≡ frame_at backing index 0 (take s.now.frames s.now.places) }
    ensures inside { IfSome result (λ f. f < 1024) }
{
    s.frame_places()
        .iter()
        .position(|p| p.stands_at(backing, index))
}

// The frame taken next, if one is free: "The frame handed out is the highest-numbered free one".
pub fn next_frame(s: &Store) -> Option<usize>
    ensures { result ≡ highest_below s.now.free 1024 }
{
    let i = s.free.iter().rposition(|w| 0 < *w)?;
    Some(i * 64 + top_bit(s.free[i]))
}

// The place of a page in the page vectors before a step, present or not; none where no range covers it.
fn old_place(s: &Store, g: usize) -> Option<Place>
    requires { Table s.now.ranges s.now.count }
    ensures { slot_at g (ranges_of (used s.now)) ≡ old_slot result }
{
    let k = covering(s, g)?;
    let r = s.ranges[k];
    Some(Place {
        backing: r.backing.number(),
        index: index_in(r, g),
    })
}

// The frame at a place, if there is one, stands nowhere.
pub fn release(s: &mut Store, p: Place)
    ensures { s.new ≡ with_places (gone_at s.old p) s.old }
{
    if let Some(f) = frame_at(s, p.backing, p.index) {
        s.places[f] = Place::NOWHERE;
    }
}

// "Entries in no holder's window go at once": of a page's old place, where the page now is at `place`. If that is the same place, what stood there goes.
fn depart(s: &mut Store, old: Option<Place>, place: Place)
    ensures { s.new ≡ with_places (departed s.old place.backing place.index old) s.old }
{
    if let Some(p) = old {
        if p == place || !has_window(s, p.backing, p.index) {
            release(s, p);
        }
    }
}

// Frame f taken out of the free map.
pub fn take_frame(s: &mut Store, f: usize)
    requires { f < 1024 }
    ensures { Taken s.old f s.new }
{
    s.free[f / 64] &= !(1 << (f % 64));
}

// THE PAGE STEP of the table, the places and the free words: the range of the spot is put into the table, what leaves has left, and frame f has the page.
pub fn settle(s: &mut Store, address: PageAddress, q: Spot, f: usize)
    requires lodged { (Inside s.old (zeros s.old)) × (Lodged s.old address.object address.page.0 q) × (Gentle s.old address.object address.page.0 q) }
    requires room { (s.old.count + 2 ≤ 512) × (f < 1024) }
    ensures { Placed s.old q f s.new }
{
    let old = old_place(s, address.line());
    let place = Place {
        backing: q.range.backing.number(),
        index: q.index,
    };
    put_range(s, q.range);
    depart(s, old, place);
    s.places[f] = place;
    take_frame(s, f);
}
