// WHERE A PAGE IS SETTLED: the range that is put into the table for a page that is added or copied, and the page's index in that range's backing.

ghost use Rattle.std.specs.Prelude.{◌≡◌, ◌+◌, ◌-◌, ◌≤◌, ◌<◌, suc};
ghost use Rattle.ranges.specs.Range.{line, from, upto};
ghost use Rattle.book.specs.Work.{is_shared, joins};
ghost use Rattle.table.specs.Table.{ranged, range_of, ranges_of, Small, Table};
ghost use Rattle.store.specs.Abs.{used};
ghost use Rattle.pages.specs.Spot.{own_spot, longer_spot, spot_in, spot_of};

use crate::PageAddress;
use look::index_in;
use pages::Spot;
use range_table::{fresh_number, holder_count, last_by};
use store::Store;
use table::{BackingPages, PageRange};

// A range of its own, with a new backing.
pub fn own_spot(s: &Store, address: PageAddress) -> Spot
    ensures { result ≡ own_spot s.now address.object address.page.0 }
{
    Spot {
        range: PageRange {
            object: address.object,
            start: address.page,
            length: 1,
            offset: 0,
            backing: BackingPages::Single(fresh_number(s)),
        },
        index: 0,
    }
}

// "A backing held by two or more ranges is shared."
pub fn is_shared(s: &Store, backing: u32) -> bool
    ensures { result ≡ is_shared backing (ranges_of (used s.now)) }
{
    1 < holder_count(s, backing)
}

// A page that is added, and the last range that begins at or before it.
#[derive(Clone, Copy)]
struct Before<'a> {
    store: &'a Store,
    address: PageAddress,
    range: PageRange,
    ghost small: { Small range },
    ghost begins: { from (ranged range) ≤ line address.object address.page.0 },
}

impl Before<'_> {
    // The range, which covers the page, or a range of its own where that is shared.
    fn covered_spot(&self) -> Spot
        requires { line self.now.address.object self.now.address.page.0 < upto (ranged self.now.range) }
        ensures { result ≡ spot_in self.now.store.now self.now.address.object self.now.address.page.0 self.now.range }
    {
        if is_shared(self.store, self.range.backing.number()) {
            return own_spot(self.store, self.address);
        }
        Spot {
            range: self.range,
            index: index_in(self.range, self.address.line()),
        }
    }

    // Whether the page, which the range does not cover, joins it.
    fn can_join(&self) -> bool
        requires { upto (ranged self.now.range) ≤ line self.now.address.object self.now.address.page.0 }
        ensures { result ≡ joins self.now.address.object self.now.address.page.0 (ranges_of (used self.now.store.now)) (range_of self.now.range) }
    {
        let Before {
            store,
            address,
            range: r,
        } = *self;
        let end = address.line() + 1;
        r.object == address.object
            && holder_count(store, r.backing.number()) == 1
            && end - r.end() <= 16
            && r.offset as usize + (end - r.first()) <= 1048576
    }

    // The range made longer up to the page.
    fn longer_spot(&self) -> Spot
        requires { (upto (ranged self.now.range) ≤ line self.now.address.object self.now.address.page.0) × (self.now.range.offset + (suc (line self.now.address.object self.now.address.page.0) - from (ranged self.now.range)) ≤ 1048576) }
        ensures { result ≡ longer_spot self.now.range (line self.now.address.object self.now.address.page.0) }
    {
        let r = self.range;
        let k = (self.address.line() - r.first()) as u32;
        Spot {
            range: PageRange {
                length: k + 1,
                backing: BackingPages::Many(r.backing.number()),
                ..r
            },
            index: r.offset + k,
        }
    }

    // Of the page.
    fn spot(&self) -> Spot
        ensures { result ≡ spot_in self.now.store.now self.now.address.object self.now.address.page.0 self.now.range }
    {
        if self.address.line() < self.range.end() {
            return self.covered_spot();
        }
        if self.can_join() {
            return self.longer_spot();
        }
        own_spot(self.store, self.address)
    }
}

// Of a page that is added.
pub fn spot_of(s: &Store, address: PageAddress) -> Spot
    requires { Table s.now.ranges s.now.count }
    ensures { result ≡ spot_of s.now address.object address.page.0 }
{
    match last_by(s, address.line()) {
        None => own_spot(s, address),
        Some(k) => {
            let range = s.ranges[k];
            let before = Before {
                store: s,
                address,
                range,
            };
            before.spot()
        }
    }
}
