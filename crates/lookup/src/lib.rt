// WHERE A PAGE OF AN OBJECT IS: the slot of the range that covers it, its frame, and whether it is shared, by the charts of the store.
// By hand: three functions ask `Table s.ranges s.count` of the store that they are lent, for the reason that range_table gives; and three methods take a page `g` and a slot
// `hint` to begin at, of which a caller keeps the slot from one page to the next.
#![tactic(auto)]

ghost use Rattle.std.specs.Prelude.{◌≡◌, true, ◌≤◌, ◌<◌, take, Some, IfSome};
ghost use Rattle.ranges.specs.Range.{from, upto};
ghost use Rattle.table.specs.Table.{covering_at, ranged, ranged_of, Small, Table};
ghost use Rattle.store.specs.Abs.{used};
ghost use Rattle.store.specs.Sound.{Sized};
ghost use Rattle.places.specs.Places.{frame_at};
ghost use Rattle.look.specs.Look.{in_range, located, private_in, shared_in, seen};
ghost use Rattle.charts.specs.Charts.{FrameChains, RangeChains};
ghost use Rattle.lookup.specs.Charted.{charted_prop, Charted, Finds, Lone};

use charts::{Charts, chain_by, chain_to};
use look::{Located, State};
use store::Store;
use table::PageRange;

// Nothing is done. The lengths of a store's tables, which its type has, are told to the proofs: they know them once an entry is read.
pub fn lengths(s: &Store)
    ensures { Sized s.now }
{
    let _word = s.free[0];
}

// The frame that stands at this backing and index: a walk along the chain of that place. By hand, as `sharing` is: a closure calls it, and of one that has `self` the check finds
// no contract.
pub fn frame_of(s: &Store, charts: &Charts, backing: u32, index: u32) -> Option<usize>
    requires { (FrameChains s.now.places s.now.frames charts.now.frames) × (s.now.frames ≤ 1024) × Lone s.now }
    ensures { result ≡ frame_at backing index 0 (take s.now.frames s.now.places) }
{
    for frame in charts.frames.falling(chain_to(backing, index)) {
        if s.places[frame].stands_at(backing, index) {
            return Some(frame);
        }
    }
    None
}

// Page g of the line, which range r covers.
fn in_range<F: FnOnce(u32, u32) -> Option<usize>>(
    s: &Store,
    r: PageRange,
    g: usize,
    frame_of: F,
) -> Option<Located>
    requires page { (Small r) × (from (ranged r) ≤ g) × (g < upto (ranged r)) }
    requires callable { F.IsAlwaysCallable frame_of }
    requires finds { Finds s.now (F.post frame_of) }
    ensures { result ≡ in_range s.now r g }
{
    let backing = r.backing.number();
    let frame = frame_of(backing, look::index_in(r, g))?;
    Some(Located { backing, frame })
}

// Whether the range in this slot covers page g of the line.
fn covers(s: &Store, slot: usize, g: usize) -> bool
    requires { Table s.now.ranges s.now.count }
    ensures { result ≡ true → Some slot ≡ covering_at g (ranged_of (used s.now)) }
{
    s.used()
        .get(slot)
        .is_some_and(|r| r.first() <= g && g < r.end())
}

// The slot of the range that covers page g of the line: the slot `hint`, or the one behind it, or what halving finds.
fn slot_near(s: &Store, g: usize, hint: usize) -> Option<usize>
    requires { Table s.now.ranges s.now.count }
    ensures { result ≡ covering_at g (ranged_of (used s.now)) }
{
    if covers(s, hint, g) {
        return Some(hint);
    }
    if hint < 512 && covers(s, hint + 1, g) {
        return Some(hint + 1);
    }
    range_table::covering(s, g)
}

// What is found of a page, and a slot to begin at when the next page is looked for.
#[derive(Clone, Copy)]
pub struct Near<T> {
    pub slot: usize,
    pub found: T,
}

impl<T> Near<T> {
    // The same slot, with what `f` makes of what is found.
    fn map<U, F: FnOnce(T) -> U>(self, f: F) -> Near<U>
        requires { F.pre f self.found }
        ensures { F.post f self.found result.found }
    {
        Near {
            slot: self.slot,
            found: f(self.found),
        }
    }
}

// Page g of the line, looked for from the slot `hint` on, where `frame_of` finds the frame that stands at a backing and index.
pub fn locate_by<F: FnOnce(u32, u32) -> Option<usize>>(
    s: &Store,
    g: usize,
    hint: usize,
    frame_of: F,
) -> Near<Option<Located>>
    requires table { Table s.now.ranges s.now.count }
    requires callable { F.IsAlwaysCallable frame_of }
    requires finds { Finds s.now (F.post frame_of) }
    ensures found { result.found ≡ located s.now g }
    ensures inside { IfSome result.found (λ l. l.frame < s.now.frames) }
{
    match slot_near(s, g, hint) {
        None => Near {
            slot: hint,
            found: None,
        },
        Some(slot) => Near {
            slot,
            found: in_range(s, s.ranges[slot], g, frame_of),
        },
    }
}

// The pages of a store, looked up by its charts.
#[derive(Clone, Copy)]
pub struct Pages<'a> {
    pub store: &'a Store,
    pub charts: &'a Charts,
    pub ghost charted: { Charted store.now charts.now } by { charted_prop store.now charts.now },
}

impl Pages<'_> {
    // Page g of the line, looked for from the slot `hint` on.
    pub fn locate_near(&self, g: usize, hint: usize) -> Near<Option<Located>>
        ensures found { result.found ≡ located self.now.store.now g }
        ensures inside { IfSome result.found (λ l. l.frame < self.now.store.now.frames) }
    {
        locate_by(
            self.store,
            g,
            hint,
            |backing, index| frame_of(self.store, self.charts, backing, index),
        )
    }

    // Page g of the line.
    pub fn locate(&self, g: usize) -> Option<Located>
        ensures found { result ≡ located self.now.store.now g }
        ensures inside { IfSome result (λ l. l.frame < self.now.store.now.frames) }
    {
        self.locate_near(g, 0).found
    }
}

// The same, with the ranges that hold each backing, so that the state of each page is known: absent, private or shared.
#[derive(Clone, Copy)]
pub struct States<'a> {
    pub pages: Pages<'a>,
    pub ghost held: { RangeChains pages.store.now.ranges pages.store.now.count pages.charts.now.ranges },
}

// "A backing held by two or more ranges is shared.": a walk along the chain of the backing, until two are met.
fn sharing(store: &Store, charts: &Charts, backing: u32) -> State
    requires { (RangeChains store.now.ranges store.now.count charts.now.ranges) × (store.now.count ≤ 512) }
    ensures { result ≡ shared_in store.now backing }
{
    let mut met = false;
    for slot in charts.ranges.falling(chain_by(backing)) {
        if store.ranges[slot].backing.number() == backing {
            if met {
                return State::Shared;
            }
            met = true;
        }
    }
    State::Private
}

impl States<'_> {
    // The state of page g of the line, looked for from the slot `hint` on.
    pub fn near(&self, g: usize, hint: usize) -> Near<State>
        ensures { result.found ≡ seen self.now.pages.store.now (located self.now.pages.store.now g) }
    {
        let Pages { store, charts } = self.pages;
        self.pages.locate_near(g, hint).map(|page| page.map_or(
            State::Absent,
            |l| sharing(store, charts, l.backing),
        ))
    }

    // The state of page g of the line.
    pub fn of(&self, g: usize) -> State
        ensures { result ≡ seen self.now.pages.store.now (located self.now.pages.store.now g) }
    {
        self.near(g, 0).found
    }

    // The frame of page g of the line, if it is present and private, looked for from the slot `hint` on.
    pub fn private_near(&self, g: usize, hint: usize) -> Near<Option<usize>>
        ensures found { result.found ≡ private_in self.now.pages.store.now (located self.now.pages.store.now g) }
        ensures inside { IfSome result.found (λ f. f < self.now.pages.store.now.frames) }
    {
        let Pages { store, charts } = self.pages;
        self.pages.locate_near(g, hint).map(|page| {
            page.filter(|l| sharing(store, charts, l.backing) == State::Private)
                .map(|l| l.frame)
        })
    }
}
