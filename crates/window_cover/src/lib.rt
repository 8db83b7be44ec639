// INTERVALS OF INDICES THAT THE WINDOWS OF RANGES COVER, in chains by the blocks of indices that they meet: whether a place lies in a window is found in time that
// does not grow with the ranges.
#![tactic(auto)]

ghost use Rattle.std.specs.Prelude.{◌≡◌, ℕ, false, true, ◌+◌, ◌-◌, ◌/◌, ◌^◌, ◌≤◌, ◌<◌, IfSome, MatchOption, length};
ghost use Rattle.table.specs.Table.{number_of, ranges_of};
ghost use Rattle.ranges.specs.Table.{named};
ghost use Rattle.places.specs.declared.Place.{Place};
ghost use Rattle.window_cover.specs.Intervals.{within, meets, united, key_of, count, covered, Bare, First, Filed, Put, Marked, Entered, Indexed, Shown};

use arrayvec::ArrayVec;
use chains::Chains;
use places::Place;
use table::PageRange;

// The indices of a backing from `first` up to `end`, exclusive.
#[derive(Clone, Copy, Default)]
pub struct Interval {
    pub backing: u32,
    pub first: u32,
    pub end: usize,
}

impl Interval {
    // The window of a range, if it has any index.
    pub fn of(r: PageRange) -> Option<Interval>
        ensures { MatchOption result (r.length ≡ 0) (λ a. (a.first < a.end) × (a.end < 8589934592) × (a ≡ record { backing = number_of r.backing; first = r.offset; end = r.offset + r.length })) }
    {
        let interval = Interval {
            backing: r.backing.number(),
            first: r.offset,
            end: r.offset as usize + r.length as usize,
        };
        (0 < r.length).then_some(interval)
    }

    // Whether the place lies in it.
    pub fn has(self, place: Place) -> bool
        ensures { result ≡ within self place }
    {
        let index = place.index as usize;
        (place.backing == self.backing) & ((self.first as usize <= index) & (index < self.end))
    }

    // Whether another interval overlaps it.
    fn meets(self, other: Interval) -> bool
        ensures { result ≡ meets self other }
    {
        let (first, end) = (other.first as usize, other.end);
        (self.backing == other.backing) & (((self.first as usize) < end) & (first < self.end))
    }

    // It and another that overlaps it, as one.
    fn united(self, other: Interval) -> Interval
        ensures { result ≡ united self other }
    {
        Interval {
            backing: self.backing,
            first: self.first.min(other.first),
            end: self.end.max(other.end),
        }
    }

    // The size of blocks for its indices, as a power of 2: they lie in one block, or in two that adjoin.
    fn size(self) -> usize
        requires { (self.first < self.end) × (self.end < 8589934592) }
        ensures { (result ≤ 33) × ((self.end - 1) / 2 ^ result ≤ self.first / 2 ^ result + 1) }
    {
        let span = self.end - 1 - self.first as usize;
        span.checked_ilog2().map_or(0, |log| log as usize + 1)
    }
}

// The chain of a block of 2^size indices of a backing. Blocks may share a chain, which costs time alone.
fn chain_of(backing: u32, size: usize, block: usize) -> usize
    requires { (size ≤ 33) × (block ≤ 8589934592) }
    ensures { result ≡ key_of backing size block }
{
    (backing as usize % 1024 * 633 + size * 101 + (block + block / 1024)) % 1024
}

// Intervals in the chains of the blocks that they meet, and the sizes of blocks that there are, each once, in the order in which they came.
#[derive(Drop)]
pub struct Cover {
    pub intervals: ArrayVec<Interval, 1024>,
    pub chains: Chains,
    pub sizes: ArrayVec<u8, 512>,
}

impl Cover {
    // The first slot of chain h whose interval passes the test.
    fn first_of<F: Fn(Interval) -> bool>(&self, h: usize, test: F) -> Option<usize>
        requires callable { F.IsAlwaysCallable test }
        requires in_heads { h < 1024 }
        ensures low { IfSome result (λ i. i < count self.now) }
        ensures first { (chain : ℕ → ℕ) → Filed chain self.now → First (F.post test) chain self.now h result }
    {
        let intervals = self.intervals.as_slice();
        for i in self.chains.falling(h) {
            if test(*intervals.get(i)?) {
                return Some(i);
            }
        }
        None
    }

    // An interval put into chain h: one that overlaps it there takes it in, or it is a new one.
    fn put(&mut self, h: usize, interval: Interval)
        requires { (h < 1024) × (count self.old < 1024) }
        ensures few { count self.new ≤ count self.old + 1 }
        ensures put { (chain : ℕ → ℕ) → Filed chain self.old → Put chain self.old self.new h interval }
    {
        match self.first_of(h, |a| a.meets(interval)) {
            Some(i) => self.intervals[i] = self.intervals[i].united(interval),
            None => {
                self.chains.put(h, self.intervals.len());
                self.intervals.push(interval);
            }
        }
    }

    // A size put among the sizes, where it is not there yet.
    fn mark(&mut self, size: u8)
        requires { length self.old.sizes.items < 512 }
        ensures { Marked self.old self.new size }
    {
        if !self.sizes.contains(&size) {
            self.sizes.push(size);
        }
    }

    // The same into the chain of each block that it meets.
    fn enter(&mut self, interval: Interval)
        requires { (interval.first < interval.end) × (interval.end < 8589934592) × (count self.old ≤ 1022) × (length self.old.sizes.items < 512) }
        ensures { (chain : ℕ → ℕ) → Filed chain self.old → Entered chain self.old self.new interval }
    {
        let size = interval.size();
        let low = interval.first as usize >> size;
        let high = (interval.end - 1) >> size;
        self.mark(size as u8);
        self.put(chain_of(interval.backing, size, low), interval);
        if low < high {
            self.put(chain_of(interval.backing, size, high), interval);
        }
    }

    // A cover without an interval.
    pub fn empty() -> Cover
        ensures { Bare result }
    {
        Cover {
            intervals: ArrayVec::new(),
            chains: Chains::new(),
            sizes: ArrayVec::new(),
        }
    }

    // The intervals of the windows of ranges, entered where there was none: a cover is filled where it lies, since it has 21,008 bytes.
    pub fn fill(&mut self, ranges: &[PageRange])
        requires bare { Bare self.old }
        requires few { length ranges.now ≤ 512 }
        ensures exact { (p : Place) → covered self.new p ≡ named p.backing p.index (ranges_of ranges.now) }
        ensures indexed { Indexed self.new }
    {
        for r in ranges {
            if let Some(interval) = Interval::of(*r) {
                self.enter(interval);
            }
        }
    }

    // The intervals of the windows of ranges.
    pub fn new(ranges: &[PageRange]) -> Cover
        requires { length ranges.now ≤ 512 }
        ensures exact { (p : Place) → covered result p ≡ named p.backing p.index (ranges_of ranges.now) }
        ensures indexed { Indexed result }
    {
        let mut cover = Cover::empty();
        cover.fill(ranges);
        cover
    }

    // An interval that has the place, or none where no range has it in its window: in the chain of its block of each size.
    pub fn find(&self, place: Place) -> Option<Interval>
        requires { ∥ Indexed self.now ∥₁ }
        ensures { Shown self.now place result }
    {
        let sizes = self.sizes.as_slice();
        for size in sizes {
            let h = chain_of(place.backing, *size as usize, place.index as usize >> *size);
            if let Some(i) = self.first_of(h, |a| a.has(place)) {
                return Some(self.intervals[i]);
            }
        }
        None
    }
}
