// THE SEARCH FOR A RANGE THAT HAS A PLACE IN ITS WINDOW. Ranges of one backing are in one chain, so that a place is looked for in the windows of its chain only.
#![tactic(auto)]

ghost use Rattle.std.specs.Prelude.{◌≡◌, ◌%◌, ◌≤◌, ◌<◌, IfOk, MatchOption, get_or, length};
ghost use Rattle.chains.specs.Entries.{link_of};
ghost use Rattle.charts.specs.Charts.{RangeChains};
ghost use Rattle.window_search.specs.Windows.{in_window, Hit, Met};

use chains::Chains;
use places::Place;
use table::PageRange;

// A search that has no step left is given up: it says nothing.
#[derive(Clone, Copy)]
pub struct GaveUp;

// Searches for the frames of a store had no step left at this one; the frames before it are done.
#[derive(Clone, Copy)]
pub struct GaveUpAt {
    pub frame: usize,
}

// The ranges of a table, chained by their backings.
#[derive(Clone, Copy)]
pub struct Windows<'a> {
    pub ranges: &'a [PageRange],
    pub chains: &'a Chains,
    ghost few: { length ranges.now ≤ 512 },
    ghost chained: { RangeChains ranges.now (length ranges.now) chains.now },
}

// The page at which an index of a range's backing would stand, if the range went on as far.
fn page_at(r: PageRange, index: u32) -> Option<usize> {
    let page = r.start.0.checked_add(index as usize)?;
    page.checked_sub(r.offset as usize)
}

// Whether a range stands in the table before the page of the object, or begins there.
fn begins_by(r: PageRange, object: u32, page: usize) -> bool {
    (r.object, r.start.0) <= (object, page)
}

// The chains of ranges by their backings.
pub fn chains_of(ranges: &[PageRange]) -> Chains
    requires { length ranges.now ≤ 512 }
    ensures { RangeChains ranges.now (length ranges.now) result }
{
    let mut chains = Chains::new();
    for (i, r) in ranges.iter().enumerate() {
        chains.put(charts::chain_by(r.backing.number()), i);
    }
    chains
}

impl Windows<'_> {
    // Whether the place lies in the window of the range in slot i. A slot beyond the ranges has no window.
    pub fn has(&self, i: usize, place: Place) -> bool
        ensures { result ≡ in_window self.now.ranges.now place i }
    {
        self.ranges
            .get(i)
            .is_some_and(|r| r.in_window(place.backing, place.index))
    }

    // The first slot of the chain of the place's backing whose range has the place in its window, or none where there is none. Each slot that is passed costs a step.
    fn walk(&self, place: Place, steps: &mut usize) -> Result<Option<usize>, GaveUp>
        ensures { IfOk result (Met self.now.ranges.now place) }
    {
        for i in self.chains.falling(charts::chain_by(place.backing)) {
            if self.has(i, place) {
                return Ok(Some(i));
            }
            *steps = steps.checked_sub(1).ok_or(GaveUp)?;
        }
        Ok(None)
    }

    // The slot of a range that has the place in its window, by a guess: pieces of one range keep page and index apart by the same number, so the piece is looked
    // for, by halving, at the page that the place would be of range r.
    fn guess(&self, r: PageRange, place: Place) -> Option<usize>
        ensures { Hit self.now.ranges.now place result }
    {
        let page = page_at(r, place.index)?;
        let begun = self
            .ranges
            .partition_point(|q| begins_by(*q, r.object, page));
        let last = begun.checked_sub(1)?;
        self.has(last, place).then_some(last)
    }

    // The slot of a range that has the place in its window, or none where none of these has it: slot i, the next of its chain, and the slot next but one in the
    // table (between pieces of one range stand pages that were cut out).
    fn beside(&self, i: usize, place: Place) -> Option<usize>
        requires { i < length self.now.ranges.now }
        ensures { Hit self.now.ranges.now place result }
    {
        if self.has(i, place) {
            return Some(i);
        }
        if let Some(low) = self.chains.falling_before(i).next()
            && self.has(low, place)
        {
            return Some(low);
        }
        self.has(i + 2, place).then_some(i + 2)
    }

    // The first slot of the chain of a backing.
    pub fn first(&self, backing: u32) -> Option<usize>
        ensures head { link_of result ≡ get_or self.now.chains.now.heads (backing % 1024) 0 }
        ensures low { link_of result ≤ length self.now.ranges.now }
    {
        // by hand: `.next()` of the chain asks whether there is that entry, too (tried: 12.4 µs for a test of soundness against 11.4)
        chains::entry(self.chains.heads[charts::chain_by(backing)])
    }

    // The slot to begin at: the hint, if its range is one of the backing, else the first of the chain.
    fn begin_at(&self, hint: Option<usize>, backing: u32) -> Option<usize>
        ensures { MatchOption result (get_or self.now.chains.now.heads (backing % 1024) 0 ≡ 0) (λ i. i < length self.now.ranges.now) }
    {
        match hint {
            Some(i)
                if self
                    .ranges
                    .get(i)
                    .is_some_and(|r| r.backing.number() == backing) => { hint }
            _ => self.first(backing),
        }
    }

    // The slot of a range that has the place in its window, or none where there is none: beside the hint, or the first slot of the chain; then by the guess, which
    // costs 128 steps; then along the chain.
    pub fn search(
        &self,
        hint: Option<usize>,
        place: Place,
        steps: &mut usize,
    ) -> Result<Option<usize>, GaveUp>
        ensures { IfOk result (Met self.now.ranges.now place) }
    {
        let Some(i) = self.begin_at(hint, place.backing) else {
            return Ok(None);
        };
        if let Some(found) = self.beside(i, place) {
            return Ok(Some(found));
        }
        *steps = steps.checked_sub(128).ok_or(GaveUp)?;
        if let Some(found) = self.guess(self.ranges[i], place) {
            return Ok(Some(found));
        }
        self.walk(place, steps)
    }
}
