// Two ways to find out whether a range has a place in its window, for the frames of a store, one after the other.
ghost use Rattle.std.specs.Prelude.{◌≡◌, Bool, true, false, List, ◌<◌, length, IfOk, IsOk};
ghost use Rattle.ranges.specs.Table.{named};
ghost use Rattle.table.specs.declared.PageRange.{PageRange as Range};
ghost use Rattle.table.specs.Table.{ranges_of};
ghost use Rattle.window_cover.specs.Intervals.{Indexed};
ghost use Rattle.place_tests.specs.Covered.{Exact, Inside};

use places::Place;
use table::PageRange;
use window_cover::{Cover, Interval};
use window_search::{GaveUp, Windows};

// A way to find out whether a range has a place in its window.
pub trait Finder {
    // the ranges
    ghost ranges: { Self → List Range };

    // whether it may give up
    ghost tires: { Bool };

    fn finds(&mut self, place: Place) -> Result<bool, GaveUp>
        ensures answer { IfOk result (λ q. q ≡ named place.backing place.index (ranges_of (ranges self.old))) }
        ensures tireless { tires ≡ false → IsOk result }
        ensures ranges { ranges self.new ≡ ranges self.old };
}

// Searches, and what they came to so far.
#[derive(Clone, Copy)]
pub struct Seeking<'a> {
    pub windows: Windows<'a>,
    // the window that was found last, as an interval; one without a place at first
    pub window: Interval,
    // the range that a search found last
    pub hint: Option<usize>,
    // how many steps searches have left
    pub steps: usize,
    ghost inside: { Inside windows.ranges.now window },
}

impl Seeking<'_> {
    // The window of the range in slot i is the one that was found last.
    fn note(&mut self, i: usize)
        requires { i < length self.old.windows.ranges.now }
        ensures { self.new.windows.ranges.now ≡ self.old.windows.ranges.now }
    {
        if let Some(window) = Interval::of(self.windows.ranges[i]) {
            self.window = window;
        }
    }

    // Whether the place lies in a window, by a search. Not compiled into `finds`, which then has nothing to put aside for it.
    #[tactic(auto, using(window_search::specs::Windows::met_named, window_search::specs::Windows::windowed))]
    #[cold]
    #[inline(never)]
    fn seek(&mut self, place: Place) -> Result<bool, GaveUp>
        ensures answer { IfOk result (λ q. q ≡ named place.backing place.index (ranges_of self.old.windows.ranges.now)) }
        ensures ranges { self.new.windows.ranges.now ≡ self.old.windows.ranges.now }
    {
        let met = self.windows.search(self.hint, place, &mut self.steps)?;
        if let Some(i) = met {
            self.note(i);
            self.hint = met;
        }
        Ok(met.is_some())
    }
}

impl Finder for Seeking<'_> {
    ghost ranges = { λ s. s.windows.ranges.now };

    ghost tires = { true };

    // The window that was found last is looked at first, since frames of one backing often stand in one window; then that of the last range of the backing.
    #[tactic(auto, using(window_search::specs::Windows::met_named, window_search::specs::Windows::windowed))]
    fn finds(&mut self, place: Place) -> Result<bool, GaveUp> {
        if self.window.has(place) {
            return Ok(true);
        }
        if let Some(j) = self.windows.first(place.backing)
            && self.windows.has(j, place)
        {
            self.note(j);
            return Ok(true);
        }
        self.seek(place)
    }
}

// The intervals that the windows of ranges cover, and the one that was found last; one without a place at first.
#[derive(Clone, Copy)]
pub struct Covering<'a> {
    pub ranges: &'a [PageRange],
    pub cover: &'a Cover,
    pub last: Interval,
    ghost indexed: { ∥ Indexed cover.now ∥₁ },
    ghost exact: { Exact ranges.now cover.now },
    ghost inside: { Inside ranges.now last },
}

impl Finder for Covering<'_> {
    ghost ranges = { λ c. c.ranges.now };

    ghost tires = { false };

    // The interval that was found last is looked at first.
    fn finds(&mut self, place: Place) -> Result<bool, GaveUp> {
        if self.last.has(place) {
            return Ok(true);
        }
        let found = self.cover.find(place);
        if let Some(interval) = found {
            self.last = interval;
        }
        Ok(found.is_some())
    }
}
