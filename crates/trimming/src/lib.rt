// TRIMMING: places in no window go, each frame looked at once.
#![tactic(auto)]

ghost use Rattle.std.specs.Prelude.{◌≡◌, ◌≤◌, MatchResult, length, map};
ghost use Rattle.table.specs.Table.{ranges_of};
ghost use Rattle.store.specs.Abs.{used};
ghost use Rattle.store.specs.Edits.{trimmed};
ghost use Rattle.store.specs.With.{with_places};
ghost use Rattle.lists.specs.Mapped.{mapped};
ghost use Rattle.window_cover.specs.Intervals.{Indexed};
ghost use Rattle.trimming.specs.Trimming.{kept, kept_covered};

use places::Place;
use store::Store;
use table::PageRange;
use window_cover::Cover;
use window_search::{GaveUpAt, Windows};

// Each place kept if a range has it in its window, else made nowhere. Windows are searched for in 1,024 steps, from the range that was found last; where no step is
// left, that is done up to that frame.
fn trim_along(places: &mut [Place], windows: &Windows) -> Result<(), GaveUpAt>
    ensures { MatchResult result
        (λ _. places.new ≡ map (kept windows.now.ranges.now) places.old)
        (λ e. (e.frame ≤ length places.old) × (places.new ≡ mapped (kept windows.now.ranges.now) places.old e.frame)) }
{
    let mut steps = 1024;
    let mut last = None;
    for (f, p) in places.iter_mut().enumerate() {
        if *p == Place::NOWHERE {
            continue;
        }
        let found = windows
            .search(last, *p, &mut steps)
            .map_err(|_| GaveUpAt { frame: f })?;
        match found {
            Some(_) => last = found,
            None => *p = Place::NOWHERE,
        }
    }
    Ok(())
}

// The place if an interval of the cover has it, else that of a free frame.
fn kept_by(cover: &Cover, p: Place) -> Place
    requires { Indexed cover.now }
    ensures { result ≡ kept_covered cover.now p }
{
    if p == Place::NOWHERE || cover.find(p).is_some() {
        p
    } else {
        Place::NOWHERE
    }
}

// Each place trimmed by the intervals that windows cover.
fn trim_covered(places: &mut [Place], cover: &Cover)
    requires { Indexed cover.now }
    ensures { places.new ≡ map (kept_covered cover.now) places.old }
{
    for p in places.iter_mut() {
        *p = kept_by(cover, *p);
    }
}

// The places trimmed by the windows of the ranges, which are found by intervals. Not compiled into `trim_places`, which then makes no room for intervals.
#[cold]
#[inline(never)]
fn trim_rest(places: &mut [Place], ranges: &[PageRange])
    requires { length ranges.now ≤ 512 }
    ensures { places.new ≡ map (kept ranges.now) places.old }
{
    let mut cover = Cover::empty();
    cover.fill(ranges);
    trim_covered(places, &cover);
}

// The places of the first `frames` frames trimmed by the windows of the ranges. By hand: the whole array comes in. Tried: the borrow check covers no part of
// a store's field lent beside another field, and through a slice of the whole field the proof of `trim` did not close.
fn trim_places(places: &mut [Place; 1024], frames: usize, ranges: &[PageRange])
    requires { (frames ≤ 1024) × (length ranges.now ≤ 512) }
    ensures { places.new ≡ trimmed frames (ranges_of ranges.now) places.old }
{
    let chains = window_search::chains_of(ranges);
    let windows = Windows {
        ranges,
        chains: &chains,
    };
    let places = &mut places[..frames];
    if let Err(GaveUpAt { frame }) = trim_along(places, &windows) {
        trim_rest(&mut places[frame..], ranges);
    }
}

// "Entries in no holder's window go at once": the store trimmed, in time that grows with ranges and frames. Windows are searched for first; for frames that are left
// then they are found by intervals.
pub fn trim(s: &mut Store)
    requires { (s.old.frames ≤ 1024) × (s.old.count ≤ 512) }
    ensures { s.new ≡ with_places (trimmed s.old.frames (ranges_of (used s.old)) s.old.places) s.old }
{
    let frames = s.frames;
    let ranges = &s.ranges[..s.count];
    trim_places(&mut s.places, frames, ranges);
}
