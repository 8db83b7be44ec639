// WHOLE PAGES of a store, shared with a source or left uncovered: only the table of ranges changes, and no byte.
#![tactic(auto, using(pages::specs::Inside::inside_table))]

ghost use Rattle.std.specs.Prelude.{◌≡◌, List, ℕ, ◌+◌, ◌-◌, ◌*◌, ◌≤◌, ◌<◌, min, map, length, take, drop};
ghost use Rattle.ranges.specs.Range.{line};
ghost use Rattle.ranges.specs.Search.{starts_before, ends_by};
ghost use Rattle.book.specs.Pages as pages;
ghost use Rattle.table.specs.Table.{Small, ranged_of};
ghost use Rattle.store.specs.Abs.{used};
ghost use Rattle.store.specs.Spare.{work_of};
ghost use Rattle.pages.specs.Inside.{Inside};
ghost use Rattle.pages.specs.Any.{zeros};
ghost use Rattle.shares.specs.Moved.{IsMoved, moved_range};
ghost use Rattle.shares.specs.Reranged.{Reranged};
ghost use Rattle.shares.specs.Together.{Sharable, Together};
ghost use Rattle.shares.specs.Tidied.{tidied};
ghost use Rattle.whole_pages.specs.Laid.{AllMet, with_parts};

use page::PageNumber;
use store::Store;
use table::{PageRange, line_of};

// The pages from `first` up to `end` of the line, and what they are shared as: `object`'s page `to` stands for `first`.
#[derive(Clone, Copy)]
struct Stretch {
    first: usize,
    end: usize,
    object: u32,
    to: PageNumber,
    ghost fits: { to.0 + (end - first) ≤ 262144 },
}

impl Stretch {
    // The part of a range that is met, as a range of `object`.
    fn part_of(self, r: PageRange) -> Option<PageRange>
        requires { Small r }
        ensures { IsMoved self.first self.end self.object self.to.0 r result }
    {
        shares::moved_part(r, self.first, self.end, self.object, self.to)
    }
}

// n whole pages of `source` from page `from` on, which are shared with `object` from page `to` on.
#[derive(Clone, Copy)]
pub struct SharedPages {
    pub source: u32,
    pub from: PageNumber,
    pub object: u32,
    pub to: PageNumber,
    pub n: usize,
    pub ghost apart: { source ≡ object → ⊥ },
    pub ghost within: { (from.0 + n ≤ 262144) × (to.0 + n ≤ 262144) },
}

impl SharedPages {
    // Where they lie on the line.
    fn stretch(self) -> Stretch
        ensures first { result.first ≡ line self.source self.from.0 }
        ensures end { result.end ≡ result.first + self.n }
        ensures target { (result.object ≡ self.object) × (result.to.0 ≡ self.to.0) }
    {
        let first = line_of(self.source, self.from);
        Stretch {
            first,
            end: first + self.n,
            object: self.object,
            to: self.to,
        }
    }
}

// One source range met: its part is put into the table, and nothing is trimmed. Nothing where they do not meet.
fn share_part(s: &mut Store, r: PageRange, stretch: Stretch)
    requires inside { Inside (tidied s.old) (zeros s.old) }
    requires sharable { (Small r) × (Sharable (tidied s.old) stretch.first stretch.end r) }
    ensures { Together (tidied s.old) stretch.first stretch.end stretch.object stretch.to.0 r (tidied s.new) }
{
    if let Some(part) = stretch.part_of(r) {
        range_table::put_range(s, part);
    }
}

// The slot in which row i of the table at the start stands once the rows from slot `at` on have moved up to `p`.
fn slot_now(i: usize, at: usize, p: usize) -> usize
    requires { (i ≤ 512) × (at ≤ p) × (p ≤ 512) }
    ensures { (i < at → result ≡ i) × (at ≤ i → result ≡ i + (p - at)) }
{
    if i < at { i } else { i + (p - at) }
}

// Ranges that are met, each turned into its part.
fn move_parts(ranges: &mut [PageRange], stretch: Stretch)
    requires { AllMet stretch.first stretch.end ranges.old }
    ensures { ranges.new ≡ map (moved_range stretch.first stretch.end stretch.object stretch.to.0) ranges.old }
{
    for r in ranges.iter_mut() {
        *r = stretch.part_of(*r).unwrap_or(*r);
    }
}

// The parts of the k source ranges from row `from` of the table on, written as the rows from `at` on, by which the table was opened.
fn lay_parts(s: &mut Store, at: usize, from: usize, k: usize, stretch: Stretch)
    requires room { (length s.old.ranges ≡ 512) × (at + k ≤ 512) × (from + k ≤ 512) }
    requires met { AllMet stretch.first stretch.end (take k (drop from s.old.ranges)) }
    ensures { s.new ≡ with_parts at (map (moved_range stretch.first stretch.end stretch.object stretch.to.0) (take k (drop from s.old.ranges))) s.old }
{
    s.ranges.copy_within(from..from + k, at);
    move_parts(&mut s.ranges[at..at + k], stretch);
}

// "For each source range met", where no range has a page of the destination, which lies behind the first `at` ranges: the parts become the rows from `at` on.
// No window is lost, so nothing is trimmed. By hand: it asks what `copy_range_to_object_tree` asks.
fn share_between(s: &mut Store, shared: SharedPages, at: usize)
    requires inside { Inside s.old (zeros s.old) }
    requires some { 0 < shared.n }
    requires room { s.old.count + 2 * pages.met shared.source shared.from.0 shared.n (work_of s.old (zeros s.old)) ≤ 512 }
    requires free { (at ≡ ends_by (line shared.object shared.to.0) (ranged_of (used s.old))) × (starts_before (line shared.object shared.to.0 + shared.n) (ranged_of (used s.old)) ≤ at) }
    ensures { (x : List ℕ) → Inside s.old x → Reranged s.old x (pages.sharing shared.source shared.from.0 shared.object shared.to.0 shared.n (work_of s.old x)) (line shared.object shared.to.0) s.new }
{
    let stretch = shared.stretch();
    let first = range_table::ends_by(s, stretch.first);
    let end = range_table::starts_before(s, stretch.end);
    let k = end - first;
    let behind = at + k;
    range_table::shift(s, at, behind);
    // The source is another object: its ranges all stand before the place, or all behind it.
    let from = slot_now(first, at, behind);
    lay_parts(s, at, from, k, stretch);
}

// "For each source range met", whatever ranges have pages of the destination. The ranges are those at the start: what is put in lies in `object`, and the
// source's ranges stay. Places are trimmed once, at the end. By hand: it asks what `copy_range_to_object_tree` asks.
fn share_over(s: &mut Store, shared: SharedPages)
    requires inside { Inside s.old (zeros s.old) }
    requires room { s.old.count + 2 * pages.met shared.source shared.from.0 shared.n (work_of s.old (zeros s.old)) ≤ 512 }
    ensures { (x : List ℕ) → Inside s.old x → Reranged s.old x (pages.sharing shared.source shared.from.0 shared.object shared.to.0 shared.n (work_of s.old x)) (line shared.object shared.to.0) s.new }
{
    let stretch = shared.stretch();
    let start = range_table::ends_by(s, stretch.first);
    let stop = range_table::starts_before(s, stretch.end);
    if stop <= start {
        return;
    }
    let ranges = s.ranges;
    for r in &ranges[start..stop] {
        share_part(s, *r, stretch);
    }
    trimming::trim(s);
}

// "For each source range met", whole pages are shared; uncovered ones are skipped. Mostly no range has a page of the destination. By hand: the store is as it is
// inside a call, and has room, at entry alone; a ghost field would have to be true at the return too.
pub fn copy_range_to_object_tree(s: &mut Store, shared: SharedPages)
    requires inside { Inside s.old (zeros s.old) }
    requires room { s.old.count + 2 * pages.met shared.source shared.from.0 shared.n (work_of s.old (zeros s.old)) ≤ 512 }
    ensures { (x : List ℕ) → Inside s.old x → Reranged s.old x (pages.sharing shared.source shared.from.0 shared.object shared.to.0 shared.n (work_of s.old x)) (line shared.object shared.to.0) s.new }
{
    let g = line_of(shared.object, shared.to);
    let at = range_table::ends_by(s, g);
    let stop = range_table::starts_before(s, g + shared.n);
    if 0 < shared.n && stop <= at {
        share_between(s, shared, at);
    } else {
        share_over(s, shared);
    }
}

// "Zeroing leaves whole pages uncovered": n pages from `page` on. By hand, as `copy_range_to_object_tree` is: there is room at entry alone.
pub fn uncover(s: &mut Store, object: u32, page: PageNumber, n: usize)
    requires { (Inside s.old (zeros s.old)) × (page.0 + n ≤ 262144) × (s.old.count + min 1 n ≤ 512) }
    ensures { (x : List ℕ) → Inside s.old x → Reranged s.old x (pages.uncover object page.0 n (work_of s.old x)) (line object page.0) s.new }
{
    if n == 0 {
        return;
    }
    let a = line_of(object, page);
    range_table::cut_range(s, a, a + n);
    trimming::trim(s);
}
