// The tests of the table of ranges that store/specs/Sound.antt has. Any store may come in: no sum here is too large.
#![tactic(auto)]

ghost use Rattle.std.specs.Prelude.{◌≡◌, true, ◌&&◌, ◌+◌, ◌≤◌, ◌<◌, leb, length};
ghost use Rattle.std.specs.List.{list_all};
ghost use Rattle.lists.specs.Every.{all_below};
ghost use Rattle.chains.specs.Chains.{Linked};
ghost use Rattle.charts.specs.Charts.{chain_by, Empty, RangeChains};
ghost use Rattle.range_tests.specs.Agree.{alike_to};
ghost use Rattle.range_tests.specs.Fit.{fitting?, fitting_at};
ghost use Rattle.range_tests.specs.Shape.{follows?, rises?};
ghost use Rattle.range_tests.specs.Slots.{slots?};
ghost use Rattle.store.specs.Abs.{live_bit};
ghost use Rattle.store.specs.Sound.{alike, zero?};

use chains::Chains;
use page::PageNumber;
use store::Store;
use table::{BackingPages, PageRange};

// "object names 0 to 31, live or not": whether a name is live.
pub fn is_live(live: u32, object: u32) -> bool
    requires { object ≤ 31 }
    ensures { result ≡ live_bit live object }
{
    (live >> object) % 2 == 1
}

// "ends by page 262,144", for any first page.
fn ends_within(start: usize, length: u32) -> bool
    ensures { result ≡ leb (start + length) 262144 }
{
    start <= PageNumber::COUNT && start + length as usize <= PageNumber::COUNT
}

// A range lies in a live object and begins at or after page `low` of the line: "Each range belongs to a live object, has length at least 1, ends by page 262,144".
fn lies(r: &PageRange, live: u32, low: usize) -> bool
    ensures { (result ≡ follows? live low r.now) × (result ≡ true → r.now.start.0 < 262144) }
{
    r.object < 32
        && is_live(live, r.object)
        && 1 <= r.length
        && ends_within(r.start.0, r.length)
        && low <= r.object as usize * PageNumber::COUNT + r.start.0
}

// "unused slots are zero": whether all slots of a part of the table are.
fn all_zero(slots: &[PageRange]) -> bool
    ensures { result ≡ list_all zero? slots.now }
{
    slots.iter().all(|r| *r == PageRange::ZERO)
}

// Ranges lie as they should: each begins on the line of all pages at or after the end of the one before it. "overlaps no other of its object"; "Ranges stand in the table by
// object, then start, from slot 0".
#[tactic(auto, using(crate::specs::Shape::rises_next, crate::specs::Shape::rises_wrong, crate::specs::Shape::rises_done))]
fn rise(ranges: &[PageRange], live: u32) -> bool
    ensures { result ≡ rises? live 0 ranges.now }
{
    let mut low = 0;
    for r in ranges {
        if !lies(r, live, low) {
            return false;
        }
        low = r.object as usize * PageNumber::COUNT + r.start.0 + r.length as usize;
    }
    true
}

// The tests of all slots but for the kinds of backings: "at most 512 ranges"; the ranges in use rise; "unused slots are zero".
pub fn slots(s: &Store) -> bool
    ensures answer { result ≡ (leb s.now.count 512 && slots? s.now.live s.now.ranges s.now.count 0 0) }
    ensures within { result ≡ true → s.now.count ≤ length s.now.ranges }
{
    if 512 < s.count {
        return false;
    }
    let (used, unused) = s.ranges.split_at(s.count);
    rise(used, s.live) && all_zero(unused)
}

// Whether the backing fits the range's length and offset: "`Nothing` stands only in unused slots"; "A `Single` range has length 1 and offset 0"; "A `Many` range has
// offset + length at most 1,048,576". By hand: fields are held against bounds, and not against those of another range.
fn fits(r: &PageRange) -> bool
    ensures { result ≡ fitting? r.now }
{
    match r.backing {
        BackingPages::Nothing => false,
        BackingPages::Single(b) => 0 < b && r.length == 1 && r.offset == 0,
        BackingPages::Many(b) => 0 < b && u64::from(r.offset) + u64::from(r.length) <= 1048576,
    }
}

// Two backings are of different numbers, or of one kind.
fn same_kind(a: BackingPages, b: BackingPages) -> bool
    ensures { result ≡ alike a b }
{
    match (a, b) {
        (BackingPages::Single(m), BackingPages::Many(n)) => m != n,
        (BackingPages::Many(m), BackingPages::Single(n)) => m != n,
        _ => true,
    }
}

// The backing of range i agrees with that of every range before it, where those agree: a walk along its chain, to the first of its own backing.
fn agrees(s: &Store, chains: &Chains, i: usize) -> bool
    requires in_table { i < 512 }
    requires linked { Linked (chain_by s.now.ranges) (i + 1) chains.now.next }
    requires before { all_below (λ j. all_below (alike_to s.now.ranges j) j) i ≡ true }
    ensures { result ≡ all_below (alike_to s.now.ranges i) i }
{
    let backing = s.ranges[i].backing;
    for j in chains.falling_before(i) {
        let met = s.ranges[j].backing;
        if met == backing {
            return true;
        }
        if !same_kind(met, backing) {
            return false;
        }
    }
    true
}

// Every backing fits its range; "Ranges that hold one backing agree on its kind." Ranges are chained by their backings on the way, each compared with those of its chain
// before it.
pub fn chain_ranges(s: &Store, chains: &mut Chains) -> bool
    requires few { s.now.count ≤ 512 }
    requires empty { Empty chains.old }
    ensures answer { result ≡ (all_below (fitting_at s.now.ranges) s.now.count && all_below (λ i. all_below (alike_to s.now.ranges i) i) s.now.count) }
    ensures chained { result ≡ true → RangeChains s.now.ranges s.now.count chains.new }
{
    for (i, r) in s.ranges[..s.count].iter().enumerate() {
        if !fits(r) {
            return false;
        }
        chains.put(charts::chain_by(r.backing.number()), i);
        if !agrees(s, chains, i) {
            return false;
        }
    }
    true
}
