// THE TEST OF SOUNDNESS: whether a store is sound, for any value of its type. The ranges and frames of a sound one are chained, for those who work on it then.
#![tactic(auto)]

ghost use Rattle.std.specs.Prelude.{◌≡◌, true, ◌&&◌, ◌≤◌, leb, length};
ghost use Rattle.charts.specs.Charts.{Empty, EmptyCharts, FrameChains, RangeChains};
ghost use Rattle.soundness.specs.Parts.{agreeing?, placed?, range_tests};
ghost use Rattle.store.specs.Sound.{sound?, Sized};

use chains::Chains;
use charts::Charts;
use store::Store;

// The sentences about ranges by themselves, "at most 512 ranges" too. Ranges are chained by their backings.
fn examine_ranges(s: &Store, ranges: &mut Chains) -> bool
    requires empty { Empty ranges.old }
    ensures answer { result ≡ (leb s.now.count 512 && range_tests s.now) }
    ensures agreeing { result ≡ true → agreeing? s.now ≡ true }
    ensures chained { result ≡ true → RangeChains s.now.ranges s.now.count ranges.new }
    ensures few { result ≡ true → s.now.count ≤ 512 }
    ensures within { result ≡ true → s.now.count ≤ length s.now.ranges }
{
    range_tests::slots(s) && range_tests::chain_ranges(s, ranges)
}

// The sentences about frames, their places and their bits, and the frames of `Single` ranges. Frames are chained by their places.
fn examine_places(s: &Store, ranges: &Chains, frames: &mut Chains) -> bool
    requires few { (s.now.frames ≤ 1024) × (s.now.count ≤ 512) }
    requires agreeing { agreeing? s.now ≡ true }
    requires ranges { RangeChains s.now.ranges s.now.count ranges.now }
    requires empty { Empty frames.old }
    ensures answer { result ≡ placed? s.now }
    ensures chained { result ≡ true → FrameChains s.now.places s.now.frames frames.new }
{
    place_tests::all_bits(s)
        && place_tests::seat_all(s, ranges, frames)
        && place_tests::all_seated(s, frames)
}

// "What a sound store is", as one test; "1 to 1,024 frames" is looked at here. The ranges and frames of a sound store are chained then.
pub fn examine(s: &Store, charts: &mut Charts) -> bool
    requires { EmptyCharts charts.old }
    ensures answer { result ≡ sound? s.now }
    ensures ranges { result ≡ true → RangeChains s.now.ranges s.now.count charts.new.ranges }
    ensures frames { result ≡ true → FrameChains s.now.places s.now.frames charts.new.frames }
{
    if !(1..=1024).contains(&s.frames) {
        return false;
    }
    examine_ranges(s, &mut charts.ranges) && examine_places(s, &charts.ranges, &mut charts.frames)
}

// The same by itself.
pub fn sound(s: Store) -> bool
    ensures { (result ≡ sound? s) × Sized s }
{
    let mut charts = Charts::new();
    examine(&s, &mut charts)
}
