// THE CHARTS OF A STORE: its ranges chained by their backings, and its frames by the places where they stand, so that a page's frame, and the ranges that hold a
// backing, are found without going through all.
#![tactic(auto)]

ghost use Rattle.std.specs.Prelude.{◌≡◌, ◌%◌};
ghost use Rattle.charts.specs.Charts.{chain_to, EmptyCharts};

use chains::Chains;

// The chains of a store's ranges and of its frames.
#[derive(Clone, Copy)]
pub struct Charts {
    pub ranges: Chains,
    pub frames: Chains,
}

impl Charts {
    // Charts without an entry.
    pub const fn new() -> Charts
        ensures { EmptyCharts result }
    {
        Charts {
            ranges: Chains::new(),
            frames: Chains::new(),
        }
    }
}

// The chain of the ranges that hold this backing, and of others.
pub fn chain_by(backing: u32) -> usize
    ensures { result ≡ backing % 1024 }
{
    backing as usize % 1024
}

// The chain of the frames that stand at this backing and index, and of others.
pub fn chain_to(backing: u32, index: u32) -> usize
    ensures { result ≡ chain_to backing index }
{
    let (backing, index) = (backing as usize, index as usize);
    (backing * 633 + (index + index / 1024)) % 1024
}
