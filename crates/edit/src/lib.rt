// The table of ranges as one value, with its count. Definitions and laws of a range put in and of pages cut out: see specs/.
#![tactic(auto)]

use table::PageRange;

// A table of ranges: the first `count` slots are used. By hand, as in the store: unused slots are part of the value.
#[derive(Clone, Copy, PartialEq, Eq)]
pub struct RangeTable {
    pub ranges: [PageRange; 512],
    pub count: usize,
}
