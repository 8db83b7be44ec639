// What a look-up answers: the backing and the frame of a page that is present, and a page's state.
#![tactic(auto)]

ghost use Rattle.std.specs.Prelude.{◌≡◌, ◌≤◌, ◌<◌};
ghost use Rattle.ranges.specs.Range.{from, upto};
ghost use Rattle.table.specs.Table.{ranged, Small};
ghost use Rattle.look.specs.Look.{index_in};

use table::PageRange;

// A present page: the number of its backing and its frame.
#[derive(Clone, Copy, PartialEq, Eq)]
pub struct Located {
    pub backing: u32,
    pub frame: usize,
}

// "absent, private, shared"
#[derive(Clone, Copy, PartialEq, Eq)]
pub enum State {
    Absent,
    Private,
    Shared,
}

// The index, in a range's backing, of page g of the line, which is in the range.
pub fn index_in(r: PageRange, g: usize) -> u32
    requires { (Small r) × (from (ranged r) ≤ g) × (g < upto (ranged r)) }
    ensures { result ≡ index_in r g }
{
    r.offset + (g - r.first()) as u32
}
