// WHOLE PAGES, shared with a source or left uncovered, in a store inside a call: only the table of ranges changes, and no byte.
// One function; else definitions and laws only: see specs/.
#![tactic(auto)]

ghost use Rattle.std.specs.Prelude.{◌+◌, ◌-◌, ◌≤◌};
ghost use Rattle.table.specs.Table.{Small};
ghost use Rattle.shares.specs.Moved.{IsMoved};

use page::PageNumber;
use table::PageRange;

// The part of a range between the pages a and e of the line, as a range of `object` whose page `to` stands for a.
pub fn moved_part(
    r: PageRange,
    a: usize,
    e: usize,
    object: u32,
    to: PageNumber,
) -> Option<PageRange>
    requires { (Small r) × (to.0 + (e - a) ≤ 262144) }
    ensures { IsMoved a e object to.0 r result }
{
    let first = a.max(r.first());
    let end = e.min(r.end());
    if end <= first {
        return None;
    }
    Some(PageRange {
        object,
        start: to.offset(first - a),
        length: (end - first) as u32,
        offset: r.offset + (first - r.first()) as u32,
        backing: r.backing,
    })
}
