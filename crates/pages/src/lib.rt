// PAGE STEPS: a page added or made writable, in a store and a pool inside a call. One type; else definitions and laws only: see specs/.
#![tactic(auto)]

use table::PageRange;

// The range that is put into the table for a page, and the page's index in its backing.
#[derive(Clone, Copy)]
pub struct Spot {
    pub range: PageRange,
    pub index: u32,
}
