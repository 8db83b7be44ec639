// The store's type. Definitions and laws of it: see specs/.
#![tactic(auto)]

ghost use Rattle.std.specs.Prelude.{◌≡◌, ◌≤◌, length, take};
ghost use Rattle.store.specs.Abs.{used};

use places::Place;
use table::PageRange;

// "The store is one record by value, whose fields hold a table of 512 ranges and all page vectors." Any value of the type may come in. By hand: arrays stand
// beside their counts, since 01 has any value of the type come in, and asks that unused slots are zero; an `ArrayVec` has neither.
#[derive(Clone, Copy, PartialEq, Eq)]
pub struct Store {
    // how many frames there are, numbered from 0
    pub frames: usize,
    // bit o is set where name o is live
    pub live: u32,
    // how many slots of the table are used
    pub count: usize,
    pub ranges: [PageRange; 512],
    // where each frame stands in the page vectors
    pub places: [Place; 1024],
    // bit f is set where frame f is free
    pub free: [u64; 16],
}

impl Store {
    // The ranges of the used slots; of a store that counts more slots than there are, all.
    pub fn used(&self) -> &[PageRange]
        ensures rows { result.now ≡ used self.now }
        ensures few { length result.now ≤ 512 }
    {
        &self.ranges[..self.count.min(512)]
    }

    // The places of the frames that there are, likewise.
    pub fn frame_places(&self) -> &[Place]
        ensures places { result.now ≡ take self.now.frames self.now.places }
        ensures few { length result.now ≤ 1024 }
    {
        &self.places[..self.frames.min(1024)]
    }
}
