// The vector table: for each frame, the page vector and the index at which it stands.
#![tactic(auto)]

ghost use Rattle.std.specs.Prelude.{◌≡◌};
ghost use Rattle.places.specs.Places.{is_vacant, stands_at};

// Where a frame stands in a page vector; 0, 0 when free.
#[derive(Clone, Copy, PartialEq, Eq)]
pub struct Place {
    pub backing: u32,
    pub index: u32,
}

impl Place {
    // The place of a free frame.
    pub const NOWHERE: Place = Place {
        backing: 0,
        index: 0,
    };

    // "Each frame is free or stands in exactly one backing at one index": whether a frame that stands here is free. Backing 0 is no backing.
    pub fn is_free(&self) -> bool
        ensures { result ≡ is_vacant self.now }
    {
        self.backing == 0
    }

    // Whether a frame in use stands at this backing and index. Backing 0 is no backing: no frame stands there.
    pub fn stands_at(self, backing: u32, index: u32) -> bool
        ensures { result ≡ stands_at backing index self }
    {
        !self.is_free() && self == Place { backing, index }
    }
}
