#![tactic(auto)]

ghost use Rattle.std.specs.Prelude.{◌≡◌, ◌++◌, ◌∷◌, [], ◌+◌, ◌≤◌, ◌<◌, min};
ghost use Rattle.ranges.specs.Range.{line, from, upto, skip, front, back, split_at};
ghost use Rattle.ranges.specs.Table.{window};
ghost use Rattle.table.specs.Table.{number_of, ranged, range_of, zero_range, Small, parts_of, Cut};

use page::PageNumber;

// What keeps the pages of a range, with the backing's number. "Between two calls `Nothing` stands only in unused slots."
#[derive(Clone, Copy, PartialEq, Eq)]
pub enum BackingPages {
    Nothing,
    Single(u32),
    Many(u32),
}

impl BackingPages {
    // The number of a backing, or 0.
    pub fn number(self) -> u32
        ensures { result ≡ number_of self }
    {
        match self {
            BackingPages::Nothing => 0,
            BackingPages::Single(n) | BackingPages::Many(n) => n,
        }
    }
}

// The place of a page on the line of all pages.
pub fn line_of(object: u32, page: PageNumber) -> usize
    requires { page.0 ≤ 262144 }
    ensures { result ≡ line object page.0 }
{
    object as usize * PageNumber::COUNT + page.0
}

// Pages of an object from `start` on, kept in a backing from index `offset` on.
#[derive(Clone, Copy, PartialEq, Eq)]
pub struct PageRange {
    pub object: u32,
    pub start: PageNumber,
    pub length: u32,
    pub offset: u32,
    pub backing: BackingPages,
}

// What is left of a range where the pages from a up to e of the line are cut out.
#[derive(Clone, Copy, PartialEq, Eq)]
pub struct Pieces {
    pub before: Option<PageRange>,
    pub after: Option<PageRange>,
}

// A range cut around one page.
#[derive(Clone, Copy, PartialEq, Eq)]
pub struct Around {
    pub before: Option<PageRange>,
    pub page: PageRange,
    pub after: Option<PageRange>,
}

// By hand: `Small self` stands in six contracts, of what cuts a range: any value may stand in a store, so that `Small` is no ghost field of a range.
impl PageRange {
    // "unused slots are zero"
    pub const ZERO: PageRange = PageRange {
        object: 0,
        start: PageNumber(0),
        length: 0,
        offset: 0,
        backing: BackingPages::Nothing,
    };

    // A range of the same object and backing.
    pub fn new_from(self, start: PageNumber, offset: u32, length: u32) -> PageRange
        ensures { result ≡ record { object = self.object; start = start; length = length; offset = offset; backing = self.backing } }
    {
        PageRange {
            start,
            length,
            offset,
            ..self
        }
    }

    // Where the range begins on the line. Any range may be asked: a start beyond the object's pages counts as their end.
    pub fn first(self) -> usize
        ensures { result ≡ line self.object (min self.start.0 262144) }
    {
        self.object as usize * PageNumber::COUNT + self.start.0.min(PageNumber::COUNT)
    }

    // Where it ends, exclusive, likewise.
    pub fn end(self) -> usize
        ensures { result ≡ line self.object (min self.start.0 262144) + self.length }
    {
        self.first() + self.length as usize
    }

    // The range without its first k pages: start, length and offset move, the backing stays.
    fn shortened(self, k: u32) -> PageRange
        requires { (Small self) × (k ≤ self.length) }
        ensures { ranged result ≡ skip k (ranged self) }
    {
        self.new_from(
            self.start.offset(k as usize),
            self.offset + k,
            self.length - k,
        )
    }

    // "Shortening a range changes the caller's own range record": the same behind a reference.
    pub fn shorten(&mut self, k: u32)
        requires { (Small self.old) × (k ≤ self.old.length) }
        ensures { ranged self.new ≡ skip k (ranged self.old) }
    {
        *self = self.shortened(k);
    }

    // The part of the range before page a of the line.
    pub fn front(self, a: usize) -> Option<PageRange>
        requires { Small self }
        ensures { parts_of result ≡ front a (ranged self) }
    {
        let first = self.first();
        if a <= first {
            return None;
        }
        let n = (self.length as usize).min(a - first);
        Some(self.new_from(self.start, self.offset, n as u32))
    }

    // The part of the range from page e of the line on.
    pub fn back(self, e: usize) -> Option<PageRange>
        requires { Small self }
        ensures { parts_of result ≡ back e (ranged self) }
    {
        if self.end() <= e {
            return None;
        }
        Some(self.shortened(e.saturating_sub(self.first()) as u32))
    }

    // The parts of the range before page a and from page e of the line on.
    pub fn split_range(self, a: usize, e: usize) -> Pieces
        requires { Small self }
        ensures { Cut result a e (ranged self) }
    {
        Pieces {
            before: self.front(a),
            after: self.back(e),
        }
    }

    // The range cut before and after page g of the line, which is in it.
    pub fn split_at(self, g: usize) -> Around
        requires { (Small self) × (from (ranged self) ≤ g) × (g < upto (ranged self)) }
        ensures { parts_of result.before ++ (ranged result.page ∷ []) ++ parts_of result.after ≡ split_at g (ranged self) }
    {
        let k = g - self.first();
        Around {
            before: self.front(g),
            page: self.new_from(self.start.offset(k), self.offset + k as u32, 1),
            after: self.back(g + 1),
        }
    }

    // Whether index i of backing b lies in the range's window.
    pub fn in_window(self, b: u32, i: u32) -> bool
        ensures { result ≡ window b i (range_of self) }
    {
        b == self.backing.number()
            && self.offset <= i
            && (i as usize) < self.offset as usize + self.length as usize
    }
}
