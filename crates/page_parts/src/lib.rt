// THE PARTS OF A SPAN OF BYTES that lie in one page each: "Calls work in page order".
#![tactic(auto)]

ghost use Rattle.std.specs.Prelude.{◌≡◌, ◌+◌, ◌-◌, ◌≤◌, ◌<◌};
ghost use Rattle.std.specs.Iterator.{at_most};

use page::PageNumber;

// Bytes of a span that lie in one page, from a place on: how many bytes of the span come before them, and how many they are.
#[derive(Clone, Copy)]
pub struct Part {
    pub page: PageNumber,
    pub place: usize,
    pub done: usize,
    pub n: usize,
    pub ghost in_page: { (page.0 < 262144) × (place < 4096) × (place + n ≤ 4096) },
}

// The parts of the n bytes from an offset on, in page order, but for those of the first `done` bytes.
#[derive(Clone, Copy)]
pub struct Parts {
    offset: usize,
    n: usize,
    done: usize,
    ghost inside: { (offset + n ≤ 1073741824) × (done ≤ n) },
}

impl Parts {
    pub fn new(offset: usize, n: usize) -> Parts
        requires { offset + n ≤ 1073741824 }
        ensures { (result.offset ≡ offset) × (result.n ≡ n) × (result.done ≡ 0) }
    {
        Parts { offset, n, done: 0 }
    }
}

impl Iterator for Parts {
    type Item = Part;

    ghost use Rattle.page_parts.specs.Parts.{NextPart};

    ghost next_gives = { NextPart };

    ghost remaining = { λ s. at_most (s.n - s.done) };

    fn next(&mut self) -> Option<Part> {
        if self.n <= self.done {
            return None;
        }
        let at = self.offset + self.done;
        let part = Part {
            page: PageNumber::from_offset(at),
            place: PageNumber::place(at),
            done: self.done,
            n: PageNumber::in_page(at, self.n - self.done),
        };
        self.done += part.n;
        Some(part)
    }
}
