// THE OUTPUT, gathered: the lines that tell what a store holds.
use arrayvec::ArrayVec;
use places::Place;
use range_tests::is_live;
use std::fmt::{self, Display, Formatter, Write};
use store::Store;
use table::PageRange;

// A hash of bytes below 2^48, 0 for zeros: each byte counts with an odd factor. No step reaches 2^64.
fn hash(bytes: &[u8]) -> u64 {
    bytes.iter().fold(0u64, |hash, b| {
        hash.wrapping_add(u64::from(*b)).wrapping_mul(65521) % (1 << 48)
    })
}

// The page of a range that a frame at this place shows, if it shows one.
fn page_shown(r: PageRange, p: Place) -> Option<usize> {
    if p.is_free() || !r.in_window(p.backing, p.index) {
        return None;
    }
    r.start.0.checked_add((p.index - r.offset) as usize)
}

// How much may be gathered, and how much of it is written behind a range or a line's answer.
const GATHERED: usize = 65536;

const MUCH: usize = 16384;

#[derive(Drop)]
pub struct Output {
    gathered: ArrayVec<u8, GATHERED>,
}

impl Write for Output {
    fn write_str(&mut self, text: &str) -> fmt::Result {
        self.put(text.as_bytes())
    }
}

impl Output {
    pub fn new() -> Output {
        Output {
            gathered: ArrayVec::new(),
        }
    }

    // What is gathered is written. Where it can't be, the lines are answered all the same: there is nobody to tell.
    pub fn flush(&mut self) {
        io::write_all(1, &self.gathered);
        self.gathered.clear();
    }

    // The same, once there is much of it.
    pub fn flush_much(&mut self) {
        if MUCH < self.gathered.len() {
            self.flush();
        }
    }

    pub fn put(&mut self, bytes: &[u8]) -> fmt::Result {
        if self.gathered.remaining_capacity() < bytes.len() {
            self.flush();
        }
        self.gathered
            .try_extend_from_slice(bytes)
            .map_err(|_| fmt::Error)
    }
}

// What a store holds, with the page memory that its frames lie in.
#[derive(Clone, Copy)]
pub struct Holdings<'a> {
    pub store: &'a Store,
    pub pool: &'a [u8],
}

impl Holdings<'_> {
    // An object and its ranges. Once there is much of them, they are written behind a range.
    fn tell_object(&self, out: &mut Output, object: u32) -> fmt::Result {
        let s = self.store;
        writeln!(out, "o {object:02x}")?;
        for r in s.ranges.iter().take(s.count).filter(|r| r.object == object) {
            let held = Held {
                holdings: *self,
                range: *r,
            };
            write!(out, "{held}")?;
            out.flush_much();
        }
        Ok(())
    }

    // The live objects, and a full stop.
    pub fn tell(&self, out: &mut Output) -> fmt::Result {
        for object in 0..32 {
            if is_live(self.store.live, object) {
                self.tell_object(out, object)?;
            }
        }
        out.write_str(".\n")
    }
}

// A range that a store holds.
#[derive(Clone, Copy)]
struct Held<'a> {
    holdings: Holdings<'a>,
    range: PageRange,
}

impl Held<'_> {
    fn fmt_range<W: Write>(&self, f: &mut Formatter<W>) -> fmt::Result {
        let s = self.holdings.store;
        let r = self.range;
        let number = r.backing.number();
        let holds = |q: &PageRange| q.backing.number() == number;
        let mut ranges = s.ranges.iter().take(s.count);
        let first = ranges.position(holds).unwrap_or(s.count);
        let is_shared = ranges.any(holds);
        let letter = if is_shared { 's' } else { 'p' };
        let (start, length, offset) = (r.start.0, r.length, r.offset);
        writeln!(
            f,
            "r {start:05x} {length:05x} {offset:05x} {first:03x} {letter}"
        )
    }
}

// The range and its present pages.
impl Display for Held<'_> {
    fn fmt<W: Write>(&self, f: &mut Formatter<W>) -> fmt::Result {
        self.fmt_range(f)?;
        let Holdings { store, pool } = self.holdings;
        for (frame, p) in store.places.iter().enumerate().take(store.frames) {
            if let Some(page) = page_shown(self.range, *p) {
                let hash = hash(pool::show_ref(pool, Some(frame)));
                writeln!(f, "p {page:05x} {frame:03x} {hash:012x}")?;
            }
        }
        Ok(())
    }
}
