// STORES OF 1,024 FRAMES, FILLED BY CALLS ALONE, for the programs that measure. Names 0 to 30 are live; record 30 has no page, and name 31 is unused.
#![tactic(auto)]

ghost use Rattle.std.specs.Prelude.{◌≡◌, ◌+◌, ◌*◌, ◌≤◌, ◌<◌};

use page::PageNumber;
use refusals::Refusal;
use store::Store;

// So many pages of a record, from its page `first` on.
#[derive(Clone, Copy)]
pub struct Pages {
    pub object: u32,
    pub first: usize,
    pub count: usize,
    ghost inside: { first + count ≤ 262144 },
}

impl Pages {
    fn new(object: u32, first: usize, count: usize) -> Pages
        requires { first + count ≤ 262144 }
        ensures { (result.object ≡ object) × (result.first ≡ first) }
    {
        Pages {
            object,
            first,
            count,
        }
    }
}

// The order in which the pages of a range are added.
#[derive(Clone, Copy)]
pub enum Order {
    // in rising order. Frames are handed out from the highest down, so they fall
    Rising,
    // each sixteenth first, which covers them all; then the rest in a scattered order
    Scattered,
    // each sixteenth first, too; then the rest in falling order, so that the frames rise
    Falling,
}

impl Order {
    // The i-th place of n pages (n is no multiple of 337).
    fn place(self, i: usize, n: usize) -> usize
        requires { (i < n) × (n ≤ 262144) }
        ensures { result < n }
    {
        match self {
            Order::Rising => i,
            Order::Scattered => i * 337 % n,
            Order::Falling => n - 1 - i,
        }
    }
}

// ---- pages parted into ranges
// So many pages in all, parted into so many ranges as evenly as can be.
#[derive(Clone, Copy)]
pub struct Parts {
    pub pages: usize,
    pub ranges: usize,
    ghost few: { pages ≤ 8192 },
    ghost some: { 0 < ranges },
}

impl Parts {
    // The pages of part i.
    pub fn size(self, i: usize) -> usize
        ensures { result ≤ 8193 }
    {
        self.pages / self.ranges + usize::from(i < self.pages % self.ranges)
    }

    // Range i is in one of eight records, too far from the next to join it: 8 ranges have at most 128 pages each.
    pub fn apart(self, i: usize) -> Pages
        ensures { (result.object < 8) × (result.first ≤ 12096) }
    {
        Pages::new(object_of(i), page_of(i), self.size(i))
    }

    // Range j of record 0 alone: where there are two or more, they have at most 47 pages each, and none joins the next.
    pub fn in_record(self, j: usize) -> Pages
        requires { j ≤ 512 }
        ensures { result.first ≤ 32768 }
    {
        Pages::new(0, j * 64, self.size(j))
    }

    // Where record 0 ends, its ranges as `in_record` has them.
    pub fn end(self) -> usize
        requires { self.ranges ≤ 512 }
        ensures { result ≤ 262144 }
    {
        let last = self.in_record(self.ranges - 1);
        last.first + last.count
    }
}

fn object_of(i: usize) -> u32
    ensures { result < 8 }
{
    (i % 8) as u32
}

fn page_of(i: usize) -> usize
    ensures { result ≤ 12096 }
{
    (i / 8) % 64 * 192
}

// ---- frames and ranges in use
// At most 510 ranges are made so (a page or a copy that starts a range needs two free slots).
#[derive(Clone, Copy)]
pub struct Fill {
    pub frames: usize,
    pub ranges: usize,
    ghost frames_between: { (15 ≤ frames) × (frames ≤ 1024) },
    ghost ranges_between: { (8 ≤ ranges) × (ranges ≤ 512) },
}

impl Fill {
    pub fn new(frames: usize, ranges: usize) -> Fill
        requires { (15 ≤ frames) × (frames ≤ 1024) × (8 ≤ ranges) × (ranges ≤ 512) }
    {
        Fill { frames, ranges }
    }

    // The ranges with pages of their own: all, or if there are more ranges than frames as many as have three pages each.
    pub fn own(self) -> Parts
        ensures { (5 ≤ result.ranges) × (result.ranges ≤ 512) }
    {
        let ranges = if self.ranges <= self.frames {
            self.ranges
        } else {
            self.frames / 3
        };
        Parts {
            pages: self.frames,
            ranges,
        }
    }
}

// ---- pages that are added of a range
// Each `step`th page, and the last, so that all of them are covered.
#[derive(Clone, Copy)]
pub struct Every {
    pub step: usize,
    ghost some: { 0 < step },
}

impl Every {
    pub fn new(step: usize) -> Every
        requires { 0 < step }
        ensures { result.step ≡ step }
    {
        Every { step }
    }

    // Whether page q of n is one of them.
    fn wants(self, q: usize, n: usize) -> bool
        requires { q < n }
    {
        q + 1 == n || q % self.step == 0
    }
}

// ---- calls, one after another
// A store, and the page memory that its calls work on.
#[derive(Drop)]
struct Filling<'a> {
    store: Store,
    pool: &'a mut [u8],
}

// By hand: `object` and `page` are those that document 01 gives the calls.
impl<'a> Filling<'a> {
    fn new(store: Store, pool: &'a mut [u8]) -> Filling<'a> {
        Filling { store, pool }
    }

    // From a store of names alone.
    fn empty(pool: &'a mut [u8]) -> Result<Filling<'a>, Refusal> {
        Ok(Filling::new(empty()?, pool))
    }

    fn add(&mut self, object: u32, page: usize) -> Result<(), Refusal> {
        self.store = access::add(self.store, self.pool, object, PageNumber(page))?.store;
        Ok(())
    }

    fn copy(&mut self, from: Pages, object: u32, page: usize) -> Result<(), Refusal>
        requires { page ≤ 262144 }
    {
        let at = from.first * PageNumber::PAGE_SIZE;
        let to = page * PageNumber::PAGE_SIZE;
        let n = from.count * PageNumber::PAGE_SIZE;
        self.store = copies::copy_ranges(self.store, self.pool, from.object, at, object, to, n)?;
        Ok(())
    }

    // One byte to a page.
    fn write(&mut self, object: u32, page: usize) -> Result<(), Refusal>
        requires { page ≤ 1048576 }
    {
        let at = page * PageNumber::PAGE_SIZE;
        self.store = access::write(self.store, self.pool, object, at, &[1])?;
        Ok(())
    }

    // The wanted pages of those, in rising order: one range.
    fn run(&mut self, pages: Pages, every: Every) -> Result<(), Refusal> {
        for q in 0..pages.count {
            if every.wants(q, pages.count) {
                self.add(pages.object, pages.first + q)?;
            }
        }
        Ok(())
    }

    // The pages of a covered range that are not there yet.
    fn rest(&mut self, pages: Pages, order: Order) -> Result<(), Refusal> {
        for i in 0..pages.count {
            let q = order.place(i, pages.count);
            if !Every::new(16).wants(q, pages.count) {
                self.add(pages.object, pages.first + q)?;
            }
        }
        Ok(())
    }

    // One range, all of its pages present.
    fn range(&mut self, pages: Pages, order: Order) -> Result<(), Refusal> {
        match order {
            Order::Rising => self.run(pages, Every::new(1)),
            Order::Scattered | Order::Falling => {
                self.run(pages, Every::new(16))?;
                self.rest(pages, order)
            }
        }
    }

    fn ranges(&mut self, own: Parts, order: Order) -> Result<(), Refusal> {
        for i in 0..own.ranges {
            self.range(own.apart(i), order)?;
        }
        Ok(())
    }

    // Ranges beside those with pages of their own: copies of all of those but the first, in turn.
    fn copied_ranges(&mut self, own: Parts, more: usize) -> Result<(), Refusal>
        requires { 1 < own.ranges }
    {
        for k in 0..more {
            let i = 1 + k % (own.ranges - 1);
            self.copy(own.apart(i), 8 + object_of(k), page_of(k))?;
        }
        Ok(())
    }

    // More pages behind range 0: no range more.
    fn longer(&mut self, own: Parts, more: usize) -> Result<(), Refusal>
        requires { more ≤ 1024 }
    {
        self.run(Pages::new(0, own.size(0), more), Every::new(1))
    }

    // Four more ranges and one more frame: range 1, of three pages or more, copied twice to record 17, and page 1 of the copy cut out by a write.
    fn crowded(&mut self, own: Parts) -> Result<(), Refusal> {
        let range = Pages::new(1, 0, own.size(1));
        self.copy(range, 17, 0)?;
        self.copy(range, 17, 192)?;
        self.write(17, 1)
    }

    // One byte written to each `step`th page of record 1, from page 1 on: each is cut out as a range of its own.
    fn cut_up(&mut self, cuts: usize, step: usize) -> Result<(), Refusal>
        requires { (cuts ≤ 512) × (step ≤ 1024) }
    {
        for k in 0..cuts {
            self.write(1, 1 + k * step)?;
        }
        Ok(())
    }
}

// ---- stores that are made so
// By hand: each of these begins with a `Filling` and ends with its store. Over a closure that is lent it, the loops would stand in closures, which is no plainer.

// Names 0 to 30.
pub fn empty() -> Result<Store, Refusal> {
    let mut s = calls::create(1024)?;
    for object in 0..31 {
        s = calls::new_object(s, object)?;
    }
    Ok(s)
}

// So many frames and ranges in use; the pages of each range added in the order named.
pub fn filled(pool: &mut [u8], fill: Fill, order: Order) -> Result<Store, Refusal> {
    let mut f = Filling::empty(pool)?;
    let own = fill.own();
    f.ranges(own, order)?;
    f.copied_ranges(own, fill.ranges.saturating_sub(own.ranges))?;
    Ok(f.store)
}

// Such a store filled up: six frames and four ranges more, where there are none to spare.
pub fn full(s: Store, pool: &mut [u8], fill: Fill) -> Result<Store, Refusal> {
    let mut f = Filling::new(s, pool);
    let own = fill.own();
    let crowded = 508 <= fill.ranges;
    if 1018 <= fill.frames {
        f.longer(own, 6 - usize::from(crowded))?;
    }
    if crowded {
        f.crowded(own)?;
    }
    Ok(f.store)
}

// ---- one backing held by many ranges
// Record 0 has one range, its pages added in the order named; record 1 is a copy of it, cut up evenly: 2 × cuts + 2 ranges, of which cuts + 2 hold one backing.
pub fn shared_by_many(
    pool: &mut [u8],
    frames: usize,
    cuts: usize,
    order: Order,
) -> Result<Store, Refusal>
    requires { (frames ≤ 1024) × (0 < cuts) × (cuts ≤ 255) × (cuts < frames) }
{
    let mut f = Filling::empty(pool)?;
    let n = frames - cuts;
    let whole = Pages::new(0, 0, n);
    f.range(whole, order)?;
    f.copy(whole, 1, 0)?;
    f.cut_up(cuts, n / cuts)?;
    Ok(f.store)
}

// The k-th of some pages of a record in a scattered order.
fn scattered(k: usize) -> usize
    requires { k ≤ 512 }
    ensures { result < 1021 }
{
    k * 337 % 1021
}

// Record 0 has one range of 2 × pieces pages; each second one is copied to a page of record 1, in a scattered order: so many ranges hold one backing, and neither pages nor
// slots tell where an index of it is.
pub fn scattered_pieces(pool: &mut [u8], pieces: usize) -> Result<Store, Refusal>
    requires { pieces ≤ 512 }
{
    let mut f = Filling::empty(pool)?;
    f.run(Pages::new(0, 0, 2 * pieces), Every::new(1))?;
    for k in 0..pieces {
        f.copy(Pages::new(0, 2 * k, 1), 1, scattered(k))?;
    }
    Ok(f.store)
}

// A record 0 of one range, as `record` makes it with each sixteenth of 8,192 pages present; its last 1,792 pages are copied to record 2, and so many single ones of the first
// to record 1, in a scattered order: a long window beside short ones of one backing.
pub fn long_and_short(pool: &mut [u8], pieces: usize) -> Result<Store, Refusal>
    requires { pieces ≤ 400 }
{
    let mut f = Filling::empty(pool)?;
    f.run(Pages::new(0, 0, 8192), Every::new(16))?;
    f.copy(Pages::new(0, 6400, 1792), 2, 0)?;
    for k in 0..pieces {
        f.copy(Pages::new(0, 16 * k, 1), 1, scattered(k))?;
    }
    Ok(f.store)
}

// Record 0 has one range of 1,024 pages, its frames in a scattered order; so many parts of it, 512 pages each, are copied to records 1 and 2, from pages in a scattered order:
// windows of one backing that overlap.
pub fn overlapping(pool: &mut [u8], pieces: usize) -> Result<Store, Refusal>
    requires { pieces ≤ 500 }
{
    let mut f = Filling::empty(pool)?;
    f.range(Pages::new(0, 0, 1024), Order::Scattered)?;
    for k in 0..pieces {
        let from = Pages::new(0, k * 337 % 509, 512);
        f.copy(from, 1 + (k / 250) as u32, k % 250 * 600)?;
    }
    Ok(f.store)
}

// ---- records
// Record 0: ranges that cover all those pages, of which each `every`th of a range and the last are present.
pub fn record(pool: &mut [u8], parts: Parts, every: Every) -> Result<Store, Refusal>
    requires { parts.ranges ≤ 512 }
{
    let mut f = Filling::empty(pool)?;
    for j in 0..parts.ranges {
        f.run(parts.in_record(j), every)?;
    }
    Ok(f.store)
}

// A record in ranges that adjoin, from the last range to the first: no range stands before a page that is added.
pub fn adjoining(s: Store, pool: &mut [u8], object: u32, parts: Parts) -> Result<Store, Refusal> {
    let mut f = Filling::new(s, pool);
    let mut at = parts.pages;
    for i in (0..parts.ranges).rev() {
        let n = parts.size(i).min(at);
        at -= n;
        f.run(Pages::new(object, at, n), Every::new(1))?;
    }
    Ok(f.store)
}
