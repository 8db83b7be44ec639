// WHY A CALL IS TURNED DOWN: for each call of a sound store its row of the table, or none.
#![tactic(auto)]

ghost use Rattle.std.specs.Prelude.{◌≡◌, List, [], ◌∷◌, ℕ, ◌+◌, ◌≤◌, leb, length, replicate, true, IfOk, Some};
ghost use Rattle.book.specs.Book.{new_object, drop_object, add, look_up, show, read, write, copy, shadow, zero_out, lowest, past_end};
ghost use Rattle.book.specs.Page.{touched};
ghost use Rattle.store.specs.Sound.{sound?, Sized};
ghost use Rattle.charts.specs.Charts.{EmptyCharts, FrameChains, RangeChains};
ghost use Rattle.refusals.specs.Enter.{Tried};
ghost use Rattle.refusals.specs.Refuse.{no_name, opening, pairing, refusal};
ghost use Rattle.refusals.specs.Number.{number, number_of, word};

mod needs;

use charts::Charts;
use lookup::{Pages, States, lengths};
use needs::met_whole;
use page::PageNumber;
use range_tests::is_live;
use std::error::Error;
use std::fmt;
use store::Store;

// "Why a call was turned down", in the order of the table.
#[derive(Clone, Copy, Debug, PartialEq, Eq)]
pub enum Refusal {
    // "the store isn't sound"
    Spoiled = 1,
    // "a lent pool's length differs from frames × 4,096"
    Pool = 2,
    // "a name above 31; except at creation of an object, one not live"
    NoObject = 3,
    // "a new object's name is live"
    Taken = 4,
    // "source and destination are one object"
    Same = 5,
    // "offset + length above 1,073,741,824, or a page above 262,143"
    PastEnd = 6,
    // "shadow copy: source offset or length no multiple of 4,096"
    NotWhole = 7,
    // "fewer free frames than needed"
    NoFrame = 8,
    // "fewer free range slots than needed"
    NoSlot = 9,
}

impl Refusal {
    // Its word of the table. By hand: each has a word of its own, which no derive knows.
    pub fn word(self) -> &'static str
        ensures { result.now ≡ word self }
    {
        match self {
            Refusal::Spoiled => "spoiled",
            Refusal::Pool => "pool",
            Refusal::NoObject => "no object",
            Refusal::Taken => "taken",
            Refusal::Same => "same",
            Refusal::PastEnd => "past end",
            Refusal::NotWhole => "not whole",
            Refusal::NoFrame => "no frame",
            Refusal::NoSlot => "no slot",
        }
    }
}

// Its number of the table.
impl From<Refusal> for u8 {
    ghost from_gives = { λ refusal n. n ≡ number refusal };

    // By hand: no derive gives the number of a variant.
    fn from(refusal: Refusal) -> u8 {
        refusal as u8
    }
}

impl fmt::Display for Refusal {
    ghost output = { λ refusal. Some (word refusal) };

    fn fmt<W: fmt::Write>(&self, f: &mut fmt::Formatter<W>) -> fmt::Result {
        f.write_str(self.word())
    }
}

impl Error for Refusal {}

// n bytes of an object, from an offset on.
#[derive(Clone, Copy)]
pub struct Extent {
    pub object: u32,
    pub offset: usize,
    pub n: usize,
}

impl Extent {
    // 6: "offset + length above 1,073,741,824", where the sum may be above the largest number too.
    pub fn past_end(self) -> bool
        ensures { result ≡ past_end self.offset self.n }
    {
        PageNumber::OBJECT_SIZE < self.offset || PageNumber::OBJECT_SIZE - self.offset < self.n
    }

    // The same as a refusal; else they are known to end in their object.
    fn in_object(self) -> Result<Within, Refusal>
        ensures number { number_of result ≡ lowest ((past_end self.offset self.n, 6) ∷ []) }
        ensures same { IfOk result (λ within. within.extent ≡ self) }
    {
        if self.past_end() {
            return Err(Refusal::PastEnd);
        }
        Ok(Within { extent: self })
    }
}

// An extent that ends in its object: offset + length is at most 1,073,741,824.
#[derive(Clone, Copy)]
pub struct Within {
    pub extent: Extent,
    pub ghost ends: { extent.offset + extent.n ≤ 1073741824 },
}

impl Within {
    // How many pages its bytes touch.
    pub fn touched(self) -> usize
        ensures { result ≡ touched 4096 self.extent.offset self.extent.n }
    {
        let Extent { offset, n, .. } = self.extent;
        if n == 0 {
            return 0;
        }
        (PageNumber::place(offset) + n).div_ceil(PageNumber::PAGE_SIZE)
    }
}

// A copy: n bytes of the object `source`, from the offset `from` on, and where they go, to `object` from the offset `to` on.
#[derive(Clone, Copy)]
pub struct Passage {
    pub source: u32,
    pub from: usize,
    pub object: u32,
    pub to: usize,
    pub n: usize,
}

impl Passage {
    // The bytes that are read.
    pub fn origin(self) -> Extent
        ensures { result ≡ record { object = self.source; offset = self.from; n = self.n } }
    {
        Extent {
            object: self.source,
            offset: self.from,
            n: self.n,
        }
    }

    // The bytes that are written.
    pub fn target(self) -> Extent
        ensures { result ≡ record { object = self.object; offset = self.to; n = self.n } }
    {
        Extent {
            object: self.object,
            offset: self.to,
            n: self.n,
        }
    }
}

// A passage from one object to another, where both spans end in their objects.
#[derive(Clone, Copy)]
pub struct Between {
    pub passage: Passage,
    pub ghost apart: { passage.source ≡ passage.object → ⊥ },
    pub ghost begins: { passage.from + passage.n ≤ 1073741824 },
    pub ghost ends: { passage.to + passage.n ≤ 1073741824 },
}

impl Between {
    // The bytes that are read, which end in their object.
    fn origin(self) -> Within
        ensures { result.extent ≡ record { object = self.passage.source; offset = self.passage.from; n = self.passage.n } }
    {
        Within {
            extent: self.passage.origin(),
        }
    }

    // The bytes that are written, which end in theirs.
    fn target(self) -> Within
        ensures { result.extent ≡ record { object = self.passage.object; offset = self.passage.to; n = self.passage.n } }
    {
        Within {
            extent: self.passage.target(),
        }
    }
}

// A sound store.
#[derive(Clone, Copy)]
pub struct SoundStore<'s> {
    pub store: &'s Store,
    pub ghost sound: { sound? store.now ≡ true },
}

// The same with its charts, as the way into a call gives it: its ranges and frames are chained, for what the call does then.
#[derive(Clone, Copy)]
pub struct Entry<'s, 'c> {
    pub sound: SoundStore<'s>,
    pub charts: &'c Charts,
    pub ghost framed: { FrameChains sound.store.now.places sound.store.now.frames charts.now.frames },
    pub ghost held: { RangeChains sound.store.now.ranges sound.store.now.count charts.now.ranges },
}

// THE WAY INTO A CALL. 1: "the store isn't sound". The ranges and frames of a sound store are chained.
pub fn enter<'s, 'c>(s: &'s Store, charts: &'c mut Charts) -> Result<Entry<'s, 'c>, Refusal>
    requires { EmptyCharts charts.old }
    ensures tried { Tried s.now result (λ entry. entry.charts.now) }
    ensures same { IfOk result (λ entry. entry.sound.store.now ≡ s.now) }
{
    lengths(s);
    if soundness::examine(s, charts) {
        let sound = SoundStore { store: s };
        return Ok(Entry { sound, charts });
    }
    Err(Refusal::Spoiled)
}

// 3: "a name above 31; except at creation of an object, one not live"
fn named(s: &Store, object: u32) -> Result<(), Refusal>
    ensures { number_of result ≡ lowest ((no_name s.now object, 3) ∷ []) }
{
    if 31 < object || !is_live(s.live, object) {
        return Err(Refusal::NoObject);
    }
    Ok(())
}

// 6: "a page above 262,143"
fn in_object(page: PageNumber) -> Result<(), Refusal>
    ensures { number_of result ≡ lowest ((leb 262144 page.0, 6) ∷ []) }
{
    if PageNumber::COUNT <= page.0 {
        return Err(Refusal::PastEnd);
    }
    Ok(())
}

// By hand: `pool`, `object`, `page`, `extent` and `passage` of its methods are the parameters that 01 gives each call; of its pool the length.
impl SoundStore<'_> {
    // 2 or 3 of a call that lends a pool and names an object.
    fn opening(&self, pool: usize, object: u32) -> Result<(), Refusal>
        ensures number { number_of result ≡ lowest (opening self.now.store.now pool object) }
        ensures sized { Sized self.now.store.now }
    {
        lengths(self.store);
        if pool != self.store.frames * PageNumber::PAGE_SIZE {
            return Err(Refusal::Pool);
        }
        named(self.store, object)
    }

    // 2, 3, 5 or 6 of a call that lends a pool and names the bytes of a source and of a destination.
    fn pairing(&self, pool: usize, passage: Passage) -> Result<Between, Refusal>
        ensures number { number_of result ≡ lowest (pairing self.now.store.now pool passage.source passage.from passage.object passage.to passage.n) }
        ensures same { IfOk result (λ between. between.passage ≡ passage) }
        ensures sized { Sized self.now.store.now }
    {
        self.opening(pool, passage.source)?;
        named(self.store, passage.object)?;
        if passage.source == passage.object {
            return Err(Refusal::Same);
        }
        passage.origin().in_object()?;
        passage.target().in_object()?;
        Ok(Between { passage })
    }

    // 3 or 4 of a new object.
    pub fn new_object(&self, object: u32) -> Result<(), Refusal>
        ensures { (x : List ℕ) → number_of result ≡ refusal self.now.store.now x (new_object object) }
    {
        if 31 < object {
            return Err(Refusal::NoObject);
        }
        if is_live(self.store.live, object) {
            return Err(Refusal::Taken);
        }
        Ok(())
    }

    // 3 of an object that is dropped.
    pub fn drop_object(&self, object: u32) -> Result<(), Refusal>
        ensures { (x : List ℕ) → number_of result ≡ refusal self.now.store.now x (drop_object object) }
    {
        named(self.store, object)
    }

    // 3 or 6 of a page that is looked up.
    pub fn look_up(&self, object: u32, page: PageNumber) -> Result<(), Refusal>
        ensures { (x : List ℕ) → number_of result ≡ refusal self.now.store.now x (look_up object page.0) }
    {
        named(self.store, object)?;
        in_object(page)
    }

    // 2, 3 or 6 of a page that is shown.
    pub fn show(&self, pool: usize, object: u32, page: PageNumber) -> Result<(), Refusal>
        ensures { (x : List ℕ) → length x ≡ pool → number_of result ≡ refusal self.now.store.now x (show object page.0) }
    {
        self.opening(pool, object)?;
        in_object(page)
    }

    // 2, 3, 6, 8 or 9 of a page that is added.
    pub fn add(&self, pool: usize, object: u32, page: PageNumber) -> Result<(), Refusal>
        ensures { (x : List ℕ) → length x ≡ pool → number_of result ≡ refusal self.now.store.now x (add object page.0) }
    {
        self.opening(pool, object)?;
        in_object(page)?;
        self.lacking(1, 0)
    }

    // 2, 3 or 6 of bytes that are read.
    pub fn read(&self, pool: usize, extent: Extent) -> Result<(), Refusal>
        ensures { (x : List ℕ) → length x ≡ pool → number_of result ≡ refusal self.now.store.now x (read extent.object extent.offset extent.n) }
    {
        self.opening(pool, extent.object)?;
        extent.in_object()?;
        Ok(())
    }

    // 2, 3, 5, 6, 7, 8 or 9 of a shadow copy.
    pub fn shadow(&self, pool: usize, passage: Passage) -> Result<Between, Refusal>
        ensures same { IfOk result (λ between. between.passage ≡ passage) }
        ensures number { (x : List ℕ) → length x ≡ pool → number_of result ≡ refusal self.now.store.now x (shadow passage.source passage.from passage.object passage.to passage.n) }
    {
        let between = self.pairing(pool, passage)?;
        if PageNumber::place(passage.from) != 0 || PageNumber::place(passage.n) != 0 {
            return Err(Refusal::NotWhole);
        }
        self.lacking(0, 2 * met_whole(self.store, between.origin()))?;
        Ok(between)
    }
}

// By hand: `pool`, `extent` and `passage`, likewise, are parameters of the calls.
impl Entry<'_, '_> {
    // The pages of the store.
    pub fn pages(&self) -> Pages<'_>
        ensures store { result.store.now ≡ self.now.sound.store.now }
        ensures charts { result.charts.now ≡ self.now.charts.now }
    {
        lengths(self.sound.store);
        Pages {
            store: self.sound.store,
            charts: self.charts,
        }
    }

    // The same with their states.
    pub fn states(&self) -> States<'_>
        ensures store { result.pages.store.now ≡ self.now.sound.store.now }
        ensures charts { result.pages.charts.now ≡ self.now.charts.now }
    {
        States {
            pages: self.pages(),
        }
    }

    // 2, 3, 6, 8 or 9 of bytes that are written.
    pub fn write(&self, pool: usize, extent: Extent) -> Result<(), Refusal>
        ensures { (x d : List ℕ) → length x ≡ pool → length d ≡ extent.n → number_of result ≡ refusal self.now.sound.store.now x (write extent.object extent.offset d) }
    {
        self.sound.opening(pool, extent.object)?;
        self.lacking_bytes(extent.in_object()?)
    }

    // 2, 3, 5, 6, 8 or 9 of a copy.
    pub fn copy(&self, pool: usize, passage: Passage) -> Result<Between, Refusal>
        ensures same { IfOk result (λ between. between.passage ≡ passage) }
        ensures number { (x : List ℕ) → length x ≡ pool → number_of result ≡ refusal self.now.sound.store.now x (copy passage.source passage.from passage.object passage.to passage.n) }
    {
        let between = self.sound.pairing(pool, passage)?;
        self.lacking_copy(between)?;
        Ok(between)
    }

    // 2, 3, 6, 8 or 9 of bytes that are cleared.
    pub fn zero(&self, pool: usize, extent: Extent) -> Result<Within, Refusal>
        ensures same { IfOk result (λ within. within.extent ≡ extent) }
        ensures number { (x : List ℕ) → length x ≡ pool → number_of result ≡ refusal self.now.sound.store.now x (zero_out extent.object extent.offset extent.n) }
    {
        self.sound.opening(pool, extent.object)?;
        let within = extent.in_object()?;
        self.lacking_zero(within)?;
        Ok(within)
    }
}
