// WHAT A CALL NEEDS: frames and slots of the table, counted on a sound store, against those that are free.

ghost use Rattle.std.specs.Prelude.{◌≡◌, List, ℕ, ◌+◌, ◌*◌, ◌≤◌, length};
ghost use Rattle.ranges.specs.Table.{parts};
ghost use Rattle.book.specs.Need.{State as NeedState, state_of, wanted, counted, partly, counted_parts, needing, need_write, need_whole, need_copy, need_zero};
ghost use Rattle.book.specs.Book.{entry, lacking, lowest};
ghost use Rattle.frames.specs.Free.{Counted};
ghost use Rattle.table.specs.Table.{ranges_of, Small, Table};
ghost use Rattle.store.specs.Abs.{used, book_of};
ghost use Rattle.store.specs.Sound.{Sized};
ghost use Rattle.refusals.specs.Number.{number_of};
ghost use Rattle.refusals.specs.Needs.{Counts, Upto};
ghost use Rattle.refusals.specs.Spans.{overlaps, span_is};

use crate::{Between, Entry, Extent, Passage, Refusal, SoundStore, Within};
use look::State;
use lookup::{States, lengths};
use page::{PageNumber, Span};
use store::Store;
use table::{PageRange, line_of};

// How many bits of the map of free frames are set.
fn free_count(words: &[u64]) -> u32
    requires { length words.now ≤ 16 }
    ensures { length words.now ≡ 16 → Counted words.now result }
{
    words.iter().map(|word| word.count_ones()).sum()
}

impl SoundStore<'_> {
    // How many frames are free at entry.
    fn free_frames(&self) -> usize
        ensures frames { ((x : List ℕ) → result ≡ length (entry (book_of self.now.store.now x)).spare) × (result ≤ self.now.store.now.frames) }
        ensures sized { Sized self.now.store.now }
    {
        lengths(self.store);
        free_count(&self.store.free) as usize
    }

    // 8 or 9 of a call that needs so many frames and two slots for each, and other slots besides.
    pub(super) fn lacking(&self, frames: usize, slots: usize) -> Result<(), Refusal>
        requires { slots ≤ 1024 }
        ensures { (x : List ℕ) → number_of result ≡ lowest (lacking (entry (book_of self.now.store.now x)) (needing frames slots)) }
    {
        if self.free_frames() < frames {
            return Err(Refusal::NoFrame);
        }
        if 512 < self.store.count + 2 * frames + slots {
            return Err(Refusal::NoSlot);
        }
        Ok(())
    }
}

// How many of the n pages from `page` on are absent or shared. Counting stops above the limit: the answer is known then.
fn wanted(states: &States, object: u32, page: PageNumber, n: usize, limit: usize) -> usize
    requires { page.0 + n ≤ 262144 }
    ensures { (x : List ℕ) → Upto limit (wanted n object page.0 (entry (book_of states.now.pages.store.now x))) result }
{
    let mut slot = 0;
    let mut count = 0;
    for i in 0..n {
        if limit < count {
            return count;
        }
        let near = states.near(line_of(object, page.offset(i)), slot);
        count += usize::from(near.found != State::Private);
        slot = near.slot;
    }
    count
}

// "For a write .., each touched destination page counts that is absent or shared at entry", looked at in at most frames + 1 pages.
fn counted(states: &States, within: Within, limit: usize) -> usize
    ensures { (x : List ℕ) → Upto limit (counted within.extent.object within.extent.offset within.extent.n (entry (book_of states.now.pages.store.now x))) result }
{
    let page = PageNumber::from_offset(within.extent.offset);
    let n = within.touched().min(states.pages.store.frames + 1);
    wanted(states, within.extent.object, page, n, limit)
}

// "each partly touched page counts: always if there are whole pages too, else if .." a test of its state says so: n bytes of it
fn partly<F: Fn(State) -> bool>(
    states: &States,
    span: Span,
    object: u32,
    page: PageNumber,
    n: usize,
    counts: F,
) -> usize
    requires page { page.0 ≤ 262144 }
    requires callable { F.IsAlwaysCallable counts }
    ensures told { (each : NeedState → ℕ) → Counts (F.post counts) each → (x : List ℕ) → result ≡ partly (span_is span) (λ q. each (state_of object q (entry (book_of states.now.pages.store.now x)))) page.0 n }
    ensures one { result ≤ 1 }
{
    if n == 0 {
        return 0;
    }
    if 0 < span.whole {
        return 1;
    }
    usize::from(counts(states.of(line_of(object, page))))
}

// The partly touched pages that count, by a test of the state.
fn counted_parts<F: Fn(State) -> bool>(states: &States, within: Within, counts: F) -> usize
    requires { F.IsAlwaysCallable counts }
    ensures told { (each : NeedState → ℕ) → Counts (F.post counts) each → (x : List ℕ) → result ≡ counted_parts (λ q. each (state_of within.extent.object q (entry (book_of states.now.pages.store.now x)))) 4096 within.extent.offset within.extent.n }
    ensures few { result ≤ 2 }
{
    let Extent { object, offset, n } = within.extent;
    let span = PageNumber::span_of(offset, n);
    let first = PageNumber::from_offset(offset);
    let last = PageNumber::from_offset(offset + span.head + span.whole * PageNumber::PAGE_SIZE);
    partly(states, span, object, first, span.head, &counts)
        + partly(states, span, object, last, span.tail, &counts)
}

// Whether a range has pages from a up to e of the line.
pub fn meets(r: &PageRange, a: usize, e: usize) -> bool
    requires { Small r.now }
    ensures { result ≡ overlaps a e r.now }
{
    a.max(r.first()) < e.min(r.end())
}

// How many ranges have pages from a up to e of the line.
fn met(s: &Store, a: usize, e: usize) -> usize
    requires { Table s.now.ranges s.now.count }
    ensures { (result ≡ length (parts a e (ranges_of (used s.now)))) × (result ≤ 512) }
{
    s.used().iter().filter(|r| meets(r, a, e)).count()
}

// How many source ranges the whole pages meet: "Whole pages need two slots for each source range they meet".
pub fn met_whole(s: &Store, within: Within) -> usize
    requires { Table s.now.ranges s.now.count }
    ensures { ((x : List ℕ) → 2 * result ≡ need_whole within.extent.object within.extent.offset within.extent.n (entry (book_of s.now x))) × (result ≤ 512) }
{
    let Extent { object, offset, n } = within.extent;
    let span = PageNumber::span_of(offset, n);
    let a = line_of(object, PageNumber::from_offset(offset + span.head));
    met(s, a, a + span.whole)
}

impl Entry<'_, '_> {
    // 8 or 9 of a write, or of a copy at unequal places.
    pub(super) fn lacking_bytes(&self, within: Within) -> Result<(), Refusal>
        ensures { (x : List ℕ) → number_of result ≡ lowest (lacking (entry (book_of self.now.sound.store.now x)) (need_write within.extent.object within.extent.offset within.extent.n (entry (book_of self.now.sound.store.now x)))) }
    {
        let spare = self.sound.free_frames();
        self.sound
            .lacking(counted(&self.states(), within, spare), 0)
    }

    // 8 or 9 of a copy: a page counts "if absent or shared".
    pub(super) fn lacking_copy(&self, between: Between) -> Result<(), Refusal>
        ensures { (x : List ℕ) → number_of result ≡ lowest (lacking (entry (book_of self.now.sound.store.now x)) (need_copy between.passage.source between.passage.from between.passage.object between.passage.to between.passage.n (entry (book_of self.now.sound.store.now x)))) }
    {
        let Passage { from, to, .. } = between.passage;
        if PageNumber::place(from) != PageNumber::place(to) {
            return self.lacking_bytes(between.target());
        }
        let frames = counted_parts(
            &self.states(),
            between.target(),
            |state| state != State::Private,
        );
        let slots = 2 * met_whole(self.sound.store, between.origin());
        self.sound.lacking(frames, slots)
    }

    // 8 or 9 of zeroing: a page counts if "present and shared", and "zeroing whole pages needs one" slot besides.
    pub(super) fn lacking_zero(&self, within: Within) -> Result<(), Refusal>
        ensures { (x : List ℕ) → number_of result ≡ lowest (lacking (entry (book_of self.now.sound.store.now x)) (need_zero within.extent.object within.extent.offset within.extent.n (entry (book_of self.now.sound.store.now x)))) }
    {
        let frames = counted_parts(&self.states(), within, |state| state == State::Shared);
        let span = PageNumber::span_of(within.extent.offset, within.extent.n);
        self.sound.lacking(frames, span.whole.min(1))
    }
}
