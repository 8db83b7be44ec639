// COPYING AND ZEROING. Each call takes any store, any pool and any arguments, and answers why it is turned down if it is.
#![tactic(auto)]

ghost use Rattle.book.specs.Copy.{copy_equal, copying, zeroing};
ghost use Rattle.book.specs.Book.{copy, shadow, zero_out, done};
ghost use Rattle.charts.specs.Charts.{RangeChains};
ghost use Rattle.lookup.specs.Charted.{Charted};
ghost use Rattle.refusals.specs.Number.{number_of};
ghost use Rattle.calls.specs.Calls.{left};
ghost use Rattle.calls.specs.With.{DidWith};
ghost use Rattle.page_steps.specs.Lent.{state};
ghost use Rattle.copies.specs.Lent.{Works};
ghost use Rattle.copies.specs.Room.{ZeroRoom, EqualRoom, CopyRoom};

use charts::Charts;
use page::PageNumber;
use page_steps::Work;
use page_writes::Copier;
use refusals::{Extent, Passage, Refusal};
use store::Store;
use whole_pages::SharedPages;

// "Zeroing leaves whole pages uncovered and clears bytes in present partial pages."
fn zero_span(work: &mut Work, extent: Extent)
    requires { ZeroRoom work.old.store.now work.old.pool.now extent.object extent.offset extent.n }
    ensures { Works work.old (zeroing extent.object extent.offset extent.n (state work.old)) work.new }
{
    let object = extent.object;
    let span = PageNumber::span_of(extent.offset, extent.n);
    work.clear_page(object, extent.offset, span.head);
    let whole = extent.offset + span.head;
    whole_pages::uncover(
        work.store,
        object,
        PageNumber::from_offset(whole),
        span.whole,
    );
    let tail = whole + span.whole * PageNumber::PAGE_SIZE;
    work.clear_page(object, tail, span.tail);
}

// Bytes of an object zeroed. By hand: the parameters are those that 01 gives the call.
pub fn zero_ranges(
    mut s: Store,
    pool: &mut [u8],
    object: u32,
    offset: usize,
    n: usize,
) -> Result<Store, Refusal>
    ensures { DidWith (zero_out object offset n) s pool.old (number_of result) done (left s result) pool.new }
{
    let extent = Extent { object, offset, n };
    let mut charts = Charts::new();
    let entry = refusals::enter(&s, &mut charts)?;
    entry.zero(pool.len(), extent)?;
    let mut work = Work {
        store: &mut s,
        pool,
    };
    zero_span(&mut work, extent);
    freeing::renew(&mut s);
    Ok(s)
}

// "A copy at equal places copies its partly touched pages as bytes and shares whole pages."
fn copy_equal(work: &mut Work, copier: &Copier)
    requires { EqualRoom work.old.store.now work.old.pool.now copier.now.between.passage.source copier.now.between.passage.from copier.now.between.passage.object copier.now.between.passage.to copier.now.between.passage.n }
    ensures { Works work.old (copy_equal copier.now.between.passage.source copier.now.between.passage.from copier.now.between.passage.object copier.now.between.passage.to copier.now.between.passage.n (state work.old)) work.new }
{
    let Passage {
        source,
        from,
        object,
        to,
        n,
    } = copier.between.passage;
    let span = PageNumber::span_of(from, n);
    copier.part(0, span.head).copy_bytes(work);
    let shared = SharedPages {
        source,
        from: PageNumber::from_offset(from + span.head),
        object,
        to: PageNumber::from_offset(to + span.head),
        n: span.whole,
    };
    whole_pages::copy_range_to_object_tree(work.store, shared);
    let done = span.head + span.whole * PageNumber::PAGE_SIZE;
    copier.part(done, span.tail).copy_bytes(work);
}

// "At unequal places all is bytes, absent source bytes being zeros."
fn copy_span(work: &mut Work, copier: &Copier)
    requires room { CopyRoom work.old.store.now work.old.pool.now copier.now.between.passage.source copier.now.between.passage.from copier.now.between.passage.object copier.now.between.passage.to copier.now.between.passage.n }
    requires charted { (Charted work.old.store.now copier.now.charts.now) × (RangeChains work.old.store.now.ranges work.old.store.now.count copier.now.charts.now.ranges) }
    ensures { Works work.old (copying copier.now.between.passage.source copier.now.between.passage.from copier.now.between.passage.object copier.now.between.passage.to copier.now.between.passage.n (state work.old)) work.new }
{
    let Passage { from, to, .. } = copier.between.passage;
    if PageNumber::place(from) == PageNumber::place(to) {
        copy_equal(work, copier);
    } else {
        copier.copy_over(work);
    }
}

// Bytes copied from object to object. By hand: the parameters are those that 01 gives the call.
pub fn copy_ranges(
    mut s: Store,
    pool: &mut [u8],
    source: u32,
    from: usize,
    object: u32,
    to: usize,
    n: usize,
) -> Result<Store, Refusal>
    ensures { DidWith (copy source from object to n) s pool.old (number_of result) done (left s result) pool.new }
{
    let passage = Passage {
        source,
        from,
        object,
        to,
        n,
    };
    let mut charts = Charts::new();
    let entry = refusals::enter(&s, &mut charts)?;
    let copier = Copier {
        between: entry.copy(pool.len(), passage)?,
        charts: entry.charts,
    };
    let mut work = Work {
        store: &mut s,
        pool,
    };
    copy_span(&mut work, &copier);
    freeing::renew(&mut s);
    Ok(s)
}

// "The shadow copy ignores the destination's place within a page": whole pages are shared, and no byte of the pool changes. By hand: the parameters are those that 01
// gives the call.
pub fn copy_range_to_shadow(
    mut s: Store,
    pool: &[u8],
    source: u32,
    from: usize,
    object: u32,
    to: usize,
    n: usize,
) -> Result<Store, Refusal>
    ensures { DidWith (shadow source from object to n) s pool.now (number_of result) done (left s result) pool.now }
{
    let passage = Passage {
        source,
        from,
        object,
        to,
        n,
    };
    let mut charts = Charts::new();
    refusals::enter(&s, &mut charts)?
        .sound
        .shadow(pool.len(), passage)?;
    let shared = SharedPages {
        source,
        from: PageNumber::from_offset(from),
        object,
        to: PageNumber::from_offset(to),
        n: n / PageNumber::PAGE_SIZE,
    };
    whole_pages::copy_range_to_object_tree(&mut s, shared);
    freeing::renew(&mut s);
    Ok(s)
}
