// THE CALLS THAT LEND A POOL AND WORK ON BYTES OF PAGES. Each takes any store, any pool and any arguments, and answers why it is turned down if it is.
#![tactic(auto)]

ghost use Rattle.std.specs.Prelude.{◌≡◌, length, OnErr};
ghost use Rattle.book.specs.Book.{add, read, write, added, bytes, done};
ghost use Rattle.refusals.specs.Number.{number_of};
ghost use Rattle.calls.specs.Calls.{left};
ghost use Rattle.calls.specs.With.{DidWith};
ghost use Rattle.access.specs.Added.{frame_in, store_in};

use charts::Charts;
use page::PageNumber;
use page_steps::{PageAddress, Work};
use refusals::{Extent, Refusal};
use store::Store;

// The store left, and the frame of an added page.
#[derive(Clone, Copy)]
pub struct Added {
    pub store: Store,
    pub frame: usize,
}

pub fn add(mut s: Store, pool: &mut [u8], object: u32, page: PageNumber) -> Result<Added, Refusal>
    ensures { DidWith (add object page.0) s pool.old (number_of result) (added (frame_in result)) (store_in s result) pool.new }
{
    let mut charts = Charts::new();
    refusals::enter(&s, &mut charts)?
        .sound
        .add(pool.len(), object, page)?;
    let mut work = Work {
        store: &mut s,
        pool,
    };
    let frame = work.add_page(PageAddress { object, page });
    freeing::renew(&mut s);
    Ok(Added { store: s, frame })
}

// "The length of a read or write is that of its lent buffer." A refused read leaves the buffer as it is. By hand: the parameters are those that 01 gives the call.
pub fn read(
    s: Store,
    pool: &[u8],
    object: u32,
    offset: usize,
    buf: &mut [u8],
) -> Result<(), Refusal>
    ensures did { DidWith (read object offset (length buf.old)) s pool.now (number_of result) (bytes buf.new) s pool.now }
    ensures refused { OnErr result (buf.new ≡ buf.old) }
{
    let extent = Extent {
        object,
        offset,
        n: buf.len(),
    };
    let mut charts = Charts::new();
    let entry = refusals::enter(&s, &mut charts)?;
    entry.sound.read(pool.len(), extent)?;
    in_place::read_pages(&entry.pages(), pool, object, offset, buf);
    Ok(())
}

// The pages that are present and private are written where they are; from the first other one on the store changes. By hand: the parameters
// are those that 01 gives the call.
pub fn write(
    mut s: Store,
    pool: &mut [u8],
    object: u32,
    offset: usize,
    src: &[u8],
) -> Result<Store, Refusal>
    ensures { DidWith (write object offset src.now) s pool.old (number_of result) done (left s result) pool.new }
{
    let extent = Extent {
        object,
        offset,
        n: src.len(),
    };
    let mut charts = Charts::new();
    let entry = refusals::enter(&s, &mut charts)?;
    entry.write(pool.len(), extent)?;
    let done = in_place::overwrite_pages(&entry.states(), pool, object, offset, src);
    if done < src.len() {
        let mut work = Work {
            store: &mut s,
            pool,
        };
        page_writes::write_pages(&mut work, object, offset + done, &src[done..]);
        freeing::renew(&mut s);
    }
    Ok(s)
}
