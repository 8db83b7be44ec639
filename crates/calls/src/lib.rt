// THE CALLS THAT NEED NO BYTES OF A PAGE. Each takes any store and any arguments, and answers why it is turned down if it is.
#![tactic(auto)]

ghost use Rattle.std.specs.Prelude.{◌≡◌, ◌+◌, ◌≤◌, ◌<◌, length, take};
ghost use Rattle.ranges.specs.Range.{line, carve};
ghost use Rattle.table.specs.Table.{ranged_of};
ghost use Rattle.places.specs.Places.{used_count};
ghost use Rattle.store.specs.Abs.{used};
ghost use Rattle.store.specs.Sound.{Sized, Sound};
ghost use Rattle.store.specs.Empty.{Blank};
ghost use Rattle.book.specs.Book.{new_object, drop_object, look_up, counts, done, state};
ghost use Rattle.refusals.specs.Number.{number_of};
ghost use Rattle.calls.specs.Calls.{Did, left, numbers_in, state_in};
ghost use Rattle.calls.specs.Drop.{Dropped};
ghost use Rattle.calls.specs.Made.{Created, created_number, created_store};

use charts::Charts;
use look::State;
use page::PageNumber;
use places::Place;
use refusals::Refusal;
use store::Store;
use table::{PageRange, line_of};

pub fn new_object(mut s: Store, object: u32) -> Result<Store, Refusal>
    ensures { Did (new_object object) s (number_of result) done (left s result) }
{
    let mut charts = Charts::new();
    refusals::enter(&s, &mut charts)?.sound.new_object(object)?;
    s.live |= 1 << object;
    Ok(s)
}

// A page's state.
pub fn look_up(s: Store, object: u32, page: PageNumber) -> Result<State, Refusal>
    ensures { Did (look_up object page.0) s (number_of result) (state (state_in result)) s }
{
    let mut charts = Charts::new();
    let entry = refusals::enter(&s, &mut charts)?;
    entry.sound.look_up(object, page)?;
    Ok(entry.states().of(line_of(object, page)))
}

// Frames in use and ranges.
#[derive(Clone, Copy, PartialEq, Eq)]
pub struct Numbers {
    pub frames: usize,
    pub ranges: usize,
}

// How many frames are in use.
fn used_count(s: &Store) -> usize
    ensures { result ≡ used_count (take s.now.frames s.now.places) }
{
    s.frame_places().iter().filter(|p| !p.is_free()).count()
}

pub fn counts(s: Store) -> Result<Numbers, Refusal>
    ensures { Did counts s (number_of result) (numbers_in result) s }
{
    let mut charts = Charts::new();
    refusals::enter(&s, &mut charts)?;
    Ok(Numbers {
        frames: used_count(&s),
        ranges: s.count,
    })
}

// A store with no object.
fn empty_store(frames: usize) -> Store
    requires { frames ≤ 1024 }
    ensures { (Blank result) × (result.frames ≡ frames) × (Sized result) }
{
    let mut s = Store {
        frames,
        live: 0,
        count: 0,
        ranges: [PageRange::ZERO; 512],
        places: [Place::NOWHERE; 1024],
        free: [0; 16],
    };
    freeing::renew(&mut s);
    s
}

// "A refused creation of a store hands back the empty store of one frame."
#[derive(Clone, Copy)]
pub struct NotCreated {
    pub refusal: Refusal,
    pub store: Store,
}

impl From<NotCreated> for Refusal {
    ghost from_gives = { λ not_created refusal. refusal ≡ not_created.refusal };

    fn from(not_created: NotCreated) -> Refusal {
        not_created.refusal
    }
}

pub fn create(frames: usize) -> Result<Store, NotCreated>
    ensures { Created frames (created_number result) (created_store result) }
{
    if (1..=1024).contains(&frames) {
        return Ok(empty_store(frames));
    }
    Err(NotCreated {
        refusal: Refusal::Pool,
        store: empty_store(1),
    })
}

// An object's ranges and its name taken from a store, and the frames that stand in no window then.
fn take_object(s: &mut Store, object: u32)
    requires store { (Sized s.old) × (Sound s.old) × (object < 32) }
    requires room { length (carve (line object 0) (line object 0 + 262144) (ranged_of (used s.old))) ≤ 512 }
    ensures { Dropped s.old object s.new }
{
    let a = line_of(object, PageNumber(0));
    range_table::cut_range(s, a, a + PageNumber::COUNT);
    trimming::trim(s);
    s.live &= !(1 << object);
    freeing::renew(s);
}

// "A drop takes the ranges too."
pub fn drop_object(mut s: Store, object: u32) -> Result<Store, Refusal>
    ensures { Did (drop_object object) s (number_of result) done (left s result) }
{
    let mut charts = Charts::new();
    refusals::enter(&s, &mut charts)?.sound.drop_object(object)?;
    take_object(&mut s, object);
    Ok(s)
}
