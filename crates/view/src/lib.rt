// A page shown as that very part of the lent pool.
#![tactic(auto)]

ghost use Rattle.std.specs.Prelude.{◌≡◌, List, ℕ, length};
ghost use Rattle.pool.specs.Bytes.{address};
ghost use Rattle.view.specs.View.{frame_shown, part_of, begin_of, Inside};

use charts::Charts;
use page::PageNumber;
use store::Store;
use table::line_of;

// The frame of a page to be shown; none where the call is refused or the page is absent.
fn frame_shown(s: &Store, pool: usize, object: u32, page: PageNumber) -> Option<usize>
    ensures book { (x : List ℕ) → length x ≡ pool → result ≡ frame_shown s.now x object page.0 }
    ensures inside { Inside pool result }
{
    let mut charts = Charts::new();
    let entry = refusals::enter(s, &mut charts).ok()?;
    entry.sound.show(pool, object, page).ok()?;
    let located = entry.pages().locate(line_of(object, page))?;
    Some(located.frame)
}

// "A present page can be shown as that very part of the pool; an absent page or a refused call (1, 2, 3, 6) shows an empty part, and the part is
// the whole answer." The part is lent to be read: a page may be shared.
pub fn show(s: Store, pool: &[u8], object: u32, page: PageNumber) -> &[u8]
    ensures result_value { result.now ≡ part_of pool.now (frame_shown s pool.now object page.0) }
    ensures ref_ptr_value { result.ref_ptr ≡ address pool.entry.ref_ptr (begin_of (frame_shown s pool.now object page.0)) }
{
    pool::show_ref(pool, frame_shown(&s, pool.len(), object, page))
}
