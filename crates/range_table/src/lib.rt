// THE TABLE OF RANGES OF A STORE: the searches in it, and a range put over its span or pages cut out of it, in place.
// By hand: `Table s.ranges s.count` stands in seven contracts and `Blank s` in five. Who calls holds a `&mut Store`, changed between two calls, so that a type with both as ghost
// fields would be made anew for each; and it would ask a table in order of `shift` and `replace`, which ask none, and promise one of `splice`, which leaves none.
#![tactic(auto)]

ghost use Rattle.std.specs.Prelude.{◌≡◌, suc, [], ◌+◌, ◌-◌, ◌*◌, ◌^◌, ◌≤◌, ◌<◌, length};
ghost use Rattle.ranges.specs.Range.{carve};
ghost use Rattle.ranges.specs.Search.{starts_before, ends_by};
ghost use Rattle.ranges.specs.Table.{holders, fresh, named};
ghost use Rattle.table.specs.Table.{covering_at, less_one, ranged_of, ranges_of, Small, Table};
ghost use Rattle.store.specs.Abs.{used};
ghost use Rattle.range_table.specs.Edit.{Blank, CutIs, PutIs, Shifted, parts_made, rows_of, with_rows};
ghost use Rattle.range_table.specs.Made.{Spliced, spliced_in};
ghost use Rattle.range_table.specs.Rows.{Held};

use store::Store;
use table::PageRange;

// How many ranges begin before page g of the line, by halving.
pub fn starts_before(s: &Store, g: usize) -> usize
    requires { Table s.now.ranges s.now.count }
    ensures { result ≡ starts_before g (ranged_of (used s.now)) }
{
    s.used().partition_point(|r| r.first() < g)
}

// The place of the last range that begins at page g of the line or before it.
pub fn last_by(s: &Store, g: usize) -> Option<usize>
    requires { Table s.now.ranges s.now.count }
    ensures { result ≡ less_one (starts_before (suc g) (ranged_of (used s.now))) }
{
    s.used().partition_point(|r| r.first() <= g).checked_sub(1)
}

// How many of the first ranges end by page a of the line.
pub fn ends_by(s: &Store, a: usize) -> usize
    requires { Table s.now.ranges s.now.count }
    ensures { result ≡ ends_by a (ranged_of (used s.now)) }
{
    let n = starts_before(s, a);
    match n.checked_sub(1) {
        Some(k) if a < s.ranges[k].end() => k,
        _ => n,
    }
}

// The place of the range that covers page g of the line.
pub fn covering(s: &Store, g: usize) -> Option<usize>
    requires { Table s.now.ranges s.now.count }
    ensures { result ≡ covering_at g (ranged_of (used s.now)) }
{
    let k = last_by(s, g)?;
    (g < s.ranges[k].end()).then_some(k)
}

// How many ranges hold a backing.
pub fn holder_count(s: &Store, b: u32) -> usize
    ensures { result ≡ holders b (ranges_of (used s.now)) }
{
    s.used().iter().filter(|r| r.backing.number() == b).count()
}

// Whether index i of backing b lies in the window of some range.
pub fn has_window(s: &Store, b: u32, i: u32) -> bool
    ensures { result ≡ named b i (ranges_of (used s.now)) }
{
    s.used().iter().any(|r| r.in_window(b, i))
}

// The numbers up to 512 that a range holds are marked; none is before.
fn mark(ranges: &[PageRange], held: &mut [bool; 513])
    requires { Held [] held.old }
    ensures { Held (ranges_of ranges.now) held.new }
{
    for r in ranges {
        // by hand: tried, but of an element that `get_mut` lends a proof does not learn what is written
        let b = r.backing.number() as usize;
        if b < held.len() {
            held[b] = true;
        }
    }
}

// The smallest positive number that no range holds.
pub fn fresh_number(s: &Store) -> u32
    ensures { result ≡ fresh (ranges_of (used s.now)) }
{
    let ranges = s.used();
    let n = ranges.len();
    let mut held = [false; 513];
    mark(ranges, &mut held);
    1 + held[1..n + 1].iter().position(|h| !h).unwrap_or(n) as u32
}

// The rows from `from` on moved to `to`; the slots that are then unused are zero.
pub fn shift(s: &mut Store, from: usize, to: usize)
    requires room { (s.old.count ≤ 512) × (from ≤ s.old.count) × (s.old.count + to ≤ 512 + from) }
    requires blank { Blank s.old }
    ensures { Shifted s.old from to s.new }
{
    let old = s.count;
    if from != to {
        s.ranges.copy_within(from..old, to);
    }
    s.count = to + (old - from);
    s.ranges[s.count.min(old)..old].fill(PageRange::ZERO);
}

// How many rows a part is.
fn width(q: Option<PageRange>) -> usize
    ensures { result ≡ length (rows_of q) }
{
    usize::from(q.is_some())
}

// A part written as row `at`, if it is one. By hand: there are three at most, each there or not; an array of those that are there would be filled by the same three questions.
fn lay(s: &mut Store, at: usize, q: Option<PageRange>)
    requires { at + length (rows_of q) ≤ 512 }
    ensures { s.new ≡ with_rows at (rows_of q) s.old }
{
    if let Some(r) = q {
        s.ranges[at] = r;
    }
}

// The rows from p up to q replaced by three parts, each of them a row or none.
fn replace(
    s: &mut Store,
    p: usize,
    q: usize,
    before: Option<PageRange>,
    middle: Option<PageRange>,
    after: Option<PageRange>,
)
    requires rows { (s.old.count ≤ 512) × (p ≤ q) × (q ≤ s.old.count) × (s.old.count + length (parts_made before middle after) ≤ 512 + (q - p)) }
    requires blank { Blank s.old }
    ensures { s.new ≡ spliced_in s.old p (q - p) (parts_made before middle after) }
{
    let x = width(before);
    let y = width(middle);
    let z = width(after);
    shift(s, q, p + x + y + z);
    lay(s, p, before);
    lay(s, p + x, middle);
    lay(s, p + x + y, after);
}

// The rows that the pages from a up to e of the line meet replaced by what is left of them, with `middle` in between.
fn splice(s: &mut Store, a: usize, e: usize, middle: Option<PageRange>)
    requires table { (Table s.old.ranges s.old.count) × (Blank s.old) }
    requires room { (a < e) × (length (carve a e (ranged_of (used s.old))) ≤ 512) × (s.old.count + 2 * length (rows_of middle) ≤ 512) }
    ensures { Spliced a e middle s.old s.new }
{
    let p = ends_by(s, a);
    let q = starts_before(s, e);
    if q <= p {
        replace(s, p, p, None, middle, None);
        return;
    }
    let before = s.ranges[p].front(a);
    let after = s.ranges[q - 1].back(e);
    replace(s, p, q, before, middle, after);
}

// A range put over its span, whatever was there.
pub fn put_range(s: &mut Store, n: PageRange)
    requires table { (Table s.old.ranges s.old.count) × (Blank s.old) }
    requires small { (Small n) × (0 < n.length) × (s.old.count + 2 ≤ 512) }
    ensures { PutIs n s.old s.new }
{
    splice(s, n.first(), n.end(), Some(n));
}

// The pages from a up to e of the line cut out.
pub fn cut_range(s: &mut Store, a: usize, e: usize)
    requires table { (Table s.old.ranges s.old.count) × (Blank s.old) }
    requires span { (a < e) × (length (carve a e (ranged_of (used s.old))) ≤ 512) }
    ensures { CutIs a e s.old s.new }
{
    splice(s, a, e, None);
}
