// Runs the functions of `page`, `table`, `range_table` and `trimming` on edge values and compares with answers written by hand from document 01. One line a case.
// What is asked here of numbers is what those functions ask.
#![tactic(auto)]

ghost use Rattle.std.specs.Prelude.{◌≡◌, ◌+◌, ◌≤◌, ◌<◌};
ghost use Rattle.ranges.specs.Range.{skip};
ghost use Rattle.table.specs.Table.{Table, Small, ranged};
ghost use Rattle.range_table.specs.Edit.{Blank};

use page::PageNumber;
use places::Place;
use range_table::{cut_range, fresh_number, has_window, holder_count, put_range};
use reports::report;
use samples::{FREE, blank, place, range};
use store::Store;
use table::{BackingPages, PageRange};

// Pages s up to e of object 0, from index f on of vector 1.
fn pages(s: usize, e: usize, f: u32) -> PageRange
    requires { (s ≤ e) × (e ≤ 262144) × (f ≤ 786432) }
    ensures { (Small result) × (result.length + s ≡ e) × (result.object ≡ 0) × (result.start.0 ≡ s) }
{
    range(0, s, (e - s) as u32, f, BackingPages::Many(1))
}

fn numbers() {
    let last = PageNumber::from_offset(usize::MAX);
    report("page of offset 0", PageNumber::from_offset(0).0 == 0);
    report("page of offset 4095", PageNumber::from_offset(4095).0 == 0);
    report("page of offset 4096", PageNumber::from_offset(4096).0 == 1);
    report("page of the last offset", last.0 == 4503599627370495);
    let place = PageNumber::place(usize::MAX);
    report("place of the last offset", place == 4095);
    report("place of offset 4096", PageNumber::place(4096) == 0);
    report("last page", PageNumber::meta_page().0 == 262143);
    let begins = PageNumber(262143).as_byte_offset();
    report("page 262143 begins", begins == 1073737728);
}

// Cases (a) to (d): pages 10 up to 20, offset 0, cut.
fn cuts() {
    let r = pages(10, 20, 0);
    let a = r.split_range(12, 15);
    report("(a) front", a.before == Some(pages(10, 12, 0)));
    report("(a) back", a.after == Some(pages(15, 20, 5)));
    let b = r.split_range(10, 20);
    report("(b) front", b.before == None);
    report("(b) back", b.after == None);
    let c = r.split_range(5, 12);
    report("(c) front", c.before == None);
    report("(c) back", c.after == Some(pages(12, 20, 2)));
    let d = r.split_range(19, 30);
    report("(d) front", d.before == Some(pages(10, 19, 0)));
    report("(d) back", d.after == None);
}

// A range that is shortened behind a reference.
fn shortened_there(mut r: PageRange, k: u32) -> PageRange
    requires { (Small r) × (k ≤ r.length) }
    ensures { ranged result ≡ skip k (ranged r) }
{
    r.shorten(k);
    r
}

fn shortenings() {
    let r = shortened_there(pages(10, 20, 0), 5);
    let want = pages(15, 20, 5);
    report("(a) back, in the caller's own record", r == want);
    let r = shortened_there(pages(10, 20, 7), 0);
    report("shortened by nothing", r == pages(10, 20, 7));
}

fn around_page() {
    let q = pages(10, 20, 0).split_at(12);
    let front = Some(pages(10, 12, 0));
    report("page 12 cut out, front", q.before == front);
    report("page 12 cut out, page", q.page == pages(12, 13, 2));
    let back = Some(pages(13, 20, 3));
    report("page 12 cut out, back", q.after == back);
}

// Pages 10 up to 20 and 30 up to 31 of object 0, in the table of a store.
fn two() -> Store
    ensures { (Table result.ranges result.count) × (Blank result) × (result.count ≤ 4) }
{
    let mut s = blank(1, &[]);
    put_range(&mut s, pages(30, 31, 0));
    put_range(&mut s, pages(10, 20, 0));
    s
}

fn found(name: &str, g: usize, want: Option<usize>)
    requires { g ≤ 1000000 }
{
    report(name, range_table::covering(&two(), g) == want);
}

fn begun(name: &str, g: usize, want: usize) {
    report(name, range_table::starts_before(&two(), g) == want);
}

// Case (e) among others.
fn searches() {
    found("page 9 is outside", 9, None);
    found("page 10 is in the first", 10, Some(0));
    found("page 19 is in the first", 19, Some(0));
    found("(e) page 20 is outside", 20, None);
    found("page 30 is in the second", 30, Some(1));
    found("page 31 is outside", 31, None);
    found("page 10 of object 1 is outside", 262154, None);
    begun("none begins before page 10", 10, 0);
    begun("one begins before page 11", 11, 1);
    begun("one begins before page 30", 30, 1);
    begun("two begin before page 31", 31, 2);
}

fn cut_out(a: usize, e: usize) -> Store
    requires { a < e }
    ensures { result.count ≤ 512 }
{
    let mut s = two();
    cut_range(&mut s, a, e);
    s
}

fn is_unused(r: PageRange) -> bool {
    r == PageRange::ZERO
}

// Whether the used slots are these ranges, and the others unused.
fn table_is(s: &Store, want: &[PageRange]) -> bool
    requires { s.now.count ≤ 512 }
{
    let (used, rest) = s.ranges.split_at(s.count);
    used == want && rest.iter().all(|r| is_unused(*r))
}

fn cut_tables() {
    let s = cut_out(12, 15);
    report("cut 12-15: three ranges", s.count == 3);
    report("cut 12-15: first", s.ranges[0] == pages(10, 12, 0));
    report("cut 12-15: second", s.ranges[1] == pages(15, 20, 5));
    report("cut 12-15: third", s.ranges[2] == pages(30, 31, 0));
    let rest = is_unused(s.ranges[3]) && is_unused(s.ranges[511]);
    report("cut 12-15: rest unused", rest);
}

fn cut_more_tables() {
    let s = cut_out(19, 31);
    report("cut 19-31: one range", s.count == 1);
    report("cut 19-31: first", s.ranges[0] == pages(10, 19, 0));
    let rest = is_unused(s.ranges[1]) && is_unused(s.ranges[511]);
    report("cut 19-31: rest unused", rest);
    let both = [pages(10, 20, 0), pages(30, 31, 0)];
    report("cut 20-30: nothing", table_is(&cut_out(20, 30), &both));
    report("cut everything", table_is(&cut_out(0, 262144), &[]));
}

fn put_over(s: usize, e: usize, f: u32) -> Store
    requires { (s < e) × (e ≤ 262144) × (f ≤ 786432) }
    ensures { result.count ≤ 512 }
{
    let mut t = two();
    put_range(&mut t, pages(s, e, f));
    t
}

fn puts() {
    let s = put_over(12, 15, 700);
    report("put 12-15: four ranges", s.count == 4);
    let first = s.ranges[0] == pages(10, 12, 0) && s.ranges[1] == pages(12, 15, 700);
    report("put 12-15: first two", first);
    let last = s.ranges[2] == pages(15, 20, 5) && s.ranges[3] == pages(30, 31, 0);
    report("put 12-15: last two", last);
    let whole = put_over(0, 31, 700);
    report(
        "put 0-31: one range",
        table_is(&whole, &[pages(0, 31, 700)]),
    );
    let s = put_over(20, 30, 700);
    let between = s.count == 3 && s.ranges[1] == pages(20, 30, 700);
    report("put 20-30: between", between);
}

// A range held by number n, and by number m, in slots 0 and 1, of which the first k are used.
fn held(n: u32, m: u32, k: usize) -> Store
    ensures { (result.count ≡ k) × (result.frames ≡ 3) }
{
    let mut s = blank(3, &[]);
    s.ranges[0] = range(0, 0, 1, 0, BackingPages::Single(n));
    s.ranges[1] = range(0, 5, 1, 0, BackingPages::Many(m));
    s.count = k;
    s
}

fn holders() {
    report("two hold 7", holder_count(&held(7, 7, 2), 7) == 2);
    let one = holder_count(&held(7, 7, 1), 7);
    report("one of the first slot holds 7", one == 1);
    report("none holds 8", holder_count(&held(7, 7, 2), 8) == 0);
    report("first number is 1", fresh_number(&held(1, 2, 0)) == 1);
    report("1 and 2 in use: 3", fresh_number(&held(2, 1, 2)) == 3);
    report("1 free again", fresh_number(&held(2, 3, 2)) == 1);
    report("gap at 2", fresh_number(&held(1, 3, 2)) == 2);
}

// Indexes 0 of backings 7 and 9 are in windows, where both slots are used.
fn windows() {
    let s = held(7, 9, 2);
    report("index 0 of 7 is in a window", has_window(&s, 7, 0));
    report("index 1 of 7 is in none", !has_window(&s, 7, 1));
    report("index 0 of 9 is in a window", has_window(&s, 9, 0));
    let first = has_window(&held(7, 9, 1), 9, 0);
    report("not of the first range alone", !first);
    report("backing 8 has no window", !has_window(&s, 8, 0));
}

// Frames 0 to 2 stand at (7, 0), (7, 1) and (9, 0), and are trimmed by the first k of the ranges of 7 and 9.
fn trimmed(k: usize) -> [Place; 3]
    requires { k ≤ 2 }
{
    let mut s = held(7, 9, k);
    s.places[0] = place(7, 0);
    s.places[1] = place(7, 1);
    s.places[2] = place(9, 0);
    trimming::trim(&mut s);
    [s.places[0], s.places[1], s.places[2]]
}

fn trims() {
    let [a, b, c] = trimmed(2);
    let stay = a == place(7, 0) && c == place(9, 0);
    report("entries in windows stay", stay);
    report("an entry in none goes", b == FREE);
    let [a, _, c] = trimmed(1);
    report(
        "the window of an unused slot does not count",
        a == place(7, 0) && c == FREE,
    );
    report("no range, no entry", trimmed(0) == [FREE; 3]);
}

// The parts, one after another. By hand: a table of functions and a loop over it say no more than the calls.
fn main() {
    numbers();
    cuts();
    shortenings();
    around_page();
    searches();
    cut_tables();
    cut_more_tables();
    puts();
    holders();
    windows();
    trims();
}
