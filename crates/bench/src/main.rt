// WHAT THE CALLS COST. Each line has a work, the frames and the ranges in use, and a number. With no input that is how many of three turns went as they
// should, and `rt ci` compares; with a digit as input, of so many turns (with another byte below them, of as many as its lower half says). With a letter it is
// the nanoseconds of one turn: the turns are doubled until they take 0.02 seconds of processor time. `g`: how cost grows. Any other: the table. bench/run has
// what each work is.
#![tactic(auto)]

ghost use Rattle.std.specs.Prelude.{◌*◌, ◌≤◌, ◌<◌};

use anyhow::Result;
use fills::{Every, Fill, Order, Parts};
use refusals::Refusal;
use std::io::Read;
use std::time::CpuClock;
use store::Store;
use timing::{Meter, Mode};
use works::Head;

// What every line is made with: the page memory, and how a work is measured.
#[derive(Drop)]
struct Bench<'a, R> {
    pool: &'a mut [u8],
    meter: Meter<R>,
}

impl<R: Copy + CpuClock + Print> Bench<'_, R> {
    // ---- works that stand in more than one list
    fn sound(&mut self, s: &Store) -> Result<()> {
        self.meter.line("sound", s, |n| works::tested(s, n))
    }

    fn write_64(&mut self, s: &Store) -> Result<()> {
        self.meter.line("write_64", s, |n| works::written(s, self.pool, &[7; 64], n))
    }

    fn counts(&mut self, s: &Store) -> Result<()> {
        self.meter.line("counts", s, |n| works::counted(s, n))
    }

    fn new(&mut self, s: &Store) -> Result<()> {
        self.meter.line("new", s, |n| works::named(s, n))
    }

    fn drop(&mut self, s: &Store) -> Result<()> {
        self.meter.line("drop", s, |n| works::dropped(s, n))
    }

    fn add(&mut self, s: &Store) -> Result<()> {
        self.meter.line("add", s, |n| works::added(s, self.pool, n))
    }

    fn zero_all(&mut self, s: &Store) -> Result<()> {
        self.meter.line("zero_all", s, |n| {
            works::zeroed(s, self.pool, 0, 1073741824, n)
        })
    }

    fn zero_page(&mut self, s: &Store) -> Result<()> {
        self.meter.line("zero_page", s, |n| {
            works::zeroed(s, self.pool, 4096, 4096, n)
        })
    }

    // ---- lists of works
    // At any fill.
    fn at_fill(&mut self, s: &Store, parts: Parts) -> Result<()> {
        self.meter.line("copy", s, |n| works::copied(s, n))?;
        self.sound(s)?;
        self.meter.line("read_nothing", s, |n| {
            works::read(s, self.pool, parts, &mut [], n)
        })?;
        self.meter.line("read_64", s, |n| {
            works::read(s, self.pool, parts, &mut [0; 64], n)
        })?;
        self.meter
            .line("show", s, |n| works::shown(s, self.pool, n))?;
        self.write_64(s)?;
        self.meter.line("upload", s, |n| {
            works::uploaded(s, self.pool, Head::new(0, 8192), n)
        })?;
        self.meter
            .line("look_up_all", s, |n| works::looked(s, parts, n))?;
        self.counts(s)?;
        self.new(s)?;
        self.drop(s)
    }

    // Where there is room.
    fn with_room(&mut self, s: &Store) -> Result<()> {
        self.add(s)?;
        self.meter.line("upload_new", s, |n| {
            works::uploaded(s, self.pool, Head::new(30, 19200), n)
        })?;
        self.zero_all(s)?;
        self.zero_page(s)
    }

    // Where many ranges hold one backing, with the record that it came from.
    fn of_one_backing(&mut self, s: &Store) -> Result<()> {
        self.sound(s)?;
        self.write_64(s)?;
        self.counts(s)?;
        self.new(s)?;
        self.drop(s)?;
        self.add(s)?;
        self.zero_all(s)?;
        self.zero_page(s)
    }

    // ---- the table
    // The works that need room, then the others on the store filled up.
    fn fill_measured(&mut self, fill: Fill) -> Result<()> {
        let s = fills::filled(self.pool, fill, Order::Rising)?;
        self.with_room(&s)?;
        let s = fills::full(s, self.pool, fill)?;
        self.at_fill(&s, fill.own())
    }

    // 8, 40 and 512 ranges; 16, 300 and 1,024 frames. The cut that makes the last two ranges takes a frame.
    fn nine_fills(&mut self) -> Result<()> {
        for fill in [
            Fill::new(16, 8),
            Fill::new(16, 40),
            Fill::new(15, 508),
            Fill::new(300, 8),
            Fill::new(300, 40),
            Fill::new(299, 508),
            Fill::new(1018, 8),
            Fill::new(1018, 40),
            Fill::new(1018, 508),
        ] {
            self.fill_measured(fill)?;
        }
        Ok(())
    }

    // Hand-over of a record of so many ranges.
    fn handed(&mut self, pages: usize, ranges: usize, every: Every) -> Result<()>
        requires { (pages ≤ 8192) × (0 < ranges) × (ranges ≤ 512) }
    {
        let parts = Parts { pages, ranges };
        let all = parts.end() * 4096;
        let s = &fills::record(self.pool, parts, every)?;
        if 170 < ranges {
            return self.meter.line("hand_over_refused", s, |n| {
                works::handed_over(s, self.pool, all, Some(Refusal::NoSlot), n)
            });
        }
        self.meter.line("hand_over", s, |n| {
            works::handed_over(s, self.pool, all, None, n)
        })?;
        self.meter
            .line("shadow", s, |n| works::shadowed(s, self.pool, all, n))?;
        let s = &copies::copy_ranges(*s, self.pool, 0, 0, 30, 0, all)?;
        self.meter
            .line("touch_100", s, |n| works::touched(s, self.pool, parts, n))
    }

    // 1,024 pages in 1, 40, 170 and 250 ranges; then 513 and 8,192 pages in one range, with as many frames as the first.
    fn hand_overs(&mut self) -> Result<()> {
        self.meter.heading("pages 1024")?;
        let every = Every::new(2);
        self.handed(1024, 1, every)?;
        self.handed(1024, 40, every)?;
        self.handed(1024, 170, every)?;
        self.handed(1024, 250, every)?;
        self.meter.heading("pages 513")?;
        self.handed(513, 1, Every::new(1))?;
        self.meter.heading("pages 8192")?;
        self.handed(8192, 1, Every::new(16))
    }

    // Soundness where frames do not follow pages.
    fn aged(&mut self, fill: Fill, order: Order) -> Result<()> {
        let s = fills::filled(self.pool, fill, order)?;
        self.sound(&s)
    }

    fn all_aged(&mut self) -> Result<()> {
        for (heading, order) in [
            ("frames scattered", Order::Scattered),
            ("frames rise", Order::Falling),
        ] {
            self.meter.heading(heading)?;
            self.aged(Fill::new(300, 40), order)?;
            self.aged(Fill::new(1024, 8), order)?;
            self.aged(Fill::new(1024, 510), order)?;
        }
        Ok(())
    }

    // Soundness where many ranges hold one backing, the drop of the record that it came from, and soundness without that record.
    fn source_dropped(&mut self, s: &Store) -> Result<()> {
        self.sound(s)?;
        self.drop(s)?;
        let s = calls::drop_object(*s, 0)?;
        self.sound(&s)
    }

    // The same of a store that `fill` makes.
    fn made<F: FnOnce(&mut [u8]) -> Result<Store, Refusal>>(&mut self, fill: F) -> Result<()>
        requires { F.IsAlwaysCallable fill }
    {
        let s = fill(self.pool)?;
        self.source_dropped(&s)
    }

    fn all_cut_up(&mut self) -> Result<()> {
        for (heading, order) in [
            ("one backing, frames fall", Order::Rising),
            ("one backing, frames scattered", Order::Scattered),
            ("one backing, frames rise", Order::Falling),
        ] {
            self.meter.heading(heading)?;
            self.made(|pool| fills::shared_by_many(pool, 300, 19, order))?;
            self.made(|pool| fills::shared_by_many(pool, 1024, 19, order))?;
            self.made(|pool| fills::shared_by_many(pool, 1024, 100, order))?;
            self.made(|pool| fills::shared_by_many(pool, 1024, 255, order))?;
        }
        Ok(())
    }

    fn all_in_pieces(&mut self) -> Result<()> {
        self.meter.heading("one backing, pieces scattered")?;
        self.made(|pool| fills::scattered_pieces(pool, 150))?;
        self.made(|pool| fills::scattered_pieces(pool, 500))?;
        self.meter
            .heading("one backing, a long window beside short ones")?;
        self.made(|pool| fills::long_and_short(pool, 150))?;
        self.made(|pool| fills::long_and_short(pool, 400))?;
        self.meter.heading("one backing, windows overlap")?;
        self.made(|pool| fills::overlapping(pool, 150))?;
        self.made(|pool| fills::overlapping(pool, 500))
    }

    fn table(&mut self) -> Result<()> {
        self.meter.heading("fills")?;
        self.nine_fills()?;
        self.hand_overs()?;
        self.all_aged()?;
        self.all_cut_up()?;
        self.all_in_pieces()
    }

    // ---- a few turns of each work, at small fills and at one full of ranges
    fn few_aged(&mut self) -> Result<()> {
        self.aged(Fill::new(64, 8), Order::Scattered)?;
        self.aged(Fill::new(64, 8), Order::Falling)?;
        for order in [Order::Rising, Order::Scattered, Order::Falling] {
            self.made(|pool| fills::shared_by_many(pool, 64, 19, order))?;
        }
        self.made(|pool| fills::scattered_pieces(pool, 40))?;
        self.made(|pool| fills::long_and_short(pool, 40))?;
        self.made(|pool| fills::overlapping(pool, 40))
    }

    fn tried(&mut self) -> Result<()> {
        self.fill_measured(Fill::new(16, 8))?;
        self.fill_measured(Fill::new(15, 508))?;
        self.fill_measured(Fill::new(100, 40))?;
        let every = Every::new(2);
        self.handed(200, 1, every)?;
        self.handed(200, 20, every)?;
        self.handed(250, 250, every)?;
        self.few_aged()
    }

    // ---- how cost grows
    // All works, with room to spare.
    fn fill_grown(&mut self, fill: Fill) -> Result<()> {
        let s = fills::filled(self.pool, fill, Order::Rising)?;
        self.at_fill(&s, fill.own())?;
        self.with_room(&s)
    }

    // 16 frames, or `least`, up to 1,016; 8 ranges up to `many`.
    fn growth(&mut self, least: usize, many: usize) -> Result<()>
        requires { (16 ≤ least) × (least ≤ 1016) × (8 ≤ many) × (many ≤ 508) }
    {
        for k in 0..7 {
            self.fill_grown(Fill::new(halved(1016, k, least), halved(many, k, 8)))?;
        }
        Ok(())
    }

    // Calls on seven stores where many ranges hold one backing, and soundness without the record that it came from. `fill` makes the store; k doubles the pieces.
    fn growth_of<F: FnMut(&mut [u8], usize) -> Result<Store, Refusal>>(
        &mut self,
        heading: &str,
        mut fill: F,
    ) -> Result<()>
        requires { F.IsAlwaysCallable fill }
    {
        self.meter.heading(heading)?;
        for k in 0..7 {
            let s = fill(self.pool, k)?;
            self.of_one_backing(&s)?;
        }
        println!(self.meter.rt; "# {heading}, source dropped")?;
        for k in 0..7 {
            let s = calls::drop_object(fill(self.pool, k)?, 0)?;
            self.sound(&s)?;
        }
        Ok(())
    }

    // A backing in half as many pieces as frames, in as many scattered ones, in a long window and short ones, and in windows that overlap; then other stores.
    fn grown(&mut self) -> Result<()> {
        self.growth_of("one backing cut up", |pool, k| {
            let n = halved(1012, k, 16);
            fills::shared_by_many(pool, n, n / 4, Order::Scattered)
        })?;
        self.growth_of("pieces scattered", |pool, k| {
            fills::scattered_pieces(pool, halved(500, k, 8))
        })?;
        self.growth_of("a long window beside short ones", |pool, k| {
            fills::long_and_short(pool, halved(400, k, 8))
        })?;
        self.growth_of("windows overlap", |pool, k| {
            fills::overlapping(pool, halved(500, k, 8))
        })?;
        self.meter.heading("frames and ranges")?;
        self.growth(16, 508)?;
        self.meter.heading("frames")?;
        self.growth(16, 8)?;
        self.meter.heading("ranges")?;
        self.growth(1016, 508)
    }
}

// n over 64, and twice as many each time, but not less than `least`.
fn halved(n: usize, k: usize, least: usize) -> usize
    requires { least ≤ n }
    ensures { (least ≤ result) × (result ≤ n) }
{
    (n >> 6usize.saturating_sub(k)).clamp(least, n)
}

// Zeroing and the shadow copy, once, with the store that they leave looked at: calls that stand in the program twice are not compiled into the loop that measures them, where
// what nobody looks at could be left out.
fn looked_at(pool: &mut [u8]) -> Result<()> {
    let s = fills::empty()?;
    let s = copies::zero_ranges(s, pool, 0, 0, 4096)?;
    let s = copies::copy_range_to_shadow(s, pool, 0, 0, 1, 0, 4096)?;
    calls::counts(s)?;
    Ok(())
}

// How it is measured, for the first byte of the input.
fn mode_of(input: Option<u8>) -> Mode {
    match input {
        None | Some(0) => Mode::Turns(3),
        Some(byte) if byte <= b'9' => Mode::Turns(usize::from(byte % 16)),
        Some(_) => Mode::Time,
    }
}

// A function of its own: what is lent here is any array, and a proof in `main` would write out the zeros.
fn lent<R: Copy + CpuClock + Print>(
    pool: &mut [u8; 4194304],
    input: Option<u8>,
    rt: R,
) -> Result<()> {
    looked_at(pool)?;
    let mode = mode_of(input);
    let meter = Meter { mode, rt };
    let mut bench = Bench { pool, meter };
    match (mode, input) {
        (Mode::Turns(_), _) => bench.tried(),
        (Mode::Time, Some(b'g')) => bench.grown(),
        (Mode::Time, _) => bench.table(),
    }
}

// Input that can't be read counts as none. Output that can't be written ends the work, and there is nobody to tell.
fn main(rt: HostRuntime) {
    let input = rt.stdin().bytes().next().and_then(|byte| byte.ok());
    let mut pool = [0; 4194304];
    let _ = lent(&mut pool, input, rt);
}
