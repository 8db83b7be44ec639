// WHAT MANY BYTES COST: 4 MiB read and written in one call and in calls of a page, 2 MiB copied to unequal places. Lines as in crates/bench. With no input the
// buffer has 1 MiB, so that the program runs with a stack of 8 MiB; bench/run lends it a larger one.
#![tactic(auto)]

ghost use Rattle.std.specs.Prelude.{◌≡◌, ◌≤◌, ◌<◌, length};

use anyhow::Result;
use fills::Parts;
use std::io::Read;
use std::time::CpuClock;
use store::Store;
use timing::{Meter, Mode};

// ---- what was written is read
fn pattern(i: usize) -> u8 {
    (i % 251 * 7 % 251) as u8
}

fn patterned(buf: &mut [u8]) {
    for (i, b) in buf.iter_mut().enumerate() {
        *b = pattern(i);
    }
}

fn same(buf: &[u8]) -> bool {
    buf.iter().enumerate().all(|(i, b)| *b == pattern(i))
}

// ---- lines
// Into how many ranges half the buffer goes; all of it into twice as many.
#[derive(Clone, Copy)]
struct Cut {
    half: usize,
    ghost between: { (0 < half) × (half ≤ 255) },
}

impl Cut {
    fn new(half: usize) -> Cut
        requires { (0 < half) × (half ≤ 255) }
    {
        Cut { half }
    }
}

// What every line is made with: the page memory, the buffer, and how a work is measured.
#[derive(Drop)]
struct Bulk<'a, R> {
    pool: &'a mut [u8],
    buf: &'a mut [u8],
    meter: Meter<R>,
    ghost fits: { length buf.now ≤ 4194304 },
}

impl<R: Copy + CpuClock + Print> Bulk<'_, R> {
    // Written in one call, read page by page.
    fn read_back(&mut self, s: &Store) -> bool {
        patterned(self.buf);
        works::bulk_written(s, self.pool, self.buf, 1);
        self.buf.fill(0);
        works::pages_read(s, self.pool, self.buf, 1);
        same(self.buf)
    }

    // ---- lists of works
    fn written_and_read(&mut self, s: &Store) -> Result<()> {
        let same = u8::from(self.read_back(s));
        println!(self.meter.rt; "# read back {same}")?;
        self.meter.line("write_all", s, |n| {
            works::bulk_written(s, self.pool, self.buf, n)
        })?;
        self.meter.line("read_all", s, |n| {
            works::bulk_read(s, self.pool, self.buf, n)
        })?;
        self.meter.line("write_pages", s, |n| {
            works::pages_written(s, self.pool, self.buf, n)
        })?;
        self.meter.line("read_pages", s, |n| {
            works::pages_read(s, self.pool, self.buf, n)
        })
    }

    // Copied to record 1, which is present.
    fn shift(&mut self, s: &Store) -> Result<()> {
        let half = self.buf.len() / 2;
        self.meter.line("shift", s, |n| { works::shifted(s, self.pool, 1, half, n) })
    }

    // 512 KiB to record 30, which has no page: each page added needs two slots, so 2 MiB is refused.
    fn shift_new(&mut self, s: &Store) -> Result<()> {
        self.meter.line("shift_new", s, |n| {
            works::shifted(s, self.pool, 30, 524288, n)
        })
    }

    // ---- records as long as the buffer, or half as long, in ranges that adjoin
    fn whole(&mut self, parts: Parts) -> Result<()> {
        let s = fills::adjoining(fills::empty()?, self.pool, 0, parts)?;
        self.written_and_read(&s)
    }

    // With record 1, and without it.
    fn halves(&mut self, parts: Parts) -> Result<()> {
        let one = fills::adjoining(fills::empty()?, self.pool, 0, parts)?;
        let two = fills::adjoining(one, self.pool, 1, parts)?;
        self.shift(&two)?;
        self.shift_new(&one)
    }

    fn both(&mut self, cut: Cut) -> Result<()> {
        self.whole(Parts {
            pages: self.buf.len() / 4096,
            ranges: 2 * cut.half,
        })?;
        self.halves(Parts {
            pages: self.buf.len() / 8192,
            ranges: cut.half,
        })
    }

    fn all(&mut self, cuts: &[Cut]) -> Result<()> {
        for cut in cuts {
            self.both(*cut)?;
        }
        Ok(())
    }
}

// 1 MiB in 8 and 64 ranges.
fn tried<R: Copy + CpuClock + Print>(
    pool: &mut [u8],
    buf: &mut [u8; 1048576],
    rt: R,
) -> Result<()> {
    let meter = Meter {
        mode: Mode::Turns(3),
        rt,
    };
    Bulk { pool, buf, meter }.all(&[Cut::new(4), Cut::new(32)])
}

#[inline(never)]
fn small<R: Copy + CpuClock + Print>(pool: &mut [u8], rt: R) -> Result<()> {
    let mut buf = [0; 1048576];
    tried(pool, &mut buf, rt)
}

// 4 MiB in 8, 40 and 510 ranges.
fn timed<R: Copy + CpuClock + Print>(pool: &mut [u8], buf: &mut [u8], rt: R) -> Result<()>
    requires { length buf.old ≤ 4194304 }
{
    let meter = Meter {
        mode: Mode::Time,
        rt,
    };
    Bulk { pool, buf, meter }.all(&[Cut::new(4), Cut::new(20), Cut::new(255)])
}

// Four starts of the buffer, 16 bytes apart: what a copy costs depends on how the bytes of the buffer and those of a frame lie to each other in a line of the cache.
fn at_four_starts<R: Copy + CpuClock + Print>(
    pool: &mut [u8],
    buf: &mut [u8; 4194352],
    rt: R,
) -> Result<()> {
    for k in [0, 16, 32, 48] {
        timed(pool, &mut buf[k..k + 4194304], rt)?;
    }
    Ok(())
}

// The buffers stand in frames of functions of their own, which are not compiled into `main`: its frame would burst. One call of itself for each round.
#[inline(never)]
fn large<R: Copy + CpuClock + Print>(pool: &mut [u8], rounds: u8, rt: R) -> Result<()> {
    let mut buf = [0; 4194352];
    at_four_starts(pool, &mut buf, rt)?;
    if 1 < rounds {
        return large(pool, rounds - 1, rt);
    }
    Ok(())
}

// Input `1` is one round. A function of its own: what is lent here is any array, and a proof in `main` would write out the zeros.
fn lent<R: Copy + CpuClock + Print>(
    pool: &mut [u8; 4194304],
    input: Option<u8>,
    rt: R,
) -> Result<()> {
    match input.map_or(0, |byte| byte % 16) {
        0 => small(pool, rt),
        rounds => large(pool, rounds, rt),
    }
}

// Input that can't be read counts as none. Output that can't be written ends the work, and there is nobody to tell.
fn main(rt: HostRuntime) {
    let input = rt.stdin().bytes().next().and_then(|byte| byte.ok());
    let mut pool = [0; 4194304];
    let _ = lent(&mut pool, input, rt);
}
