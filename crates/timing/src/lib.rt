// TIME, for the programs that measure, and their lines.
#![tactic(auto)]

ghost use Rattle.std.specs.Prelude.{◌≤◌, ◌<◌};

use anyhow::Result;
use std::time::CpuClock;
use store::Store;

// How a work is measured. By hand: neither of the two is a lack of the other.
#[derive(Clone, Copy)]
pub enum Mode {
    // by so many turns: how many of them went as they should
    Turns(usize),
    // by the time of one turn, in nanoseconds: the turns are doubled until they take 0.02 seconds of processor time
    Time,
}

// Processor time in microseconds.
fn micros(rt: &impl CpuClock) -> u64 {
    rt.process_cpu_time()
        .map_or(0, |t| u64::try_from(t.as_micros()).unwrap_or(0))
}

// The time from one moment to a later one, at most an hour.
pub fn between(a: u64, b: u64) -> u64
    ensures { result ≤ 3600000000 }
{
    b.saturating_sub(a).min(3600000000)
}

// Turns that did not all go as they should have no time.
fn time_of_one(right: usize, turns: usize, e: u64) -> Option<u64>
    requires { (0 < turns) × (e ≤ 3600000000) }
{
    (right == turns).then_some(e * 1000 / turns as u64)
}

// The time of one turn, where it is long enough to be told.
fn time<F: FnMut(usize) -> usize>(rt: &impl CpuClock, mut run: F) -> Option<u64>
    requires { F.IsAlwaysCallable run }
{
    for k in 0..30u32 {
        let turns: usize = 1 << k;
        let a = micros(rt);
        let right = run(turns);
        let e = between(a, micros(rt));
        if 20000 <= e {
            return time_of_one(right, turns, e);
        }
    }
    None
}

// What the lines are made with.
#[derive(Clone, Copy)]
pub struct Meter<R> {
    pub mode: Mode,
    pub rt: R,
}

impl<R: Copy + CpuClock + Print> Meter<R> {
    // A heading.
    pub fn heading(self, text: &str) -> Result<()> {
        println!(self.rt; "# {text}")?;
        Ok(())
    }

    // A LINE: a work, the frames and the ranges in use, which are printed before the turns are made, and what the turns have shown.
    // `run` makes so many turns, and says how many went as they should.
    pub fn line<F: FnMut(usize) -> usize>(self, work: &str, s: &Store, mut run: F) -> Result<()>
        requires { F.IsAlwaysCallable run }
    {
        let n = calls::counts(*s)?;
        print!(self.rt; "{work} {} {} ", n.frames, n.ranges)?;
        let shown = match self.mode {
            Mode::Turns(turns) => Some(run(turns) as u64),
            Mode::Time => time(&self.rt, run),
        };
        match shown {
            Some(n) => println!(self.rt; "{n}")?,
            None => println!(self.rt; "wrong")?,
        }
        Ok(())
    }
}
