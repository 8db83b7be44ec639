// THE STORE, driven by lists of calls from the standard input, in the form of the line program. A line of `=` and four digits starts a list: a new store of so
// many frames. After each line it prints the answer, then what the store holds, then a full stop:
//     o NAME                                each live object
//     r START LENGTH OFFSET HOLDER s|p      each of its ranges: the backing is named by the slot of its first holder; shared or private
//     p PAGE FRAME HASH                     each present page of the range, by frame
// Numbers are hexadecimal. rust/harness prints the same of the original, and compares.
#![tactic(auto)]

ghost use Rattle.std.specs.Prelude.{◌≤◌, ◌<◌, length, IfSome};

mod output;

use arrayvec::ArrayVec;
use output::{Holdings, Output};
use page::PageNumber;
use std::fmt::{self, Write};
use store::Store;

// The bytes of 1,024 frames.
const POOL: usize = 4194304;

// What a store holds, printed.
fn tell(out: &mut Output, store: &Store, pool: &[u8]) -> fmt::Result {
    Holdings { store, pool }.tell(out)
}

// A digit's value; what is no digit counts as 0. By hand: std's `to_digit` takes small letters for digits too.
fn digit(b: u8) -> usize
    ensures { result < 16 }
{
    match b {
        b'0'..=b'9' => usize::from(b - b'0'),
        b'A'..=b'F' => usize::from(b - b'A') + 10,
        _ => 0,
    }
}

// The number of frames in a line that starts a list, of its last four digits; none for another line.
fn asked(line: &[u8]) -> Option<usize>
    ensures { IfSome result (λ n. n < 65536) }
{
    let digits = line.strip_prefix(b"=")?;
    Some(digits.iter().fold(0, |n, b| n % 4096 * 16 + digit(*b)) % 65536)
}

// The lists under way: the store and the pool, the bytes held of the line under way, as many as there is room for, and the output.
#[derive(Drop)]
struct Replay<'p> {
    store: Store,
    pool: &'p mut [u8],
    line: ArrayVec<u8, 1024>,
    out: Output,
}

impl Replay<'_> {
    // How many bytes of the pool belong to the store.
    fn pool_length(&self) -> usize
        ensures { result ≤ length self.now.pool.now }
    {
        let bytes = self.store.frames.min(1024) * PageNumber::PAGE_SIZE;
        bytes.min(self.pool.len())
    }

    // A list is started; the answer is a call's.
    fn start(&mut self, frames: usize) -> fmt::Result {
        let (number, store) = match calls::create(frames) {
            Ok(store) => (0, store),
            Err(refused) => (u8::from(refused.refusal), refused.store),
        };
        self.store = store;
        write!(self.out, "{number:02X}")
    }

    // The answer to the line.
    fn answer(&mut self) -> fmt::Result {
        if let Some(frames) = asked(&self.line) {
            return self.start(frames);
        }
        let n = self.pool_length();
        let digits = lines::answer(&mut self.store, &mut self.pool[..n], &self.line);
        self.out.put(&digits)
    }

    // The answer to the line, and what the store holds then. By hand: tried, `&self.pool[..n]` beside `&mut self.out` is refused by the
    // borrow check.
    fn finish_line(&mut self) -> fmt::Result {
        self.answer()?;
        self.line.clear();
        self.out.write_str("\n")?;
        let n = self.pool_length();
        tell(&mut self.out, &self.store, &mut self.pool[..n])?;
        self.out.flush_much();
        Ok(())
    }

    // A chunk of the input: every line that ends in it.
    fn read_chunk(&mut self, chunk: &[u8]) -> fmt::Result {
        for part in chunk.split_inclusive(|b| *b == b'\n') {
            match part {
                [line @ .., b'\n'] => {
                    lines::hold(&mut self.line, line);
                    self.finish_line()?;
                }
                _ => lines::hold(&mut self.line, part),
            }
        }
        Ok(())
    }

    // Chunk after chunk, each filled as far as the input goes. A read that fails counts as the end of the input. A proved loop has to end, and nothing says that input
    // does: the chunks are counted up to a number that no run reaches. By hand, as the console's loop is: over a closure that is lent each part, all of `self` would be
    // the closure's.
    fn read_all(&mut self) -> fmt::Result {
        let mut chunk = [0; 65536];
        for _ in 0..u64::MAX {
            let n = io::read_full(0, &mut chunk);
            if n == 0 {
                break;
            }
            self.read_chunk(&chunk[..n])?;
        }
        self.out.flush();
        Ok(())
    }
}

// A function of its own: what is lent here is any array, and a proof in `main` would write out the zeros.
fn run(pool: &mut [u8; POOL]) {
    let mut replay = Replay {
        store: calls::create(1).unwrap_or_else(|refused| refused.store),
        pool,
        line: ArrayVec::new(),
        out: Output::new(),
    };
    let _ = replay.read_all();
}

fn main() {
    let mut pool = [0; POOL];
    run(&mut pool);
}
