// STANDARD INPUT TO STANDARD OUTPUT, line by line. Input is read in parts of up to 65,536 bytes, each line is answered by `lines::answer`, and what is
// printed is written when a part is done or the buffer is nearly full. So a person at a terminal sees each answer at once, and a pipe gets large writes.
#![tactic(auto)]

ghost use Rattle.std.specs.Prelude.{◌≡◌, [], ◌++◌, ◌+◌, ◌≤◌, ◌<◌, length, OnOk};
ghost use Rattle.arrayvec.specs.ArrayVec.{array_vec_len};
ghost use Rattle.console.specs.Lines.{cut, last};
ghost use Rattle.console.specs.Answers.{Answers, Spoke, Done, Fed};

use arrayvec::ArrayVec;
use std::io::{Read, Stdin};
use store::Store;

// What is kept of a line under way, and how much output is gathered.
const HELD: usize = 513;

const GATHERED: usize = 65536;

// The answer to a line, and a line feed, behind the output.
fn speak(s: &mut Store, pool: &mut [u8], line: &[u8], out: &mut ArrayVec<u8, GATHERED>)
    requires { array_vec_len out.old + 513 ≤ 65536 }
    ensures { Spoke line.now s.old pool.old out.old.items s.new pool.new out.new.items }
{
    let digits = lines::answer(s, pool, line);
    out.try_extend_from_slice(&digits).unwrap();
    out.push(b'\n');
}

// The output could not be written.
#[derive(Clone, Copy)]
struct WriteFailed;

fn write_out(out: &[u8]) -> Result<(), WriteFailed> {
    io::write_all(1, out).then_some(()).ok_or(WriteFailed)
}

// The line program under way: its store and pool, the bytes held of the line under way, and the output gathered.
#[derive(Drop)]
struct Console<'p> {
    store: Store,
    pool: &'p mut [u8],
    held: ArrayVec<u8, HELD>,
    out: ArrayVec<u8, GATHERED>,
}

impl Console<'_> {
    // A line that ends in `part`, whose first bytes may be held. Its first 513 bytes are answered; where none is held, from where they stand.
    fn finish(&mut self, part: &[u8])
        requires { array_vec_len self.old.out + 513 ≤ 65536 }
        ensures held { self.new.held.items ≡ [] }
        ensures spoke { Spoke (cut (self.old.held.items ++ part.now)) self.old.store self.old.pool.now self.old.out.items self.new.store self.new.pool.now self.new.out.items }
    {
        if self.held.is_empty() {
            let n = HELD.min(part.len());
            speak(&mut self.store, self.pool, &part[..n], &mut self.out);
            return;
        }
        lines::hold(&mut self.held, part);
        speak(&mut self.store, self.pool, &self.held, &mut self.out);
        self.held.clear();
    }

    // LINES OF A CHUNK, until the chunk is done or the output is nearly full; what is left of the chunk.
    fn answer_lines<'a>(&mut self, chunk: &'a [u8]) -> &'a [u8]
        requires { 0 < length chunk.now }
        ensures left { length result.now < length chunk.now }
        ensures done { Done self.old.store self.old.pool.now self.old.held.items chunk.now self.new.store self.new.pool.now self.new.held.items result.now self.new.out.items }
    {
        self.out.clear();
        let mut rest = chunk;
        while HELD <= self.out.remaining_capacity() {
            let Some(end) = memchr::memchr(b'\n', rest) else {
                lines::hold(&mut self.held, rest);
                return &[];
            };
            self.finish(&rest[..end]);
            rest = &rest[end + 1..];
        }
        rest
    }

    // A CHUNK OF THE INPUT: every line that ends in it is answered, and the answers are written.
    fn answer_chunk(&mut self, chunk: &[u8]) -> Result<(), WriteFailed>
        ensures { OnOk result (Fed self.old.store self.old.pool.now self.old.held.items chunk.now self.new.store self.new.pool.now self.new.held.items) }
    {
        let mut rest = chunk;
        while !rest.is_empty() {
            rest = self.answer_lines(rest);
            write_out(&self.out)?;
        }
        Ok(())
    }

    // "Lines end in a line feed; the last one's may be missing." At the end of the input, the bytes held are the last line, where there are any.
    fn answer_last(&mut self)
        ensures { Answers self.old.store self.old.pool.now (last self.old.held.items) self.new.out.items self.new.store self.new.pool.now }
    {
        self.out.clear();
        if !self.held.is_empty() {
            speak(&mut self.store, self.pool, &self.held, &mut self.out);
        }
    }

    // Chunk after chunk. A read that fails counts as the end of the input, and a write that fails ends the work. A proved loop has to end, and nothing says that
    // input does: the chunks are counted up to a number that no run reaches. By hand, as replay's loop is: over a closure that is lent each chunk, all of `self` would be the closure's.
    fn answer_all(&mut self, mut input: Stdin, chunk: &mut [u8]) -> Result<(), WriteFailed> {
        for _ in 0..u64::MAX {
            let n = input.read(chunk).unwrap_or(0);
            if n == 0 {
                break;
            }
            self.answer_chunk(&chunk[..n])?;
        }
        self.answer_last();
        write_out(&self.out)
    }
}

// STANDARD INPUT, answered from a store and its pool. A write that fails ends the work, and there is nobody to tell.
pub fn run(input: Stdin, store: Store, pool: &mut [u8]) {
    let mut chunk = io::large_buffer();
    let mut console = Console {
        store,
        pool,
        held: ArrayVec::new(),
        out: ArrayVec::new(),
    };
    let _ = console.answer_all(input, &mut chunk);
}

// "The line program starts with a new store of 16 frames and reads lines .. from standard input".
pub fn start(input: Stdin) {
    let store = calls::create(16).unwrap_or_else(|refused| refused.store);
    let mut pool = io::large_buffer();
    run(input, store, &mut pool);
}
