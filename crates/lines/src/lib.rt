// ONE LINE OF THE LINE PROGRAM: the call that it asks for is made, and its answer is put into digits. Any store, any pool and any line.
#![tactic(auto)]

ghost use Rattle.std.specs.Prelude.{◌≡◌, ◌++◌, ◌≤◌, take};
ghost use Rattle.arrayvec.specs.ArrayVec.{array_vec_len};
ghost use Rattle.replies.specs.Line.{parse};
ghost use Rattle.replies.specs.Replies.{Replied, bytes_of};
ghost use Rattle.lines.specs.Did.{LineDid};

use arrayvec::ArrayVec;
use replies::{Command, Spoken};
use store::Store;

// The bytes of a line's answer.
fn replied(s: &mut Store, pool: &mut [u8], line: &[u8]) -> Spoken
    ensures { Replied (parse line.now) s.old pool.old (bytes_of result) s.new pool.new }
{
    if 512 < line.len() {
        return replies::malformed();
    }
    let Some(bytes) = hexadecimal::decode(line) else {
        return replies::malformed();
    };
    let Some(command) = Command::parse(&bytes) else {
        return replies::malformed();
    };
    replies::answer(s, pool, command)
}

// The digits of a line's answer.
pub fn answer(s: &mut Store, pool: &mut [u8], line: &[u8]) -> ArrayVec<u8, 512>
    ensures bound { array_vec_len result ≤ 512 }
    ensures did { LineDid line.now s.old pool.old result.items s.new pool.new }
{
    hexadecimal::encode(replied(s, pool, line).as_slice())
}

// The bytes of `part` behind those that are held of a line, as many as there is room for.
pub fn hold<const N: usize>(held: &mut ArrayVec<u8, N>, part: &[u8])
    ensures { held.new.items ≡ take N (held.old.items ++ part.now) }
{
    let n = held.remaining_capacity().min(part.len());
    held.try_extend_from_slice(&part[..n]).unwrap();
}
