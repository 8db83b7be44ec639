// The map of free frames: one bit each, in sixteen words of 64. Frame f is bit f % 64 of word f / 64, set while the frame is free.
#![tactic(auto)]

ghost use Rattle.std.specs.Prelude.{◌<◌};
ghost use Rattle.frames.specs.Free.{Top};

// The place of the highest set bit of a word that is not 0.
pub fn top_bit(w: u64) -> usize
    requires { 0 < w }
    ensures { Top w result }
{
    63 - w.leading_zeros() as usize
}
