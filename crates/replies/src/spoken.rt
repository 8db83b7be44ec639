// THE BYTES OF AN ANSWER.
ghost use Rattle.std.specs.Prelude.{◌≡◌, ◌≤◌, length, take};

// The first ones of `bytes`. By hand: an ArrayVec is no `Copy` type.
#[derive(Clone, Copy)]
pub struct Spoken {
    bytes: [u8; 256],
    length: usize,
    ghost few: { length ≤ 256 },
}

impl Spoken {
    pub(crate) fn new(answer: &[u8]) -> Spoken
        requires { length answer.now ≤ 256 }
        ensures { take result.length result.bytes ≡ answer.now }
    {
        let mut bytes = [0; 256];
        bytes[..answer.len()].copy_from_slice(answer);
        Spoken {
            bytes,
            length: answer.len(),
        }
    }

    pub fn as_slice(&self) -> &[u8]
        ensures { result.now ≡ take self.now.length self.now.bytes }
    {
        &self.bytes[..self.length]
    }
}
