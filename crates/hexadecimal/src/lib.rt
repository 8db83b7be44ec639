// Hexadecimal: a line of digits to bytes, and bytes to a line of digits.
#![tactic(auto)]

ghost use Rattle.std.specs.Prelude.{◌≡◌, ◌*◌, ◌≤◌, ◌<◌, length, option_map, IfSome};
ghost use Rattle.hexadecimal.specs.Hex.{value_of, bytes_of, digit_of, digits_of};

use arrayvec::ArrayVec;

// A digit's value, in either case; none for another character.
fn value(c: u8) -> Option<u8>
    ensures value { result ≡ value_of c }
    ensures small { IfSome result (λ v. v < 16) }
{
    char::from(c).to_digit(16).map(|v| v as u8)
}

// The bytes of a line of digits; none for a line that is malformed.
pub fn decode(line: &[u8]) -> Option<ArrayVec<u8, 256>>
    requires { length line.now ≤ 512 }
    ensures { option_map (λ v. v.items) result ≡ bytes_of line.now }
{
    let mut bytes = ArrayVec::new();
    for pair in line.chunks(2) {
        let [high, low] = pair else {
            return None;
        };
        bytes.push(value(*high)? * 16 + value(*low)?);
    }
    Some(bytes)
}

// The capital digit of a value. By hand: std's `from_digit` gives small letters, and to raise them and cast back is no shorter.
fn digit(v: u8) -> u8
    requires { v < 16 }
    ensures { result ≡ digit_of v }
{
    if v < 10 { b'0' + v } else { b'A' + (v - 10) }
}

// The digits of bytes, in a buffer as large as the caller needs.
pub fn encode<const N: usize>(bytes: &[u8]) -> ArrayVec<u8, N>
    requires { 2 * length bytes.now ≤ N }
    ensures { result.items ≡ digits_of bytes.now }
{
    let mut digits = ArrayVec::new();
    for b in bytes {
        digits.push(digit(b / 16));
        digits.push(digit(b % 16));
    }
    digits
}
