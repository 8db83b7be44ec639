// How a program of cases says whether a case went right: its line. The name of a case is text or bytes.
#![tactic(auto)]

use std::convert::AsSlice;

pub fn report<N: AsSlice<u8> + Drop>(name: N, right: bool) {
    io::write_all(1, name.as_slice());
    io::write_all(1, if right { " ok\n" } else { " WRONG\n" }.as_bytes());
}
