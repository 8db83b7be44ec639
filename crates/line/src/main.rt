// THE LINE PROGRAM: one call a line of hexadecimal from standard input, one answer a line to standard output. Its stored run is 01's example.
#![tactic(auto)]

fn main(rt: HostRuntime) {
    console::start(rt.stdin());
}
