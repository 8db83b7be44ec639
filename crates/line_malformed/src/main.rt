// The line program again. Its stored run has each malformed form, lines far longer than any buffer, and lines across the parts that input is read in (model/make).
#![tactic(auto)]

fn main(rt: HostRuntime) {
    console::start(rt.stdin());
}
