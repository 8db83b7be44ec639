// The line program again. Its stored run has each code, and each refusal that lines can reach (model/make).
#![tactic(auto)]

fn main(rt: HostRuntime) {
    console::start(rt.stdin());
}
