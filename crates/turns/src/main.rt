// The program `turns` of 01. Its stdin and stdout here are 01's own listing, with the step that R-1 adds.
#![tactic(auto)]

fn main(rt: HostRuntime) {
    turning::run(&mut rt.stdin(), &mut rt.stdout());
}
