// One module goes in and out until the log holds 256. The 257th time it joins, but its admission is refused 5, twice: the lock word at the end
// is 1, and the log has 256 entries.
//
// Each time is the listing: `a`, stages 1, 2, 19 and 3, `r`, stages 14, 15 and 16.
#![tactic(auto)]

fn main(rt: HostRuntime) {
    turning::run(&mut rt.stdin(), &mut rt.stdout());
}
