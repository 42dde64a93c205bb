// B7 of the bench table as R-1 has it, then B1 to B4; then, of 64 modules, equals and a higher priority behind one that is inside. They are
// admitted by priority, and equals in order of joining. The last line is a command and lacks its newline.
//
// The stages, by 01's table and R-1: 1 and 64 find the lock free, and go through 1, 2, 19, 3. 2 and 10 (priority 5), and in B7 3 (priority 20), go
// through 1, 2, 4, 5, 6, 8, 9, 11, and wait at 12. 3 and 63 (priority 8) look at one more, which is below: 1, 2, 4, 5, 6, 7, 8, 9, 11, 12.
// 9 (priority 5) passes 10, its equal: 1, 2, 4, 5, 6, 7, 5, 6, 8, 9, 11, 12. A release with a successor goes through 14 to 18.
#![tactic(auto)]

fn main(rt: HostRuntime) {
    turning::run(&mut rt.stdin(), &mut rt.stdout());
}
