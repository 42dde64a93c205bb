// Every kind of malformed line, and refusals of lines that are well formed: first where nothing is set up, then between the steps of
// the listing, which go on as if they were not there. The last line is malformed and lacks its newline.
//
// Before `n 1` the image is unsound. The others come at stage 0, then the shape of a line at stage 1, its numbers at 2, its bytes and length
// at 3 (one line has 16 bytes, one 17 and one 100,000), and the rest inside and after.
#![tactic(auto)]

fn main(rt: HostRuntime) {
    turning::run(&mut rt.stdin(), &mut rt.stdout());
}
