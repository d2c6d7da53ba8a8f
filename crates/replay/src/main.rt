// The cutter over some thousands of frames of every kind; a second implementation gave the expected output. A program of its own, since a program
// is tested with one input.
#![tactic(auto)]

fn main(rt: HostRuntime) {
    frames::program::run(&mut rt.stdin(), &mut rt.stdout());
}
