// The cutter: answers the frames of standard input.
#![tactic(auto)]

fn main(rt: HostRuntime) {
    frames::program::run(&mut rt.stdin(), &mut rt.stdout());
}
