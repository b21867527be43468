// A report on standard input, its outline on standard output.
#![tactic(auto)]

fn main(rt: HostRuntime) {
    outline_programs::outline_one(&mut rt.stdin(), &mut rt.stdout(), &mut rt.stderr());
}
