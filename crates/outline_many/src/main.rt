// Reports on standard input, each after its length; their outlines, each before an empty line, on standard output.
#![tactic(auto)]

fn main(rt: HostRuntime) {
    outline_programs::outline_many(&mut rt.stdin(), &mut rt.stdout(), &mut rt.stderr());
}
