// FIT files on standard input, each after its length; whether their records fit, each answer before an empty line, on standard output.
#![tactic(auto)]

fn main(rt: HostRuntime) {
    fit_programs::fits_many(&mut rt.stdin(), &mut rt.stdout(), &mut rt.stderr());
}
