// A FIT file on standard input, whether its record fits its code on standard output.
#![tactic(auto)]

fn main(rt: HostRuntime) {
    fit_programs::fits_one(&mut rt.stdin(), &mut rt.stdout(), &mut rt.stderr());
}
