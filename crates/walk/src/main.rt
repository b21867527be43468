// A report on standard input, its listing on standard output.
#![tactic(auto)]

use programs::Text;

fn main(rt: HostRuntime) {
    programs::answer_one(
        &mut rt.stdin(),
        &mut rt.stdout(),
        &mut rt.stderr(),
        Text::Listing,
    );
}
