// Reports on standard input, each after its length; their listings, each before an empty line, on standard output.
#![tactic(auto)]

use programs::Text;

fn main(rt: HostRuntime) {
    programs::answer_many(
        &mut rt.stdin(),
        &mut rt.stdout(),
        &mut rt.stderr(),
        Text::Listing,
    );
}
