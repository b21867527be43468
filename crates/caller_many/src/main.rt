// Reports on standard input, each after its length; the caller of each one's first frame, before an empty line, on standard output.
#![tactic(auto)]

use programs::Text;

fn main(rt: HostRuntime) {
    programs::answer_many(
        &mut rt.stdin(),
        &mut rt.stdout(),
        &mut rt.stderr(),
        Text::Caller,
    );
}
