// The report program, run on a text that is refused: the two ends of its edge are one body.
#![tactic(auto)]

use pager::Kind;

fn main(rt: HostRuntime) {
    let mut input = rt.stdin();
    printing::print(Kind::Report, &mut input);
}
