// The report of a book text: one line for each edge, then the figures of the whole (document 01, "The report, whole").
#![tactic(auto)]

use pager::Kind;

fn main(rt: HostRuntime) {
    let mut input = rt.stdin();
    printing::print(Kind::Report, &mut input);
}
