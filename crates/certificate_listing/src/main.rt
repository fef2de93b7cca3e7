// The certificate program, run on the text that document 01 lists ("The report, whole"). Not here: a text of 512 edges, whose pages are many (crate certificate).
#![tactic(auto)]

use pager::Kind;

fn main(rt: HostRuntime) {
    let mut input = rt.stdin();
    printing::print(Kind::Certificate, &mut input);
}
