// The certificate of a book text: the text, and for each edge its forest or its circuit (document 01, "The report, whole").
#![tactic(auto)]

use pager::Kind;

fn main(rt: HostRuntime) {
    let mut input = rt.stdin();
    printing::print(Kind::Certificate, &mut input);
}
