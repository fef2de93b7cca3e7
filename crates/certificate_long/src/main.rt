// The certificate program, run on more than it reads: 10,172 bytes, of which the first 6,172 are the longest book text that there is, and more edges follow.
// It is refused for the first of these, in line 517; a program that read 6,172 bytes or fewer would take it for a book or refuse an earlier line.
#![tactic(auto)]

use pager::Kind;

fn main(rt: HostRuntime) {
    let mut input = rt.stdin();
    printing::print(Kind::Certificate, &mut input);
}
