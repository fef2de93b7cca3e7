// The program `report` where a read fails, since what it reads is a folder, opened as a file: nothing is printed. A failed read that were taken for the
// end of the input would be the report of an empty text, `refused=9,1`. Where the folder cannot be opened, the program ends with that error.
#![tactic(auto)]

use pager::Kind;
use std::{fs, io};

fn main(rt: HostRuntime) -> io::Result<()> {
    let mut folder = fs::open(&rt, "/")?;
    printing::print(Kind::Report, &mut folder);
    Ok(())
}
