//! Scripts, and what is printed of each: tests of the daemon. Standard input has sections. A line `== NAME` begins one, and the lines behind
//! it are a script as `mdnsd script` plays it. A line `only "B" "B" ..` among them asks for those lines of the transcript alone that begin
//! with one of these, each behind the moment of its entry.
#![tactic(auto)]

mod script_error;
mod section;
mod shown;

use crate::script_error::ScriptError;
use crate::section::Section;

fn main(rt: HostRuntime) -> Result<(), ScriptError> {
    let alloc = rt.alloc();
    let mut section = Section::new(alloc);
    for line in rt.lines(alloc) {
        let line = line?;
        if line.starts_with("== ") {
            let shown = section.shown(alloc)?;
            println!(rt; "{shown}{line}")?;
            section = Section::new(alloc);
        } else {
            section.take_line(alloc, &line)?;
        }
    }
    let shown = section.shown(alloc)?;
    print!(rt; "{shown}")?;
    Ok(())
}
