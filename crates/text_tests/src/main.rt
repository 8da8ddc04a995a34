//! Worked rows of TXT data, service names, scripts and the words of `mdnsd serve`: each row is printed with what came of it.
#![tactic(auto)]

mod rows;
mod scripts;
mod service_names;
mod txt_data;

use crate::rows::printed;
use crate::txt_data::TxtKept;
use row_words::RowError;

fn main(rt: HostRuntime) -> Result<(), RowError> {
    let alloc = rt.alloc();
    let mut kept = TxtKept::new(alloc);
    for line in rt.lines(alloc) {
        let line = line?;
        match printed(alloc, &mut kept, line.as_str()) {
            Ok(text) => println!(rt; "{text}")?,
            Err(error) => {
                eprintln!(rt; "{error}: {line}")?;
                return Err(error);
            }
        }
    }
    Ok(())
}
