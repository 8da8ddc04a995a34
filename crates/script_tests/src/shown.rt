// Lines of a transcript.
use std::alloc::{AllocError, Global};

/// The lines of a transcript that begin in one of these ways, `"B" "B" ..`, each behind the moment of its entry.
pub fn lines_with(alloc: Global, transcript: &str, beginnings: &str) -> Result<String, AllocError> {
    let mut found = String::new(alloc);
    for entry in transcript.trim_start_matches('@').split("\n@") {
        push_lines(&mut found, entry, beginnings)?;
    }
    Ok(found)
}

// Adds such lines of an entry, which begins with its moment.
fn push_lines(found: &mut String, entry: &str, beginnings: &str) -> Result<(), AllocError> {
    let moment = entry.split(' ').next().unwrap_or(entry);
    for line in entry.lines().skip(1) {
        if begins(line, beginnings) {
            found.push_str(moment)?;
            found.push_str(line)?;
            found.push('\n')?;
        }
    }
    Ok(())
}

// Whether a line begins in one of the ways that stand there in quotes.
fn begins(line: &str, beginnings: &str) -> bool {
    for beginning in beginnings.trim_matches('"').split("\" \"") {
        if line.starts_with(beginning) {
            return true;
        }
    }
    false
}
