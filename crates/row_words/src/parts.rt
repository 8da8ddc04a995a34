// The parts of a row.

use crate::error::RowError;
use std::alloc::Global;

/// The words of a row, and behind them the parts that follow bars, each as one word.
pub fn words(alloc: Global, line: &str) -> Result<Vec<&str>, RowError> {
    let mut words = Vec::new(alloc);
    for (place, part) in line.split(" | ").enumerate() {
        if place > 0 {
            words.push(part)?;
            continue;
        }
        for word in part.split(' ') {
            words.push(word)?;
        }
    }
    Ok(words)
}

/// The first word of a row, and what stands behind it, which may be nothing.
pub fn first_word(row: &str) -> (&str, &str) {
    row.split_once(' ').unwrap_or((row, ""))
}

/// The two parts of a row around its first space.
pub fn two_parts(row: &str) -> Result<(&str, &str), RowError> {
    row.split_once(' ').ok_or(RowError::NotUnderstood)
}

/// The two parts of a row around its first bar.
pub fn two_sides(row: &str) -> Result<(&str, &str), RowError> {
    row.split_once(" | ").ok_or(RowError::NotUnderstood)
}

/// A text as it stands, or what stands between its quotes.
pub fn quoted(part: &str) -> &str {
    match part.strip_prefix('"') {
        Some(rest) => rest.strip_suffix('"').unwrap_or(part),
        None => part,
    }
}
