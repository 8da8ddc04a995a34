// Which lines are rows.

/// Whether a line is a row; an empty one, and one that begins with `#`, is printed as it stands.
pub fn is_row(line: &str) -> bool {
    !line.is_empty() && !line.starts_with('#')
}
