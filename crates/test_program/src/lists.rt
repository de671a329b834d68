//! Lists as text.

/// Adds an item to a list, with a gap before it unless it is the first.
pub fn add(text: &mut String, gap: &str, item: &str) -> Option<()> {
    if !text.is_empty() {
        text.push_str(gap).ok()?;
    }
    text.push_str(item).ok()
}

/// Returns the text with the lines behind it, each after a `|`.
pub fn with_lines(mut text: String, lines: &str) -> Option<String> {
    for line in lines.lines() {
        add(&mut text, " | ", line)?;
    }
    Some(text)
}
