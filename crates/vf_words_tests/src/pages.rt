//! The help page and the line of the version.

use std::alloc::Global;
use vf_base::Memory;
use vf_words::{help_page, version_line};

/// The text between two quotes, with a newline for each `~`.
fn quoted_text(alloc: Global, quoted: &str) -> Result<String, Memory> {
    let inner = quoted.trim_matches('\'');
    let mut text = String::new(alloc);
    let mut is_first = true;
    for piece in inner.split('~') {
        if !is_first {
            text.push_str("\n")?;
        }
        text.push_str(piece)?;
        is_first = false;
    }
    Ok(text)
}

/// Whether the help page has a text.
pub fn has(alloc: Global, quoted: &str) -> Result<String, Memory> {
    let piece = quoted_text(alloc, quoted)?;
    let page = String::from_utf8_lossy(alloc, help_page())?;
    let found = page.as_str().contains(piece.as_str());
    Ok(format!(in alloc; "{found}")?)
}

/// Whether the help page fits into 80 columns, and whether it ends with a newline.
pub fn page(alloc: Global) -> Result<String, Memory> {
    let page = String::from_utf8_lossy(alloc, help_page())?;
    let text = page.as_str();
    let fits = text.lines().all(|line| line.len() <= 80);
    let ends = text.ends_with('\n');
    Ok(format!(in alloc; "fits {fits} ends {ends}")?)
}

/// The line of the version.
pub fn version(alloc: Global) -> Result<String, Memory> {
    let line = String::from_utf8_lossy(alloc, version_line())?;
    let text = line.as_str();
    let ends = text.ends_with('\n');
    Ok(format!(in alloc; "{}, newline {ends}", text.trim_end())?)
}
