//! How much memory the process holds, read from the files of `/proc`.
use std::rt::Files;
use std::{fs, io};

const PAGE: u64 = 4096;

/// Returns the bytes of memory that the process holds.
pub fn resident(rt: &(impl Files + Alloc)) -> io::Result<u64> {
    let text = fs::read_to_string(rt, "/proc/self/statm")?;
    let pages = match text.as_str().split(' ').nth(1) {
        Some(word) => word.parse::<u64>().unwrap_or(0),
        None => 0,
    };
    Ok(pages.saturating_mul(PAGE))
}

/// Returns the number that `row` begins with, after spaces, or 0.
fn leading_number(row: &str) -> u64 {
    match row.split_whitespace().next() {
        Some(word) => word.parse::<u64>().unwrap_or(0),
        None => 0,
    }
}

/// Returns the rest of the row that begins with `name`, or `None` if no row does.
fn row_after<'a>(text: &'a str, name: &str) -> Option<&'a str> {
    for row in text.lines() {
        if let Some(rest) = row.strip_prefix(name) {
            return Some(rest);
        }
    }
    None
}

/// Returns the greatest number of bytes that the process has held.
pub fn most_resident(rt: &(impl Files + Alloc)) -> io::Result<u64> {
    let text = fs::read_to_string(rt, "/proc/self/status")?;
    let kibibytes = match row_after(text.as_str(), "VmHWM:") {
        Some(rest) => leading_number(rest),
        None => 0,
    };
    Ok(kibibytes.saturating_mul(1024))
}
