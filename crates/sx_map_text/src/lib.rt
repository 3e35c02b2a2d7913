//! The text of `map`: each byte of each page of a moment by its label.
#![tactic(auto)]

mod headless;
mod map_lines;
mod page_map_lines;
mod summing;
mod totals;

pub use headless::{HeadlessLines, headless_totals};
pub use map_lines::MapLines;
pub use page_map_lines::{PageMapLines, put_absent_line};
pub use summing::map_totals;
pub use totals::{MapTotals, put_totals_line};

#[cfg(test)]
mod tests;
