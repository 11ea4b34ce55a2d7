// The journal page of a disk: each of its lines laid into a lent buffer, column by column. Paper 02, requests (a) and (b).
#![tactic(auto)]

mod disk_lines; // the page of a disk: how many lines, and each of them
mod fields; // the fields of the head, of a transaction, of a journal's end and of a refusal
mod line; // any line: the byte at each column
mod page_text; // the whole page, line behind line

pub use disk_lines::{MAX_LINES, page_line, page_lines};
pub use line::{Field, LINE_SIZE, Shown, lay_line};
pub use page_text::lay_page;
