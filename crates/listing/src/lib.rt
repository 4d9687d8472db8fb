// Listing the permitted combinations of a book by pages: the cursor and its moves, and the page.
#![tactic(auto)]

mod cursor;
mod groups;
mod paging;
mod prefix;
mod scan;
mod sorting;
mod start;
mod steps;
mod values;
mod walk;

pub use cursor::Cursor;
pub use paging::{Listed, Paged, Unlisted, page};
