// Pages of a B+tree: the header, and a page as the list of its rows, each a key and a value, and three links.
// What the rows of a page are, `rows_of` of specs/Page.antt says, and which bytes are a page, `IsPage` there.
// A search goes by the order of keys; a writer changes its row or link alone.
#![tactic(auto)]

mod check_page;
mod edit;
mod fault;
mod header;
mod links;
mod lookup;
mod page_mut;
mod read;
mod view;
mod write;

pub use bfs_base::KeyKind;
pub use check_page::{check, is_key};
pub use edit::{
    blank, free_bytes, has_room, insert_row, remove_row, set_left_link, set_overflow_link,
    set_right_link, set_row_value, split_rows,
};
pub use fault::{PageFault, PageKind, TreeFault};
pub use header::{Header, PAGE, data_type};
pub use links::{Links, NULL_LINKS};
pub use lookup::{compare, search};
pub use page_mut::PageMut;
pub use read::{
    key_bytes, left_link, overflow_link, page_links, right_link, row_count, row_key, row_value,
};
pub use view::PageView;
