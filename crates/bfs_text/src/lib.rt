// The words of a script as they are read (specs/Words.antt), the cutting of lines into words (specs/Cutting.antt), and how
// words, numbers and replies are printed (specs/Printed.antt).
#![tactic(auto)]

mod checks;
mod digits;
mod escapes;
mod path;
mod pieces;
pub mod put;
mod replies;
mod rows;
mod values;
mod words;

pub use checks::{is_bytes, is_key, is_name, is_node, is_path, is_value};
pub use digits::{read_number, read_octal, read_session};
pub use escapes::read_name;
pub use path::Path;
pub use pieces::{Pieces, cut_once};
pub use replies::put_reply;
pub use values::{Value, read_bytes, read_key, read_value};
pub use words::{read_kind, read_node, read_path};
