// Scripts of a volume's commands (specs/Scripts.antt), and the text of a history (specs/Texts.antt). A script keeps its bytes,
// and for each line with a command where it stands (specs/Places.antt).
#![tactic(auto)]

mod fault;
mod laws;
mod lines;
mod reading;
mod script;
mod texts;

pub use fault::ScriptFault;
pub use laws::lines_are_in_form;
pub use reading::{parse, parse_vec};
pub use script::Script;
pub use texts::{is_quiet, text};
