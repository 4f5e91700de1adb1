// The data stream of an inode: its blocks, by three levels of runs. What a stream's blocks, its array blocks and its
// bytes are, and when it keeps the format, stands in specs/Places.antt.
#![tactic(auto)]

mod count;
mod fault;
mod laws;
mod lookup;
mod put;
mod scan;
mod stream;
mod table;

pub use count::count_used;
pub use fault::{GrowFault, StreamFault};
pub use laws::{emptied_streams, others_stay, others_stay_cut, streams_stay};
pub use lookup::{DIRECT, Ends};
pub use stream::Stream;
pub use table::{MOST_BLOCKS, NO_RUN, Table, Tables, less};
