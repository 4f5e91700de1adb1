// Pieces of files, over a space and its device: a piece is held, written or read beside the groups, and let go, in one go (src/pieces.rt) or a block at a time
// between events (src/open.rt).
#![tactic(auto)]

mod open;
mod pieces;

pub use bfs_commit as commit;
pub use bfs_commit::space as space;
pub use open::{OpenPiece, make_next};
pub use pieces::{LARGEST, Piece, ask_hold, hold_of, is_taken, let_go, read, size_of, write};
