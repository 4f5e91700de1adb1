// Pieces of files over a device with a journal: the bytes of a piece are read from the blocks that have them, or written there, beside
// the groups, one block a disk call. Where the bytes of a piece stand in its blocks is `IsPieceOf` in specs/Pieces.antt; that a file has
// these blocks is `IsHeldPiece`. A write keeps Core and every known byte, whether it succeeds or fails, where no byte of the piece is
// known. What is done to one block is in src/block.rt.
#![tactic(auto)]

mod block;
mod piece;

pub use block::{read_block, read_part};
pub use piece::{read_piece, write_block, write_piece};
