// Why a call on a tree in a stream is refused.
use bfs_node::TreeFault;
use bfs_stream::GrowFault;

/// The fault of a tree whose pages are those of a stream.
pub type MapFault = TreeFault<GrowFault>;
