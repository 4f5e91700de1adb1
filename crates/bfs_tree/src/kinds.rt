// Which calls change the tree, and what replies say.
ghost use Rattle.std.specs.Prelude.{◌≡◌};
ghost use Rattle.bfs_tree.specs.Steps.{changes_tree, is_by_disk, is_done, is_for_room};

use crate::{Call, Reply};

impl Call {
    /// The call changes the tree where it is done; a hold for writing does, by its file's stamps.
    pub fn changes_tree(&self) -> bool
        ensures { result ≡ changes_tree self.now }
    {
        match self {
            Call::Make { .. } => true,
            Call::Remove { .. } => true,
            Call::Rename { .. } => true,
            Call::SetMode { .. } => true,
            Call::SetSize { .. } => true,
            Call::AttrWrite { .. } => true,
            Call::AttrRemove { .. } => true,
            Call::IndexMake { .. } => true,
            Call::IndexRemove { .. } => true,
            Call::Hold { write, .. } => *write,
            _ => false,
        }
    }
}

impl Reply {
    /// It is a refusal by the disk.
    pub fn is_by_disk(&self) -> bool
        ensures { result ≡ is_by_disk self.now }
    {
        matches!(self, Reply::DiskFault { .. } | Reply::Stopped { .. })
    }

    /// It is a refusal for want of space or of room in the log.
    pub fn is_for_room(&self) -> bool
        ensures { result ≡ is_for_room self.now }
    {
        matches!(self, Reply::NoSpace { .. } | Reply::NoLogRoom { .. })
    }

    /// It is the reply of a call that is done.
    pub fn is_done(&self) -> bool
        ensures { result ≡ is_done self.now }
    {
        match self {
            Reply::Made { .. } => true,
            Reply::Done => true,
            Reply::Found { .. } => true,
            Reply::Names { .. } => true,
            Reply::Info { .. } => true,
            Reply::Target { .. } => true,
            Reply::Attr { .. } => true,
            Reply::Attrs { .. } => true,
            Reply::Indices { .. } => true,
            Reply::Rows { .. } => true,
            Reply::Synced { .. } => true,
            _ => false,
        }
    }
}
