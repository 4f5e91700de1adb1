// Laws of mounting: each is the contract of a function that does nothing.
ghost use Rattle.bfs_mount.specs.Mounts.{MountsBare, RecoversMounted};

/// An image that recovers to a tree is mounted with it, where no byte of a file is known.
pub fn mounts_bare()
    ensures { MountsBare }
{}

/// An image that recovers to a tree is mounted, unless the disk fails or memory is wanting.
pub fn recovers_mounted()
    ensures { RecoversMounted }
{}
