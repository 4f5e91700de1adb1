// What a call that isn't refused has found.
ghost use Rattle.bfs_rename.specs.Renamed.{RefusalAllows};

/// Where the call has no refusal of its own, both directories and the node are there, the new name is none that is refused, and the node
/// may come there.
pub fn may_be_renamed()
    ensures { RefusalAllows }
{}
