// Laws of refusals for want of room: each is the contract of a function that does nothing.
ghost use Rattle.bfs_run.specs.NewLogs.{NewLogIsLong};
ghost use Rattle.bfs_run.specs.Rooms.{RoomIsFound, TakingWantsNoSpace, LogRoomIsFound};

/// No entry is answered for want of space where the image before it has a free run of four times as many blocks as its call has need of; and one
/// of a call that only takes out never is.
pub fn room_is_found()
    ensures room { RoomIsFound }
    ensures taking { TakingWantsNoSpace }
{}

/// No entry is answered for want of room in the log where the log takes as many blocks as its call has need of there; and so it is on a volume whose
/// log is as long as that of a new one, as long as trees, indices and calls are of modest size.
pub fn log_room_is_found()
    ensures room { LogRoomIsFound }
    ensures long { NewLogIsLong }
{}
