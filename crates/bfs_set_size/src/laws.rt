// How the steps of a call are put together that gives a file another size.
ghost use Rattle.bfs_set_size.specs.Laws.{GoesOnResizes, ResizesTwice, ResizingIsLeft, SizedIsLeft};

/// A step that gives nothing back is one that may give a file another size.
pub fn goes_on_resizes()
    ensures { GoesOnResizes }
{}

/// Two steps were made.
pub fn resizes_twice()
    ensures { ResizesTwice }
{}

/// A call ends, and has given a file another size.
pub fn resizing_is_left()
    ensures { ResizingIsLeft }
{}

/// The whole call has ended.
pub fn sized_is_left()
    ensures { SizedIsLeft }
{}
