// Places of pages, and links to them.
ghost use Rattle.std.specs.Prelude.{◌≡◌, ◌↔◌, IsTrue};
ghost use Rattle.bfs_pages.specs.Answers.{IsChild, IsLink};
ghost use Rattle.bfs_pages.specs.Trees.{place_of};

/// The place that a link names: 0, where the header is, for -1, and 1, where no page begins, for what can be no
/// link.
pub fn place(link: i64) -> u64
    ensures { result ≡ place_of link }
{
    if link == -1 {
        0
    } else if link <= 0 {
        1
    } else {
        link as u64
    }
}

/// Whether a page other than the header begins at this byte of a stream with so many bytes.
pub fn is_child(at: u64, length: u64) -> bool
    ensures { IsTrue result ↔ IsChild length at }
{
    1 <= at && at < length && at % 1024 == 0
}

/// The same, or none.
pub fn is_link(at: u64, length: u64) -> bool
    ensures { IsTrue result ↔ IsLink length at }
{
    at == 0 || is_child(at, length)
}
