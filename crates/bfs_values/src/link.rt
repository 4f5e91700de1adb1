// What a value of a leaf names.
ghost use Rattle.std.specs.Prelude.{◌≡◌, ◌↔◌, IsTrue};
ghost use Rattle.bfs_values.specs.Kinds.{IsNamed};
ghost use Rattle.bfs_values.specs.Links.{link_in};

use bfs_pages::is_child;

/// What a value of a leaf names. A page is named by the byte of the stream at which it begins.
#[derive(Clone, Copy, Debug, PartialEq, Eq)]
pub enum Link {
    /// A plain number.
    Number(u64),
    /// One of the 16 fragments of a fragment page.
    Fragment { page: u64, index: u64 },
    /// The first page of a chain of duplicate pages.
    Chain { page: u64 },
    /// A link type that means nothing.
    Nothing,
}

/// What a value names.
#[tactic(auto, unfolding(crate::specs::Links::link_in))]
pub fn link_of(value: i64) -> Link
    ensures { result ≡ link_in value }
{
    let bits = value.cast_unsigned();
    let kind = bits / (1 << 62);
    let page = bits % (1 << 62) / 1024 * 1024;
    if kind == 0 {
        Link::Number(bits)
    } else if kind == 2 {
        Link::Chain { page }
    } else if kind == 3 {
        Link::Fragment {
            page,
            index: bits % 1024,
        }
    } else {
        Link::Nothing
    }
}

/// Whether a value is a plain number, or leads to a page of a stream with so many bytes.
pub fn is_named(value: i64, size: u64) -> bool
    ensures { IsTrue result ↔ IsNamed size (link_in value) }
{
    match link_of(value) {
        Link::Number(_) => true,
        Link::Fragment { page, .. } => is_child(page, size),
        Link::Chain { page } => is_child(page, size),
        Link::Nothing => false,
    }
}
