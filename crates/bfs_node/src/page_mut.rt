// A page that is lent, to be changed.
ghost use Rattle.std.specs.Prelude.{◌≡◌, ◌≤◌, ◌<◌, ◌↔◌, [], length, take, drop, insert, remove, slice_set, IsTrue, IfOk, IfErr};
ghost use Rattle.bfs_base.specs.Keys.{IsKey, IsTreeKind};
ghost use Rattle.bfs_node.specs.Faults.{IsPageRefusal};
ghost use Rattle.bfs_node.specs.Page.{IsPage, HasRoom, page_of, rows_of, row_in, key_of, links_of, null_links, blank_page};

use crate::{KeyKind, PageFault, PageView, check, edit};

/// A page of a tree, to be changed.
///
/// What `of` leaves behind the bytes that it is lent can't be said in its contract. Who has to know it calls
/// `check` first, and then `over`.
pub struct PageMut<'a> {
    page: &'a mut [u8],
    kind: KeyKind,
    ghost good: { IsPage kind page.now },
}

impl<'a> PageMut<'a> {
    /// The page in these bytes, or the first condition that it breaks.
    pub fn of(page: &'a mut [u8], kind: KeyKind) -> Result<PageMut<'a>, PageFault>
        requires size { length page.old ≡ 1024 }
        requires kind { IsTreeKind kind }
        ensures found { IfOk result (λ v. (v.page.now ≡ page.old) × (v.kind ≡ kind) × IsPage kind page.old) }
        ensures refused { IfErr result (IsPageRefusal kind page.old) }
    {
        match check(page, kind) {
            Ok(()) => Ok(PageMut { page, kind }),
            Err(fault) => Err(fault),
        }
    }

    /// The same where the caller knows that it is a page.
    pub fn over(page: &'a mut [u8], kind: KeyKind) -> PageMut<'a>
        requires { IsPage kind page.old }
        ensures same_reference { result.page.ghost_name ≡ page.entry.ghost_name }
        ensures now { result.page.now ≡ page.old }
        ensures kind { result.kind ≡ kind }
    {
        PageMut { page, kind }
    }

    /// Makes the page an empty leaf with three null links.
    pub fn blank(page: &'a mut [u8], kind: KeyKind) -> PageMut<'a>
        requires size { length page.old ≡ 1024 }
        requires kind { IsTreeKind kind }
        ensures same_reference { result.page.ghost_name ≡ page.entry.ghost_name }
        ensures kind { result.kind ≡ kind }
        ensures bytes { result.page.now ≡ blank_page }
        ensures rows { rows_of result.page.now ≡ [] }
        ensures links { links_of result.page.now ≡ null_links }
    {
        edit::blank(page);
        PageMut { page, kind }
    }

    /// The same page, to be read.
    pub fn view(&self) -> PageView<'_>
        ensures { result ≡ page_of self.now.kind self.now.page.now }
    {
        PageView::over(self.page, self.kind)
    }

    /// Whether there is room for one more row, with this key.
    pub fn room(&self, key: &[u8]) -> bool
        ensures { IsTrue result ↔ HasRoom (rows_of self.now.page.now) key.now }
    {
        edit::has_room(self.page, key)
    }

    /// Puts a row in, before the row at this place or behind the last one.
    pub fn insert(&mut self, i: usize, key: &[u8], value: i64)
        requires place { i ≤ length (rows_of self.old.page.now) }
        requires key { IsKey self.old.kind key.now }
        requires room { HasRoom (rows_of self.old.page.now) key.now }
        ensures same_reference { self.new.page.ghost_name ≡ self.old.page.ghost_name }
        ensures kind { self.new.kind ≡ self.old.kind }
        ensures rows { rows_of self.new.page.now ≡ insert (rows_of self.old.page.now) i (key.now, value) }
        ensures links { links_of self.new.page.now ≡ links_of self.old.page.now }
    {
        edit::insert_row(self.page, i, key, value);
    }

    /// Takes the row at a place out.
    pub fn remove(&mut self, i: usize)
        requires { i < length (rows_of self.old.page.now) }
        ensures same_reference { self.new.page.ghost_name ≡ self.old.page.ghost_name }
        ensures kind { self.new.kind ≡ self.old.kind }
        ensures rows { rows_of self.new.page.now ≡ remove (rows_of self.old.page.now) i }
        ensures links { links_of self.new.page.now ≡ links_of self.old.page.now }
    {
        edit::remove_row(self.page, i);
    }

    /// Writes the value of the row at a place.
    pub fn set_value(&mut self, i: usize, value: i64)
        requires { i < length (rows_of self.old.page.now) }
        ensures same_reference { self.new.page.ghost_name ≡ self.old.page.ghost_name }
        ensures kind { self.new.kind ≡ self.old.kind }
        ensures rows { rows_of self.new.page.now ≡ slice_set (rows_of self.old.page.now) i (key_of (row_in (rows_of self.old.page.now) i), value) }
        ensures links { links_of self.new.page.now ≡ links_of self.old.page.now }
    {
        edit::set_row_value(self.page, i, value);
    }

    /// Moves the rows from a place on, in their order, into another page, which becomes a page of the same kind of
    /// keys with three null links.
    pub fn split(&mut self, into: &mut [u8], at: usize)
        requires into { length into.old ≡ 1024 }
        requires place { at ≤ length (rows_of self.old.page.now) }
        ensures same_reference { self.new.page.ghost_name ≡ self.old.page.ghost_name }
        ensures kind { self.new.kind ≡ self.old.kind }
        ensures rows { rows_of self.new.page.now ≡ take at (rows_of self.old.page.now) }
        ensures links { links_of self.new.page.now ≡ links_of self.old.page.now }
        ensures into { IsPage self.old.kind into.new }
        ensures moved { rows_of into.new ≡ drop at (rows_of self.old.page.now) }
        ensures alone { links_of into.new ≡ null_links }
    {
        edit::split_rows(self.page, into, at);
    }

    /// Writes the link to the left.
    pub fn set_left(&mut self, link: i64)
        ensures same_reference { self.new.page.ghost_name ≡ self.old.page.ghost_name }
        ensures kind { self.new.kind ≡ self.old.kind }
        ensures rows { rows_of self.new.page.now ≡ rows_of self.old.page.now }
        ensures links { links_of self.new.page.now ≡ record (links_of self.old.page.now) { left = link } }
    {
        edit::set_left_link(self.page, link);
    }

    /// Writes the link to the right.
    pub fn set_right(&mut self, link: i64)
        ensures same_reference { self.new.page.ghost_name ≡ self.old.page.ghost_name }
        ensures kind { self.new.kind ≡ self.old.kind }
        ensures rows { rows_of self.new.page.now ≡ rows_of self.old.page.now }
        ensures links { links_of self.new.page.now ≡ record (links_of self.old.page.now) { right = link } }
    {
        edit::set_right_link(self.page, link);
    }

    /// Writes the overflow link.
    pub fn set_overflow(&mut self, link: i64)
        ensures same_reference { self.new.page.ghost_name ≡ self.old.page.ghost_name }
        ensures kind { self.new.kind ≡ self.old.kind }
        ensures rows { rows_of self.new.page.now ≡ rows_of self.old.page.now }
        ensures links { links_of self.new.page.now ≡ record (links_of self.old.page.now) { overflow = link } }
    {
        edit::set_overflow_link(self.page, link);
    }
}

impl Drop for PageMut<'_> {
    fn drop(self)
        ensures { self.exit.0.now ≡ self.entry.page.now }
    {
        let PageMut { page: _, kind: _ } = self;
    }
}
