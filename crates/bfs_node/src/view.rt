// A page that is lent, to be read.
ghost use Rattle.std.specs.Prelude.{◌≡◌, ◌<◌, length, IfOk, IfErr};
ghost use Rattle.bfs_base.specs.Keys.{IsTreeKind};
ghost use Rattle.bfs_node.specs.Faults.{IsPageRefusal};
ghost use Rattle.bfs_node.specs.Page.{IsPage, page_of, row_in, key_of, value_of};
ghost use Rattle.bfs_node.specs.Search.{IsSought, Ascends, IsPlace, IsInRows};

use crate::lookup::search;
use crate::read::{left_link, overflow_link, right_link, row_count, row_key, row_value};
use crate::{KeyKind, PageFault, check};
use std::marker::Model;

/// A page of a tree, to be read. Contracts see the kind of its keys, its rows and its links.
#[derive(Drop)]
pub struct PageView<'a> {
    page: &'a [u8],
    kind: KeyKind,
}

impl<'a> Model for PageView<'a> {
    ghost use Rattle.bfs_node.specs.Page.{Page, page_of, IsPage};

    ghost Value = { Page };

    ghost view = { λ v. page_of v.kind v.page.now };

    ghost invariant = { λ v. IsPage v.kind v.page.now };
}

impl<'a> PageView<'a> {
    /// The page in these bytes, or the first condition that it breaks.
    pub fn of(page: &'a [u8], kind: KeyKind) -> Result<PageView<'a>, PageFault>
        requires size { length page.now ≡ 1024 }
        requires kind { IsTreeKind kind }
        ensures found { IfOk result (λ v. (v ≡ page_of kind page.now) × IsPage kind page.now) }
        ensures refused { IfErr result (IsPageRefusal kind page.now) }
    {
        match check(page, kind) {
            Ok(()) => Ok(PageView { page, kind }),
            Err(fault) => Err(fault),
        }
    }

    /// The same where the caller knows that it is a page.
    pub fn over(page: &'a [u8], kind: KeyKind) -> PageView<'a>
        requires { IsPage kind page.now }
        ensures { result ≡ page_of kind page.now }
    {
        PageView { page, kind }
    }

    /// How many rows there are.
    pub fn count(&self) -> usize
        ensures { result ≡ length self.now.rows }
    {
        row_count(self.page)
    }

    /// The key of the row at a place.
    pub fn key(&self, i: usize) -> &[u8]
        requires { i < length self.now.rows }
        ensures { result.now ≡ key_of (row_in self.now.rows i) }
    {
        let page = self.page;
        row_key(page, i)
    }

    /// The value of the row at a place.
    pub fn value(&self, i: usize) -> i64
        requires { i < length self.now.rows }
        ensures { result ≡ value_of (row_in self.now.rows i) }
    {
        row_value(self.page, i)
    }

    /// The page to the left, or -1.
    pub fn left(&self) -> i64
        ensures { result ≡ self.now.links.left }
    {
        left_link(self.page)
    }

    /// The page to the right, or -1.
    pub fn right(&self) -> i64
        ensures { result ≡ self.now.links.right }
    {
        right_link(self.page)
    }

    /// The last child of an interior page; -1 of a leaf, and -2 of a free page.
    pub fn overflow(&self) -> i64
        ensures { result ≡ self.now.links.overflow }
    {
        overflow_link(self.page)
    }

    /// The place of a key where the keys strictly ascend, or the place where it would stand.
    pub fn search(&self, key: &[u8]) -> Result<usize, usize>
        requires { IsSought self.now.kind key.now }
        ensures inside { IsInRows self.now.rows result }
        ensures place { Ascends self.now.kind self.now.rows → IsPlace self.now.kind self.now.rows key.now result }
    {
        search(self.page, self.kind, key)
    }
}
