// Writes the pages of a tree.
ghost use Rattle.std.specs.Prelude.{◌≡◌, ◌≤◌, ◌<◌, ◌+◌, ◌^◌, ℕ, List, length, OnOk, IfOk, IfErr};
ghost use Rattle.bfs_pages.specs.Answers.{IsChild};
ghost use Rattle.bfs_pages.specs.Writes.{Makes, PageSet, HeaderSet, PageAdded, Kept, IsFailed};

use bfs_node::{Header, PAGE, TreeFault};
use bfs_txn::Pages;

/// Writes a page other than the header.
pub fn write_page<P: Pages>(pages: &mut P, at: u64, page: &[u8]) -> Result<(), TreeFault<P::Fault>>
    requires at { IsChild (P.size pages.old) at }
    requires page { length page.now ≡ 1024 }
    ensures made { OnOk result (Makes (P.told pages.old) (P.told pages.new) (λ b c. PageSet b c at page.now)) }
    ensures size { OnOk result (P.size pages.new ≡ P.size pages.old) }
    ensures failed { IfErr result (IsFailed (P.is_cause pages.old pages.new)) }
    ensures kept { Kept (P.counts pages.old) (P.counts pages.new) (P.frame pages.old) (P.frame pages.new) (P.goes_on pages.old pages.new) }
{
    match pages.set(at, page) {
        Ok(()) => Ok(()),
        Err(fault) => Err(TreeFault::Pages(fault)),
    }
}

/// Writes the header, whose other bytes become zero.
pub fn write_header<P: Pages>(pages: &mut P, header: Header) -> Result<(), TreeFault<P::Fault>>
    requires { 1 ≤ P.size pages.old }
    ensures made { OnOk result (Makes (P.told pages.old) (P.told pages.new) (λ b c. HeaderSet b c header)) }
    ensures size { OnOk result (P.size pages.new ≡ P.size pages.old) }
    ensures failed { IfErr result (IsFailed (P.is_cause pages.old pages.new)) }
    ensures kept { Kept (P.counts pages.old) (P.counts pages.new) (P.frame pages.old) (P.frame pages.new) (P.goes_on pages.old pages.new) }
{
    let mut page = [0u8; PAGE];
    header.print(&mut page);
    match pages.set(0, &page) {
        Ok(()) => Ok(()),
        Err(fault) => Err(TreeFault::Pages(fault)),
    }
}

/// Adds a page of zeros at the end of the stream.
pub fn add_page<P: Pages>(pages: &mut P) -> Result<u64, TreeFault<P::Fault>>
    requires { 1 ≤ P.size pages.old }
    ensures at { IfOk result (λ at. at ≡ P.size pages.old) }
    ensures made { OnOk result (Makes (P.told pages.old) (P.told pages.new) (λ b c. (page : List ℕ) × PageAdded b c page)) }
    ensures size { OnOk result (P.size pages.new ≡ P.size pages.old + 1024) }
    ensures failed { IfErr result (IsFailed (P.is_cause pages.old pages.new)) }
    ensures kept { Kept (P.counts pages.old) (P.counts pages.new) (P.frame pages.old) (P.frame pages.new) (P.goes_on pages.old pages.new) }
{
    let page = [0u8; PAGE];
    match pages.append(&page) {
        Ok(at) => Ok(at),
        Err(fault) => Err(TreeFault::Pages(fault)),
    }
}
