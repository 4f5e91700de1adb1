// Whether an attribute directory names just one attribute.
ghost use Rattle.std.specs.Prelude.{◌≡◌, ◌<◌, ◌==◌, ℕ, List, Option, Some, length, IfErr, MatchResult};
ghost use Rattle.std.specs.List.{filter};
ghost use Rattle.bfs_base.specs.declared.kind.KeyKind.TheVariants.{Text};
ghost use Rattle.bfs_super.specs.Conditions.{IsValid, natural};
ghost use Rattle.bfs_super.specs.Geometry.{geometry_of};
ghost use Rattle.bfs_txn.specs.Faults.{AreLater};
ghost use Rattle.bfs_maps.specs.Mapped.{HasReadable};
ghost use Rattle.bfs_maps.specs.Refused.{IsUndone, HasReadCause};
ghost use Rattle.bfs_make.specs.Sites.{stream_in};
ghost use Rattle.bfs_sound.specs.Inodes.{is_proper, proper_rows};
ghost use Rattle.bfs_attr.specs.Bearers.{volume_at};
ghost use Rattle.bfs_attr.specs.Refused.{HasRows};

use bfs_make::Site;
use bfs_maps::{TreeAt, rows_from};
use bfs_node::KeyKind;
use bfs_range::Ranged;
use bfs_stream_pages::MapFault;
use bfs_txn::Blocks;

/// Is it a name but `.` and `..`?
fn is_proper_name(name: &[u8]) -> bool
    ensures { result ≡ is_proper name.now }
{
    !(name == b".".as_slice() || name == b"..".as_slice())
}

/// Has just one row a name but `.` and `..`?
fn is_one(ranged: &Ranged) -> bool
    ensures { result ≡ (length (filter (λ row. is_proper row.key) ranged.now) == 1) }
{
    let mut found = false;
    for row in ranged.as_slice() {
        if is_proper_name(row.key.as_slice()) {
            if found {
                return false;
            }
            found = true;
        }
    }
    found
}

/// Does the attribute directory at a block name just one attribute? The rows `.` and `..` are passed over.
pub(crate) fn names_one<B: Blocks>(
    site: Site,
    under: &mut B,
    directory: u64,
) -> Result<bool, MapFault>
    requires valid { IsValid site.sup }
    requires inside { directory < natural site.sup.num_blocks }
    requires size { B.size under.old ≡ site.sup.block_size }
    requires stream { (m : ℕ → Option (List ℕ)) → B.told under.old ≡ Some m → HasReadable (stream_in site directory) m }
    ensures found { (m : ℕ → Option (List ℕ)) → B.told under.old ≡ Some m → HasRows (volume_at (geometry_of site.sup) m) directory → MatchResult result (λ one. one ≡ (length (proper_rows (volume_at (geometry_of site.sup) m) directory) == 1)) IsUndone }
    ensures told { B.told under.new ≡ B.told under.old }
    ensures changed { B.changed under.new ≡ B.changed under.old }
    ensures pairs { B.pairs under.new ≡ B.pairs under.old }
    ensures size { B.size under.new ≡ B.size under.old }
    ensures frame { B.frame under.new ≡ B.frame under.old }
    ensures later { AreLater (B.counts under.old) (B.counts under.new) }
    ensures cause { IfErr result (HasReadCause (B.counts under.old) (B.counts under.new)) }
{
    let tree = TreeAt {
        alloc: site.alloc,
        inode: directory,
        sup: site.sup,
        kind: KeyKind::Text,
    };
    match rows_from(tree, under, None, None) {
        Ok(ranged) => Ok(is_one(&ranged)),
        Err(fault) => Err(fault),
    }
}
