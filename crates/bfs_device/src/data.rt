// Reads and writes of single blocks beside the groups.
ghost use Rattle.std.specs.Prelude.{is_some, ◌≡◌, ◌⊎◌, ◌≤◌, ◌<◌, ◌+◌, ◌*◌, ◌/◌, ◌^◌, ℕ, List, [], length, Bool, OnOk, OnErr, IfOk, IfErr, IfSome, IsSome, IsTrue, IsOk, is_some, true, false, MatchOption, Option, Some, None};
ghost use Rattle.bfs_base.specs.Counts.{HasCause, Rose};
ghost use Rattle.bfs_base.specs.Moments.{Elapses, Passed};
ghost use Rattle.bfs_disk.specs.State.{State, Tells};
ghost use Rattle.bfs_disk.specs.Blocks.{AreRead};
ghost use Rattle.bfs_disk.specs.Disk.{MayLeave, HalfWritten, told_written};
ghost use Rattle.bfs_cache.specs.Kept.{kept_of};
ghost use Rattle.bfs_cache.specs.Agreement.{Agrees};
ghost use Rattle.bfs_super.specs.Conditions.{IsValid};
ghost use Rattle.bfs_device.specs.Layouts.{IsData, layout_of};
ghost use Rattle.bfs_device.specs.Books.{Ready, IsOnDisk, IsRight, RecoversOne, Books, books_of, version, sealed_of};
ghost use Rattle.bfs_device.specs.Steps.{IsStepFault, HasMoved};
ghost use Rattle.bfs_device.specs.Data.{newest_in, moved_on, IsRested, IsReadFault, touching, AreSameBut};
ghost use Rattle.bfs_device.specs.Kept.{KeepsAgreed};
ghost use Rattle.bfs_device.specs.Orders.{AllAscend};

use crate::calls::write_block;
use crate::journal::{DeviceFault, Journal};
use crate::look_up::find_in;
use crate::step::{halt, stopped};
use bfs_cache::{Cache, failed_write_keeps, write_keeps};
use bfs_disk::{Disk, Failed};
use bfs_super::Super;
use bfs_txn::Group;

// Reads a block of the disk.
fn read_block<D: Disk>(disk: &mut D, sup: &Super, place: u64, into: &mut [u8]) -> Result<(), Failed>
    requires valid { IsValid sup.now }
    requires on_disk { IsOnDisk (D.size disk.old) sup.now }
    requires place { place < (layout_of sup.now).blocks }
    requires long { length into.old ≡ sup.now.block_size }
    ensures bytes { OnOk result (AreRead (D.state disk.old) (layout_of sup.now).sectors place into.new) }
    ensures state { D.state disk.new ≡ D.state disk.old }
    ensures size { D.size disk.new ≡ D.size disk.old }
    ensures time { Elapses (D.state disk.old) result (D.clock disk.old) (D.clock disk.new) (D.since disk.old) (D.since disk.new) (MayLeave (D.state disk.old)) }
    ensures cause { HasCause (D.faults disk.old) (D.faults disk.new) result }
    ensures stops { D.stops disk.new ≡ D.stops disk.old }
{
    let sectors = u64::from(sup.block_size / 512);
    disk.read(sectors * place, into)
}

// The bytes of the newest group that has a block.
fn newest_bytes(groups: &[Group], block: u64, ordered: bool) -> Option<&[u8]>
    requires { IsTrue ordered → AllAscend groups.now }
    ensures { MatchOption result (newest_in groups.now block ≡ None) (λ r. newest_in groups.now block ≡ Some r.now) }
{
    match groups {
        [] => None,
        [group, rest @ ..] => match newest_bytes(rest, block, ordered) {
            Some(bytes) => Some(bytes),
            None => find_in(&group.blocks, block, ordered),
        },
    }
}

/// Whether a group that waits has a block.
pub fn is_waiting(journal: &Journal, block: u64) -> bool
    requires ready { Ready journal.now }
    ensures { result ≡ is_some (newest_in journal.now.groups.items block) }
{
    newest_bytes(&journal.groups, block, journal.ordered).is_some()
}

/// Reads a block as the disk has it.
pub fn read_data<D: Disk>(
    disk: &mut D,
    journal: &mut Journal,
    block: u64,
    into: &mut [u8],
) -> Result<(), DeviceFault>
    requires ready { Ready journal.old }
    requires on_disk { IsOnDisk (D.size disk.old) journal.old.sup }
    requires place { block < (layout_of journal.old.sup).blocks }
    requires long { length into.old ≡ journal.old.sup.block_size }
    ensures ready { Ready journal.new }
    ensures rests { IsRested (books_of journal.old) (books_of journal.new) }
    ensures sup { journal.new.sup ≡ journal.old.sup }
    ensures size { D.size disk.new ≡ D.size disk.old }
    ensures ok { OnOk result ((journal.old.stop ≡ None) × (books_of journal.new ≡ moved_on (books_of journal.old))) }
    ensures bytes { OnOk result (AreRead (D.state disk.old) (layout_of journal.old.sup).sectors block into.new) }
    ensures fault { IfErr result (IsReadFault (books_of journal.old) (books_of journal.new) (D.faults disk.old) (D.faults disk.new)) }
    ensures unmoved { IsSome journal.old.stop → disk.new ≡ disk.old }
    ensures state { D.state disk.new ≡ D.state disk.old }
    ensures faults { D.faults disk.old ≤ D.faults disk.new }
    ensures disk_clock { D.clock disk.old ≤ D.clock disk.new }
    ensures stops { D.stops disk.new ≡ D.stops disk.old }
    ensures one { IsSome (D.state disk.old) → OnOk result (D.clock disk.new ≡ D.clock disk.old + 1) }
    ensures moved { HasMoved (D.clock disk.old) journal.old.moment (D.clock disk.new) journal.new.moment }
    ensures right { (t : ℕ → Bool) (s : State) → IsRight (books_of journal.old) t s → IsRight (books_of journal.new) t s }
    ensures moments { (t : ℕ → Bool) → Tells (D.state disk.old) (IsRight (books_of journal.old) t)
        → Passed (D.clock disk.old) (D.clock disk.new) (D.since disk.old) (D.since disk.new) (λ c. Tells (D.state disk.old) (λ s. RecoversOne (books_of journal.old) t s c)) }
{
    if let Some(stop) = journal.stop {
        return Err(stopped(stop));
    }
    let before = disk.faults();
    journal.moment = journal.moment.saturating_add(1);
    match read_block(disk, &journal.sup, block, into) {
        Ok(()) => Ok(()),
        Err(_) => Err(DeviceFault::Disk {
            before,
            after: disk.faults(),
            stops: false,
        }),
    }
}

/// Writes a block that no group has.
pub fn write_data<D: Disk>(
    disk: &mut D,
    journal: &mut Journal,
    block: u64,
    from: &[u8],
) -> Result<(), DeviceFault>
    requires ready { Ready journal.old }
    requires on_disk { IsOnDisk (D.size disk.old) journal.old.sup }
    requires place { IsData (layout_of journal.old.sup) block }
    requires apart { newest_in journal.old.groups.items block ≡ None }
    requires long { length from.now ≡ journal.old.sup.block_size }
    ensures ready { Ready journal.new }
    ensures sup { journal.new.sup ≡ journal.old.sup }
    ensures size { D.size disk.new ≡ D.size disk.old }
    ensures ok { OnOk result ((journal.old.stop ≡ None) × (books_of journal.new ≡ moved_on (books_of journal.old))) }
    ensures call { OnOk result (D.state disk.new ≡ told_written (D.state disk.old) ((layout_of journal.old.sup).sectors * block) from.now) }
    ensures agrees { KeepsAgreed (Some block) (layout_of journal.old.sup).sectors (D.state disk.old) (D.state disk.new) }
    ensures fault { IfErr result (IsStepFault (books_of journal.old) (books_of journal.new) (D.faults disk.old) (D.faults disk.new) (D.stops disk.old) (D.stops disk.new)) }
    ensures unmoved { IsSome journal.old.stop → disk.new ≡ disk.old }
    ensures faults { D.faults disk.old ≤ D.faults disk.new }
    ensures disk_clock { D.clock disk.old ≤ D.clock disk.new }
    ensures stops { D.stops disk.old ≤ D.stops disk.new }
    ensures one { IsSome (D.state disk.old) → OnOk result (D.clock disk.new ≡ D.clock disk.old + 1) }
    ensures failed { journal.old.stop ≡ None → OnErr result (HalfWritten (D.state disk.old) ((layout_of journal.old.sup).sectors * block) from.now (D.state disk.new)) }
    ensures moved { HasMoved (D.clock disk.old) journal.old.moment (D.clock disk.new) journal.new.moment }
    ensures right { (t : ℕ → Bool) (right : Tells (D.state disk.old) (IsRight (books_of journal.old) t))
        → OnOk result (Tells (D.state disk.new) (λ s. IsRight (books_of journal.new) (touching block t) s × AreSameBut block (books_of journal.old) right.0 (books_of journal.new) s)) }
    ensures still_right { (t : ℕ → Bool) (right : Tells (D.state disk.old) (IsRight (books_of journal.old) t))
        → OnErr result (Tells (D.state disk.new) (λ s. IsRight (books_of journal.new) (touching block t) s × AreSameBut block (books_of journal.old) right.0 (books_of journal.new) s)) }
    ensures moments { (t : ℕ → Bool) → Tells (D.state disk.old) (IsRight (books_of journal.old) t)
        → Passed (D.clock disk.old) (D.clock disk.new) (D.since disk.old) (D.since disk.new) (λ c. Tells (D.state disk.old) (λ s. RecoversOne (books_of journal.old) (touching block t) s c)) }
{
    if let Some(stop) = journal.stop {
        return Err(stopped(stop));
    }
    write_keeps();
    failed_write_keeps();
    let before = disk.faults();
    match write_block(disk, &journal.sup, block, from) {
        Ok(()) => {
            journal.moment = journal.moment.saturating_add(1);
            Ok(())
        }
        Err(_) => Err(halt(journal, before, disk.faults())),
    }
}

// Reads a block by the cache.
fn read_cached<D: Disk>(
    disk: &mut D,
    sup: &Super,
    cache: &mut Cache,
    place: u64,
    into: &mut [u8],
) -> Result<(), Failed>
    requires valid { IsValid sup.now }
    requires on_disk { IsOnDisk (D.size disk.old) sup.now }
    requires agrees { Agrees (D.state disk.old) (layout_of sup.now).sectors cache.old.kept }
    requires place { place < (layout_of sup.now).blocks }
    requires long { length into.old ≡ sup.now.block_size }
    ensures bytes { OnOk result (AreRead (D.state disk.old) (layout_of sup.now).sectors place into.new) }
    ensures agrees { Agrees (D.state disk.old) (layout_of sup.now).sectors cache.new.kept }
    ensures there { IfSome (kept_of cache.old.kept place) (λ _. IsOk result × (disk.new ≡ disk.old)) }
    ensures state { D.state disk.new ≡ D.state disk.old }
    ensures size { D.size disk.new ≡ D.size disk.old }
    ensures time { kept_of cache.old.kept place ≡ None → Elapses (D.state disk.old) result (D.clock disk.old) (D.clock disk.new) (D.since disk.old) (D.since disk.new) (MayLeave (D.state disk.old)) }
    ensures cause { HasCause (D.faults disk.old) (D.faults disk.new) result }
    ensures stops { D.stops disk.new ≡ D.stops disk.old }
{
    cache.read(disk, place, into)
}

// Gives a block that the cache has.
fn give<D: Disk>(disk: &mut D, sup: &Super, cache: &mut Cache, place: u64, into: &mut [u8])
    requires valid { IsValid sup.now }
    requires on_disk { IsOnDisk (D.size disk.old) sup.now }
    requires agrees { Agrees (D.state disk.old) (layout_of sup.now).sectors cache.old.kept }
    requires there { is_some (kept_of cache.old.kept place) ≡ true }
    requires place { place < (layout_of sup.now).blocks }
    requires long { length into.old ≡ sup.now.block_size }
    ensures bytes { AreRead (D.state disk.old) (layout_of sup.now).sectors place into.new }
    ensures agrees { Agrees (D.state disk.old) (layout_of sup.now).sectors cache.new.kept }
    ensures disk { disk.new ≡ disk.old }
{
    // It is there, so no disk call is made that could fail.
    let _ = read_cached(disk, sup, cache, place, into);
}

// Reads a block that the cache doesn't have, and keeps it then.
fn fetch<D: Disk>(
    disk: &mut D,
    journal: &mut Journal,
    cache: &mut Cache,
    block: u64,
    into: &mut [u8],
) -> Result<(), DeviceFault>
    requires ready { Ready journal.old }
    requires on_disk { IsOnDisk (D.size disk.old) journal.old.sup }
    requires agrees { Agrees (D.state disk.old) (layout_of journal.old.sup).sectors cache.old.kept }
    requires new { is_some (kept_of cache.old.kept block) ≡ false }
    requires going { journal.old.stop ≡ None }
    requires place { block < (layout_of journal.old.sup).blocks }
    requires long { length into.old ≡ journal.old.sup.block_size }
    ensures ready { Ready journal.new }
    ensures rests { IsRested (books_of journal.old) (books_of journal.new) }
    ensures sup { journal.new.sup ≡ journal.old.sup }
    ensures size { D.size disk.new ≡ D.size disk.old }
    ensures agrees { Agrees (D.state disk.old) (layout_of journal.old.sup).sectors cache.new.kept }
    ensures ok { OnOk result (books_of journal.new ≡ moved_on (books_of journal.old)) }
    ensures bytes { OnOk result (AreRead (D.state disk.old) (layout_of journal.old.sup).sectors block into.new) }
    ensures fault { IfErr result (IsReadFault (books_of journal.old) (books_of journal.new) (D.faults disk.old) (D.faults disk.new)) }
    ensures state { D.state disk.new ≡ D.state disk.old }
    ensures faults { D.faults disk.old ≤ D.faults disk.new }
    ensures disk_clock { D.clock disk.old ≤ D.clock disk.new }
    ensures stops { D.stops disk.new ≡ D.stops disk.old }
    ensures moved { HasMoved (D.clock disk.old) journal.old.moment (D.clock disk.new) journal.new.moment }
    ensures right { (t : ℕ → Bool) (s : State) → IsRight (books_of journal.old) t s → IsRight (books_of journal.new) t s }
    ensures moments { (t : ℕ → Bool) → Tells (D.state disk.old) (IsRight (books_of journal.old) t)
        → Passed (D.clock disk.old) (D.clock disk.new) (D.since disk.old) (D.since disk.new) (λ c. Tells (D.state disk.old) (λ s. RecoversOne (books_of journal.old) t s c)) }
{
    let before = disk.faults();
    journal.moment = journal.moment.saturating_add(1);
    match read_cached(disk, &journal.sup, cache, block, into) {
        Ok(()) => Ok(()),
        Err(_) => Err(DeviceFault::Disk {
            before,
            after: disk.faults(),
            stops: false,
        }),
    }
}

// Reads a block that no group has: the cache's bytes, else the disk's, which are kept then.
fn read_kept<D: Disk>(
    disk: &mut D,
    journal: &mut Journal,
    cache: &mut Cache,
    block: u64,
    into: &mut [u8],
) -> Result<(), DeviceFault>
    requires ready { Ready journal.old }
    requires on_disk { IsOnDisk (D.size disk.old) journal.old.sup }
    requires agrees { Agrees (D.state disk.old) (layout_of journal.old.sup).sectors cache.old.kept }
    requires going { journal.old.stop ≡ None }
    requires place { block < (layout_of journal.old.sup).blocks }
    requires long { length into.old ≡ journal.old.sup.block_size }
    ensures ready { Ready journal.new }
    ensures rests { IsRested (books_of journal.old) (books_of journal.new) }
    ensures sup { journal.new.sup ≡ journal.old.sup }
    ensures size { D.size disk.new ≡ D.size disk.old }
    ensures agrees { Agrees (D.state disk.old) (layout_of journal.old.sup).sectors cache.new.kept }
    ensures ok { OnOk result (((books_of journal.new ≡ books_of journal.old) × (disk.new ≡ disk.old)) ⊎ (books_of journal.new ≡ moved_on (books_of journal.old))) }
    ensures bytes { OnOk result (AreRead (D.state disk.old) (layout_of journal.old.sup).sectors block into.new) }
    ensures fault { IfErr result (IsReadFault (books_of journal.old) (books_of journal.new) (D.faults disk.old) (D.faults disk.new)) }
    ensures state { D.state disk.new ≡ D.state disk.old }
    ensures faults { D.faults disk.old ≤ D.faults disk.new }
    ensures disk_clock { D.clock disk.old ≤ D.clock disk.new }
    ensures stops { D.stops disk.new ≡ D.stops disk.old }
    ensures moved { HasMoved (D.clock disk.old) journal.old.moment (D.clock disk.new) journal.new.moment }
    ensures right { (t : ℕ → Bool) (s : State) → IsRight (books_of journal.old) t s → IsRight (books_of journal.new) t s }
    ensures moments { (t : ℕ → Bool) → Tells (D.state disk.old) (IsRight (books_of journal.old) t)
        → Passed (D.clock disk.old) (D.clock disk.new) (D.since disk.old) (D.since disk.new) (λ c. Tells (D.state disk.old) (λ s. RecoversOne (books_of journal.old) t s c)) }
{
    if cache.has(block) {
        give(disk, &journal.sup, cache, block, into);
        return Ok(());
    }
    fetch(disk, journal, cache, block, into)
}

/// Reads a block as the groups leave it.
pub fn read_newest<D: Disk>(
    disk: &mut D,
    journal: &mut Journal,
    cache: &mut Cache,
    block: u64,
    into: &mut [u8],
) -> Result<(), DeviceFault>
    requires ready { Ready journal.old }
    requires on_disk { IsOnDisk (D.size disk.old) journal.old.sup }
    requires agrees { Agrees (D.state disk.old) (layout_of journal.old.sup).sectors cache.old.kept }
    requires place { block < (layout_of journal.old.sup).blocks }
    requires long { length into.old ≡ journal.old.sup.block_size }
    ensures ready { Ready journal.new }
    ensures rests { IsRested (books_of journal.old) (books_of journal.new) }
    ensures sup { journal.new.sup ≡ journal.old.sup }
    ensures size { D.size disk.new ≡ D.size disk.old }
    ensures agrees { Agrees (D.state disk.old) (layout_of journal.old.sup).sectors cache.new.kept }
    ensures ok { OnOk result ((journal.old.stop ≡ None) × (((books_of journal.new ≡ books_of journal.old) × (disk.new ≡ disk.old)) ⊎ (books_of journal.new ≡ moved_on (books_of journal.old)))) }
    ensures sealed { OnOk result (IfSome (newest_in journal.old.groups.items block) (λ bytes. (into.new ≡ bytes) × (disk.new ≡ disk.old))) }
    ensures bytes { OnOk result (IfSome (D.state disk.old) (λ s. into.new ≡ version (books_of journal.old) s (sealed_of (books_of journal.old)) block)) }
    ensures fault { IfErr result (IsReadFault (books_of journal.old) (books_of journal.new) (D.faults disk.old) (D.faults disk.new)) }
    ensures unmoved { IsSome journal.old.stop → disk.new ≡ disk.old }
    ensures state { D.state disk.new ≡ D.state disk.old }
    ensures faults { D.faults disk.old ≤ D.faults disk.new }
    ensures disk_clock { D.clock disk.old ≤ D.clock disk.new }
    ensures stops { D.stops disk.new ≡ D.stops disk.old }
    ensures moved { HasMoved (D.clock disk.old) journal.old.moment (D.clock disk.new) journal.new.moment }
    ensures right { (t : ℕ → Bool) (s : State) → IsRight (books_of journal.old) t s → IsRight (books_of journal.new) t s }
    ensures moments { (t : ℕ → Bool) → Tells (D.state disk.old) (IsRight (books_of journal.old) t)
        → Passed (D.clock disk.old) (D.clock disk.new) (D.since disk.old) (D.since disk.new) (λ c. Tells (D.state disk.old) (λ s. RecoversOne (books_of journal.old) t s c)) }
{
    if let Some(stop) = journal.stop {
        return Err(stopped(stop));
    }
    match newest_bytes(&journal.groups, block, journal.ordered) {
        Some(bytes) => {
            into.copy_from_slice(bytes);
            Ok(())
        }
        None => read_kept(disk, journal, cache, block, into),
    }
}
