// What is due is asked of a volume.
ghost use Rattle.std.specs.Prelude.{◌≡◌, ◌≢◌, ◌≤◌, ℕ, Some, true, false, length, IfOk, OnErr};
ghost use Rattle.bfs_tree.specs.Histories.{Mounted};
ghost use Rattle.bfs_tree.specs.Answers.{KeepsRanges};
ghost use Rattle.bfs_device_blocks.specs.Lent.{HasCore};
ghost use Rattle.bfs_core.specs.Moments.{Adoption};
ghost use Rattle.bfs_command.specs.declared.due.Due.TheVariants as dues;
ghost use Rattle.bfs_command.specs.Forms.{IsDueInForm, is_service};
ghost use Rattle.bfs_command.specs.Left.{makes};
ghost use Rattle.bfs_volume.specs.Stamps.{HasDrawn};
ghost use Rattle.bfs_volume.specs.Failing.{HasFailures};
ghost use Rattle.bfs_run.specs.Scripts.{HasMade};

use bfs_command::Due;
use bfs_disk::Disk;
use bfs_ports::Clock;
use bfs_tree::{Bytes, Call};
use bfs_volume::{SyncFault, Volume};
use std::alloc::{AllocError, Global};

/// A call.
fn call<D: Disk, C: Clock>(
    volume: &mut Volume<D, C>,
    session: u32,
    tag: u32,
    call: Call,
) -> Result<bool, AllocError>
    requires session { session ≢ 0 }
    requires service { is_service call ≡ false }
    requires ranges { KeepsRanges call }
    ensures asked { IfOk result (λ asked. asked ≡ true) }
    ensures made { IfOk result (λ asked. HasMade volume.old.space.view.history volume.new.space.view.history session tag (makes (dues.Call call))) }
    ensures no_memory { OnErr result (volume.new.space.view.history ≡ volume.old.space.view.history) }
    ensures clock { C.stands volume.new.clock ≡ C.stands volume.old.clock }
    ensures stamps { (s : ℕ) → C.stands volume.old.clock ≡ Some s → HasDrawn volume.old.space.view.history volume.new.space.view.history s }
    ensures core { (t0 : Mounted) (adopted : Adoption) → HasCore t0 adopted volume.old.space.view volume.old.device.books (D.state volume.old.device.disk) (D.clock volume.old.device.disk) (D.since volume.old.device.disk)
        → HasCore t0 adopted volume.new.space.view volume.new.device.books (D.state volume.new.device.disk) (D.clock volume.new.device.disk) (D.since volume.new.device.disk) }
    ensures later { D.faults volume.old.device.disk ≤ D.faults volume.new.device.disk }
    ensures disk_clock { D.clock volume.old.device.disk ≤ D.clock volume.new.device.disk }
    ensures failures { HasFailures volume.old.space.view.history volume.new.space.view.history volume.old.device.books.stop volume.new.device.books.stop (D.faults volume.old.device.disk) (D.faults volume.new.device.disk) (D.stops volume.old.device.disk) (D.stops volume.new.device.disk) }
{
    match volume.call(session, tag, call) {
        Ok(()) => Ok(true),
        Err(fault) => Err(fault),
    }
}

/// The writing of a piece.
fn write<D: Disk, C: Clock>(
    volume: &mut Volume<D, C>,
    session: u32,
    tag: u32,
    id: u64,
    at: u64,
    bytes: &[u8],
) -> Result<bool, AllocError>
    requires session { session ≢ 0 }
    ensures asked { IfOk result (λ asked. asked ≡ true) }
    ensures made { IfOk result (λ asked. HasMade volume.old.space.view.history volume.new.space.view.history session tag (makes (dues.Write id at bytes.now))) }
    ensures no_memory { OnErr result (volume.new.space.view.history ≡ volume.old.space.view.history) }
    ensures clock { C.stands volume.new.clock ≡ C.stands volume.old.clock }
    ensures stamps { (s : ℕ) → C.stands volume.old.clock ≡ Some s → HasDrawn volume.old.space.view.history volume.new.space.view.history s }
    ensures core { (t0 : Mounted) (adopted : Adoption) → HasCore t0 adopted volume.old.space.view volume.old.device.books (D.state volume.old.device.disk) (D.clock volume.old.device.disk) (D.since volume.old.device.disk)
        → HasCore t0 adopted volume.new.space.view volume.new.device.books (D.state volume.new.device.disk) (D.clock volume.new.device.disk) (D.since volume.new.device.disk) }
    ensures later { D.faults volume.old.device.disk ≤ D.faults volume.new.device.disk }
    ensures disk_clock { D.clock volume.old.device.disk ≤ D.clock volume.new.device.disk }
    ensures failures { HasFailures volume.old.space.view.history volume.new.space.view.history volume.old.device.books.stop volume.new.device.books.stop (D.faults volume.old.device.disk) (D.faults volume.new.device.disk) (D.stops volume.old.device.disk) (D.stops volume.new.device.disk) }
{
    match volume.write(session, tag, id, at, bytes) {
        Ok(()) => Ok(true),
        Err(fault) => Err(fault),
    }
}

/// The reading of a piece into a slice.
fn read_into<D: Disk, C: Clock>(
    volume: &mut Volume<D, C>,
    session: u32,
    tag: u32,
    id: u64,
    at: u64,
    into: &mut [u8],
) -> Result<bool, AllocError>
    requires session { session ≢ 0 }
    ensures asked { IfOk result (λ asked. asked ≡ true) }
    ensures made { IfOk result (λ asked. HasMade volume.old.space.view.history volume.new.space.view.history session tag (makes (dues.Read id at (length into.old)))) }
    ensures no_memory { OnErr result (volume.new.space.view.history ≡ volume.old.space.view.history) }
    ensures clock { C.stands volume.new.clock ≡ C.stands volume.old.clock }
    ensures stamps { (s : ℕ) → C.stands volume.old.clock ≡ Some s → HasDrawn volume.old.space.view.history volume.new.space.view.history s }
    ensures core { (t0 : Mounted) (adopted : Adoption) → HasCore t0 adopted volume.old.space.view volume.old.device.books (D.state volume.old.device.disk) (D.clock volume.old.device.disk) (D.since volume.old.device.disk)
        → HasCore t0 adopted volume.new.space.view volume.new.device.books (D.state volume.new.device.disk) (D.clock volume.new.device.disk) (D.since volume.new.device.disk) }
    ensures later { D.faults volume.old.device.disk ≤ D.faults volume.new.device.disk }
    ensures disk_clock { D.clock volume.old.device.disk ≤ D.clock volume.new.device.disk }
    ensures failures { HasFailures volume.old.space.view.history volume.new.space.view.history volume.old.device.books.stop volume.new.device.books.stop (D.faults volume.old.device.disk) (D.faults volume.new.device.disk) (D.stops volume.old.device.disk) (D.stops volume.new.device.disk) }
{
    match volume.read(session, tag, id, at, into) {
        Ok(()) => Ok(true),
        Err(fault) => Err(fault),
    }
}

/// So many bytes of room.
fn room(alloc: Global, count: usize) -> Result<Vec<u8>, AllocError>
    ensures { IfOk result (λ room. length room.items ≡ count) }
{
    vec![in alloc; 0u8; count]
}

/// The reading of a piece. Its bytes stay in the history alone.
fn read<D: Disk, C: Clock>(
    alloc: Global,
    volume: &mut Volume<D, C>,
    session: u32,
    tag: u32,
    id: u64,
    at: u64,
    count: u64,
) -> Result<bool, AllocError>
    requires session { session ≢ 0 }
    requires count { count ≤ 65536 }
    ensures asked { IfOk result (λ asked. asked ≡ true) }
    ensures made { IfOk result (λ asked. HasMade volume.old.space.view.history volume.new.space.view.history session tag (makes (dues.Read id at count))) }
    ensures no_memory { OnErr result (volume.new.space.view.history ≡ volume.old.space.view.history) }
    ensures clock { C.stands volume.new.clock ≡ C.stands volume.old.clock }
    ensures stamps { (s : ℕ) → C.stands volume.old.clock ≡ Some s → HasDrawn volume.old.space.view.history volume.new.space.view.history s }
    ensures core { (t0 : Mounted) (adopted : Adoption) → HasCore t0 adopted volume.old.space.view volume.old.device.books (D.state volume.old.device.disk) (D.clock volume.old.device.disk) (D.since volume.old.device.disk)
        → HasCore t0 adopted volume.new.space.view volume.new.device.books (D.state volume.new.device.disk) (D.clock volume.new.device.disk) (D.since volume.new.device.disk) }
    ensures later { D.faults volume.old.device.disk ≤ D.faults volume.new.device.disk }
    ensures disk_clock { D.clock volume.old.device.disk ≤ D.clock volume.new.device.disk }
    ensures failures { HasFailures volume.old.space.view.history volume.new.space.view.history volume.old.device.books.stop volume.new.device.books.stop (D.faults volume.old.device.disk) (D.faults volume.new.device.disk) (D.stops volume.old.device.disk) (D.stops volume.new.device.disk) }
{
    let mut into = match room(alloc, count as usize) {
        Ok(into) => into,
        Err(fault) => return Err(fault),
    };
    read_into(volume, session, tag, id, at, &mut into)
}

/// A sync, which has an entry where it failed too.
fn sync<D: Disk, C: Clock>(
    volume: &mut Volume<D, C>,
    session: u32,
    tag: u32,
) -> Result<bool, AllocError>
    requires session { session ≢ 0 }
    ensures asked { IfOk result (λ asked. asked ≡ true) }
    ensures made { IfOk result (λ asked. HasMade volume.old.space.view.history volume.new.space.view.history session tag (makes dues.Sync)) }
    ensures no_memory { OnErr result (volume.new.space.view.history ≡ volume.old.space.view.history) }
    ensures clock { C.stands volume.new.clock ≡ C.stands volume.old.clock }
    ensures stamps { (s : ℕ) → C.stands volume.old.clock ≡ Some s → HasDrawn volume.old.space.view.history volume.new.space.view.history s }
    ensures core { (t0 : Mounted) (adopted : Adoption) → HasCore t0 adopted volume.old.space.view volume.old.device.books (D.state volume.old.device.disk) (D.clock volume.old.device.disk) (D.since volume.old.device.disk)
        → HasCore t0 adopted volume.new.space.view volume.new.device.books (D.state volume.new.device.disk) (D.clock volume.new.device.disk) (D.since volume.new.device.disk) }
    ensures later { D.faults volume.old.device.disk ≤ D.faults volume.new.device.disk }
    ensures disk_clock { D.clock volume.old.device.disk ≤ D.clock volume.new.device.disk }
    ensures failures { HasFailures volume.old.space.view.history volume.new.space.view.history volume.old.device.books.stop volume.new.device.books.stop (D.faults volume.old.device.disk) (D.faults volume.new.device.disk) (D.stops volume.old.device.disk) (D.stops volume.new.device.disk) }
{
    match volume.sync(session, tag) {
        Ok(_) => Ok(true),
        Err(fault) => match fault {
            SyncFault::NoMemory => Err(AllocError),
            SyncFault::Disk { .. } => Ok(true),
            SyncFault::Stopped { .. } => Ok(true),
        },
    }
}

/// Asks for what is due, and tells whether anything was.
pub fn ask<D: Disk, C: Clock>(
    alloc: Global,
    volume: &mut Volume<D, C>,
    session: u32,
    tag: u32,
    due: Due,
) -> Result<bool, AllocError>
    requires session { session ≢ 0 }
    requires form { IsDueInForm due }
    ensures made { IfOk result (λ asked. asked ≡ true → HasMade volume.old.space.view.history volume.new.space.view.history session tag (makes due)) }
    ensures nothing { IfOk result (λ asked. asked ≡ false → due ≡ dues.Nothing) }
    ensures idle { IfOk result (λ asked. asked ≡ false → volume.new.space.view.history ≡ volume.old.space.view.history) }
    ensures no_memory { OnErr result (volume.new.space.view.history ≡ volume.old.space.view.history) }
    ensures clock { C.stands volume.new.clock ≡ C.stands volume.old.clock }
    ensures stamps { (s : ℕ) → C.stands volume.old.clock ≡ Some s → HasDrawn volume.old.space.view.history volume.new.space.view.history s }
    ensures core { (t0 : Mounted) (adopted : Adoption) → HasCore t0 adopted volume.old.space.view volume.old.device.books (D.state volume.old.device.disk) (D.clock volume.old.device.disk) (D.since volume.old.device.disk)
        → HasCore t0 adopted volume.new.space.view volume.new.device.books (D.state volume.new.device.disk) (D.clock volume.new.device.disk) (D.since volume.new.device.disk) }
    ensures later { D.faults volume.old.device.disk ≤ D.faults volume.new.device.disk }
    ensures disk_clock { D.clock volume.old.device.disk ≤ D.clock volume.new.device.disk }
    ensures failures { HasFailures volume.old.space.view.history volume.new.space.view.history volume.old.device.books.stop volume.new.device.books.stop (D.faults volume.old.device.disk) (D.faults volume.new.device.disk) (D.stops volume.old.device.disk) (D.stops volume.new.device.disk) }
{
    match due {
        Due::Call { call: due } => call(volume, session, tag, due),
        Due::Write { id, at, bytes } => write(volume, session, tag, id, at, bytes.as_slice()),
        Due::Read { id, at, length } => read(alloc, volume, session, tag, id, at, length),
        Due::Sync => sync(volume, session, tag),
        Due::Nothing => Ok(false),
    }
}
