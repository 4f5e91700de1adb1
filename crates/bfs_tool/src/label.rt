// The command `label`: it asks for the sectors, reads the superblock, and writes it with the new name.
ghost use Rattle.std.specs.Prelude.{◌≡◌, ◌≤◌, ◌<◌, ◌+◌, ℕ, List, Some, length, OnOk, OnErr, IfOk, IfErr};
ghost use Rattle.std.specs.Option.{option_map};
ghost use Rattle.bfs_base.specs.Counts.{Rose};
ghost use Rattle.bfs_base.specs.Moments.{Passed};
ghost use Rattle.bfs_disk.specs.State.{State, ReadsAs, Tells, Holds, settled};
ghost use Rattle.bfs_disk.specs.Disk.{MayLeave, told_written, HasSectors};
ghost use Rattle.bfs_super.specs.Label.{IsLabel};
ghost use Rattle.bfs_super.specs.Layout.{super_at};
ghost use Rattle.bfs_tool.specs.Label.{IsLoaded, OldOrNew, EndsBy, LabelsBy, IsRefusing, IsChanged, RefusedBy, labelled, label_status, label_text};

use crate::line::Line;
use bfs_disk::{Disk, Failed};
use bfs_finding::fault_number;
use bfs_super::{Super, SuperFault};
use itoa::Buffer;

/// How `label` ended.
#[derive(Clone, Copy)]
pub enum Ending {
    Done,
    /// The disk has fewer than two sectors.
    Short { sectors: u64 },
    NotVolume(SuperFault),
    LogBusy { start: i64, end: i64 },
    DiskFailed,
}

/// The superblock's sector, or why there is none.
pub enum Loaded {
    Sector([u8; 512]),
    Short { sectors: u64 },
    Failed,
}

/// Reads the superblock's sector.
fn load<D: Disk>(disk: &mut D) -> Loaded
    ensures state { D.state disk.new ≡ D.state disk.old }
    ensures time { Passed (D.clock disk.old) (D.clock disk.new) (D.since disk.old) (D.since disk.new) (MayLeave (D.state disk.old)) }
    ensures later { D.faults disk.old ≤ D.faults disk.new }
    ensures cause { result ≡ Loaded.Failed → Rose (D.faults disk.old) (D.faults disk.new) }
    ensures found { IsLoaded (D.state disk.old) (D.size disk.new) result }
{
    let sectors = match disk.sectors() {
        Ok(sectors) => sectors,
        Err(_) => return Loaded::Failed,
    };
    if sectors < 2 {
        return Loaded::Short { sectors };
    }
    let mut sector = [0; 512];
    match disk.read(1, &mut sector) {
        Ok(()) => Loaded::Sector(sector),
        Err(_) => Loaded::Failed,
    }
}

/// Writes the superblock's sector, and brings it onto the disk.
fn store<D: Disk>(disk: &mut D, sector: &[u8; 512]) -> Result<(), Failed>
    requires { HasSectors (D.size disk.old) 2 }
    ensures state { OnOk result (D.state disk.new ≡ option_map settled (told_written (D.state disk.old) 1 sector.now)) }
    ensures size { D.size disk.new ≡ D.size disk.old }
    ensures time { Passed (D.clock disk.old) (D.clock disk.new) (D.since disk.old) (D.since disk.new) (MayLeave (told_written (D.state disk.old) 1 sector.now)) }
    ensures later { D.faults disk.old ≤ D.faults disk.new }
    ensures cause { OnErr result (Rose (D.faults disk.old) (D.faults disk.new)) }
{
    disk.write(1, sector)?;
    disk.barrier()
}

/// The superblock's sector with this label, or why there is none.
fn change(sector: &[u8; 512], name: &[u8]) -> Result<[u8; 512], Ending>
    requires { IsLabel name.now }
    ensures ok { IfOk result (IsChanged sector.now name.now) }
    ensures err { IfErr result (RefusedBy (super_at sector.now)) }
{
    let mut sup = match Super::parse(sector) {
        Ok(sup) => sup,
        Err(fault) => return Err(Ending::NotVolume(fault)),
    };
    if sup.log_start != sup.log_end {
        return Err(Ending::LogBusy {
            start: sup.log_start,
            end: sup.log_end,
        });
    }
    match sup.set_label(name) {
        Ok(()) => Ok(sup.print()),
        Err(_) => unreachable!(),
    }
}

/// Changes the label on a volume whose log is empty.
pub fn relabel<D: Disk>(disk: &mut D, name: &[u8]) -> Ending
    requires { IsLabel name.now }

    // A crash at any moment leaves the old image or the new one.
    ensures moments { (image : List ℕ) → Tells (D.state disk.old) (Holds image) → (c : List ℕ) → D.since disk.new (D.clock disk.old) c → OldOrNew name.now image c }

    // On a disk that reads as an image the ending follows from the image, but for a failed disk.
    ensures ends { (image : List ℕ) → Tells (D.state disk.old) (λ s. ReadsAs s image) → EndsBy image result }
    ensures failed { result ≡ Ending.DiskFailed → Rose (D.faults disk.old) (D.faults disk.new) }

    // Over any disk the ending has its cause in the number of sectors, or in a superblock.
    ensures causes { LabelsBy (D.size disk.new) result }

    ensures done { (image : List ℕ) → Tells (D.state disk.old) (Holds image) → result ≡ Ending.Done → Tells (D.state disk.new) (Holds (labelled name.now image)) }
    ensures kept { IsRefusing result → D.state disk.new ≡ D.state disk.old }
    ensures clock { D.clock disk.old ≤ D.clock disk.new }
    ensures later { D.faults disk.old ≤ D.faults disk.new }
{
    let sector = match load(disk) {
        Loaded::Sector(sector) => sector,
        Loaded::Short { sectors } => return Ending::Short { sectors },
        Loaded::Failed => return Ending::DiskFailed,
    };
    let changed = match change(&sector, name) {
        Ok(changed) => changed,
        Err(ending) => return ending,
    };
    match store(disk, &changed) {
        Ok(()) => Ending::Done,
        Err(_) => Ending::DiskFailed,
    }
}

impl Ending {
    /// The status of the program.
    pub fn status(self) -> u8
        ensures { result ≡ label_status self }
    {
        match self {
            Ending::Done => 0,
            Ending::Short { .. } | Ending::NotVolume(_) => 3,
            Ending::DiskFailed => 4,
            Ending::LogBusy { .. } => 11,
        }
    }

    /// What is printed.
    pub fn line(self) -> Line
        ensures { result ≡ label_text self }
    {
        let mut line = Line::new();
        let mut number = Buffer::new();
        match self {
            Ending::Short { sectors } => {
                line.push(b"finding short ");
                line.push(number.format(sectors).as_bytes());
                line.push(b" 2\n");
            }
            Ending::NotVolume(fault) => {
                line.push(b"finding super ");
                line.push(number.format(fault_number(fault)).as_bytes());
                line.push(b"\n");
            }
            Ending::LogBusy { start, end } => {
                line.push(b"log ");
                line.push(number.format(start).as_bytes());
                line.push(b" ");
                line.push(number.format(end).as_bytes());
                line.push(b"\n");
            }
            Ending::Done | Ending::DiskFailed => {}
        }
        line
    }
}
