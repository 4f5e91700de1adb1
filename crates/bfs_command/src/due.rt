// What a command of a script does next.
ghost use Rattle.std.specs.Prelude.{◌≡◌, IfOk};
ghost use Rattle.bfs_tree.specs.declared.call.Call.TheVariants as calls;
ghost use Rattle.bfs_command.specs.declared.due.Due.TheVariants as dues;
ghost use Rattle.bfs_command.specs.Spelled.{first_parts, second_parts, due_at};
ghost use Rattle.bfs_text.specs.Paths.{last_name};

use crate::Command;
use bfs_text::Path;
use bfs_tree::{Bytes, Call, Key, KeyKind, MakeKind};
use std::alloc::{AllocError, Global};

/// What a line does next: a call, the writing or the reading of a piece of a file, a sync, or nothing more.
#[derive(Debug, Drop)]
pub enum Due {
    Call { call: Call },
    Write { id: u64, at: u64, bytes: Bytes },
    Read { id: u64, at: u64, length: u64 },
    Sync,
    Nothing,
}

impl Command {
    /// The parts that the command has to find first.
    pub fn first_parts(&self) -> &[Bytes]
        ensures { result.now ≡ first_parts self.now }
    {
        match self {
            Command::Make { path }
            | Command::MakeDir { path }
            | Command::MakeLink { path, .. }
            | Command::Remove { path }
            | Command::Rename { path, .. } => path.folders(),
            Command::List { path }
            | Command::Stat { path }
            | Command::SetMode { path, .. }
            | Command::SetSize { path, .. }
            | Command::ReadLink { path }
            | Command::AttrWrite { path, .. }
            | Command::AttrRead { path, .. }
            | Command::AttrRemove { path, .. }
            | Command::AttrList { path }
            | Command::Write { path, .. }
            | Command::Read { path, .. } => path.names(),
            _ => &[],
        }
    }

    /// The parts that it has to find then.
    pub fn second_parts(&self) -> &[Bytes]
        ensures { result.now ≡ second_parts self.now }
    {
        match self {
            Command::Rename { to, .. } => to.folders(),
            _ => &[],
        }
    }
}

/// The call of a new node.
fn make(alloc: Global, dir: u64, path: &Path, kind: MakeKind, mode: u32) -> Result<Due, AllocError>
    ensures { IfOk result (λ d. d ≡ dues.Call (calls.Make dir (last_name path.now) kind mode)) }
{
    let name = path.last_name(alloc)?;
    Ok(Due::Call {
        call: Call::Make {
            dir,
            name,
            kind,
            mode,
        },
    })
}

fn remove(alloc: Global, dir: u64, path: &Path) -> Result<Due, AllocError>
    ensures { IfOk result (λ d. d ≡ dues.Call (calls.Remove dir (last_name path.now))) }
{
    let name = path.last_name(alloc)?;
    Ok(Due::Call {
        call: Call::Remove { dir, name },
    })
}

fn rename(alloc: Global, dir: u64, path: &Path, to_dir: u64, to: &Path) -> Result<Due, AllocError>
    ensures { IfOk result (λ d. d ≡ dues.Call (calls.Rename dir (last_name path.now) to_dir (last_name to.now))) }
{
    let name = path.last_name(alloc)?;
    let to_name = to.last_name(alloc)?;
    Ok(Due::Call {
        call: Call::Rename {
            dir,
            name,
            to_dir,
            to_name,
        },
    })
}

fn attr_write(id: u64, name: &Bytes, kind: u32, bytes: &Bytes) -> Result<Due, AllocError>
    ensures { IfOk result (λ d. d ≡ dues.Call (calls.AttrWrite id name.now kind bytes.now)) }
{
    let name = name.copy()?;
    let bytes = bytes.copy()?;
    Ok(Due::Call {
        call: Call::AttrWrite {
            id,
            name,
            kind,
            bytes,
        },
    })
}

/// A call that takes no bytes along.
fn call(call: Call) -> Result<Due, AllocError>
    ensures { IfOk result (λ d. d ≡ dues.Call call) }
{
    Ok(Due::Call { call })
}

fn set_mode(id: u64, mode: u32, uid: i32, gid: i32) -> Result<Due, AllocError>
    ensures { IfOk result (λ d. d ≡ dues.Call (calls.SetMode id mode uid gid)) }
{
    call(Call::SetMode { id, mode, uid, gid })
}

fn attr_read(id: u64, name: &Bytes) -> Result<Due, AllocError>
    ensures { IfOk result (λ d. d ≡ dues.Call (calls.AttrRead id name.now)) }
{
    let name = name.copy()?;
    call(Call::AttrRead { id, name })
}

fn attr_remove(id: u64, name: &Bytes) -> Result<Due, AllocError>
    ensures { IfOk result (λ d. d ≡ dues.Call (calls.AttrRemove id name.now)) }
{
    let name = name.copy()?;
    call(Call::AttrRemove { id, name })
}

fn write(id: u64, at: u64, bytes: &Bytes) -> Result<Due, AllocError>
    ensures { IfOk result (λ d. d ≡ dues.Write id at bytes.now) }
{
    let bytes = bytes.copy()?;
    Ok(Due::Write { id, at, bytes })
}

fn read(id: u64, at: u64, length: u64) -> Result<Due, AllocError>
    ensures { IfOk result (λ d. d ≡ dues.Read id at length) }
{
    Ok(Due::Read { id, at, length })
}

fn index_make(name: &Bytes, kind: KeyKind) -> Result<Due, AllocError>
    ensures { IfOk result (λ d. d ≡ dues.Call (calls.IndexMake name.now kind)) }
{
    let name = name.copy()?;
    call(Call::IndexMake { name, kind })
}

fn index_remove(name: &Bytes) -> Result<Due, AllocError>
    ensures { IfOk result (λ d. d ≡ dues.Call (calls.IndexRemove name.now)) }
{
    let name = name.copy()?;
    call(Call::IndexRemove { name })
}

fn copy_key(key: &Key) -> Result<Key, AllocError>
    ensures { IfOk result (λ k. k ≡ key.now) }
{
    match key {
        Key::Text(bytes) => Ok(Key::Text(bytes.copy()?)),
        Key::I32(number) => Ok(Key::I32(*number)),
        Key::U32(number) => Ok(Key::U32(*number)),
        Key::I64(number) => Ok(Key::I64(*number)),
        Key::U64(number) => Ok(Key::U64(*number)),
    }
}

fn index_find(name: &Bytes, low: &Key, high: &Key) -> Result<Due, AllocError>
    ensures { IfOk result (λ d. d ≡ dues.Call (calls.IndexFind name.now low.now high.now)) }
{
    let name = name.copy()?;
    let low = copy_key(low)?;
    let high = copy_key(high)?;
    Ok(Due::Call {
        call: Call::IndexFind { name, low, high },
    })
}

/// What a command does once its paths are found: at a node or at its folder, and for a rename at the folder that the node
/// goes to.
pub fn due_at(alloc: Global, command: &Command, id: u64, to_dir: u64) -> Result<Due, AllocError>
    ensures { IfOk result (λ d. d ≡ due_at command.now id to_dir) }
{
    match command {
        Command::Make { path } => make(alloc, id, path, MakeKind::File, 0o644),
        Command::MakeDir { path } => make(alloc, id, path, MakeKind::Dir, 0o755),
        Command::MakeLink { path, target } => {
            let target = target.copy()?;
            make(alloc, id, path, MakeKind::Link { target }, 0o777)
        }
        Command::Remove { path } => remove(alloc, id, path),
        Command::Rename { path, to } => rename(alloc, id, path, to_dir, to),
        Command::List { .. } => call(Call::List { dir: id }),
        Command::Stat { .. } => call(Call::Stat { id }),
        Command::SetMode { mode, uid, gid, .. } => set_mode(id, *mode, *uid, *gid),
        Command::SetSize { size, .. } => call(Call::SetSize { id, size: *size }),
        Command::ReadLink { .. } => call(Call::ReadLink { id }),
        Command::AttrWrite {
            name,
            kind,
            bytes,
            ..
        } => attr_write(id, name, *kind, bytes),
        Command::AttrRead { name, .. } => attr_read(id, name),
        Command::AttrRemove { name, .. } => attr_remove(id, name),
        Command::AttrList { .. } => call(Call::AttrList { id }),
        Command::Write { at, bytes, .. } => write(id, *at, bytes),
        Command::Read { at, length, .. } => read(id, *at, *length),
        Command::IndexMake { name, kind } => index_make(name, *kind),
        Command::IndexRemove { name } => index_remove(name),
        Command::IndexList => call(Call::IndexList),
        Command::IndexFind { name, low, high } => index_find(name, low, high),
        Command::Sync => Ok(Due::Sync),
    }
}
