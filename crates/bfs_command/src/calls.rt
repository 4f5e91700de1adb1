// The calls of a command, one after the other.
ghost use Rattle.std.specs.Prelude.{◌≡◌, ◌<◌, ◌++◌, List, false, true, [], IfOk};
ghost use Rattle.bfs_tree.specs.declared.reply.Entry.{Entry};
ghost use Rattle.bfs_tree.specs.declared.call.Call.TheVariants as calls;
ghost use Rattle.bfs_command.specs.declared.due.Due.TheVariants as dues;
ghost use Rattle.bfs_text.specs.Printed.{is_held};
ghost use Rattle.bfs_command.specs.Spelled.{spelled_by};
ghost use Rattle.bfs_command.specs.Forms.{InForm, IsDueInForm};
ghost use Rattle.bfs_command.specs.Left.{begun, left, due_of, found, after, makes, most_left};

use crate::Command;
use crate::due::{Due, due_at};
use bfs_tree::{Bytes, Call, Reply};
use std::alloc::{AllocError, Global};
use std::marker::Model;

/// The calls that a command stands for, one after the other: a lookup for each part of a path that must be found, and then its
/// call. Each is due again while it is answered `Held`, and a lookup that finds nothing is the last.
#[derive(Drop)]
pub struct Calls<'a> {
    command: &'a Command,
    dir: u64,
    names: &'a [Bytes],
    to_dir: u64,
    to_names: &'a [Bytes],
    ended: bool,
}

impl<'a> Model for Calls<'a> {
    ghost use Rattle.bfs_command.specs.Left.{Rest};

    ghost Value = { Rest };

    ghost view = { λ c. record { command = c.command.now; dir = c.dir; names = c.names.now; to_dir = c.to_dir; to_names = c.to_names.now; ended = c.ended } };
}

impl<'a> Calls<'a> {
    /// The calls of a command, whose paths begin at this root.
    pub fn of(root: u64, command: &'a Command) -> Calls<'a>
        ensures begun { result ≡ begun root command.entry.now }
        ensures spelled { (es : List Entry) → left result es → spelled_by root command.entry.now es }
    {
        Calls {
            command,
            dir: root,
            names: command.first_parts(),
            to_dir: root,
            to_names: command.second_parts(),
            ended: false,
        }
    }

    /// What is due next: it is `Nothing` where the command has ended.
    pub fn due(&self, alloc: Global) -> Result<Due, AllocError>
        ensures due { IfOk result (λ d. d ≡ due_of self.now) }
        ensures ended { IfOk result (λ d. d ≡ dues.Nothing → left self.now []) }
        ensures form { InForm self.now.command → IfOk result IsDueInForm }
    {
        if self.ended {
            return Ok(Due::Nothing);
        }
        let (names, to_names) = (self.names, self.to_names);
        if let [name, ..] = names {
            return look_up(self.dir, name);
        }
        if let [name, ..] = to_names {
            return look_up(self.to_dir, name);
        }
        due_at(alloc, self.command, self.dir, self.to_dir)
    }

    /// What was due was called, and got this answer: the entries of that call, and those that are still to come, are those that
    /// were to come before.
    pub fn answered(&mut self, reply: &Reply)
        ensures after { self.new ≡ after self.old reply.now }
        ensures entries { (es more : List Entry) → makes (due_of self.old) reply.now es → left self.new more → left self.old (es ++ more) }
        ensures fewer { is_held reply.now ≡ false → self.old.ended ≡ false → most_left self.new < most_left self.old }
    {
        match reply {
            Reply::Held { .. } => {}
            Reply::Found { id, .. } => self.found(*id),
            _ => self.ended = true,
        }
    }

    /// A part was found: the next one is looked up from there.
    fn found(&mut self, id: u64)
        ensures { self.new ≡ found id self.old.names self.old }
    {
        let (names, to_names) = (self.names, self.to_names);
        if let [_, names @ ..] = names {
            self.dir = id;
            self.names = names;
        } else if let [_, names @ ..] = to_names {
            self.to_dir = id;
            self.to_names = names;
        } else {
            self.ended = true;
        }
    }
}

fn look_up(dir: u64, name: &Bytes) -> Result<Due, AllocError>
    ensures { IfOk result (λ d. d ≡ dues.Call (calls.Lookup dir name.now)) }
{
    let name = name.copy()?;
    Ok(Due::Call {
        call: Call::Lookup { dir, name },
    })
}
