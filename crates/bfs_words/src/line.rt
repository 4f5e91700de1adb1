// The command line, as `clap` is told of it.
ghost use Rattle.std.specs.Prelude.{◌≡◌, IfOk, false};
ghost use Rattle.clap.specs.Words.{app_of};
ghost use Rattle.clap.specs.declared.builder.Command.TheViews.{out-Command};
ghost use Rattle.bfs_words.specs.Line.{label_line, mk_line, sh_line, soak_line, bfs_line};

use clap::{Arg, Command};
use std::alloc::{AllocError, Global};

fn label<'a>(alloc: Global) -> Result<Command<'a>, AllocError>
    ensures app { IfOk result (λ c. app_of c ≡ label_line) }
    ensures local { IfOk result (λ c. (out-Command c).has_globals ≡ false) }
{
    let name = Arg::new(alloc, "name").required(true);
    Command::new(alloc, "label").arg(name)
}

fn mk<'a>(alloc: Global) -> Result<Command<'a>, AllocError>
    ensures app { IfOk result (λ c. app_of c ≡ mk_line) }
    ensures local { IfOk result (λ c. (out-Command c).has_globals ≡ false) }
{
    let blocks = Arg::new(alloc, "blocks").long("blocks").required(true);
    let size = Arg::new(alloc, "block-size").long("block-size");
    let name = Arg::new(alloc, "name").long("name");
    Command::new(alloc, "mk").arg(blocks)?.arg(size)?.arg(name)
}

fn sh<'a>(alloc: Global) -> Result<Command<'a>, AllocError>
    ensures app { IfOk result (λ c. app_of c ≡ sh_line) }
    ensures local { IfOk result (λ c. (out-Command c).has_globals ≡ false) }
{
    let workers = Arg::new(alloc, "workers").short('j');
    Command::new(alloc, "sh").arg(workers)
}

fn soak<'a>(alloc: Global) -> Result<Command<'a>, AllocError>
    ensures app { IfOk result (λ c. app_of c ≡ soak_line) }
    ensures local { IfOk result (λ c. (out-Command c).has_globals ≡ false) }
{
    let seed = Arg::new(alloc, "seed").required(true);
    let count = Arg::new(alloc, "count").required(true);
    let workers = Arg::new(alloc, "workers").short('j');
    Command::new(alloc, "soak")
        .arg(seed)?
        .arg(count)?
        .arg(workers)
}

/// `bfs` with its commands.
pub(crate) fn command_line<'a>(alloc: Global) -> Result<Command<'a>, AllocError>
    ensures { IfOk result (λ c. app_of c ≡ bfs_line) }
{
    let label = label(alloc)?;
    let mk = mk(alloc)?;
    let check = Command::new(alloc, "check");
    let sh = sh(alloc)?;
    let soak = soak(alloc)?;
    Command::new(alloc, "bfs")
        .no_binary_name(true)
        .subcommand_required(true)
        .subcommand(label)?
        .subcommand(mk)?
        .subcommand(check)?
        .subcommand(sh)?
        .subcommand(soak)
}
