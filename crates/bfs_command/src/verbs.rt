// The first word of a command.
ghost use Rattle.std.specs.Prelude.{◌≡◌};
ghost use Rattle.std.specs.Option.{option_copied};
ghost use Rattle.bfs_command.specs.Grammar.{verb_of};

/// What a command does.
#[derive(Clone, Copy, Debug, PartialEq, Eq)]
pub enum Verb {
    Make,
    MakeDir,
    MakeLink,
    Remove,
    Rename,
    List,
    Stat,
    SetMode,
    SetSize,
    ReadLink,
    AttrWrite,
    AttrRead,
    AttrRemove,
    AttrList,
    Write,
    Read,
    IndexMake,
    IndexRemove,
    IndexList,
    IndexFind,
    Sync,
}

/// The verb that a word is.
pub fn read_verb(word: &[u8]) -> Option<Verb>
    ensures { result ≡ verb_of word.now }
{
    match word {
        b"make" => Some(Verb::Make),
        b"mkdir" => Some(Verb::MakeDir),
        b"link" => Some(Verb::MakeLink),
        b"rm" => Some(Verb::Remove),
        b"mv" => Some(Verb::Rename),
        b"ls" => Some(Verb::List),
        b"stat" => Some(Verb::Stat),
        b"mode" => Some(Verb::SetMode),
        b"size" => Some(Verb::SetSize),
        b"readlink" => Some(Verb::ReadLink),
        b"attr" => Some(Verb::AttrWrite),
        b"getattr" => Some(Verb::AttrRead),
        b"rmattr" => Some(Verb::AttrRemove),
        b"attrs" => Some(Verb::AttrList),
        b"write" => Some(Verb::Write),
        b"read" => Some(Verb::Read),
        b"mkindex" => Some(Verb::IndexMake),
        b"rmindex" => Some(Verb::IndexRemove),
        b"indices" => Some(Verb::IndexList),
        b"find" => Some(Verb::IndexFind),
        b"sync" => Some(Verb::Sync),
        _ => None,
    }
}
