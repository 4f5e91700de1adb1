// Whether words are a command, told without reading what they say.
ghost use Rattle.std.specs.Prelude.{◌≡◌};
ghost use Rattle.std.specs.Option.{is_some};
ghost use Rattle.bfs_text.specs.Words.{number_of, up_to};
ghost use Rattle.bfs_command.specs.Grammar.{command_of};
ghost use Rattle.bfs_command.specs.Shapes.{is_word, are_words, shape_of};

use crate::verbs::Verb;
use bfs_text::{
    Pieces, is_bytes, is_key, is_name, is_node, is_path, is_value, read_kind, read_number,
    read_octal,
};

/// What a word of a command is.
#[derive(Clone, Copy, Debug)]
pub enum WordKind {
    Path,
    Node,
    Name,
    Octal,
    Owner,
    Number,
    Length,
    Bytes,
    Value,
    Key,
    Index,
}

/// Is this a number up to a limit?
fn is_up_to(most: u64, word: &[u8]) -> bool
    ensures { result ≡ is_some (up_to most (number_of word.now)) }
{
    match read_number(word) {
        Some(number) => number <= most,
        None => false,
    }
}

/// Is the word of this kind?
fn is_word(kind: WordKind, word: &[u8]) -> bool
    ensures { result ≡ is_word kind word.now }
{
    match kind {
        WordKind::Path => is_path(word),
        WordKind::Node => is_node(word),
        WordKind::Name => is_name(word),
        WordKind::Octal => read_octal(word).is_some(),
        WordKind::Owner => is_up_to(2_147_483_647, word),
        WordKind::Number => read_number(word).is_some(),
        WordKind::Length => is_up_to(65_536, word),
        WordKind::Bytes => is_bytes(word),
        WordKind::Value => is_value(word),
        WordKind::Key => is_key(word),
        WordKind::Index => read_kind(word).is_some(),
    }
}

/// The words behind a verb.
fn shape_of(verb: Verb) -> &'static [WordKind]
    ensures { result.now ≡ shape_of verb }
{
    match verb {
        Verb::Make | Verb::MakeDir | Verb::Remove => &[WordKind::Node],
        Verb::MakeLink => &[WordKind::Node, WordKind::Name],
        Verb::Rename => &[WordKind::Node, WordKind::Node],
        Verb::List | Verb::Stat | Verb::ReadLink | Verb::AttrList => &[WordKind::Path],
        Verb::SetMode => &[
            WordKind::Path,
            WordKind::Octal,
            WordKind::Owner,
            WordKind::Owner,
        ],
        Verb::SetSize => &[WordKind::Path, WordKind::Number],
        Verb::AttrWrite => &[WordKind::Path, WordKind::Name, WordKind::Value],
        Verb::AttrRead | Verb::AttrRemove => &[WordKind::Path, WordKind::Name],
        Verb::Write => &[WordKind::Path, WordKind::Number, WordKind::Bytes],
        Verb::Read => &[WordKind::Path, WordKind::Number, WordKind::Length],
        Verb::IndexMake => &[WordKind::Name, WordKind::Index],
        Verb::IndexRemove => &[WordKind::Name],
        Verb::IndexFind => &[WordKind::Name, WordKind::Key, WordKind::Key],
        Verb::IndexList | Verb::Sync => &[],
    }
}

/// Are the words of these kinds?
fn are_words(kinds: &[WordKind], words: &mut Pieces<'_>) -> bool
    ensures { result ≡ are_words kinds.now words.old }
{
    'kinds: for at in 0..kinds.len() {
        let Some(word) = words.next() else {
            return false;
        };
        if !is_word(kinds[at], word) {
            return false;
        }
    }
    words.next().is_none()
}

/// Are the words behind a verb those of a command?
pub fn is_command(verb: Verb, words: &mut Pieces<'_>) -> bool
    ensures { result ≡ is_some (command_of verb words.old) }
{
    are_words(shape_of(verb), words)
}
