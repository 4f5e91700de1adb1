// Bytes cut at a separator, piece by piece.
ghost use Rattle.std.specs.Prelude.{◌≡◌, ◌∷◌, ◌<◌, [], length, IfSome, IfNone, MatchOption};
ghost use Rattle.bfs_text.specs.Cutting.{cut_at, pieces_left, lines_of};

use memchr::memchr;
use std::marker::Model;

/// The pieces between separators that are still to come.
#[derive(Drop)]
pub struct Pieces<'a> {
    rest: Option<&'a [u8]>,
    separator: u8,
}

impl<'a> Model for Pieces<'a> {
    ghost use Rattle.std.specs.Prelude.{List, ℕ};
    ghost use Rattle.bfs_text.specs.Cutting.{pieces_left};

    ghost Value = { List (List ℕ) };

    ghost view = { λ p. pieces_left p.separator p.rest };
}

/// The bytes before the first separator, and those behind it where there is one.
pub fn cut_once(bytes: &[u8], separator: u8) -> (&[u8], Option<&[u8]>)
    ensures more { IfSome result.1 (λ rest. cut_at separator bytes.now ≡ result.0.now ∷ cut_at separator rest.now) }
    ensures last { IfNone result.1 (cut_at separator bytes.now ≡ result.0.now ∷ []) }
    ensures shorter { IfSome result.1 (λ rest. length rest.now < length bytes.now) }
    ensures lines { separator ≡ 10 → IfSome result.1 (λ rest. lines_of bytes.now ≡ result.0.now ∷ lines_of rest.now) }
    ensures last_line { separator ≡ 10 → 0 < length bytes.now → IfNone result.1 (lines_of bytes.now ≡ result.0.now ∷ []) }
{
    match memchr(separator, bytes) {
        None => (bytes, None),
        Some(at) => (&bytes[..at], Some(&bytes[at + 1..])),
    }
}

impl<'a> Pieces<'a> {
    /// The pieces of these bytes.
    pub fn of(bytes: &'a [u8], separator: u8) -> Pieces<'a>
        ensures { result ≡ cut_at separator bytes.entry.now }
    {
        Pieces {
            rest: Some(bytes),
            separator,
        }
    }

    /// The next piece.
    pub fn next(&mut self) -> Option<&'a [u8]>
        ensures { MatchOption result ((self.old ≡ []) × (self.new ≡ [])) (λ piece. self.old ≡ piece.now ∷ self.new) }
    {
        match self.rest {
            None => None,
            Some(bytes) => {
                let (piece, rest) = cut_once(bytes, self.separator);
                self.rest = rest;
                Some(piece)
            }
        }
    }
}
