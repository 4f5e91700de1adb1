// One word.
ghost use Rattle.std.specs.Prelude.{◌≡◌, List, ℕ, IfOk};
ghost use Rattle.std.specs.String.{string_bytes};

use std::alloc::{AllocError, Global};
use std::convert::AsStr;
use std::marker::Model;

/// One word of the command line. Contracts see its bytes.
#[derive(Drop)]
pub struct Argument {
    text: String,
}

impl Model for Argument {
    ghost Value = { List ℕ };

    ghost view = { λ a. string_bytes a.text };
}

impl Argument {
    /// The word with this text.
    pub fn of(alloc: Global, word: &str) -> Result<Argument, AllocError>
        ensures { IfOk result (λ a. a ≡ word.now) }
    {
        Ok(Argument {
            text: String::from_str(alloc, word)?,
        })
    }
}

impl AsStr for Argument {
    ghost text = { λ a. a };

    fn as_str(&self) -> &str {
        self.text.as_str()
    }
}
