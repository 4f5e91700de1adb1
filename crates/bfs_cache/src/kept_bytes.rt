// The bytes of a block that is kept.
ghost use Rattle.std.specs.Prelude.{◌≡◌, IfOk};

use std::alloc::{AllocError, Global};
use std::marker::Model;

/// Bytes, which a contract sees as their list.
#[derive(Drop)]
pub struct KeptBytes {
    bytes: Vec<u8>,
}

impl Model for KeptBytes {
    ghost use Rattle.std.specs.Prelude.{ℕ, List};

    ghost Value = { List ℕ };

    ghost view = { λ b. b.bytes.items };
}

impl KeptBytes {
    /// A copy of these.
    pub fn of(alloc: Global, from: &[u8]) -> Result<KeptBytes, AllocError>
        ensures { IfOk result (λ b. b ≡ from.now) }
    {
        let bytes = from.to_vec(alloc)?;
        Ok(KeptBytes { bytes })
    }

    pub fn as_slice(&self) -> &[u8]
        ensures { result.now ≡ self.now }
    {
        self.bytes.as_slice()
    }
}
