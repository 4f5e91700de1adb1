// The keys of indices: their kinds, their bytes and their order.
ghost use Rattle.std.specs.Prelude.{◌≡◌, ◌+◌, ◌*◌, ◌<◌, ◌^◌, IfOk, ◌==◌, ◌≤◌, not, length, slice_index, take};
ghost use Rattle.std.specs.List.{take_while, prefix_len};
ghost use Rattle.std.specs.Int.{cast_signed, w32, w64};
ghost use Rattle.byteorder.specs.Endian.{little_number};
ghost use Rattle.bfs_base.specs.Keys.{key_cmp, number_of};
ghost use Rattle.bfs_tree.specs.Listings.{code_of, kind_of_key, bytes_of_key, key_from, key_of_bytes, of_length, unless_empty};
ghost use Rattle.bfs_tree.specs.Refusals.{is_float, kind_number, is_kind};

use crate::{Bytes, Key, KeyKind};
use byteorder::{ByteOrder, LittleEndian};
use std::alloc::{AllocError, Global};
use std::cmp::Ordering;

/// The type code of the attributes that an index of this kind lists, four letters.
pub fn code_of(kind: KeyKind) -> u32
    ensures { result ≡ code_of kind }
{
    match kind {
        KeyKind::Text => 0x4353_5452,
        KeyKind::I32 => 0x4c4f_4e47,
        KeyKind::U32 => 0x554c_4e47,
        KeyKind::I64 => 0x4c4c_4e47,
        KeyKind::U64 => 0x554c_4c47,
        KeyKind::F32 => 0x464c_4f54,
        KeyKind::F64 => 0x4442_4c45,
    }
}

pub fn is_float(kind: KeyKind) -> bool
    ensures { result ≡ is_float kind }
{
    matches!(kind, KeyKind::F32 | KeyKind::F64)
}

fn kind_number(kind: KeyKind) -> u8
    ensures { result ≡ kind_number kind }
{
    match kind {
        KeyKind::Text => 0,
        KeyKind::I32 => 1,
        KeyKind::U32 => 2,
        KeyKind::I64 => 3,
        KeyKind::U64 => 4,
        KeyKind::F32 => 5,
        KeyKind::F64 => 6,
    }
}

/// The two kinds are the same.
pub fn is_kind(a: KeyKind, b: KeyKind) -> bool
    ensures { result ≡ is_kind a b }
{
    kind_number(a) == kind_number(b)
}

/// The byte at a place, or 0 past the end.
fn byte_at(bytes: &[u8], at: usize) -> u64
    ensures value { result ≡ slice_index bytes.now at }
    ensures small { result < 256 }
{
    match bytes.get(at) {
        None => 0,
        Some(byte) => u64::from(*byte),
    }
}

/// The number in the first four bytes, the lowest first. Bytes that are missing are 0.
fn number_of_four(bytes: &[u8]) -> u32
    ensures { result ≡ little_number 4 bytes.now }
{
    if bytes.len() >= 4 {
        return LittleEndian::read_u32(bytes);
    }
    let high = byte_at(bytes, 2) + 256 * (byte_at(bytes, 3) + 256 * 0);
    (byte_at(bytes, 0) + 256 * (byte_at(bytes, 1) + 256 * high)) as u32
}

/// The number in the first eight bytes, the lowest first. Bytes that are missing are 0.
fn number_of_eight(bytes: &[u8]) -> u64
    ensures { result ≡ little_number 8 bytes.now }
{
    if bytes.len() >= 8 {
        return LittleEndian::read_u64(bytes);
    }
    let top = byte_at(bytes, 6) + 256 * (byte_at(bytes, 7) + 256 * 0);
    let high = byte_at(bytes, 4) + 256 * (byte_at(bytes, 5) + 256 * top);
    let low = byte_at(bytes, 2) + 256 * (byte_at(bytes, 3) + 256 * high);
    byte_at(bytes, 0) + 256 * (byte_at(bytes, 1) + 256 * low)
}

/// The order of two keys of a kind, as bytes.
#[tactic(auto, unfolding(bfs_base::specs::Keys::number_of))]
pub fn key_order(kind: KeyKind, a: &[u8], b: &[u8]) -> Ordering
    ensures { result ≡ key_cmp kind a.now b.now }
{
    match kind {
        KeyKind::Text => a.cmp(b),
        KeyKind::I32 => number_of_four(a)
            .cast_signed()
            .cmp(&number_of_four(b).cast_signed()),
        KeyKind::U32 => number_of_four(a).cmp(&number_of_four(b)),
        KeyKind::I64 => number_of_eight(a)
            .cast_signed()
            .cmp(&number_of_eight(b).cast_signed()),
        KeyKind::U64 => number_of_eight(a).cmp(&number_of_eight(b)),
        KeyKind::F32 => Ordering::Equal,
        KeyKind::F64 => Ordering::Equal,
    }
}

impl Key {
    pub fn kind(&self) -> KeyKind
        ensures { result ≡ kind_of_key self.now }
    {
        match self {
            Key::Text(_) => KeyKind::Text,
            Key::I32(_) => KeyKind::I32,
            Key::U32(_) => KeyKind::U32,
            Key::I64(_) => KeyKind::I64,
            Key::U64(_) => KeyKind::U64,
        }
    }

    /// The bytes as they stand in a page of the index.
    #[tactic(auto, unfolding(bfs_bytes::specs::Fields::unsigned_bytes, bfs_bytes::specs::Fields::signed32_bytes, bfs_bytes::specs::Fields::signed64_bytes))]
    pub fn bytes(&self, alloc: Global) -> Result<Bytes, AllocError>
        ensures { IfOk result (λ b. b ≡ bytes_of_key self.now) }
    {
        Ok(match self {
            Key::Text(text) => text.copy()?,
            Key::I32(z) => Bytes::new(Vec::from_slice(alloc, &z.cast_unsigned().to_le_bytes())?),
            Key::U32(n) => Bytes::new(Vec::from_slice(alloc, &n.to_le_bytes())?),
            Key::I64(z) => Bytes::new(Vec::from_slice(alloc, &z.cast_unsigned().to_le_bytes())?),
            Key::U64(n) => Bytes::new(Vec::from_slice(alloc, &n.to_le_bytes())?),
        })
    }

    /// The key that these bytes are.
    #[tactic(auto, unfolding(bfs_base::specs::Keys::number_of))]
    pub fn from_bytes(alloc: Global, kind: KeyKind, bytes: &[u8]) -> Result<Key, AllocError>
        ensures { IfOk result (λ k. k ≡ key_from kind bytes.now) }
    {
        Ok(match kind {
            KeyKind::I32 => Key::I32(number_of_four(bytes).cast_signed()),
            KeyKind::U32 => Key::U32(number_of_four(bytes)),
            KeyKind::I64 => Key::I64(number_of_eight(bytes).cast_signed()),
            KeyKind::U64 => Key::U64(number_of_eight(bytes)),
            _ => Key::Text(Bytes::new(Vec::from_slice(alloc, bytes)?)),
        })
    }
}

/// The key that an attribute's bytes give an index: text before the first zero byte, cut to 255 bytes and not
/// empty, or a number of just as many bytes as the kind has.
pub fn key_of_bytes(alloc: Global, kind: KeyKind, bytes: &[u8]) -> Result<Option<Bytes>, AllocError>
    ensures { IfOk result (λ k. k ≡ key_of_bytes kind bytes.now) }
{
    match kind {
        KeyKind::Text => text_key(alloc, bytes),
        KeyKind::I32 => number_key(alloc, 4, bytes),
        KeyKind::U32 => number_key(alloc, 4, bytes),
        KeyKind::I64 => number_key(alloc, 8, bytes),
        KeyKind::U64 => number_key(alloc, 8, bytes),
        KeyKind::F32 => Ok(None),
        KeyKind::F64 => Ok(None),
    }
}

fn number_key(alloc: Global, count: usize, bytes: &[u8]) -> Result<Option<Bytes>, AllocError>
    ensures { IfOk result (λ k. k ≡ of_length count bytes.now) }
{
    if bytes.len() == count {
        Ok(Some(Bytes::new(Vec::from_slice(alloc, bytes)?)))
    } else {
        Ok(None)
    }
}

/// How many bytes stand before the first zero.
fn text_len(bytes: &[u8]) -> usize
    ensures value { result ≡ prefix_len (λ b. not (b == 0)) bytes.now }
    ensures within { result ≤ length bytes.now }
{
    for (i, byte) in bytes.iter().enumerate() {
        if *byte == 0 {
            return i;
        }
    }
    bytes.len()
}

fn text_key(alloc: Global, bytes: &[u8]) -> Result<Option<Bytes>, AllocError>
    ensures { IfOk result (λ k. k ≡ unless_empty (take 255 (take_while (λ b. not (b == 0)) bytes.now))) }
{
    let length = text_len(bytes).min(255);
    bytes_unless_empty(alloc, &bytes[..length])
}

fn bytes_unless_empty(alloc: Global, bytes: &[u8]) -> Result<Option<Bytes>, AllocError>
    ensures { IfOk result (λ k. k ≡ unless_empty bytes.now) }
{
    match bytes {
        [] => Ok(None),
        [_, ..] => Ok(Some(Bytes::new(Vec::from_slice(alloc, bytes)?))),
    }
}
