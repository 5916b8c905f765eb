//! The bytes of names.
ghost use Rattle.std.specs.Prelude.{◌≡◌, ◌≤◌, length, IfOk};
ghost use Rattle.std.specs.Str.{bytes_eq};

use std::alloc::{AllocError, Global};
use std::marker::Model;

/// How many bytes take no memory of their own.
const SHORT: usize = 30;

/// The bytes of a name. Up to thirty take no memory but their own. Contracts see the bytes in order.
#[derive(Drop)]
pub struct NameBytes {
    kept: ShortOrLong,
}

#[derive(Drop)]
enum ShortOrLong {
    Short { length: u8, bytes: [u8; SHORT] },
    Long(Vec<u8>),
}

impl Model for NameBytes {
    ghost use Rattle.std.specs.Prelude.{List, ℕ};

    ghost Value = { List ℕ };

    ghost use Rattle.containers.specs.Names.{bytes_of, IsWithin};

    ghost view = { λ name. bytes_of name.kept };

    ghost invariant = { λ name. IsWithin name.kept };
}

impl NameBytes {
    /// The name of these bytes. Only `AllocError` refuses.
    pub fn from_slice(alloc: Global, bytes: &[u8]) -> Result<NameBytes, AllocError>
        ensures { IfOk result (λ name. name ≡ bytes.now) }
    {
        if bytes.len() > SHORT {
            return Ok(NameBytes {
                kept: ShortOrLong::Long(Vec::from_slice(alloc, bytes)?),
            });
        }
        Ok(NameBytes::short(bytes))
    }

    /// The name of so few bytes.
    fn short(bytes: &[u8]) -> NameBytes
        requires { length bytes.now ≤ 30 }
        ensures { result ≡ bytes.now }
    {
        let length = bytes.len();
        let mut room = [0; SHORT];
        room[..length].copy_from_slice(bytes);
        NameBytes {
            kept: ShortOrLong::Short {
                length: length as u8,
                bytes: room,
            },
        }
    }

    /// The bytes in order.
    #[inline]
    pub fn as_slice(&self) -> &[u8]
        ensures { result.now ≡ self.now }
    {
        match &self.kept {
            ShortOrLong::Short { length, bytes } => &bytes[..*length as usize],
            ShortOrLong::Long(bytes) => bytes.as_slice(),
        }
    }
}

/// Whether the bytes are the same. Most names and words are so short that a loop takes less than a comparison of whole
/// runs.
#[inline]
pub fn are_same_bytes(bytes: &[u8], others: &[u8]) -> bool
    ensures { result ≡ bytes_eq bytes.now others.now }
{
    if bytes.len() != others.len() {
        return false;
    }
    for (i, byte) in bytes.iter().enumerate() {
        if *byte != others[i] {
            return false;
        }
    }
    true
}

impl Clone for NameBytes {
    ghost is_clone = { λ name copy. copy ≡ name };

    fn clone(&self) -> Result<NameBytes, AllocError> {
        match &self.kept {
            ShortOrLong::Short { length, bytes } => Ok(NameBytes {
                kept: ShortOrLong::Short {
                    length: *length,
                    bytes: *bytes,
                },
            }),
            ShortOrLong::Long(bytes) => Ok(NameBytes {
                kept: ShortOrLong::Long(bytes.clone()?),
            }),
        }
    }
}
