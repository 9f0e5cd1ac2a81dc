//! The text of a value: any bytes.

ghost use Rattle.std.specs.Prelude.{◌≡◌, ◌^◌, ◌<◌, ◌≤◌, IfOk, IfErr, length};
ghost use Rattle.mg_value.specs.Texts.{Explains};

use crate::ValueFault;
use mg_base::Memory;
use std::alloc::Global;
use std::marker::Model;

/// The text of a value: any bytes.
#[derive(Debug, Drop)]
pub struct Txt {
    bytes: Vec<u8>,
}

impl Model for Txt {
    ghost use Rattle.std.specs.Prelude.{List, ℕ};

    ghost Value = { List ℕ };

    ghost view = { λ text. text.bytes.items };
}

impl Txt {
    /// The text of these bytes, at most `most` of them.
    ///
    /// # Errors
    ///
    /// `TextTooLong` exactly where there are more, with their number; or `Memory`.
    pub fn new(alloc: Global, bytes: &[u8], most: u16) -> Result<Txt, ValueFault>
        requires { length bytes.now < 2 ^ 31 }
        ensures ok { IfOk result (λ text. text ≡ bytes.now) }
        ensures fits { IfOk result (λ text. length bytes.now ≤ most) }
        ensures err { IfErr result (Explains most (length bytes.now)) }
    {
        if bytes.len() > most as usize {
            return Err(ValueFault::TextTooLong {
                len: bytes.len() as u32,
            });
        }
        Ok(Txt {
            bytes: bytes.to_vec(alloc)?,
        })
    }

    /// The text of these bytes, however many they are. It takes no memory.
    pub fn of_bytes(bytes: Vec<u8>) -> Txt
        ensures { result ≡ bytes.items }
    {
        Txt { bytes }
    }

    /// Its bytes.
    pub fn as_slice(&self) -> &[u8]
        ensures { result.now ≡ self.now }
    {
        &self.bytes
    }

    /// An equal text.
    ///
    /// # Errors
    ///
    /// `Memory` only.
    pub fn copy(&self, alloc: Global) -> Result<Txt, Memory>
        ensures { IfOk result (λ text. text ≡ self.now) }
    {
        Ok(Txt {
            bytes: self.bytes.as_slice().to_vec(alloc)?,
        })
    }
}
