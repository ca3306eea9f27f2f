//! Bytes that grow at the end, and what is put there: big-endian numbers, and bytes behind their
//! length.

ghost use Rattle.std.specs.Prelude.{◌≡◌, ◌≤◌, ◌++◌, [], length, OnOk, OnErr};
ghost use Rattle.std.specs.Int.{w16, w32, w64};
ghost use Rattle.esdk_fields.specs.Numbers.{to_big_endian};
ghost use Rattle.esdk_fields.specs.Sized.{sized};

use std::alloc::{AllocError, Global};
use std::marker::Model;

/// Bytes that grow at the end. A contract sees the list of the bytes.
#[derive(Drop)]
pub struct Blob {
    inner: Vec<u8>,
}

impl Model for Blob {
    ghost use Rattle.std.specs.Prelude.{ℕ, List};

    ghost Value = { List ℕ };

    ghost view = { λ a. a.inner.items };
}

impl Blob {
    /// No bytes yet. Takes no memory before bytes are pushed.
    pub fn new(alloc: Global) -> Blob
        ensures { result ≡ [] }
    {
        Blob {
            inner: Vec::new(alloc),
        }
    }

    /// Appends all these bytes. Where memory runs out, the bytes stay as they were.
    pub fn push_all(&mut self, bytes: &[u8]) -> Result<(), AllocError>
        ensures ok { OnOk result (self.new ≡ self.old ++ bytes.now) }
        ensures err { OnErr result (self.new ≡ self.old) }
    {
        self.inner.extend_from_slice(bytes)
    }

    /// The bytes, lent.
    pub fn bytes(&self) -> &[u8]
        ensures { result.now ≡ self.now }
    {
        self.inner.as_slice()
    }
}

/// Appends the two big-endian bytes of the number. Where memory runs out, the bytes stay as they
/// were.
#[tactic(auto, unfolding(crate::specs::Numbers::to_big_endian))]
pub fn put_u16(out: &mut Blob, n: u16) -> Result<(), AllocError>
    ensures ok { OnOk result (out.new ≡ out.old ++ to_big_endian w16 n) }
    ensures err { OnErr result (out.new ≡ out.old) }
{
    let two = n.to_be_bytes();
    out.push_all(&two)
}

/// Appends the four big-endian bytes of the number. Where memory runs out, the bytes stay as they
/// were.
#[tactic(auto, unfolding(crate::specs::Numbers::to_big_endian))]
pub fn put_u32(out: &mut Blob, n: u32) -> Result<(), AllocError>
    ensures ok { OnOk result (out.new ≡ out.old ++ to_big_endian w32 n) }
    ensures err { OnErr result (out.new ≡ out.old) }
{
    let four = n.to_be_bytes();
    out.push_all(&four)
}

/// Appends the eight big-endian bytes of the number. Where memory runs out, the bytes stay as they
/// were.
#[tactic(auto, unfolding(crate::specs::Numbers::to_big_endian))]
pub fn put_u64(out: &mut Blob, n: u64) -> Result<(), AllocError>
    ensures ok { OnOk result (out.new ≡ out.old ++ to_big_endian w64 n) }
    ensures err { OnErr result (out.new ≡ out.old) }
{
    let eight = n.to_be_bytes();
    out.push_all(&eight)
}

/// Appends two bytes of length, and the bytes. Where memory runs out, the bytes before stay as they
/// were.
#[tactic(auto, unfolding(crate::specs::Sized::sized), using(std::proofs::Common::append_assoc))]
pub fn put_sized(out: &mut Blob, bytes: &[u8]) -> Result<(), AllocError>
    requires { length bytes.now ≤ 65535 }
    ensures ok { OnOk result (out.new ≡ out.old ++ sized bytes.now) }
    ensures err { OnErr result (out.new ≡ out.old) }
{
    let len = out.inner.len();
    put_u16(out, bytes.len() as u16)?;
    let put = out.push_all(bytes);
    if put.is_err() {
        out.inner.truncate(len);
    }
    put
}
