//! The text of an entry.

ghost use Rattle.std.specs.Prelude.{◌≡◌, ◌++◌, OnOk, OnErr};
ghost use Rattle.edk_codec.specs.Entry.{edk_text};

use crate::entries::DataKeyEntry;
use esdk_fields::{Blob, put_sized};
use std::alloc::{AllocError, Global};

/// Appends the entry's text. Where memory runs out, the bytes stay as they were.
#[tactic(auto, unfolding(crate::specs::Entry::edk_text), using(std::proofs::Common::append_assoc))]
pub fn write_entry(alloc: Global, entry: &DataKeyEntry, out: &mut Blob) -> Result<(), AllocError>
    ensures ok { OnOk result (out.new ≡ out.old ++ edk_text entry.now) }
    ensures err { OnErr result (out.new ≡ out.old) }
{
    let mut text = Blob::new(alloc);
    put_sized(&mut text, entry.provider())?;
    put_sized(&mut text, entry.info())?;
    put_sized(&mut text, entry.cipher())?;
    out.push_all(text.bytes())
}
