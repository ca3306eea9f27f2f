//! Bytes under names: values, and files of a shelf.
use crate::fault::Fault;
use crate::words::name_of;
use std::alloc::Global;

/// Bytes under a name, where there are any, and the room that is taken for them, where it was said.
#[derive(Drop)]
pub struct Named {
    pub name: String,
    pub bytes: Option<Vec<u8>>,
    pub room: Option<usize>,
}

impl Named {
    /// Whether just these bytes are there.
    pub fn holds(&self, bytes: &[u8]) -> bool {
        match &self.bytes {
            Some(held) => held.as_slice() == bytes,
            None => false,
        }
    }
}

/// The index of the name.
pub fn index_of(all: &[Named], name: &str) -> Option<usize> {
    all.iter().position(|named| named.name.as_str() == name)
}

/// What stands under the name, which is added where it isn't there yet.
fn entry<'a>(alloc: Global, all: &'a mut Vec<Named>, text: &str) -> Result<&'a mut Named, Fault> {
    let index = index_of(all, text).unwrap_or(all.len());
    if index == all.len() {
        let name = name_of(alloc, text)?;
        all.push(Named {
            name,
            bytes: None,
            room: None,
        })?;
    }
    all.get_mut(index).ok_or(Fault("unknown name"))
}

/// Puts the bytes behind those of the name.
pub fn append(alloc: Global, all: &mut Vec<Named>, name: &str, bytes: &[u8]) -> Result<(), Fault> {
    let named = entry(alloc, all, name)?;
    match &mut named.bytes {
        Some(before) => before.extend_from_slice(bytes)?,
        None => named.bytes = Some(Vec::from_slice(alloc, bytes)?),
    }
    Ok(())
}

/// Says the room of the name.
pub fn set_room(alloc: Global, all: &mut Vec<Named>, name: &str, room: usize) -> Result<(), Fault> {
    set_once(&mut entry(alloc, all, name)?.room, room)
}

/// Sets what wasn't said before.
pub fn set_once(setting: &mut Option<usize>, number: usize) -> Result<(), Fault> {
    if setting.is_some() {
        return Err(Fault("said before"));
    }
    *setting = Some(number);
    Ok(())
}
