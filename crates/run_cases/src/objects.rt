//! The objects in memory that a case is run over.

use crate::case::{Case, KEY_FILE, Plan, PlugPlan};
use crate::fault::Fault;
use crate::named::Named;
use esdk_fields::{Blob, Text};
use esdk_memory::{ListClock, ListEntropy, MemShelf, MemSink, MemSource};
use keydir_keyring::KeydirKeyring;
use keyring_file::Plug;
use raw_aes_keyring::RawError;
use std::alloc::{AllocError, Global};

/// How many bytes a read gives at most, where that isn't said.
const PIECE: usize = 65_536;

/// How many bytes an object takes, where that isn't said.
const ROOM: usize = 1_048_576;

/// How many bytes a plug's namespace or key name may have.
const MOST_NAME: usize = 1_024;

/// The keyring of a plug.
pub type Keydir = KeydirKeyring<MemShelf>;

/// What a run reads and writes.
#[derive(Drop)]
pub struct Streams {
    pub input: MemSource,
    pub output: MemSink,
    pub report: MemSink,
}

/// What else a run is given.
#[derive(Drop)]
pub struct Stores {
    pub shelf: MemShelf,
    pub entropy: ListEntropy,
    pub clock: ListClock,
}

/// The streams as the case plans them.
pub fn streams_of(alloc: Global, case: &Case) -> Result<Streams, AllocError> {
    Ok(Streams {
        input: source_of(alloc, &case.input)?,
        output: sink_of(alloc, &case.output)?,
        report: sink_of(alloc, &case.report)?,
    })
}

/// Shelf, entropy and clock as the case plans them.
pub fn stores_of(alloc: Global, case: &Case) -> Result<Stores, AllocError> {
    Ok(Stores {
        shelf: shelf_of(alloc, &case.files, &case.failing)?,
        entropy: entropy_of(alloc, &case.entropy)?,
        clock: ListClock::new(Vec::from_slice(alloc, &case.moments)?),
    })
}

fn source_of(alloc: Global, plan: &Plan) -> Result<MemSource, AllocError> {
    let failing = Vec::from_slice(alloc, &plan.failing)?;
    let most = plan.most.unwrap_or(PIECE).max(1);
    Ok(MemSource::new(blob_of(alloc, &plan.bytes)?, most, failing))
}

fn entropy_of(alloc: Global, plan: &Plan) -> Result<ListEntropy, AllocError> {
    let failing = Vec::from_slice(alloc, &plan.failing)?;
    Ok(ListEntropy::new(blob_of(alloc, &plan.bytes)?, failing))
}

fn sink_of(alloc: Global, plan: &Plan) -> Result<MemSink, AllocError> {
    let failing = Vec::from_slice(alloc, &plan.failing)?;
    MemSink::new(alloc, plan.most.unwrap_or(ROOM), failing)
}

fn blob_of(alloc: Global, bytes: &[u8]) -> Result<Blob, AllocError> {
    let mut blob = Blob::new(alloc);
    blob.push_all(bytes)?;
    Ok(blob)
}

fn shelf_of(alloc: Global, files: &[Named], failing: &[u64]) -> Result<MemShelf, AllocError> {
    let mut shelf = MemShelf::new(alloc, Vec::from_slice(alloc, failing)?);
    for file in files {
        put_file(alloc, &mut shelf, file)?;
    }
    Ok(shelf)
}

/// Puts the file on the shelf, and takes its room.
fn put_file(alloc: Global, shelf: &mut MemShelf, file: &Named) -> Result<(), AllocError> {
    let name = file.name.as_str();
    if let Some(bytes) = &file.bytes {
        shelf.place(alloc, name, bytes)?;
    }
    if let Some(room) = file.room {
        shelf.room(alloc, name, room)?;
    }
    Ok(())
}

/// The plug as it is planned.
pub fn plug_of(alloc: Global, plan: &PlugPlan) -> Result<Plug<Keydir>, Fault> {
    let keyring = keyring_of(alloc, plan)?;
    let name = Text::new(alloc, plan.name.as_str())?;
    Ok(Plug { name, keyring })
}

/// The keyring of the plug.
fn keyring_of(alloc: Global, plan: &PlugPlan) -> Result<Keydir, Fault> {
    let namespace = plan.namespace.as_str();
    let key_name = plan.key_name.as_str();
    if namespace.len() > MOST_NAME || key_name.len() > MOST_NAME {
        return Err(Fault("a plug's name is too long"));
    }
    let shelf = shelf_of(alloc, &plan.files, &plan.failing)?;
    match KeydirKeyring::new(alloc, shelf, KEY_FILE, namespace, key_name) {
        Ok(keyring) => Ok(keyring),
        Err(RawError::ReservedNamespace) => Err(Fault("a plug's namespace is reserved")),
        Err(RawError::Memory) => Err(Fault::from(AllocError)),
    }
}
