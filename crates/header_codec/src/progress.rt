//! How far a header was read, while its bytes come.

ghost use Rattle.std.specs.Prelude.{◌≡◌, ◌+◌, ◌-◌, ◌≤◌, [], length, Some, None, is_some, true};
ghost use Rattle.std.specs.Prelude.{IfErr, OnErr, OnOk};
ghost use Rattle.esdk_fields.specs.Bytes.{AreBytes};
ghost use Rattle.esdk_fields.specs.Place.{start};
ghost use Rattle.esdk_fields.specs.Gives.{StopsAt};
ghost use Rattle.header_codec.specs.Found.{FindsHeader};
ghost use Rattle.header_codec.specs.Table.{header};
ghost use Rattle.header_codec.specs.Rest.{place_past};
ghost use Rattle.header_codec.specs.Progress.{HasReadSoFar};

use crate::found::Found;
use crate::header::Header;
use crate::lock::HeaderLock;
use crate::settings::Settings;
use crate::table::{context_field_of, ending_of, entry_of, keys_count_of, opening_of};
use context_codec::Context;
use edk_codec::DataKeyEntry;
use esdk_fields::{Cursor, Stop};
use std::alloc::Global;
use std::mem;
use suite_table::Suite;

/// What stands before a header's encrypted data keys: its opening and its stored pairs.
#[derive(Drop)]
pub(crate) struct Front {
    pub(crate) suite: Suite,
    pub(crate) id: Vec<u8>,
    pub(crate) stored: Context,
}

/// How far the front of some bytes was read as a header. What was read whole is kept, and isn't
/// read again.
#[derive(Drop)]
pub(crate) struct Progress {
    pub(crate) settings: Settings,
    /// Opening and context, once both were read.
    pub(crate) front: Option<Front>,
    /// How many entries are still to be read, once their count was read.
    pub(crate) left: Option<u16>,
    /// The entries that were read.
    pub(crate) keys: Vec<DataKeyEntry>,
    /// The offset behind what was read.
    pub(crate) at: usize,
}

/// A cursor behind the first `at` bytes.
fn cursor_at<'a>(bytes: &'a [u8], at: usize) -> Cursor<'a>
    requires { at ≤ length bytes.now }
    ensures place { result ≡ place_past at bytes.entry.now }
    ensures bytes { AreBytes bytes.entry.now }
{
    let mut cursor = Cursor::new(bytes);
    match cursor.take(at) {
        Some(_) => cursor,
        None => unreachable!(),
    }
}

impl Progress {
    /// Nothing was read yet.
    pub(crate) fn new(alloc: Global, settings: Settings) -> Progress
        ensures settings { result.settings ≡ settings }
        ensures front { result.front ≡ None }
        ensures at { result.at ≡ 0 }
    {
        Progress {
            settings,
            front: None,
            left: None,
            keys: Vec::new(alloc),
            at: 0,
        }
    }

    /// Reads opening and context, where that wasn't done.
    fn read_front(&mut self, alloc: Global, bytes: &[u8]) -> Result<(), Stop>
        requires { HasReadSoFar bytes.now self.old }
        ensures holds { HasReadSoFar bytes.now self.new }
        ensures settings { self.new.settings ≡ self.old.settings }
        ensures stops { IfErr result (λ stop. StopsAt stop
            (header self.old.settings (start bytes.now))) }
        ensures front { OnOk result (is_some self.new.front ≡ true) }
    {
        if self.front.is_some() {
            return Ok(());
        }
        let mut cursor = cursor_at(bytes, self.at);
        let opening = opening_of(self.settings.uncommitted, &mut cursor)?;
        let field = context_field_of(alloc, &mut cursor)?;
        self.front = Some(Front {
            suite: opening.suite,
            id: Vec::from_slice(alloc, opening.id)?,
            stored: field.stored,
        });
        // Neither a count nor an entry was read yet.
        self.left = None;
        self.at = cursor.offset();
        Ok(())
    }

    /// Reads the count of the encrypted data keys, where that wasn't done.
    fn read_count(&mut self, alloc: Global, bytes: &[u8]) -> Result<(), Stop>
        requires holds { HasReadSoFar bytes.now self.old }
        requires front { is_some self.old.front ≡ true }
        ensures holds { HasReadSoFar bytes.now self.new }
        ensures settings { self.new.settings ≡ self.old.settings }
        ensures stops { IfErr result (λ stop. StopsAt stop
            (header self.old.settings (start bytes.now))) }
        ensures front { self.new.front ≡ self.old.front }
        ensures left { OnOk result (is_some self.new.left ≡ true) }
    {
        if self.left.is_some() {
            return Ok(());
        }
        let mut cursor = cursor_at(bytes, self.at);
        let count = keys_count_of(self.settings.max_keys, &mut cursor)?;
        self.left = Some(count);
        self.keys = Vec::new(alloc);
        self.at = cursor.offset();
        Ok(())
    }

    /// Reads the next entry; `left` says how many are still to be read.
    fn read_entry(&mut self, alloc: Global, left: u16, bytes: &[u8]) -> Result<(), Stop>
        requires holds { HasReadSoFar bytes.now self.old }
        requires front { is_some self.old.front ≡ true }
        requires left { self.old.left ≡ Some left }
        requires some { 1 ≤ left }
        ensures holds { HasReadSoFar bytes.now self.new }
        ensures settings { self.new.settings ≡ self.old.settings }
        ensures stops { IfErr result (λ stop. StopsAt stop
            (header self.old.settings (start bytes.now))) }
        ensures front { self.new.front ≡ self.old.front }
        ensures left { OnOk result (self.new.left ≡ Some (left - 1)) }
    {
        let mut cursor = cursor_at(bytes, self.at);
        let entry = entry_of(&mut cursor)?;
        let owned = DataKeyEntry::new(alloc, entry.provider, entry.info, entry.cipher)?;
        self.keys.push(owned)?;
        self.left = Some(left - 1);
        self.at = cursor.offset();
        Ok(())
    }

    /// Reads the entries that are still to be read.
    fn read_entries(&mut self, alloc: Global, bytes: &[u8]) -> Result<(), Stop>
        requires holds { HasReadSoFar bytes.now self.old }
        requires front { is_some self.old.front ≡ true }
        requires left { is_some self.old.left ≡ true }
        ensures holds { HasReadSoFar bytes.now self.new }
        ensures settings { self.new.settings ≡ self.old.settings }
        ensures stops { IfErr result (λ stop. StopsAt stop
            (header self.old.settings (start bytes.now))) }
        ensures front { self.new.front ≡ self.old.front }
        ensures left { OnOk result (self.new.left ≡ Some 0) }
    {
        let mut left = self.left.unwrap_or(0);
        while 0 < left {
            self.read_entry(alloc, left, bytes)?;
            left -= 1;
        }
        Ok(())
    }

    /// Reads what follows the encrypted data keys. Ok: the header, whose parts are given away; the
    /// bytes themselves are its body.
    fn read_ending(&mut self, alloc: Global, bytes: &mut Vec<u8>) -> Result<Found, Stop>
        requires holds { HasReadSoFar bytes.old.items self.old }
        requires front { is_some self.old.front ≡ true }
        requires left { self.old.left ≡ Some 0 }
        ensures holds { OnErr result (HasReadSoFar bytes.new.items self.new) }
        ensures bytes { OnErr result (bytes.new.items ≡ bytes.old.items) }
        ensures settings { self.new.settings ≡ self.old.settings }
        ensures finds { FindsHeader self.old.settings bytes.old.items result }
    {
        let Some(front) = &self.front else {
            unreachable!()
        };
        let mut cursor = cursor_at(bytes, self.at);
        let ending = ending_of(alloc, front.suite, self.settings.max_unit, &mut cursor)?;
        let end = cursor.offset();
        let vector = ending.iv;
        let authentication = ending.tag;
        let Some(front) = self.front.take() else {
            unreachable!()
        };
        let mut text = mem::replace(bytes, Vec::new(alloc));
        text.truncate(ending.size);
        let lock = HeaderLock {
            algorithm: front.suite,
            id: front.id,
            body: ending.content,
            suite_data: ending.commitment,
            text,
            vector,
            authentication,
        };
        let header = Header {
            context: front.stored,
            keys: mem::replace(&mut self.keys, Vec::new(alloc)),
            lock,
        };
        Ok(Found { header, end })
    }

    /// Goes on reading: these are the bytes so far. Ok: the header, to which the bytes are given, and
    /// no more is read.
    ///
    /// `Fault` with M1 to M9 or M23 to M26 and the offset where the field that has it ends;
    /// `Wanting` where neither a fault nor the header's authentication is whole in the bytes;
    /// `Memory` where memory runs out.
    pub(crate) fn advance(&mut self, alloc: Global, bytes: &mut Vec<u8>) -> Result<Found, Stop>
        requires { HasReadSoFar bytes.old.items self.old }
        ensures holds { OnErr result (HasReadSoFar bytes.new.items self.new) }
        ensures bytes { OnErr result (bytes.new.items ≡ bytes.old.items) }
        ensures settings { self.new.settings ≡ self.old.settings }
        ensures finds { FindsHeader self.old.settings bytes.old.items result }
    {
        self.read_front(alloc, bytes)?;
        self.read_count(alloc, bytes)?;
        self.read_entries(alloc, bytes)?;
        self.read_ending(alloc, bytes)
    }
}
