//! A shelf in memory.

ghost use Rattle.std.specs.Prelude.{◌≡◌, ◌||◌, [], ◌∷◌, ◌++◌, IfOk, IsOk, OnErr, OnOk, Some};
ghost use Rattle.std.specs.Prelude.{is_err, length};
ghost use Rattle.std.specs.FinMap.{empty, get};
ghost use Rattle.std.specs.Io.{ReadsAtMost};
ghost use Rattle.std.specs.Option.{option_map};
ghost use Rattle.esdk_fields.specs.Counts.{CountsGiven, HasCause};
ghost use Rattle.esdk_memory.specs.MemShelf.{after_append, after_create, shelf_after_read};
ghost use Rattle.esdk_memory.specs.MemShelf.{append_faults, create_fails, is_absent, placed};
ghost use Rattle.esdk_memory.specs.MemShelf.{shelf_read_count, read_fails};
ghost use Rattle.esdk_memory.specs.MemFiles.{with_room};
ghost use Rattle.esdk_seen.specs.Calls.{announces, creates, finishes};
ghost use Rattle.esdk_base.specs.Told.{TellsAppend, TellsCall, TellsRead, whom};
ghost use Rattle.esdk_base.specs.Shelf.{AppendsTo, Creates, EndsAt, HasCauseOrMissing, ReadsFrom};
ghost use Rattle.esdk_base.specs.Shelf.{is_missing};

use crate::call_plan::CallPlan;
use crate::fronts::give_part;
use crate::mem_files::MemFiles;
use esdk_base::{Failed, Readers, Shelf};
use esdk_seen::{Call, SeenCalls};
use std::alloc::{AllocError, Global};
use std::marker::Model;

/// A shelf that keeps its files in memory, each up to a room that is taken before.
#[derive(Drop)]
pub struct MemShelf {
    files: MemFiles,
    given: u64,
    plan: CallPlan,
    calls: SeenCalls,
}

impl Model for MemShelf {
    ghost use Rattle.std.specs.Coded.{codes};
    ghost use Rattle.esdk_memory.specs.MemFiles.{files_code, rooms_code};
    ghost use Rattle.esdk_seen.specs.Calls.{calls_code};
    ghost use Rattle.esdk_memory.specs.MemShelf.{MemShelfState};

    ghost Value = { MemShelfState };

    ghost coded = { Prim.hlevel (codes, files_code, rooms_code, calls_code) };

    ghost view = { λ s. record {
      files = s.files.files;
      rooms = s.files.rooms;
      given = s.given;
      plan = s.plan;
      calls = s.calls.calls;
    } };
}

impl MemShelf {
    /// A shelf with no files. The calls whose numbers `failing` lists, counted from 1, fail; a
    /// create of a name for which no room was taken; an append that would make a name hold more
    /// than its room; and a read or an append of a name that isn't there. No other does.
    pub fn new(alloc: Global, failing: Vec<u64>) -> MemShelf
        ensures { result ≡ record {
          files = empty;
          rooms = empty;
          given = 0;
          plan = record { failing = failing.items; calls = 0; faults = 0 };
          calls = [];
        } }
    {
        MemShelf {
            files: MemFiles::new(alloc),
            given: 0,
            plan: CallPlan::new(failing),
            calls: SeenCalls::new(),
        }
    }

    /// Takes room for so many bytes in all for the name. Where memory runs out, the shelf stays as
    /// it was.
    pub fn room(&mut self, alloc: Global, name: &str, size: usize) -> Result<(), AllocError>
        ensures ok { OnOk result (self.new ≡ record self.old
            { rooms = with_room self.old.rooms name.now size }) }
        ensures err { OnErr result (self.new ≡ self.old) }
    {
        self.files.take_room(alloc, name, size)
    }

    /// Makes the name hold just these bytes, and takes room for them. Where memory runs out, the
    /// shelf stays as it was.
    pub fn place(&mut self, alloc: Global, name: &str, bytes: &[u8]) -> Result<(), AllocError>
        ensures ok { OnOk result (self.new ≡ placed self.old name.now bytes.now) }
        ensures err { OnErr result (self.new ≡ self.old) }
    {
        self.files.take_room(alloc, name, bytes.len())?;
        self.files.fill(name, bytes);
        Ok(())
    }

    /// The bytes that the name holds. None where it isn't there.
    pub fn get(&self, name: &str) -> Option<&[u8]>
        ensures { option_map (λ bytes. bytes.now) result ≡ get self.now.files name.now }
    {
        self.files.held(name)
    }
}

impl Shelf for MemShelf {
    ghost state = { λ s. record {
      files = Some s.files;
      given = s.given;
      faults = s.plan.faults;
      calls = s.calls;
    } };

    fn read_at(&mut self, name: &str, at: u64, out: &mut [u8]) -> Result<usize, Failed>
        ensures bound { ReadsAtMost result out.new }
        ensures bytes { ReadsFrom (Some self.old.files) result name.now at out.new }
        ensures end { EndsAt (Some self.old.files) result name.now at out.new }
        ensures stays { Some self.new.files ≡ Some self.old.files }
        ensures given { CountsGiven self.old.given self.new.given result }
        ensures cause { HasCauseOrMissing (is_missing (Some self.old.files) name.now)
            self.old.plan.faults self.new.plan.faults result }
        ensures calls { TellsRead self.old.calls self.new.calls result name.now at out.new }
        ensures failed { is_err result ≡ read_fails self.old name.now }
        ensures count { IfOk result (λ n. n ≡ shelf_read_count self.old name.now at
            (length out.old)) }
        ensures shelf { self.new ≡ record (shelf_after_read self.old name.now at (length out.old))
            { calls = self.new.calls } }
    {
        let Some(bytes) = self.files.held(name) else {
            self.plan.count();
            return Err(Failed);
        };
        let Ok(()) = self.plan.begin(false) else {
            return Err(Failed);
        };
        let count = give_part(bytes, at, out);
        self.given = self.given.saturating_add(count as u64);
        self.calls.see(&Call::Read(name, at, &out[..count]));
        Ok(count)
    }

    fn create(&mut self, name: &str) -> Result<(), Failed>
        ensures bytes { Creates (Some self.old.files) (Some self.new.files) result name.now }
        ensures given { self.new.given ≡ self.old.given }
        ensures cause { HasCause self.old.plan.faults self.new.plan.faults result }
        ensures calls { TellsCall self.old.calls self.new.calls result (creates name.now) }
        ensures failed { is_err result ≡ create_fails self.old name.now }
        ensures shelf { self.new ≡ record (after_create self.old name.now)
            { calls = self.new.calls } }
    {
        let has_room = self.files.has_room(name);
        let Ok(()) = self.plan.begin(!has_room) else {
            return Err(Failed);
        };
        self.files.fill(name, &[]);
        self.calls.see(&Call::Create(name));
        Ok(())
    }

    #[tactic(auto, using(crate::proofs::ShelfLemmas::appended_missing))]
    fn append(&mut self, name: &str, bytes: &[u8]) -> Result<(), Failed>
        ensures bytes { AppendsTo (Some self.old.files)
            (Some self.new.files) result name.now bytes.now }
        ensures given { self.new.given ≡ self.old.given }
        ensures cause { HasCauseOrMissing (is_missing (Some self.old.files) name.now)
            self.old.plan.faults self.new.plan.faults result }
        ensures calls { TellsAppend self.old.calls self.new.calls result name.now bytes.now }
        ensures failed { is_err result ≡ (is_absent self.old name.now || append_faults self.old
            name.now bytes.now) }
        ensures shelf { self.new ≡ record (after_append self.old name.now bytes.now)
            { calls = self.new.calls } }
    {
        let Some(_) = self.files.held(name) else {
            self.plan.count();
            return Err(Failed);
        };
        let too_long = self.files.is_too_long(name, bytes.len());
        let Ok(()) = self.plan.begin(too_long) else {
            return Err(Failed);
        };
        self.files.append(name, bytes);
        self.calls.see(&Call::Append(name, bytes));
        Ok(())
    }

    fn will_read(&mut self, name: &str) -> Result<(), AllocError>
        ensures shelf { self.new ≡ record self.old
            { calls = self.old.calls ++ announces name.now ∷ [] } }
        ensures ok { IsOk result }
    {
        self.calls.see(&Call::Announce(name));
        Ok(())
    }

    /// Is no call that is counted among those that may be planned to fail.
    fn finish(&mut self, name: &str, readers: Readers) -> Result<(), Failed>
        ensures shelf { self.new ≡ record self.old
            { calls = self.old.calls ++ finishes name.now (whom readers) ∷ [] } }
        ensures ok { IsOk result }
    {
        let for_owner = matches!(&readers, Readers::Owner);
        self.calls.see(&Call::Finish(name, for_owner));
        Ok(())
    }
}
