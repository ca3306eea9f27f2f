//! Laws about the suites and the keys that are derived. A law is a function that does nothing: its
//! contract is what is proved.

ghost use Rattle.suite_table.specs.declared.suite.Suite.{Suite};
ghost use Rattle.suite_table.specs.Keys.{derived, commitment};
ghost use Rattle.suite_table.specs.Laws.{AreFoundById, HaveKeyLength, AreMadeOfBytes};

/// A suite is found by its own id, and by no other.
pub fn suites_are_found_by_id()
    ensures { AreFoundById }
{}

/// A derived key has 32 bytes.
pub fn derived_length()
    ensures { (suite : Suite) → HaveKeyLength (derived suite) }
{}

/// A derived key is made of bytes.
pub fn derived_bytes()
    ensures { (suite : Suite) → AreMadeOfBytes (derived suite) }
{}

/// A commitment has 32 bytes.
pub fn commitment_length()
    ensures { HaveKeyLength commitment }
{}

/// A commitment is made of bytes.
pub fn commitment_bytes()
    ensures { AreMadeOfBytes commitment }
{}
