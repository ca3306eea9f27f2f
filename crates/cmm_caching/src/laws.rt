//! Laws about the cache. A law is a function that does nothing: its contract is what is proved.

ghost use Rattle.cmm_caching.specs.Laws.{ComparesValues, GivesWhatWasMade};

/// Two names of requests compare as equal exactly where they are the same in all their parts.
pub fn names_are_compared_as_values()
    ensures { ComparesValues }
{}

/// Whatever run of requests a cache answers, whatever is served from one entry is what the entry
/// was made with.
pub fn hits_give_what_was_made()
    ensures { GivesWhatWasMade }
{}
