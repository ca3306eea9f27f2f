//! Values under names.

ghost use Rattle.std.specs.Prelude.{◌≡◌, ◌≢◌, ◌∷◌, ◌++◌, ◌<◌, ◌≤◌, [], All, HoldsAt, IfErr, IfNone};
ghost use Rattle.std.specs.Prelude.{IfSome, OnErr, OnOk, length};
ghost use Rattle.esdk_system.specs.Named.{TakesAway};

use esdk_fields::Text;
use std::alloc::{AllocFailed, Global};

/// A value under a name.
#[derive(Drop)]
pub(crate) struct Named<T> {
    pub(crate) name: Text,
    pub(crate) value: T,
}

/// Values under names, in the order in which they were kept.
#[derive(Drop)]
pub(crate) struct NamedValues<T> {
    values: Vec<Named<T>>,
}

impl<T: Drop> NamedValues<T> {
    /// None.
    pub(crate) fn new(alloc: Global) -> NamedValues<T>
        ensures { result.values.items ≡ [] }
    {
        NamedValues {
            values: Vec::new(alloc),
        }
    }

    /// How many values there are.
    pub(crate) fn len(&self) -> usize
        ensures { result ≡ length self.now.values.items }
    {
        self.values.len()
    }

    /// The value under this name, which is kept no longer.
    pub(crate) fn take(&mut self, name: &str) -> Option<Named<T>>
        ensures name { IfSome result (λ one. one.name ≡ name.now) }
        ensures taken { IfSome result (TakesAway self.old.values.items self.new.values.items) }
        ensures none { IfNone result (self.new.values.items ≡ self.old.values.items) }
        ensures absent { IfNone result (All (λ one. one.name ≢ name.now) self.old.values.items) }
        ensures fewer { length self.new.values.items ≤ length self.old.values.items }
    {
        let at = place_of(&self.values, name)?;
        Some(self.values.remove(at))
    }

    /// The value that was kept before all others, which is kept no longer.
    pub(crate) fn take_first(&mut self) -> Option<Named<T>>
        ensures kept { IfSome result (λ one.
            self.old.values.items ≡ one ∷ self.new.values.items) }
        ensures none { IfNone result (self.old.values.items ≡ []) }
    {
        if self.values.is_empty() {
            return None;
        }
        Some(self.values.remove(0))
    }

    /// Keeps a value under its name, behind the others. Where memory runs out, it comes back.
    pub(crate) fn keep(&mut self, one: Named<T>) -> Result<(), AllocFailed<Named<T>>>
        ensures ok { OnOk result (self.new.values.items ≡ self.old.values.items ++ one ∷ []) }
        ensures err { OnErr result (self.new.values.items ≡ self.old.values.items) }
        ensures back { IfErr result (λ failed. failed.value ≡ one) }
    {
        self.values.push(one)
    }
}

/// The place of the value under this name.
fn place_of<T>(values: &[Named<T>], name: &str) -> Option<usize>
    ensures place { IfSome result (λ at. at < length values.now) }
    ensures name { IfSome result (λ at. HoldsAt (λ one. one.name ≡ name.now) values.now at) }
    ensures absent { IfNone result (All (λ one. one.name ≢ name.now) values.now) }
{
    for (at, one) in values.iter().enumerate() {
        if one.name.as_str() == name {
            return Some(at);
        }
    }
    None
}
