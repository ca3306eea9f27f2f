//! Keyrings that are handed over under names.

ghost use Rattle.keyring_file.specs.Found.{IsIndexOf, TakesPlug};

use esdk_fields::Text;

/// A keyring that a keyring file speaks of by a name.
#[derive(Drop)]
pub struct Plug<P> {
    /// The name.
    pub name: Text,
    /// The keyring.
    pub keyring: P,
}

/// Takes the first keyring of this name out of the plugs. None exactly where there is none, and
/// then all are left.
pub(crate) fn take<P>(plugs: &mut Vec<Plug<P>>, name: &str) -> Option<P>
    ensures { TakesPlug name.now plugs.old.items plugs.new.items result }
{
    let index = index_of(plugs, name)?;
    Some(plugs.remove(index).keyring)
}

/// The index of the first plug of this name.
fn index_of<P>(plugs: &[Plug<P>], name: &str) -> Option<usize>
    ensures { IsIndexOf name.now plugs.now result }
{
    for (index, plug) in plugs.iter().enumerate() {
        if plug.name.as_str() == name {
            return Some(index);
        }
    }
    None
}
