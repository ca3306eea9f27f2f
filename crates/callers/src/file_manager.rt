//! A manager over the keys of a keyring file.

ghost use Rattle.std.specs.Prelude.{◌≡◌, ◌∷◌, [], Ok, IfOk};
ghost use Rattle.keyring_file.specs.Found.{wraps_of};
ghost use Rattle.keyring_file.specs.KeyFile.{tree_of};
ghost use Rattle.multi_keyring.specs.Nodes.{forest};

use cmm_default::DefaultCmm;
use cmm_required::RequiredCmm;
use context_codec::KeySet;
use keyring_file::{Plug, TreeError, read_tree};
use keyring_trait::Keyring;
use multi_keyring::Node;
use std::alloc::Global;

/// The manager of the keyring tree that a file describes, in which the file names the plug as a
/// leaf; it requires these keys of every context.
pub(crate) fn file_manager<P: Keyring>(
    alloc: Global,
    file: &[u8],
    plug: Plug<P>,
    required: KeySet,
) -> Result<RequiredCmm<DefaultCmm<Node<P>>>, TreeError>
    ensures tree { IfOk result (λ manager.
        tree_of (wraps_of P.meaning) file.now (plug ∷ []) ≡ Ok (forest (manager.0 ∷ []))) }
    ensures required { IfOk result (λ manager. manager.1 ≡ required) }
{
    let mut plugs = Vec::new(alloc);
    plugs.push(plug)?;
    let tree = read_tree(alloc, file, plugs)?;
    Ok(RequiredCmm::new(DefaultCmm::new(tree), required))
}
