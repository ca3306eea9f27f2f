//! The keyring tree that a keyring file is read as.
ghost use Rattle.std.specs.Prelude.{◌≡◌, ◌<◌, ◌^◌, [], ◌∷◌, length, IfErr, IfOk, None, Ok};
ghost use Rattle.multi_keyring.specs.Tree.{node_leaves, tree_meaning};
ghost use Rattle.esdk_run.specs.FileReading.{FileFails, ReadCause};
ghost use Rattle.esdk_run.specs.Trees.{IsLawful, TreeHas, TreeIs, leaf_reading, reading, trees_of};

use crate::failures::tree_failure;
use crate::file_input::taken;
use esdk_base::Shelf;
use esdk_report::Failure;
use keyring_file::{Plug, leaves_are_few, read_tree};
use keyring_trait::Keyring;
use multi_keyring::Node;
use std::alloc::Global;

/// The keyring tree that the file of this name is read as, in which the plugs stand where the file
/// names them. The shelf's files stay as they are.
///
/// The file is taken first, as `taken` says; then its bytes are judged.
pub fn read_keyring<P: Keyring, F: Shelf>(
    alloc: Global,
    shelf: &mut F,
    name: &str,
    plugs: Vec<Plug<P>>,
) -> Result<Node<P>, Failure>
    requires plugs { length plugs.items < 2 ^ 24 }
    ensures tree { IfOk result (λ tree. TreeIs (reading P.meaning plugs.items) (F.state shelf.old)
        (F.state shelf.new) name.now (tree_meaning P.meaning tree)) }
    ensures leaves { IfOk result (λ tree. TreeHas (trees_of P.meaning plugs.items None)
        (F.state shelf.old) (F.state shelf.new) name.now (tree_meaning P.meaning tree)
        (node_leaves P.meaning tree)) }
    ensures few { IfOk result (λ tree. length (node_leaves P.meaning tree) < 2 ^ 32) }
    ensures lawful { IfOk result (λ tree. IsLawful (tree_meaning P.meaning tree)) }
    ensures cause { IfErr result (FileFails (reading P.meaning plugs.items) (F.state shelf.old)
        (F.state shelf.new) name.now) }
    ensures stays { (F.state shelf.new).files ≡ (F.state shelf.old).files }
{
    let bytes = taken(alloc, shelf, name)?;
    tree_in(alloc, bytes.bytes(), plugs)
}

/// The keyring tree that these bytes of a file are read as.
fn tree_in<P: Keyring>(alloc: Global, bytes: &[u8], plugs: Vec<Plug<P>>) -> Result<Node<P>, Failure>
    requires plugs { length plugs.items < 2 ^ 24 }
    ensures tree { IfOk result (λ tree. reading P.meaning plugs.items bytes.now ≡ Ok
        (tree_meaning P.meaning tree ∷ [])) }
    ensures leaves { IfOk result (λ tree. leaf_reading P.meaning plugs.items bytes.now ≡ Ok
        (node_leaves P.meaning tree)) }
    ensures few { IfOk result (λ tree. length (node_leaves P.meaning tree) < 2 ^ 32) }
    ensures lawful { IfOk result (λ tree. IsLawful (tree_meaning P.meaning tree)) }
    ensures cause { IfErr result (ReadCause (reading P.meaning plugs.items) bytes.now) }
{
    // A law, which says that there aren't too many leaves to be counted.
    leaves_are_few::<P>();
    match read_tree(alloc, bytes, plugs) {
        Ok(tree) => {
            // Called for its clauses alone, which say what every keyring keeps.
            let _wraps = tree.wraps();
            Ok(tree)
        }
        Err(error) => Err(tree_failure(error)),
    }
}
