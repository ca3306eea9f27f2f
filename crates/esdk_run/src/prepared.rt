//! What a command has that seals or opens, before it begins: the context of its words, and the
//! manager that asks the tree of its keyring file.
ghost use Rattle.std.specs.Prelude.{◌≡◌, ◌<◌, ◌^◌, None, length, IfErr, IfOk};
ghost use Rattle.multi_keyring.specs.Tree.{tree_meaning};
ghost use Rattle.esdk_run.specs.Prepared.{IsNotPrepared, IsPrepared};
ghost use Rattle.esdk_run.specs.Trees.{trees_of};

use crate::failures::pairs_failure;
use crate::keyring_input::read_keyring;
use crate::pair_input::{context_of, required_of};
use cmm_default::DefaultCmm;
use cmm_required::RequiredCmm;
use context_codec::Context;
use esdk_args::PairWords;
use esdk_base::Shelf;
use esdk_fields::Text;
use esdk_report::Failure;
use keyring_file::Plug;
use keyring_trait::Keyring;
use multi_keyring::Node;
use std::alloc::Global;

/// What a command has before it begins.
#[derive(Drop)]
pub struct Prepared<P> {
    /// The context of the words' pairs.
    pub context: Context,
    /// The manager over the tree, which requires the keys that the words require.
    pub manager: RequiredCmm<DefaultCmm<Node<P>>>,
}

/// Prepares a command of these pair words and a keyring file of this name. The shelf keeps its
/// files.
///
/// The pairs are read first (Q3 and Q2, as `context_of` says), then the keyring file (as
/// `read_keyring` says). `Memory` where memory runs out: for the pairs, and then no file is read,
/// or for the keyring file.
pub fn prepare<P: Keyring, F: Shelf>(
    alloc: Global,
    pairs: &PairWords,
    keyring: &Text,
    shelf: &mut F,
    plugs: Vec<Plug<P>>,
) -> Result<Prepared<P>, Failure>
    requires plugs { length plugs.items < 2 ^ 24 }
    ensures prepared { IfOk result (λ prepared. IsPrepared (trees_of P.meaning plugs.items None)
        pairs.now keyring.now (F.state shelf.old) (F.state shelf.new)
        prepared.context prepared.manager.1 (tree_meaning P.meaning prepared.manager.0)) }
    ensures cause { IfErr result (IsNotPrepared (trees_of P.meaning plugs.items None)
        pairs.now keyring.now (F.state shelf.old) (F.state shelf.new) (shelf.new ≡ shelf.old)) }
    ensures stays { (F.state shelf.new).files ≡ (F.state shelf.old).files }
{
    let context = match context_of(alloc, pairs.words()) {
        Ok(context) => context,
        Err(error) => return Err(pairs_failure(error)),
    };
    let required = match required_of(alloc, pairs.words()) {
        Ok(required) => required,
        Err(_) => return Err(Failure::Memory),
    };
    let tree = read_keyring(alloc, shelf, keyring.as_str(), plugs)?;
    Ok(Prepared {
        context,
        manager: RequiredCmm::new(DefaultCmm::new(tree), required),
    })
}
