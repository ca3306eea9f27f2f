//! Laws about trees of keyrings. A law is a function that does nothing: its contract is what is
//! proved.

ghost use Rattle.multi_keyring.specs.Laws.{MeansItsKey, TellsItsLeaves, MeansItsTrees};
ghost use Rattle.multi_keyring.specs.Laws.{CountsItsLeaves, IsSteadyInItsLeaves};
ghost use Rattle.multi_keyring.specs.Laws.{OpensWithItsLeaves};

use keyring_trait::Keyring;

/// A tree of one raw key means what the raw key means.
pub fn a_tree_of_one_key_means_the_key<P: Keyring>()
    ensures { MeansItsKey P.meaning }
{}

/// The keys that a tree tells are those that its leaves tell, in order: a generator's first, then
/// each child's, depth first.
pub fn a_tree_tells_the_keys_of_its_leaves<P: Keyring>()
    ensures { TellsItsLeaves P.meaning }
{}

/// The trees of a row mean what each of them means.
pub fn a_row_means_its_trees<P: Keyring>()
    ensures { MeansItsTrees P.meaning }
{}

/// The count of faults of a tree is the sum of its leaves'.
pub fn a_tree_counts_the_faults_of_its_leaves<P: Keyring>()
    ensures { CountsItsLeaves P.meaning }
{}

/// The leaves of a steady tree are steady.
pub fn the_leaves_of_a_steady_tree_are_steady<P: Keyring>()
    ensures { IsSteadyInItsLeaves P.meaning }
{}

/// The keys that a tree tells open the data key that the first of its leaves opens that opens one.
pub fn a_tree_opens_what_its_first_leaf_opens<P: Keyring>()
    ensures { OpensWithItsLeaves P.meaning }
{}
