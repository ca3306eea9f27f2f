//! Making a multi-keyring.

ghost use Rattle.std.specs.Prelude.{◌≡◌, ◌≤◌, ◌<◌, ◌^◌, length, is_some};
ghost use Rattle.multi_keyring.specs.Forest.{tallest};
ghost use Rattle.multi_keyring.specs.Nodes.{forest, generator_first, all_of};
ghost use Rattle.multi_keyring.specs.Making.{multi_fault, MakesMulti};

use crate::tree::{Members, Multi, Node};
use keyring_trait::Keyring;
use thiserror::Error;

/// The greatest height of a multi-keyring.
const MAX_HEIGHT: u32 = 8;

/// The greatest number of entries that a multi-keyring makes.
pub(crate) const MAX_WRAPS: u64 = 64;

/// Why no multi-keyring is made.
#[derive(Debug, Drop, Error)]
pub enum MultiError {
    /// There is neither a generator nor a child.
    #[error("a multi-keyring needs a member")]
    Empty,
    /// It would have more than 8 levels.
    #[error("the keyrings are nested too deep")]
    TooDeep,
    /// Its members make more than 64 entries together: so many.
    #[error("{0} encrypted data keys are too many")]
    TooWide(u64),
}

impl<P: Keyring> Multi<P> {
    /// A multi-keyring of this generator, where there is one, and of these children. Takes no
    /// memory.
    ///
    /// `Empty` exactly where there is neither; else `TooDeep` exactly where its height, one more
    /// than its highest member's, would be over 8; else `TooWide` with the number of entries that
    /// the members make, exactly where these are over 64. After a refusal the members are gone.
    pub fn new(generator: Option<Node<P>>, children: Vec<Node<P>>) -> Result<Multi<P>, MultiError>
        requires { length children.items < 2 ^ 32 }
        ensures { MakesMulti (multi_fault P.meaning (generator_first generator children.items))
            (is_some generator, forest (generator_first generator children.items)) result }
    {
        if generator.is_none() && children.is_empty() {
            return Err(MultiError::Empty);
        }
        let members = Members {
            generator,
            children,
        };
        let height = members.tallest() + 1;
        if height > MAX_HEIGHT {
            return Err(MultiError::TooDeep);
        }
        let wraps = members.entry_count();
        if wraps > MAX_WRAPS {
            return Err(MultiError::TooWide(wraps));
        }
        Ok(Multi { members, height })
    }
}

impl<P> Members<P> {
    /// The height of the highest member.
    #[tactic(auto, using(crate::proofs::Heights::tallest_first))]
    fn tallest(&self) -> u32
        ensures value { result ≡ tallest (forest (all_of self.now)) }
        ensures bound { result ≤ 8 }
    {
        let tallest = tallest_of(&self.children);
        match &self.generator {
            Some(generator) => generator.height().max(tallest),
            None => tallest,
        }
    }
}

/// The height of the highest of these trees.
#[tactic(auto, using(crate::proofs::Heights::tallest_first))]
fn tallest_of<P>(nodes: &[Node<P>]) -> u32
    ensures value { result ≡ tallest (forest nodes.now) }
    ensures bound { result ≤ 8 }
{
    let mut tallest = 0;
    for node in nodes {
        tallest = node.height().max(tallest);
    }
    tallest
}
