//! The laws of the product of blocks (NIST SP 800-38D, section 6.3), and what follows for the hash.

ghost use Rattle.ghash_core.specs.Laws.{Associates, Commutes, DistributesLeft, DistributesRight};
ghost use Rattle.ghash_core.specs.Laws.{GivesBlocks, HasOne, HashesByPowers};

/// The product of two blocks is a block.
pub fn product_is_a_block()
    ensures { GivesBlocks }
{}

/// The product distributes over the sum, in either factor.
pub fn product_distributes()
    ensures left { DistributesLeft }
    ensures right { DistributesRight }
{}

/// The factors of a product may be grouped in either way.
pub fn product_associates()
    ensures { Associates }
{}

/// The factors of a product may be exchanged.
pub fn product_commutes()
    ensures { Commutes }
{}

/// The block whose first bit alone is 1 is the product's one.
pub fn product_has_a_one()
    ensures { HasOne }
{}

/// The hash of four blocks is a sum of four products, each by a power of the hash subkey.
pub fn hash_by_powers()
    ensures { HashesByPowers }
{}
