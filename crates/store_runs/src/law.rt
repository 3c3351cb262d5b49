//! The law of uses, over the bytes that each run leaves to the next one.

ghost use Rattle.store_runs.specs.Runs.{StoredUsesLaw};

use key_database::one_store;
use rule_model::uses_law;

/// A key with a use limit gives output at most so many times, over all runs on one store, whenever crashes come. Take any legal
/// runs, each of which left an image that stands for what may be kept of its entries without those that its crash undid, and each
/// of which read the image that the one before it left. The finishes that gave output with the key are then no more than its uses,
/// and these no more than its limit; and once it was used so often it has ended (`uses_law` of `rule_model`).
pub fn stored_uses_law()
    ensures { StoredUsesLaw }
{
    one_store();
    uses_law();
}
