//! The laws of what the disks store.
ghost use Rattle.cny_laws.specs.Store.{IsStore};
ghost use Rattle.cny_laws.specs.Stores.{repository_store};

use repo_load::{counted_names, stored_state};

/// What a repository stores depends on the names that count alone, none of which is the journal's, and a damaged one stores
/// nothing.
pub fn store_laws()
    ensures { IsStore repository_store }
{
    counted_names();
    stored_state();
}
