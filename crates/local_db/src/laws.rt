//! Laws of stored systems.
ghost use Rattle.std.specs.Prelude.{◌≡◌, ◌⊎◌, ◌↔◌, ℕ, false, true, Bool, List, None, length};
ghost use Rattle.std.specs.FinMap.{get};
ghost use Rattle.trove_stream.specs.cny-base.Reserved.{private_directory, is_reserved};
ghost use Rattle.trove_stream.specs.declared.parts.TroveParts.{TroveParts};
ghost use Rattle.tree_journal.specs.tree-disk.Tree.{Name, Tree, WellFormed};
ghost use Rattle.tree_journal.specs.tree-disk.Disk.{IsCrashImage};
ghost use Rattle.tree_journal.specs.Recovery.{is_committed, RecoversTo};
ghost use Rattle.local_db.specs.declared.format.Format.{Format};
ghost use Rattle.local_db.specs.declared.format.Format.TheVariants.{Two};
ghost use Rattle.local_db.specs.SystemState.{StackItem, SystemState, IsStackItem, empty_system};
ghost use Rattle.local_db.specs.Names.{counts};
ghost use Rattle.local_db.specs.Record.{entries_of, PassesChecks};
ghost use Rattle.local_db.specs.Formats.{database_bytes};
ghost use Rattle.local_db.specs.Stores.{HoldsItem, IsDatabase, SameDatabase, StoresIn, StoresSystem, RecoversToSystem, Alike};

use trove_stream::trove_parts::distinct_ids;
use trove_stream::{distinct_rels, distinct_troves, one_result};

/// Two systems that one tree stores agree in all on which an answer may depend.
pub fn one_system()
    ensures { (x : Tree) (s t : SystemState) → StoresSystem x s → StoresSystem x t → Alike s t }
{
    distinct_ids();
    distinct_troves();
    distinct_rels();
    one_result();
}

/// While a write set is applied that leads from one system to another, each crash image recovers to the one or to the other.
/// Where no commit flag is set, an image recovers to just what it stores.
pub fn recovered_system()
    ensures one_of { (f g : Format) (reads after : Tree) (unsynced : Name → Bool) (s t : SystemState) (image : Tree)
        → StoresIn f reads s → StoresIn g after t → ((q : Name) → counts s q ≡ true → unsynced q ≡ false)
        → ((entry : Tree) × IsCrashImage reads unsynced entry × RecoversTo private_directory image entry)
        ⊎ RecoversTo private_directory image after
        → RecoversToSystem image s ⊎ RecoversToSystem image t }
    ensures at_rest { (image : Tree) (s : SystemState) → is_committed private_directory image ≡ false
        → RecoversToSystem image s ↔ StoresSystem image s }
{}

/// A tree without files of the program stores its system with nothing installed.
pub fn empty_root()
    ensures { (x : Tree) → WellFormed x → ((q : Name) → is_reserved q ≡ true → get x q ≡ None)
        → StoresIn Two x (empty_system x) }
{}

/// The record of each stored job passes the cross-checks.
pub fn checked_records()
    ensures { (f : Format) (x : Tree) (after : List TroveParts) (o : StackItem) → IsStackItem o → HoldsItem f x after o
        → PassesChecks f o.list (entries_of o) }
{}

/// No bytes are two databases. The numbers don't change the length of one.
pub fn distinct_databases()
    ensures unique { (f g : Format) (list other : List TroveParts) (low high lower higher : ℕ)
        → IsDatabase f list low high → IsDatabase g other lower higher
        → database_bytes f list low high ≡ database_bytes g other lower higher → SameDatabase f g list other low high lower higher }
    ensures length { (f : Format) (list : List TroveParts) (low high : ℕ)
        → length (database_bytes f list low high) ≡ length (database_bytes f list 0 0) }
{
    distinct_ids();
    distinct_troves();
    distinct_rels();
}
