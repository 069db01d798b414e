//! Laws of the steps from system to system.
ghost use Rattle.std.specs.Prelude.{◌≡◌, ◌≢◌, ◌+◌, ◌≤◌, ℕ, ◌∷◌, ◌++◌, false, true, IsTrue, List, All, None, Bool};
ghost use Rattle.std.specs.FinMap.{get};
ghost use Rattle.trove_stream.specs.cny-base.Reserved.{private_directory};
ghost use Rattle.trove_stream.specs.cny-base.declared.limits.TheConstants.{JOBS_LIMIT};
ghost use Rattle.trove_stream.specs.declared.parts.TroveParts.{TroveParts};
ghost use Rattle.tree_journal.specs.tree-disk.Tree.{Name, Tree, is_dir, may_stand, WellFormed};
ghost use Rattle.tree_journal.specs.tree-disk.Disk.{IsCrashImage};
ghost use Rattle.tree_journal.specs.journal-log.declared.put.Put.{Put};
ghost use Rattle.tree_journal.specs.journal-log.declared.put.Want.TheVariants as want;
ghost use Rattle.tree_journal.specs.journal-log.Targets.{node_of, with_targets};
ghost use Rattle.tree_journal.specs.journal-log.WriteSet.{CanBeNamed};
ghost use Rattle.tree_journal.specs.CanBePut.{AllCanBePut};
ghost use Rattle.tree_scan.specs.Marks.{fingerprint};
ghost use Rattle.local_db.specs.declared.format.Format.{Format};
ghost use Rattle.local_db.specs.declared.format.Format.TheVariants.{One, Two};
ghost use Rattle.local_db.specs.Formats.{Fits};
ghost use Rattle.local_db.specs.SystemState.{StackItem, SystemState, newest, is_listed, IsStackItem, IsSystemState};
ghost use Rattle.local_db.specs.Names.{database, record_file, counts};
ghost use Rattle.local_db.specs.Stores.{StoresIn, StoresSystem};
ghost use Rattle.local_db.specs.Steps.{backs, pushed, is_prepared_name, IsOwnWrite, after_job, CanJob, after_rollback, CanRollBack, after_rollbacks, CanRollBackAll, IsJobReady, AreRollbackWrites, AreRollbacksWrites, IsMigration, IsPuttable};

/// What a job writes before its write set leaves the stored system as it was, at every moment: none of these names counts for
/// it, also where the job will drop the oldest one.
pub fn prepared_system()
    // The private directory, the places of the job's own number, and those of the job that is cleared.
    ensures prepared { (s : SystemState) (o : StackItem) → IsSystemState s → o.number ≡ newest s.stack + 1 → o.number ≤ JOBS_LIMIT
        → (q : Name) → is_prepared_name s (pushed o s.stack) q ≡ true → counts s q ≡ false }
    // A tree that is equal at all names that count stores the same system.
    ensures still { (f : Format) (x y : Tree) (s : SystemState) → ((q : Name) → counts s q ≡ true → get y q ≡ get x q)
        → StoresIn f x s → StoresIn f y s }
    // So does a tree that a crash leaves while no name that counts is unsynced.
    ensures image { (x image : Tree) (unsynced : Name → Bool) (s : SystemState) → ((q : Name) → counts s q ≡ true → unsynced q ≡ false)
        → IsCrashImage x unsynced image → StoresSystem x s → StoresSystem image s }
{}

/// With the writes of a job, a tree that was prepared for it stores the system after the job. A job more than a stack has
/// room for drops the oldest.
pub fn system_after_job()
    ensures before { (f : Format) (x x1 : Tree) (s : SystemState) (puts : List Put) (list : List TroveParts) (all : List Put)
        → StoresIn f x s → IsJobReady f puts list s x x1 all → StoresIn f x1 s }
    ensures after { (f : Format) (x x1 : Tree) (s : SystemState) (puts : List Put) (list : List TroveParts) (all : List Put)
        → StoresIn f x s → CanJob puts list s → Fits f list → IsJobReady f puts list s x x1 all
        → StoresIn f (with_targets all x1) (after_job puts list s) }
{}

/// With the writes of a rollback a tree stores the system after it. Each path of the job then has its exact old node, every
/// other path stays, and with no edit since the job the tree is the one before it.
pub fn system_after_rollback()
    ensures after { (f : Format) (x : Tree) (s : SystemState) (o : StackItem) (olds : List StackItem) (all : List Put)
        → StoresIn f x s → s.stack ≡ o ∷ olds → CanRollBack o s → AreRollbackWrites f o olds s all
        → StoresIn f (with_targets all x) (after_rollback o olds s) }
    // Several by one write set, which come to that many single ones.
    ensures several { (f : Format) (x : Tree) (s : SystemState) (os rest : List StackItem) (all : List Put)
        → StoresIn f x s → s.stack ≡ os ++ rest → CanRollBackAll os rest s → AreRollbacksWrites f os rest s all
        → StoresIn f (with_targets all x) (after_rollbacks os rest s) }
    ensures restored { (o : StackItem) → IsStackItem o → (tree : Tree) (q : Name) → is_listed o.paths q ≡ true
        → get (with_targets (backs o) tree) q ≡ get o.before q }
    ensures kept { (o : StackItem) → IsStackItem o → (tree : Tree) (q : Name) → is_listed o.paths q ≡ false
        → get (with_targets (backs o) tree) q ≡ get tree q }
    ensures whole { (o : StackItem) → IsStackItem o → with_targets (backs o) o.after ≡ o.before }
    // With no edit since the job, a rollback isn't refused.
    ensures unedited { (o : StackItem) → IsStackItem o → (s : SystemState) → s.tree ≡ o.after → CanRollBack o s }
{}

/// The migration to format 2 changes no system.
pub fn migrated_system()
    ensures { (x : Tree) (s : SystemState) (all : List Put) → StoresIn One x s → IsMigration s all
        → StoresIn Two (with_targets all x) s }
{}

/// The journal may put the writes of a job and of a rollback.
pub fn puttable_writes()
    ensures backs { (o : StackItem) → IsStackItem o → (t : Tree) → All (λ p. fingerprint (get t p) ≡ fingerprint (get o.after p)) o.paths
        → All (λ (p : Put). p.want ≡ want.Nothing → get t p.path ≢ None) (backs o) }
    ensures record_write { (x : Tree) (n : ℕ) (p : Put) → n ≤ JOBS_LIMIT → p.path ≡ record_file n → is_dir (get x (record_file n)) ≡ false
        → IsTrue (may_stand (node_of p.want)) → IsOwnWrite x p }
    ensures database_write { (x : Tree) (p : Put) → p.path ≡ database → is_dir (get x database) ≡ false
        → IsTrue (may_stand (node_of p.want)) → IsOwnWrite x p }
    ensures named { (some more all : List Put) (x t : Tree) → IsPuttable some more all x t
        → All (λ p. CanBeNamed private_directory p.path) all }
    ensures formed { (some more all : List Put) (x t : Tree) → IsPuttable some more all x t → WellFormed (with_targets all x) }
    ensures can { (some more all : List Put) (x t : Tree) → IsPuttable some more all x t → AllCanBePut all x }
{}
