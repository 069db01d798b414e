//! What is saved beside a stored system.
ghost use Rattle.std.specs.Prelude.{◌≡◌, ◌⊎◌, ◌<◌, ◌^◌, ℕ, Bool, IsTrue, Option, false, true};
ghost use Rattle.job_targets.specs.tree-disk.Tree.{Name, Tree};
ghost use Rattle.job_targets.specs.tree-disk.Confined.{AgreesExcept, Among, DiffersOnlyAt};
ghost use Rattle.local_db.specs.declared.format.Format.{Format};
ghost use Rattle.local_db.specs.Names.{counts};
ghost use Rattle.local_db.specs.Stores.{StoresIn};
ghost use Rattle.local_db.specs.SystemState.{SystemState};
ghost use Rattle.rollback_stack.specs.Saving.{IsNextJob, is_saving_name};

/// No name at which it is saved before the write set of a job counts for the system before the job, also where the job clears an
/// older one: a tree that changes at these names alone stores the system still.
pub fn saving_keeps_system()
    ensures beside { (f : Format) (x : Tree) (s : SystemState) (number : ℕ) (dropped : Option ℕ) → IsNextJob s number dropped → number < 2 ^ 32
        → StoresIn f x s → (q : Name) → IsTrue (is_saving_name number dropped q) → counts s q ≡ false }
    ensures read { (f : Format) (x y : Tree) (s : SystemState) (number : ℕ) (dropped : Option ℕ) → IsNextJob s number dropped → number < 2 ^ 32
        → AgreesExcept (Among (is_saving_name number dropped)) y x → StoresIn f x s → StoresIn f y s }
    // What a crash leaves, while no name that counts was unsynced.
    ensures left { (f : Format) (x y : Tree) (unsynced : Name → Bool) (s : SystemState) (number : ℕ) (dropped : Option ℕ) → IsNextJob s number dropped
        → number < 2 ^ 32 → ((q : Name) → counts s q ≡ true → unsynced q ≡ false)
        → DiffersOnlyAt (λ q. IsTrue (unsynced q) ⊎ Among (is_saving_name number dropped) q) x y → StoresIn f x s → StoresIn f y s }
{}
