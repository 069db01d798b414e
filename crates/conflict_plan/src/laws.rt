//! Laws of plans.
ghost use Rattle.std.specs.Prelude.{◌≡◌, List};
ghost use Rattle.trove_stream.specs.cny-base.declared.options.Options.{Options};
ghost use Rattle.trove_stream.specs.cny-base.declared.refusal.Refusal.{Refusal};
ghost use Rattle.trove_stream.specs.declared.parts.TroveParts.{TroveParts};
ghost use Rattle.tree_scan.specs.tree-disk.Tree.{Tree, WellFormed};
ghost use Rattle.conflict_plan.specs.declared.planned.Planned.{Planned};
ghost use Rattle.conflict_plan.specs.Plan.{IsPlan, IsFirstRefusal};

/// A job has one plan over a tree, or one first refusal: two plans are equal, two refusals are, and not both stand. (The tree of
/// each disk is well formed.)
pub fn one_plan()
    ensures plan { (old fresh : List TroveParts) (options : Options) (tree : Tree) (a b : List Planned) → WellFormed tree
        → IsPlan old fresh options tree a → IsPlan old fresh options tree b → a ≡ b }
    ensures refusal { (old fresh : List TroveParts) (options : Options) (tree : Tree) (why other : Refusal) → WellFormed tree
        → IsFirstRefusal old fresh options tree why → IsFirstRefusal old fresh options tree other → why ≡ other }
    ensures either { (old fresh : List TroveParts) (options : Options) (tree : Tree) (plan : List Planned) (why : Refusal) → WellFormed tree
        → IsPlan old fresh options tree plan → IsFirstRefusal old fresh options tree why → ⊥ }
{}
