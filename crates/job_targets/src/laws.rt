//! Laws of plans.
ghost use Rattle.std.specs.Prelude.{List, All};
ghost use Rattle.local_db.specs.cny-base.declared.options.Options.{Options};
ghost use Rattle.local_db.specs.trove-stream.declared.parts.TroveParts.{TroveParts};
ghost use Rattle.local_db.specs.tree-disk.Tree.{Tree};
ghost use Rattle.conflict_plan.specs.declared.planned.Planned.{Planned};
ghost use Rattle.conflict_plan.specs.Orphans.{IsSeenPlan};
ghost use Rattle.conflict_plan.specs.Plan.{ArePlanned};
ghost use Rattle.job_targets.specs.Targets.{IsChange};

/// Of a plan over a tree each fingerprint is that of what stands in the tree, and each path changes.
pub fn planned_is_seen()
    ensures seen { (old fresh : List TroveParts) (options : Options) (tree : Tree) (plan : List Planned)
        → ArePlanned old fresh options tree plan → All (IsSeenPlan tree) plan }
    ensures changes { (old fresh : List TroveParts) (options : Options) (tree : Tree) (plan : List Planned)
        → ArePlanned old fresh options tree plan → All IsChange plan }
{}
