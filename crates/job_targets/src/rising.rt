//! The order of a plan.
ghost use Rattle.std.specs.Prelude.{◌↔◌, IsTrue};
ghost use Rattle.std.specs.List.Sorted.{IsStrictlySortedBy};
ghost use Rattle.conflict_plan.specs.Plan.{planned_cmp};

use conflict_plan::Planned;

/// Whether the paths of the plan strictly rise.
pub fn are_rising(planned: &[Planned]) -> bool
    ensures { IsTrue result ↔ IsStrictlySortedBy planned_cmp planned.now }
{
    planned.is_sorted_by(|earlier, later| earlier.path < later.path)
}
