//! Laws of fingerprints.
ghost use Rattle.std.specs.Prelude.{◌≡◌, ◌↔◌, IsTrue};
ghost use Rattle.tree_scan.specs.declared.mark.Mark.{Mark};
ghost use Rattle.tree_scan.specs.Marks.{same_mark};

/// Fingerprints are the same exactly where they are equal: their kinds, and the modes, sizes, names and targets.
pub fn distinct_marks()
    ensures { (a b : Mark) → IsTrue (same_mark a b) ↔ (a ≡ b) }
{}
