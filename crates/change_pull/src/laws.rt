//! A law of pulls.
ghost use Rattle.std.specs.Prelude.{[]};
ghost use Rattle.journal_log.specs.tree-disk.Tree.{Name, Tree};
ghost use Rattle.change_pull.specs.Files.{HasRoomFrom, HoldsFiles, IsEmptyDir};

/// A pull may begin at an empty directory: there is room for all files, and none of them stands.
pub fn empty_dir()
    ensures room { (tree : Tree) (dir : Name) → IsEmptyDir tree dir → HasRoomFrom tree dir 0 }
    ensures files { (tree : Tree) (dir : Name) → IsEmptyDir tree dir → HoldsFiles tree dir [] }
{}
