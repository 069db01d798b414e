//! What an edit by others, between calls, makes of what a root stores.
ghost use Rattle.std.specs.Prelude.{◌≡◌, true, false, List};
ghost use Rattle.std.specs.FinMap.{get};
ghost use Rattle.system_core.specs.cny-base.Reserved.{private_directory};
ghost use Rattle.system_core.specs.tree-disk.Tree.{Name, Tree, same_name};
ghost use Rattle.system_core.specs.journal-log.declared.put.Put.{Put};
ghost use Rattle.system_core.specs.tree-journal.CanBePut.{AllCanBePut};
ghost use Rattle.system_core.specs.tree-journal.Recovery.{is_committed, HoldsLog};
ghost use Rattle.local_db.specs.SystemState.{SystemState};
ghost use Rattle.local_db.specs.Stores.{StoresSystem, RecoversToSystem};
ghost use Rattle.system_core.specs.FixedDirs.{fixed_dirs};
ghost use Rattle.cny_laws.specs.Store.{RestsAt};
ghost use Rattle.cny_laws.specs.Stores.{root_store};
ghost use Rattle.cny_laws.specs.Edits.{Edit, edited_tree, edited, with_tree, all_edited, edits_beside, IsEdit, AreEdits, HasEdited};

use system_core::tree_disk::TreeDisk;

/// A tree that stores a system stores with an edit the system with the edited tree; nothing else of the system changes, and no other
/// name of the tree.
pub fn edited_system()
    ensures stored { (x : Tree) (s : SystemState) (e : Edit) → IsEdit x e → StoresSystem x s → StoresSystem (edited_tree x e) (edited s e) }
    ensures others { (x : Tree) (e : Edit) (q : Name) → same_name q e.path ≡ false → get (edited_tree x e) q ≡ get x q }
    // The fixed directories stand as they stood.
    ensures fixed { (x : Tree) (e : Edit) → IsEdit x e → fixed_dirs (edited_tree x e) ≡ fixed_dirs x }
{}

/// A root that rests at a system rests after an edit at the system with the edited tree.
pub fn edited_root<T: TreeDisk>()
    ensures { (old new : T) (s : SystemState) (e : Edit) → IsEdit (T.disk.reads old) e → HasEdited T.disk e old new → RestsAt root_store T.disk old s
        → RestsAt root_store T.disk new (edited s e) }
{}

/// What a root recovers to where others edited it before the recovery, once or several times.
pub fn recovers_edited()
    // Where the commit flag isn't set, all edits are kept.
    ensures clear { (x : Tree) (s : SystemState) (edits : List Edit) → AreEdits x edits
        → is_committed private_directory x ≡ false → RecoversToSystem x s → RecoversToSystem (all_edited x edits) (with_tree s (all_edited s.tree edits)) }
    // Where it is set and the log can be put after all of them, those are kept at whose paths it puts nothing; at the paths of the others
    // stands what it puts.
    ensures beside { (x : Tree) (s : SystemState) (edits : List Edit) (puts : List Put) → AreEdits x edits
        → is_committed private_directory x ≡ true → HoldsLog private_directory puts x → AllCanBePut puts (all_edited x edits) → RecoversToSystem x s
        → RecoversToSystem (all_edited x edits) (with_tree s (all_edited s.tree (edits_beside puts edits))) }
    // The flag and the log stand as they stood: whether the log can be put is a matter of the tree alone.
    ensures flag { (x : Tree) (e : Edit) → IsEdit x e → is_committed private_directory (edited_tree x e) ≡ is_committed private_directory x }
    ensures log { (x : Tree) (e : Edit) (puts : List Put) → IsEdit x e → HoldsLog private_directory puts x → HoldsLog private_directory puts (edited_tree x e) }
    ensures log_before { (x : Tree) (e : Edit) (puts : List Put) → IsEdit x e → HoldsLog private_directory puts (edited_tree x e) → HoldsLog private_directory puts x }
{}
