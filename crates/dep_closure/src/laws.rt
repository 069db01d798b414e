//! A change of a list leads to one list.
ghost use Rattle.std.specs.Prelude.{◌≡◌, ℕ, List};
ghost use Rattle.trove_stream.specs.declared.parts.TroveParts.{TroveParts};
ghost use Rattle.dep_closure.specs.Changed.{IsChanged};

/// No two lists are the changed list of one change of one list.
pub fn one_changed_list()
    ensures { (gone : List (List ℕ)) (come old new other : List TroveParts) → IsChanged gone come old new
        → IsChanged gone come old other → new ≡ other }
{}
