//! Contents that are carried under their names.
ghost use Rattle.std.specs.Prelude.{◌≡◌, ◌↔◌, All, IsTrue};
ghost use Rattle.std.specs.List.Sorted.{IsStrictlySortedBy};
ghost use Rattle.sha1.specs.Sha1.{sha1};
ghost use Rattle.change_set.specs.declared.change.Carried as declared;
ghost use Rattle.change_set.specs.ChangeSet.{content_cmp};

use change_set::Carried;
use line_words::Line;
use sha1::Sha1;
use tree_memory::cny_base::Bytes;

/// The contents of the list at a place, under their names.
pub fn carried_of(line: &mut Line, place: usize) -> Vec<Carried>
    ensures { All (λ (content : declared.Carried). content.name ≡ sha1 content.bytes) result.items }
{
    let mut carried = Vec::new(line.alloc());
    for bytes in line.list::<Bytes>(place) {
        let name = Sha1::digest(bytes.get());
        line.kept(carried.push(Carried { name, bytes }));
    }
    carried
}

/// Whether these contents are in the order of their names.
pub fn are_in_order(carried: &[Carried]) -> bool
    ensures { IsTrue result ↔ IsStrictlySortedBy content_cmp carried.now }
{
    carried.is_sorted_by(|one, next| one.name.cmp(&next.name).is_lt())
}
