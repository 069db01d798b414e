// Where two lists of bytes differ first.
ghost use Rattle.std.specs.Prelude.{◌≡◌, ◌≤◌, IfSome, length};
ghost use Rattle.content_store.specs.Difference as spec;

use tree_disk::cny_base::first_difference;

/// The first place at which two lists of any lengths differ. Where one is the beginning of the other that is the length of
/// the shorter.
pub fn difference(a: &[u8], b: &[u8]) -> Option<usize>
    ensures value { result ≡ spec.first_difference a.now b.now }
    ensures within { IfSome result (λ place. place ≤ length b.now) }
{
    let common = a.len().min(b.len());
    let found = first_difference(&a[..common], &b[..common]);
    if found.is_none() && a.len() != b.len() {
        return Some(common);
    }
    found
}
