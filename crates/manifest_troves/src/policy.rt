//! The component of a package to which a path falls.
ghost use Rattle.std.specs.Prelude.{◌≡◌, ◌∷◌, [], ◌++◌, codes};
ghost use Rattle.change_set.specs.cny-base.Below.{begins_with};
ghost use Rattle.manifest_troves.specs.Policy as spec;
ghost use Rattle.manifest_troves.specs.Policy.{tested, ends_with};

use change_set::cny_base::Path;

// Whether a slash comes first, behind the path where it is a directory's.
fn is_slash_next(rest: &[u8], dir: bool) -> bool
    ensures { result ≡ begins_with (47 ∷ []) (tested rest.now dir) }
{
    match rest {
        [] => dir,
        [first, ..] => *first == b'/',
    }
}

// Whether the path, with a slash behind it where it is a directory's, begins with that of a place and a slash.
fn is_in(path: &[u8], dir: bool, place: &[u8]) -> bool
    ensures { result ≡ begins_with (place.now ++ 47 ∷ []) (tested path.now dir) }
{
    match path.strip_prefix(place) {
        None => false,
        Some(rest) => is_slash_next(rest, dir),
    }
}

// Whether the path isn't a directory's and ends so.
fn ends(path: &[u8], dir: bool, end: &[u8]) -> bool
    ensures { result ≡ spec.file_ends_with end.now path.now dir }
{
    !dir && path.ends_with(end)
}

#[tactic(auto, using(crate::proofs::Policies::header_end))]
fn is_header(path: &[u8], dir: bool) -> bool
    ensures { result ≡ ends_with (codes ".h") (tested path.now dir) }
{
    ends(path, dir, b".h")
}

#[tactic(auto, using(crate::proofs::Policies::archive_end))]
fn is_archive(path: &[u8], dir: bool) -> bool
    ensures { result ≡ ends_with (codes ".a") (tested path.now dir) }
{
    ends(path, dir, b".a")
}

#[tactic(auto, using(crate::proofs::Policies::package_end))]
fn is_package_file(path: &[u8], dir: bool) -> bool
    ensures { result ≡ ends_with (codes ".pc") (tested path.now dir) }
{
    ends(path, dir, b".pc")
}

fn is_doc(path: &[u8], dir: bool) -> bool
    ensures { result ≡ spec.is_doc (tested path.now dir) }
{
    let doc = is_in(path, dir, b"/usr/share/doc");
    let man = is_in(path, dir, b"/usr/share/man");
    let info = is_in(path, dir, b"/usr/share/info");
    doc || man || info
}

fn is_locale(path: &[u8], dir: bool) -> bool
    ensures { result ≡ spec.is_locale (tested path.now dir) }
{
    is_in(path, dir, b"/usr/share/locale")
}

fn is_devel(path: &[u8], dir: bool) -> bool
    ensures { result ≡ spec.is_devel (tested path.now dir) }
{
    let include = is_in(path, dir, b"/usr/include");
    let header = is_header(path, dir);
    let archive = is_archive(path, dir);
    let package_file = is_package_file(path, dir);
    include || header || archive || package_file
}

fn is_lib(path: &[u8], dir: bool) -> bool
    ensures { result ≡ spec.is_lib (tested path.now dir) }
{
    let lib = is_in(path, dir, b"/lib");
    let lib64 = is_in(path, dir, b"/lib64");
    let usr_lib = is_in(path, dir, b"/usr/lib");
    let usr_lib64 = is_in(path, dir, b"/usr/lib64");
    lib || lib64 || usr_lib || usr_lib64
}

/// The component to which a path falls, that of a directory or of anything else: the first of `doc`, `locale`, `devel` and
/// `lib` whose rule fits, else `runtime`. A directory is tested with a slash behind its path.
#[tactic(auto, unfolding(crate::specs::Policy::component_of))]
pub fn component_of(path: &Path, dir: bool) -> &'static str
    ensures { result.now ≡ spec.component_of path.now dir }
{
    let path = path.text().as_bytes();
    if is_doc(path, dir) {
        "doc"
    } else if is_locale(path, dir) {
        "locale"
    } else if is_devel(path, dir) {
        "devel"
    } else if is_lib(path, dir) {
        "lib"
    } else {
        "runtime"
    }
}
