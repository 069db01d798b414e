//! The rules for the paths of a log.
ghost use Rattle.std.specs.Prelude.{◌↔◌, IsTrue};
ghost use Rattle.std.specs.Bool.{OnTrue};
ghost use Rattle.journal_log.specs.WriteSet.{Rises};
ghost use Rattle.journal_log.specs.WriteSet.{CanBeLogged};
ghost use Rattle.journal_log.specs.Rules.{AreLogged, AreNamed, NothingBelow, NoneBelow, MayStand, DirsAbove, DirAt, AreInner};

use crate::named::can_be_named;
use crate::put::{Put, Puts, Want};
use crate::search::place_of;
use crate::staged::is_staged_path;
use tree_disk::cny_base::{Path, parent_of};

/// Whether a log in the private directory `base` can hold a write set: it can name each path, below
/// a target that isn't a directory nothing stands, and for a file it names a staged file there, which
/// has a path. Takes no memory.
pub fn keeps_rules(base: &Path, puts: &Puts) -> bool
    ensures { IsTrue result ↔ (AreNamed base.now puts.now × NothingBelow puts.now × AreLogged base.now puts.now) }
{
    let puts = puts.get();
    if !are_named(base, puts) {
        return false;
    }
    if !are_logged(base, puts) {
        return false;
    }
    nothing_is_below(puts)
}

fn are_logged(base: &Path, puts: &[Put]) -> bool
    ensures { IsTrue result ↔ AreLogged base.now puts.now }
{
    puts.iter().all(|put| can_be_logged(base, &put.want))
}

fn can_be_logged(base: &Path, want: &Want) -> bool
    ensures { IsTrue result ↔ CanBeLogged base.now want.now }
{
    match want {
        Want::Nothing | Want::Dir { .. } | Want::Link { .. } => true,
        Want::File { .. } => false,
        Want::Staged { number, .. } => is_staged_path(base, *number),
    }
}

fn are_named(base: &Path, puts: &[Put]) -> bool
    ensures named { IsTrue result ↔ AreNamed base.now puts.now }
    ensures inner { OnTrue result (AreInner puts.now) }
{
    for put in puts {
        if !can_be_named(base, &put.path) {
            return false;
        }
    }
    true
}

fn nothing_is_below(puts: &[Put]) -> bool
    requires rises { Rises puts.now }
    requires inner { AreInner puts.now }
    ensures { IsTrue result ↔ NoneBelow puts.now }
{
    for put in puts {
        if !may_stand(puts, put) {
            return false;
        }
    }
    true
}

fn may_stand(puts: &[Put], put: &Put) -> bool
    requires rises { Rises puts.now }
    requires inner { AreInner puts.now }
    ensures { IsTrue result ↔ MayStand puts.now put.now }
{
    if put.want.is_nothing() {
        return true;
    }
    has_dirs_above(puts, &put.path)
}

// Whether every target above a path is a directory. The targets rise, so each place is found by a
// binary search; those above a path needn't be neighbours, as `/a-b` stands between `/a` and `/a/b`.
fn has_dirs_above(puts: &[Put], path: &Path) -> bool
    requires rises { Rises puts.now }
    requires inner { AreInner puts.now }
    ensures { IsTrue result ↔ DirsAbove puts.now path.now }
{
    let mut above = parent_of(path.text());
    while above != "/" {
        if !is_dir_at(puts, above) {
            return false;
        }
        above = parent_of(above);
    }
    true
}

// Whether a target at a path, if there is one, is a directory.
fn is_dir_at(puts: &[Put], path: &str) -> bool
    requires { Rises puts.now }
    ensures { IsTrue result ↔ DirAt puts.now path.now }
{
    let Some(place) = place_of(puts, path) else {
        return true;
    };
    puts[place].want.is_dir()
}
