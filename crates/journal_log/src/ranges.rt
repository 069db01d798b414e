//! That what is to stand is what a disk can hold.
ghost use Rattle.std.specs.Prelude.{IsTrue, All};
ghost use Rattle.journal_log.specs.declared.put.Put as declared;
ghost use Rattle.journal_log.specs.Targets.{node_of};
ghost use Rattle.tree_disk.specs.Tree.{may_stand};

use crate::put::{Put, Want};
use tree_disk::byte_ranges;

// What is to stand is a node that a disk can hold. It does nothing: its clause is for the proofs of its callers.
fn want_ranges(want: &Want)
    ensures { IsTrue (may_stand (node_of want.now)) }
{
    match want {
        Want::Nothing => {}
        Want::Dir { mode } => {
            let _bits = mode.bits();
        }
        Want::File { mode, bytes } => {
            let _bits = mode.bits();
            byte_ranges(bytes.get());
        }
        Want::Link { target } => {
            let _text = target.text();
        }
        Want::Staged { mode, .. } => {
            let _bits = mode.bits();
        }
    }
}

/// Each write is of a node that a disk can hold. It does nothing: its clause is for the proofs of its callers.
pub fn put_ranges(puts: &[Put])
    ensures { All (λ (p : declared.Put). IsTrue (may_stand (node_of p.want))) puts.now }
{
    for put in puts {
        want_ranges(&put.want);
    }
}
