//! A stream of requests that comes in pieces.
ghost use Rattle.std.specs.Prelude.{◌≡◌, ◌++◌, [], IsTrue, List, MatchResult, None, Some, ℕ};
ghost use Rattle.repo_load.specs.cny-base.declared.refusal.Refusal.{Refusal};
ghost use Rattle.repo_load.specs.cny-base.declared.stop.Stop.{Stop};
ghost use Rattle.repo_load.specs.Files.{HoldsCatalogue};
ghost use Rattle.repo_load.specs.State.{RepositoryState};
ghost use Rattle.repo_serve.specs.Answers.{Answers};
ghost use Rattle.repo_serve.specs.Halts.{again_of, end_after, halt_of, told_of};
ghost use Rattle.repo_serve.specs.Sessions.{HasEnded, HasFed, HasRefused, HasUnsound, IsGiven, told_stop};

use crate::answering::Answered;
use crate::ending::end_of_replies;
use crate::feeding::take_piece;
use crate::halt::Halt;
use crate::unanswered::Unanswered;
use repo_index::Catalogue;
use repo_load::cny_base::{Bytes, Fault, Stop};
use repo_load::tree_disk::TreeDisk;
use std::alloc::Global;

/// A stream of requests that comes in pieces. Its requests are answered as their items are whole, and no more is kept than what was
/// given behind the last one.
pub struct Session {
    pub(crate) unanswered: Unanswered,
    // Why it was stopped.
    pub(crate) over: Option<Halt>,
}

// Written by hand, so that to let a value go is a single call wherever a function ends early.
impl Drop for Session {
    fn drop(self) {
        let Session {
            unanswered: _unanswered,
            over: _,
        } = self;
    }
}

// Keeps a stop, and tells it.
fn kept(over: &mut Option<Halt>, stop: Stop) -> Stop
    ensures over { over.new ≡ Some (halt_of stop) }
    ensures told { result ≡ told_of stop }
{
    let halt = Halt::of(&stop);
    *over = Some(halt);
    match stop {
        Stop::Damaged { path } => Stop::Damaged { path },
        Stop::Refused(_refusal) => halt.stop(),
        Stop::FarDamaged { path: _path } => halt.stop(),
        Stop::Memory | Stop::Failed | Stop::FarFailed => halt.stop(),
    }
}

impl Session {
    /// Nothing of a stream; takes no memory.
    pub fn new(alloc: Global) -> Self
        ensures given { (r : RepositoryState) → IsGiven r result [] [] }
        ensures none { told_stop result ≡ None }
    {
        Session {
            unanswered: Unanswered {
                answered: Answered::new(),
                begun: false,
                tail: Bytes::from_vec(Vec::new(alloc)),
            },
            over: None,
        }
    }

    /// Gives it the next bytes of the stream, and appends to `out` what is answered to them. However the stream is cut, what that
    /// gained over all calls, with that of `end`, is the stream of replies. A refusal comes only where what was given decides it,
    /// and the same again from then on.
    ///
    /// `Damaged` names the file of a content that doesn't stand there as the troves record it; then each further call answers want
    /// of memory. After another stop that comes again. `Failed` comes first only where the disk's count of faults rose. No name of
    /// the disk changes, however it ends.
    pub fn feed<D: TreeDisk>(
        &mut self,
        alloc: Global,
        disk: &mut D,
        catalogue: &Catalogue,
        piece: &[u8],
        out: &mut Bytes,
    ) -> Result<(), Stop>
        requires { IsTrue D.disk.tells → HoldsCatalogue (D.disk.reads disk.old) catalogue.now }
        // Where it wasn't stopped before.
        ensures answers { told_stop self.old ≡ None → Answers D.disk (λ tree done. HasFed tree self.old self.new piece.now out.old out.new)
            (λ tree refusal. HasRefused tree self.old self.new piece.now refusal) (HasUnsound catalogue.now.troves) disk.old disk.new result }
        ensures kept { MatchResult result (λ done. told_stop self.new ≡ None) (λ stop. told_stop self.new ≡ Some (again_of stop)) }
        // A stop is told again from then on, and nothing is done; what was given decides a refusal whatever comes.
        ensures again { (stop : Stop) → told_stop self.old ≡ Some stop → (result ≡ Err stop) × (self.new ≡ self.old) × (disk.new ≡ disk.old) × (out.new ≡ out.old) }
        ensures decided { (r : RepositoryState) (given gained : List ℕ) (stop : Stop) → told_stop self.old ≡ Some stop → IsGiven r self.old given gained
            → IsGiven r self.new (given ++ piece.now) gained }
    {
        match self.over {
            Some(halt) => Err(halt.stop()),
            None => match take_piece(alloc, disk, catalogue, &mut self.unanswered, piece, out) {
                Ok(()) => Ok(()),
                Err(stop) => Err(kept(&mut self.over, stop)),
            },
        }
    }

    /// Ends the stream, and appends the end of the replies; or answers the refusal of all that was given, which after one is the same
    /// again. After another stop it answers want of memory. After each stop it appends nothing. Takes memory only for what it appends.
    pub fn end(self, out: &mut Bytes) -> Result<(), Fault>
        ensures replies { (r : RepositoryState) (given gained : List ℕ) → IsGiven r self given gained → HasEnded r given gained out.old out.new result }
        ensures again { (stop : Stop) → told_stop self ≡ Some stop → (result ≡ Err (end_after stop)) × (out.new ≡ out.old) }
    {
        let Session { unanswered, over } = self;
        match over {
            Some(halt) => Err(halt.fault()),
            None => end_of_replies(&unanswered, out),
        }
    }
}
