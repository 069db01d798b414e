//! Parts make one row of troves, or are refused for one reason.
ghost use Rattle.std.specs.Prelude.{◌≡◌, Contains, List};
ghost use Rattle.change_set.specs.cny-base.declared.refusal.Refusal.{Refusal};
ghost use Rattle.change_set.specs.trove-stream.declared.parts.TroveParts.{TroveParts};
ghost use Rattle.change_set.specs.trove-stream.declared.rel.RelParts.{RelParts};
ghost use Rattle.change_rel.specs.trove-stream.Leads.{Leads};
ghost use Rattle.change_set.specs.declared.change.Part.{Part};
ghost use Rattle.change_set.specs.trove-stream.Installed.{IsRising};
ghost use Rattle.update_job.specs.Allowed.{AreAllowed, IsFirstReserved};
ghost use Rattle.change_set.specs.Makes.{IsLedTo};
ghost use Rattle.update_job.specs.Made.{AreMade, base_in, IsFirstRefused};

use change_rel::trove_stream::one_result;

/// Troves are refused for one path, and not where none of them records a forbidden one.
pub fn one_reserved()
    ensures one { (troves : List TroveParts) (a b : Refusal) → IsFirstReserved troves a → IsFirstReserved troves b → a ≡ b }
    ensures apart { (troves : List TroveParts) (refusal : Refusal) → AreAllowed troves → IsFirstReserved troves refusal → ⊥ }
{}

/// Parts make one row of troves of the installed ones, or they are refused, for one reason.
pub fn one_made()
    ensures one { (installed : List TroveParts) (parts : List Part) (a b : List TroveParts) → AreMade installed parts a → AreMade installed parts b → a ≡ b }
    ensures one_refusal { (installed : List TroveParts) (parts : List Part) (a b : Refusal) → IsFirstRefused installed parts a → IsFirstRefused installed parts b → a ≡ b }
    // None are both made and refused.
    ensures apart { (installed : List TroveParts) (parts : List Part) (troves : List TroveParts) (refusal : Refusal) → AreMade installed parts troves
        → IsFirstRefused installed parts refusal → ⊥ }
{
    one_result();
}

/// An installed trove from which a relative one leads is that of its name. So a base is missing only where the relative trove leads
/// from none of the installed ones.
pub fn led_from_installed()
    ensures { (installed : List TroveParts) (rel : RelParts) (base made : TroveParts) → IsRising installed → Contains installed base → Leads rel base made
        → IsLedTo (base_in installed) rel made }
{}
