//! A manifest is exactly what is spelled so, and bytes make one value or have one first fault.
ghost use Rattle.std.specs.Prelude.{◌≡◌, ℕ, List};
ghost use Rattle.manifest_troves.specs.cny-base.declared.refusal.Refusal.{Refusal};
ghost use Rattle.cny_manifest.specs.declared.made.Made.{Made};
ghost use Rattle.cny_manifest.specs.Body.{Body};
ghost use Rattle.cny_manifest.specs.FirstFault.{IsFirstFault};
ghost use Rattle.cny_manifest.specs.Grammar.{IsManifest};
ghost use Rattle.cny_manifest.specs.Makes.{Makes};
ghost use Rattle.cny_manifest.specs.Spelling.{IsSpelling};

use manifest_troves::trove_parts::distinct_ids;

/// A spelling of a value is taken line by line as a manifest of exactly that value, and what is taken so is a spelling of it.
pub fn spelled()
    // A spelling is read as its value.
    ensures written { (bytes : List ℕ) (value : Body) → IsSpelling bytes value → IsManifest bytes value }
    // What is read is a spelling of the value.
    ensures read { (bytes : List ℕ) (value : Body) → IsManifest bytes value → IsSpelling bytes value }
{}

/// Bytes make one value at most, and have one first fault at most, and never both.
pub fn one_manifest()
    ensures made { (bytes : List ℕ) (a b : Made) → Makes bytes a → Makes bytes b → a ≡ b }
    ensures excluded { (bytes : List ℕ) (a : Made) (f : Refusal) → Makes bytes a → IsFirstFault bytes f → ⊥ }
    ensures fault { (bytes : List ℕ) (f g : Refusal) → IsFirstFault bytes f → IsFirstFault bytes g → f ≡ g }
{
    distinct_ids();
}
