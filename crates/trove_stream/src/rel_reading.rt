//! Relative troves read from their bytes.
ghost use Rattle.std.specs.Prelude.{◌≡◌, ◌≤◌, ◌<◌, ◌++◌, List, ℕ, length, drop, IfOk, IsErrOf, MatchResult};
ghost use Rattle.cny_dep.specs.Dep.{Dependency, dep_text};
ghost use Rattle.trove_parts.specs.declared.id.TroveId.{TroveId};
ghost use Rattle.trove_parts.specs.Id.{IsTroveId, id_bytes};
ghost use Rattle.trove_parts.specs.declared.files.FileAt.{FileAt};
ghost use Rattle.trove_parts.specs.Files.{AreFiles, file_value};
ghost use Rattle.trove_parts.specs.Paths.{ArePaths, path_value};
ghost use Rattle.trove_parts.specs.Refs.{AreRefs};
ghost use Rattle.trove_parts.specs.Deps.{AreDeps};
ghost use Rattle.trove_stream.specs.declared.rel.RelParts.{RelParts};
ghost use Rattle.trove_stream.specs.Pairs.{BeginsWithPair, IsPairAt, ids_bytes, AreIdsTo};
ghost use Rattle.trove_stream.specs.RelBytes.{IsSpelled, IsStreamOf, IsRelStream, IsFullRelStream};

use crate::rel::{Pair, RelParts, RelTrove};
use crate::rel_writing::{
    FILE_SET, FRESH, OLD, PATH_GONE, PROVIDES_GONE, REF_ADDED, REF_GONE, REQUIRES_GONE,
};
use std::alloc::Global;
use trove_parts::cny_base::{Paths, TextFault};
use trove_parts::cny_stream::Encoding;
use trove_parts::{
    Deps, Files, Refs, TroveId, take_deps, take_files, take_id_item, take_paths, take_refs,
};

/// The relative trove whose stream the bytes are in the compact encoding, all of them. `Bad` only where they are the
/// stream of none; want of memory may be answered then instead.
pub fn decode_rel(alloc: Global, bytes: &[u8]) -> Result<RelTrove, TextFault>
    // What is read is spelled so.
    ensures found { IfOk result (λ rel. IsRelStream rel bytes.now) }
    // What is spelled so is read, unless memory runs out.
    ensures only { (rel : RelParts) → IsRelStream rel bytes.now
        → MatchResult result (λ read. read ≡ rel) (λ fault. fault ≡ TextFault.Memory) }
{
    decode_rel_as(alloc, Encoding::Compact, bytes)
}

/// The relative trove whose stream the bytes are in the explicit encoding, all of them. `Bad` only where they are the
/// stream of none; want of memory may be answered then instead.
pub fn decode_rel_full(alloc: Global, bytes: &[u8]) -> Result<RelTrove, TextFault>
    // What is read is spelled so.
    ensures found { IfOk result (λ rel. IsFullRelStream rel bytes.now) }
    // What is spelled so is read, unless memory runs out.
    ensures only { (rel : RelParts) → IsFullRelStream rel bytes.now
        → MatchResult result (λ read. read ≡ rel) (λ fault. fault ≡ TextFault.Memory) }
{
    decode_rel_as(alloc, Encoding::Explicit, bytes)
}

// The relative trove whose stream the bytes are in this encoding, all of them.
fn decode_rel_as(alloc: Global, encoding: Encoding, bytes: &[u8]) -> Result<RelTrove, TextFault>
    ensures found { IfOk result (λ rel. IsStreamOf encoding rel bytes.now) }
    ensures only { (rel : RelParts) → IsStreamOf encoding rel bytes.now
        → MatchResult result (λ read. read ≡ rel) (λ fault. fault ≡ TextFault.Memory) }
{
    let parts = read_parts(alloc, encoding, bytes)?;
    RelTrove::of_parts(parts)
}

// The parts whose items the bytes are, in the order of their tags.
fn read_parts(alloc: Global, encoding: Encoding, bytes: &[u8]) -> Result<RelParts, TextFault>
    ensures found { IfOk result (λ parts. IsSpelled encoding parts bytes.now) }
    ensures bad { IsErrOf result TextFault.Bad → (parts : RelParts) → IsSpelled encoding parts bytes.now → ⊥ }
    ensures only { IfOk result (λ read. (parts : RelParts) → IsSpelled encoding parts bytes.now → read ≡ parts) }
{
    let (ids, to) = take_ids(alloc, bytes)?;
    let (files, to) = take_changed_files(alloc, encoding, bytes, to)?;
    let (refs, to) = take_changed_refs(alloc, bytes, to)?;
    let (required, to) = take_changed_deps(alloc, bytes, to, REQUIRES_GONE)?;
    let (provided, to) = take_changed_deps(alloc, bytes, to, PROVIDES_GONE)?;
    if to != bytes.len() {
        return Err(TextFault::Bad);
    }
    Ok(RelParts::of_pairs(ids, files, refs, required, provided))
}

// The ids of the two items with which the bytes begin.
fn take_ids(alloc: Global, bytes: &[u8]) -> Result<(Pair<TroveId, TroveId>, usize), TextFault>
    ensures found { IfOk result (λ found. AreIdsTo bytes.now found.0.old found.0.fresh found.1) }
    ensures old { IfOk result (λ found. IsTroveId found.0.old) }
    ensures fresh { IfOk result (λ found. IsTroveId found.0.fresh) }
    ensures bad { IsErrOf result TextFault.Bad → (old fresh : TroveId) (rest : List ℕ) → IsTroveId old → IsTroveId fresh
        → bytes.now ≡ ids_bytes old fresh ++ rest → ⊥ }
    ensures only { IfOk result (λ found. (old fresh : TroveId) (rest : List ℕ) → IsTroveId old → IsTroveId fresh
        → bytes.now ≡ ids_bytes old fresh ++ rest → (found.0.old ≡ old) × (found.0.fresh ≡ fresh) × (drop found.1 bytes.now ≡ rest)) }
{
    let old = take_id_item(alloc, bytes, 0, OLD)?;
    let fresh = take_id_item(alloc, bytes, old.to, FRESH)?;
    let to = fresh.to;
    Ok((
        Pair {
            old: old.id,
            fresh: fresh.id,
        },
        to,
    ))
}

// The paths that are gone and the files that are set, whose items begin at `at`.
fn take_changed_files(
    alloc: Global,
    encoding: Encoding,
    bytes: &[u8],
    at: usize,
) -> Result<(Pair<Paths, Files>, usize), TextFault>
    requires { at ≤ length bytes.now }
    ensures found { IfOk result (λ found. IsPairAt path_value (file_value encoding) 0x23 bytes.now at found.0.old found.0.fresh found.1) }
    ensures gone { IfOk result (λ found. ArePaths found.0.old) }
    ensures set { IfOk result (λ found. AreFiles found.0.fresh) }
    ensures bad { IsErrOf result TextFault.Bad → (gone : List (List ℕ)) (files : List FileAt) (rest : List ℕ)
        → ArePaths gone → AreFiles files
        → BeginsWithPair path_value (file_value encoding) 0x23 (drop at bytes.now) gone files rest → ⊥ }
    ensures only { IfOk result (λ found. (gone : List (List ℕ)) (files : List FileAt) (rest : List ℕ)
        → ArePaths gone → AreFiles files
        → BeginsWithPair path_value (file_value encoding) 0x23 (drop at bytes.now) gone files rest
        → (found.0.old ≡ gone) × (found.0.fresh ≡ files) × (drop found.1 bytes.now ≡ rest)) }
{
    let gone = take_paths(alloc, bytes, at, PATH_GONE)?;
    let set = take_files(alloc, encoding, bytes, gone.to, FILE_SET, None)?;
    let to = set.to;
    Ok((
        Pair {
            old: gone.paths,
            fresh: set.files,
        },
        to,
    ))
}

// The references that are gone and those that are added, whose items begin at `at`.
fn take_changed_refs(
    alloc: Global,
    bytes: &[u8],
    at: usize,
) -> Result<(Pair<Refs, Refs>, usize), TextFault>
    requires { at ≤ length bytes.now }
    ensures found { IfOk result (λ found. IsPairAt id_bytes id_bytes 0x25 bytes.now at found.0.old found.0.fresh found.1) }
    ensures gone { IfOk result (λ found. AreRefs found.0.old) }
    ensures added { IfOk result (λ found. AreRefs found.0.fresh) }
    ensures bad { IsErrOf result TextFault.Bad → (gone added : List TroveId) (rest : List ℕ)
        → AreRefs gone → AreRefs added
        → BeginsWithPair id_bytes id_bytes 0x25 (drop at bytes.now) gone added rest → ⊥ }
    ensures only { IfOk result (λ found. (gone added : List TroveId) (rest : List ℕ)
        → AreRefs gone → AreRefs added
        → BeginsWithPair id_bytes id_bytes 0x25 (drop at bytes.now) gone added rest
        → (found.0.old ≡ gone) × (found.0.fresh ≡ added) × (drop found.1 bytes.now ≡ rest)) }
{
    let gone = take_refs(alloc, bytes, at, REF_GONE, None)?;
    let added = take_refs(alloc, bytes, gone.to, REF_ADDED, None)?;
    let to = added.to;
    Ok((
        Pair {
            old: gone.refs,
            fresh: added.refs,
        },
        to,
    ))
}

// The dependencies that are gone, of this tag, and those that are added, of the next one, whose items begin at `at`.
fn take_changed_deps(
    alloc: Global,
    bytes: &[u8],
    at: usize,
    tag: u8,
) -> Result<(Pair<Deps, Deps>, usize), TextFault>
    requires within { at ≤ length bytes.now }
    requires tag { tag < 255 }
    ensures found { IfOk result (λ found. IsPairAt dep_text dep_text tag bytes.now at found.0.old found.0.fresh found.1) }
    ensures gone { IfOk result (λ found. AreDeps found.0.old) }
    ensures added { IfOk result (λ found. AreDeps found.0.fresh) }
    ensures bad { IsErrOf result TextFault.Bad → (gone added : List Dependency) (rest : List ℕ)
        → AreDeps gone → AreDeps added
        → BeginsWithPair dep_text dep_text tag (drop at bytes.now) gone added rest → ⊥ }
    ensures only { IfOk result (λ found. (gone added : List Dependency) (rest : List ℕ)
        → AreDeps gone → AreDeps added
        → BeginsWithPair dep_text dep_text tag (drop at bytes.now) gone added rest
        → (found.0.old ≡ gone) × (found.0.fresh ≡ added) × (drop found.1 bytes.now ≡ rest)) }
{
    let gone = take_deps(alloc, bytes, at, tag, None)?;
    let added = take_deps(alloc, bytes, gone.to, tag + 1, None)?;
    let to = added.to;
    Ok((
        Pair {
            old: gone.deps,
            fresh: added.deps,
        },
        to,
    ))
}
