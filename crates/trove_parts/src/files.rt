//! Files: what a trove records of its paths.
ghost use Rattle.std.specs.Prelude.{◌≡◌, ◌↔◌, ◌≤◌, ◌++◌, List, ℕ, IsTrue, All, length, drop, IfOk, OnOk, OnErr, IsErrOf};
ghost use Rattle.std.specs.Cmp.Lexicographic.{nat_list_cmp_total};
ghost use Rattle.std.proofs.lemmas.Cmp.{on_total};
ghost use Rattle.trove_parts.specs.declared.files.FileAt.{FileAt};
ghost use Rattle.trove_parts.specs.Items.{BeginsWithItems, AreItemsAt, IsWithin};
ghost use Rattle.trove_parts.specs.Files.{IsFileAt, FitsFile, path_of, file_value, file_cmp, AreFiles, files_bytes};

use crate::items::{Element, are_listed, put_items, take_items};
use cny_stream::{Encoding, FileRec, decode_as, distinct_records, encode_as, put_item};
use cny_version::cny_base::{
    Bytes, Copies, ListOf, OutOfMemory, Path, TextFault, next_str, put_str,
};
use std::alloc::Global;

/// What a trove records of one path.
#[derive(Drop)]
pub struct FileAt {
    pub path: Path,
    pub rec: FileRec,
}

impl Copies for FileAt {
    fn copy(&self) -> Result<Self, OutOfMemory> {
        Ok(FileAt {
            path: self.path.copy()?,
            rec: self.rec.copy()?,
        })
    }
}

/// A list of files.
pub type Files = ListOf<FileAt>;

// The bytes of a file's item.
fn value_of(alloc: Global, encoding: Encoding, file: &FileAt) -> Result<Bytes, OutOfMemory>
    requires { FitsFile file.now }
    ensures value { IfOk result (λ bytes. bytes ≡ file_value encoding file.now) }
    ensures valid { OnOk result (IsFileAt file.now) }
{
    let mut bytes = Bytes::new(alloc, b"")?;
    put_str(&mut bytes, file.path.text().as_bytes())?;
    encode_as(alloc, encoding, &file.rec, &mut bytes)?;
    Ok(bytes)
}

impl Element for FileAt {
    ghost is_valid = { IsFileAt };

    ghost value = { file_value };

    ghost can_put = { FitsFile };

    ghost compare = { file_cmp };

    fn read(alloc: Global, encoding: Encoding, bytes: &[u8]) -> Result<Self, TextFault> {
        let Some(span) = next_str(bytes, 0) else {
            return Err(TextFault::Bad);
        };
        let path = Path::read_bytes(alloc, &bytes[span.from..span.to])?;
        let rec = decode_as(alloc, encoding, &bytes[span.to..])?;
        Ok(FileAt { path, rec })
    }

    fn put(
        &self,
        alloc: Global,
        encoding: Encoding,
        tag: u8,
        out: &mut Bytes,
    ) -> Result<(), OutOfMemory> {
        let value = value_of(alloc, encoding, self)?;
        put_item(out, tag, value.get())
    }

    fn is_good(&self) -> bool {
        let is_path = !self.path.text().is_empty();
        is_path && self.rec.is_valid()
    }

    fn is_below(&self, later: &Self) -> bool {
        self.path < later.path
    }

    fn values_fit() {}

    fn values_differ() {
        distinct_records();
    }

    ghost total = { on_total path_of nat_list_cmp_total };
}

/// Whether the paths of the files strictly rise, and the size of each is within its limit of 16,777,216 bytes. Takes no
/// memory.
pub fn are_files(files: &[FileAt]) -> bool
    ensures { IsTrue result ↔ AreFiles files.now }
{
    are_listed(files)
}

/// Appends an item of this tag for each file; on want of memory `out` is as before. The size of each is within its
/// limit of 16,777,216 bytes.
pub fn put_files(
    alloc: Global,
    encoding: Encoding,
    out: &mut Bytes,
    tag: u8,
    files: &[FileAt],
) -> Result<(), OutOfMemory>
    requires { All FitsFile files.now }
    ensures ok { OnOk result (out.new ≡ out.old ++ files_bytes encoding tag files.now) }
    ensures err { OnErr result (out.new ≡ out.old) }
    ensures valid { OnOk result (All IsFileAt files.now) }
{
    put_items(alloc, encoding, out, tag, files)
}

/// Files whose items stand in the bytes of a stream, and their end.
#[derive(Drop)]
pub struct FilesAt {
    pub files: Files,
    /// The place behind the last of their items.
    pub to: usize,
}

/// The files of all items of this tag that begin at `at`, one behind the other, and their end. `Bad` only where an
/// item of this tag there isn't that of a file in the encoding, where the paths don't strictly rise, or where there are more
/// files than the limit; want of memory may be answered then instead. No file past the limit is read.
pub fn take_files(
    alloc: Global,
    encoding: Encoding,
    bytes: &[u8],
    at: usize,
    tag: u8,
    limit: Option<usize>,
) -> Result<FilesAt, TextFault>
    requires { at ≤ length bytes.now }
    ensures found { IfOk result (λ found. AreItemsAt (file_value encoding) bytes.now at tag found.files found.to) }
    ensures ok { IfOk result (λ found. AreFiles found.files) }
    ensures few { IfOk result (λ found. IsWithin limit (length found.files)) }
    ensures bad { IsErrOf result TextFault.Bad → (files : List FileAt) (rest : List ℕ) → AreFiles files → IsWithin limit (length files)
        → BeginsWithItems (file_value encoding) tag (drop at bytes.now) files rest → ⊥ }
    // No other files stand there, nor do their items end elsewhere.
    ensures only { IfOk result (λ found. (files : List FileAt) (rest : List ℕ) → AreFiles files
        → BeginsWithItems (file_value encoding) tag (drop at bytes.now) files rest → (found.files ≡ files) × (drop found.to bytes.now ≡ rest)) }
{
    let (items, to) = take_items::<FileAt>(alloc, encoding, bytes, at, tag, limit)?;
    Ok(FilesAt {
        files: Files::new(items),
        to,
    })
}
