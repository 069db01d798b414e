//! The manifests of the packages.
ghost use Rattle.std.specs.Prelude.{◌≡◌, ◌++◌, ◌<◌, ◌≤◌, IfOk, OnOk};
ghost use Rattle.cny_batch.specs.Manifests.{config_entry, document_entry, document_text, documents, header_entry, library_entry, name_line, own_dir, package_entries, package_manifest, program_entry, requires_line};

use crate::writing::{push_file, push_text, push_version};
use cny_base::{Bytes, OutOfMemory};
use std::alloc::Global;

// A package has so many documents.
const DOCUMENTS: u64 = 42;

#[tactic(auto, unfolding(crate::specs::Manifests::name_line))]
fn push_name(alloc: Global, out: &mut Bytes, number: u64) -> Result<(), OutOfMemory>
    ensures { OnOk result (out.new ≡ out.old ++ name_line number) }
{
    let text = format!(in alloc; "manifest 1\npackage p{number}\n")?;
    push_text(out, text.as_str())
}

#[tactic(auto, unfolding(crate::specs::Manifests::requires_line))]
fn push_requires(alloc: Global, out: &mut Bytes, number: u64) -> Result<(), OutOfMemory>
    ensures { OnOk result (out.new ≡ out.old ++ requires_line number) }
{
    let text = format!(in alloc; "requires p{number}:runtime trove: p{number}:lib\n")?;
    push_text(out, text.as_str())
}

// The configuration file, which the round changes.
#[tactic(auto, unfolding(crate::specs::Manifests::config_entry))]
fn push_config(alloc: Global, out: &mut Bytes, number: u64, round: u64) -> Result<(), OutOfMemory>
    ensures { OnOk result (out.new ≡ out.old ++ config_entry number round) }
{
    let path = format!(in alloc; "/etc/p{number}.conf")?;
    let content = format!(in alloc; "conf {number} {round}\n")?;
    push_file(
        alloc,
        out,
        "0644",
        "config ",
        path.as_str(),
        content.as_bytes(),
    )
}

// The program, which the round changes.
#[tactic(auto, unfolding(crate::specs::Manifests::program_entry))]
fn push_program(alloc: Global, out: &mut Bytes, number: u64, round: u64) -> Result<(), OutOfMemory>
    ensures { OnOk result (out.new ≡ out.old ++ program_entry number round) }
{
    let path = format!(in alloc; "/usr/bin/p{number}")?;
    let content = format!(in alloc; "bin {number} {round}\n")?;
    push_file(alloc, out, "0755", "", path.as_str(), content.as_bytes())
}

#[tactic(auto, unfolding(crate::specs::Manifests::header_entry))]
fn push_header(alloc: Global, out: &mut Bytes, number: u64) -> Result<(), OutOfMemory>
    ensures { OnOk result (out.new ≡ out.old ++ header_entry number) }
{
    let path = format!(in alloc; "/usr/include/p{number}.h")?;
    let content = format!(in alloc; "head {number}\n")?;
    push_file(alloc, out, "0644", "", path.as_str(), content.as_bytes())
}

#[tactic(auto, unfolding(crate::specs::Manifests::library_entry))]
fn push_library(alloc: Global, out: &mut Bytes, number: u64) -> Result<(), OutOfMemory>
    ensures { OnOk result (out.new ≡ out.old ++ library_entry number) }
{
    let path = format!(in alloc; "/usr/lib/libp{number}.so.1")?;
    let content = format!(in alloc; "lib {number}\n")?;
    push_file(alloc, out, "0755", "", path.as_str(), content.as_bytes())
}

// What a document holds: one byte, over and over.
fn document_of(alloc: Global, number: u64, place: u64) -> Result<Vec<u8>, OutOfMemory>
    requires number { number ≤ 1000 }
    requires place { place < 42 }
    ensures { IfOk result (λ bytes. bytes.items ≡ document_text number place) }
{
    let byte = 97 + ((number + place) % 26) as u8;
    let size = 64 * (place as usize + 1);
    Ok(vec![in alloc; byte; size]?)
}

#[tactic(auto, unfolding(crate::specs::Manifests::document_entry))]
fn push_document(alloc: Global, out: &mut Bytes, number: u64, place: u64) -> Result<(), OutOfMemory>
    requires number { number ≤ 1000 }
    requires place { place < 42 }
    ensures { OnOk result (out.new ≡ out.old ++ document_entry number place) }
{
    let (tens, ones) = (place / 10, place % 10);
    let path = format!(in alloc; "/usr/share/doc/p{number}/{tens}{ones}")?;
    let content = document_of(alloc, number, place)?;
    push_file(alloc, out, "0644", "", path.as_str(), content.as_slice())
}

fn push_documents(alloc: Global, out: &mut Bytes, number: u64) -> Result<(), OutOfMemory>
    requires { number ≤ 1000 }
    ensures { OnOk result (out.new ≡ out.old ++ documents number) }
{
    for place in 0..DOCUMENTS {
        push_document(alloc, out, number, place)?;
    }
    Ok(())
}

#[tactic(auto, unfolding(crate::specs::Manifests::own_dir))]
fn push_own_dir(alloc: Global, out: &mut Bytes, number: u64) -> Result<(), OutOfMemory>
    ensures { OnOk result (out.new ≡ out.old ++ own_dir number) }
{
    let text = format!(in alloc; "dir 0755 /usr/share/doc/p{number}\n")?;
    push_text(out, text.as_str())
}

// The directories and files, in the order of their paths.
fn push_entries(alloc: Global, out: &mut Bytes, number: u64, round: u64) -> Result<(), OutOfMemory>
    requires { number ≤ 1000 }
    ensures { OnOk result (out.new ≡ out.old ++ package_entries number round) }
{
    push_text(out, "dir 0755 /etc\n")?;
    push_config(alloc, out, number, round)?;
    push_text(out, "dir 0755 /usr\ndir 0755 /usr/bin\n")?;
    push_program(alloc, out, number, round)?;
    push_text(out, "dir 0755 /usr/include\n")?;
    push_header(alloc, out, number)?;
    push_text(out, "dir 0755 /usr/lib\n")?;
    push_library(alloc, out, number)?;
    push_text(out, "dir 0755 /usr/share\ndir 0755 /usr/share/doc\n")?;
    push_own_dir(alloc, out, number)?;
    push_documents(alloc, out, number)
}

/// The manifest of the package of a number in a round.
pub fn package_manifest(alloc: Global, number: u64, round: u64) -> Result<Bytes, OutOfMemory>
    requires { number ≤ 1000 }
    ensures { IfOk result (λ bytes. bytes ≡ package_manifest number round) }
{
    let mut out = Bytes::from_vec(Vec::new(alloc));
    push_name(alloc, &mut out, number)?;
    push_version(alloc, &mut out, round)?;
    push_requires(alloc, &mut out, number)?;
    push_entries(alloc, &mut out, number, round)?;
    push_text(&mut out, "end\n")?;
    Ok(out)
}
