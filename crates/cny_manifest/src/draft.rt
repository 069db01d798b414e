//! What was read of a manifest.
ghost use Rattle.std.specs.Prelude.{◌≡◌, ◌≤◌, IfOk, OnOk};
ghost use Rattle.manifest_troves.specs.cny-base.Name.{kind_of_name};
ghost use Rattle.cny_manifest.specs.Body.{is_group_kind};

use crate::deps::dep_fields;
use crate::entries::{DirLine, FileLine, dir_of, file_of, path_of};
use crate::head::{flavor_field, ref_field};
use crate::order::{is_above_line, is_above_path, is_above_ref, is_own};
use crate::words::WholeLine;
use cny_dep::Flavor;
use cny_version::Version;
use manifest_troves::change_set::Carried;
use manifest_troves::cny_base::{Bytes, Name, NameKind, OutOfMemory, Path, Target, TextFault};
use manifest_troves::cny_stream::FileRec;
use manifest_troves::trove_parts::{FileAt, Files, Refs, TroveId};
use manifest_troves::{DepLine, DepLines, TroveLines};
use sha1::Sha1;
use std::alloc::Global;
use std::marker::Model;

/// What was read of a manifest behind its version: whether owners are named, the id, and what the lines say.
#[derive(Drop)]
pub(crate) struct Draft {
    pub(crate) owners: bool,
    pub(crate) id: TroveId,
    pub(crate) refs: Vec<TroveId>,
    pub(crate) requires_: Vec<DepLine>,
    pub(crate) provides: Vec<DepLine>,
    pub(crate) files: Vec<FileAt>,
    pub(crate) contents: Vec<Carried>,
}

impl Model for Draft {
    ghost use Rattle.cny_manifest.specs.Body.{Body};

    ghost Value = { Body };

    ghost view = { λ a. record {
      owners = a.owners;
      id = a.id;
      refs = a.refs.items;
      requires_ = a.requires_.items;
      provides = a.provides.items;
      files = a.files.items;
      contents = a.contents.items;
    } };
}

impl Draft {
    ghost use Rattle.manifest_troves.specs.cny-base.declared.limits.TheConstants.{CONTENT_LIMIT};
    ghost use Rattle.cny_manifest.specs.Body as spec;
    ghost use Rattle.cny_manifest.specs.Entries.{dir_of};
    ghost use Rattle.cny_manifest.specs.Grammar.{InBody, IsWordLine};
    ghost use Rattle.cny_manifest.specs.Made.{lines_of};
    ghost use Rattle.cny_manifest.specs.Reading.{ReadsAs, Takes};
    ghost use Rattle.cny_manifest.specs.declared.words.Word.{Word};
    ghost use Rattle.cny_manifest.specs.declared.words.WholeLine.{WholeLine};

    /// Nothing but an id without a flavor.
    pub(crate) fn new(
        alloc: Global,
        owners: bool,
        name: Name,
        version: Version,
    ) -> Result<Self, OutOfMemory>
        ensures { IfOk result (λ draft. draft ≡ spec.body_of owners name version) }
    {
        let flavor = Flavor::empty(alloc)?;
        Ok(Draft {
            owners,
            id: TroveId {
                name,
                version,
                flavor,
            },
            refs: Vec::new(alloc),
            requires_: Vec::new(alloc),
            provides: Vec::new(alloc),
            files: Vec::new(alloc),
            contents: Vec::new(alloc),
        })
    }

    // Whether nothing came behind the version.
    #[tactic(auto, unfolding(crate::specs::Body::can_have_flavor))]
    fn can_have_flavor(&self) -> bool
        ensures { result ≡ spec.can_have_flavor self.now }
    {
        let flavor = self.id.flavor.text().is_empty();
        let refs = self.refs.is_empty();
        let required = self.requires_.is_empty();
        let provided = self.provides.is_empty();
        let files = self.files.is_empty();
        flavor && refs && required && provided && files
    }

    // Whether a reference to this id may come next.
    #[tactic(auto, unfolding(crate::specs::Body::can_refer))]
    fn can_refer(&self, id: &TroveId) -> bool
        ensures { result ≡ spec.can_refer self.now id.now }
    {
        let group = is_group(&self.id.name);
        let above = is_above_ref(self.refs.as_slice(), id);
        group && above
    }

    // Whether this requirement may come next.
    #[tactic(auto, unfolding(crate::specs::Body::can_require))]
    fn can_require(&self, line: &DepLine) -> bool
        ensures { result ≡ spec.can_require self.now line.now }
    {
        let own = is_own(&self.id.name, &line.name);
        let provided = self.provides.is_empty();
        let files = self.files.is_empty();
        let above = is_above_line(self.requires_.as_slice(), line);
        own && provided && files && above
    }

    // Whether this line of what is provided may come next.
    #[tactic(auto, unfolding(crate::specs::Body::can_provide))]
    fn can_provide(&self, line: &DepLine) -> bool
        ensures { result ≡ spec.can_provide self.now line.now }
    {
        let own = is_own(&self.id.name, &line.name);
        let files = self.files.is_empty();
        let above = is_above_line(self.provides.as_slice(), line);
        own && files && above
    }

    // Whether an entry of this path may come next.
    #[tactic(auto, unfolding(crate::specs::Body::can_record))]
    fn can_record(&self, path: &Path) -> bool
        ensures { result ≡ spec.can_record self.now path.now }
    {
        let group = is_group(&self.id.name);
        let above = is_above_path(self.files.as_slice(), path);
        !group && above
    }

    fn set_flavor(&mut self, flavor: Flavor)
        ensures { self.new ≡ spec.with_flavor self.old flavor }
    {
        self.id.flavor = flavor;
    }

    fn push_ref(&mut self, id: TroveId) -> Result<(), OutOfMemory>
        ensures { OnOk result (self.new ≡ spec.with_ref self.old id) }
    {
        self.refs.push(id)?;
        Ok(())
    }

    fn push_requirement(&mut self, line: DepLine) -> Result<(), OutOfMemory>
        ensures { OnOk result (self.new ≡ spec.with_requirement self.old line) }
    {
        self.requires_.push(line)?;
        Ok(())
    }

    fn push_provided(&mut self, line: DepLine) -> Result<(), OutOfMemory>
        ensures { OnOk result (self.new ≡ spec.with_provided self.old line) }
    {
        self.provides.push(line)?;
        Ok(())
    }

    fn push_dir(&mut self, line: DirLine) -> Result<(), OutOfMemory>
        ensures { OnOk result (self.new ≡ spec.with_dir self.old line) }
    {
        let DirLine { mode, owner, path } = line;
        self.files.push(FileAt {
            path,
            rec: FileRec::Dir { mode, owner },
        })?;
        Ok(())
    }

    // Takes a `flavor` line with these fields. `Bad` only where none with them may come next.
    fn take_flavor(&mut self, alloc: Global, fields: &[u8]) -> Result<(), TextFault>
        ensures { Takes (IsWordLine self.old (Word.Whole WholeLine.Flavor) fields.now) (InBody self.new) result }
    {
        let flavor = flavor_field(alloc, fields)?;
        if !self.can_have_flavor() {
            return Err(TextFault::Bad);
        }
        self.set_flavor(flavor);
        Ok(())
    }

    // Takes a `ref` line with these fields. `Bad` only where none with them may come next.
    fn take_ref(&mut self, alloc: Global, fields: &[u8]) -> Result<(), TextFault>
        ensures { Takes (IsWordLine self.old (Word.Whole WholeLine.Ref) fields.now) (InBody self.new) result }
    {
        let id = ref_field(alloc, fields)?;
        if !self.can_refer(&id) {
            return Err(TextFault::Bad);
        }
        self.push_ref(id)?;
        Ok(())
    }

    // Takes a `requires` line with these fields. `Bad` only where none with them may come next.
    fn take_requirement(&mut self, alloc: Global, fields: &[u8]) -> Result<(), TextFault>
        ensures { Takes (IsWordLine self.old (Word.Whole WholeLine.Requires) fields.now) (InBody self.new) result }
    {
        let line = dep_fields(alloc, fields)?;
        if !self.can_require(&line) {
            return Err(TextFault::Bad);
        }
        self.push_requirement(line)?;
        Ok(())
    }

    // Takes a `provides` line with these fields. `Bad` only where none with them may come next.
    fn take_provided(&mut self, alloc: Global, fields: &[u8]) -> Result<(), TextFault>
        ensures { Takes (IsWordLine self.old (Word.Whole WholeLine.Provides) fields.now) (InBody self.new) result }
    {
        let line = dep_fields(alloc, fields)?;
        if !self.can_provide(&line) {
            return Err(TextFault::Bad);
        }
        self.push_provided(line)?;
        Ok(())
    }

    fn dir_line(&self, alloc: Global, fields: &[u8]) -> Result<DirLine, TextFault>
        ensures { ReadsAs (dir_of self.now.owners fields.now) result }
    {
        dir_of(alloc, self.owners, fields)
    }

    // Takes a `dir` line with these fields. `Bad` only where none with them may come next.
    fn take_dir(&mut self, alloc: Global, fields: &[u8]) -> Result<(), TextFault>
        ensures { Takes (IsWordLine self.old (Word.Whole WholeLine.Dir) fields.now) (InBody self.new) result }
    {
        let line = self.dir_line(alloc, fields)?;
        if !self.can_record(&line.path) {
            return Err(TextFault::Bad);
        }
        self.push_dir(line)?;
        Ok(())
    }

    /// Takes a line with this word and these fields. `Bad` only where none with them may come next.
    pub(crate) fn take_whole(
        &mut self,
        alloc: Global,
        word: WholeLine,
        fields: &[u8],
    ) -> Result<(), TextFault>
        ensures { Takes (IsWordLine self.old (Word.Whole word) fields.now) (InBody self.new) result }
    {
        match word {
            WholeLine::Flavor => self.take_flavor(alloc, fields),
            WholeLine::Ref => self.take_ref(alloc, fields),
            WholeLine::Requires => self.take_requirement(alloc, fields),
            WholeLine::Provides => self.take_provided(alloc, fields),
            WholeLine::Dir => self.take_dir(alloc, fields),
        }
    }

    /// The path of a `link` line with these fields. `Bad` only where none with them may come next.
    pub(crate) fn link_path(&self, alloc: Global, fields: &[u8]) -> Result<Path, TextFault>
        ensures { ReadsAs (spec.path_next self.now fields.now) result }
    {
        let path = path_of(alloc, fields)?;
        if !self.can_record(&path) {
            return Err(TextFault::Bad);
        }
        Ok(path)
    }

    /// Adds a link.
    pub(crate) fn push_link(&mut self, path: Path, target: Target) -> Result<(), OutOfMemory>
        ensures { OnOk result (self.new ≡ spec.with_link self.old path target) }
    {
        self.files.push(FileAt {
            path,
            rec: FileRec::Link { target },
        })?;
        Ok(())
    }

    /// What the fields of a `file` line say. `Bad` only where none with them could come next, whatever its size.
    pub(crate) fn file_line(&self, alloc: Global, fields: &[u8]) -> Result<FileLine, TextFault>
        ensures { ReadsAs (spec.file_next self.now fields.now) result }
    {
        let line = file_of(alloc, self.owners, fields)?;
        if !self.can_record(&line.path) {
            return Err(TextFault::Bad);
        }
        Ok(line)
    }

    /// What the lines say of the troves, and the contents in the order of their entries; takes no memory.
    pub(crate) fn into_lines(self) -> (TroveLines, Vec<Carried>)
        ensures lines { result.0 ≡ lines_of self }
        ensures contents { result.1.items ≡ self.contents }
    {
        let Draft {
            owners: _owners,
            id,
            refs,
            requires_,
            provides,
            files,
            contents,
        } = self;
        let lines = TroveLines {
            id,
            refs: Refs::new(refs),
            requires_: DepLines::new(requires_),
            provides: DepLines::new(provides),
            files: Files::new(files),
        };
        (lines, contents)
    }

    /// Adds a file with this content.
    pub(crate) fn push_file(
        &mut self,
        alloc: Global,
        line: FileLine,
        content: &[u8],
    ) -> Result<(), OutOfMemory>
        requires { line.size ≤ CONTENT_LIMIT }
        ensures { OnOk result (self.new ≡ spec.with_file self.old line content.now) }
    {
        let FileLine {
            mode,
            size,
            owner,
            flags,
            path,
        } = line;
        let name = Sha1::digest(content);
        let rec = FileRec::File {
            mode,
            owner,
            flags,
            size: size as u32,
            name,
        };
        self.files.push(FileAt { path, rec })?;
        let bytes = Bytes::new(alloc, content)?;
        self.contents.push(Carried { name, bytes })?;
        Ok(())
    }
}

// Whether the name is a group's.
fn is_group(name: &Name) -> bool
    ensures { result ≡ is_group_kind (kind_of_name name.now) }
{
    matches!(name.kind(), NameKind::Group)
}
