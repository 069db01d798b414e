//! What a line of a model file says.
ghost use Rattle.std.specs.Prelude.{◌≡◌, List, ℕ, IfOk, IsErrOf};
ghost use Rattle.trove_spec.specs.declared.spec.Spec.{Spec};
ghost use Rattle.sys_model.specs.declared.directive.ModelLine.{ModelLine};
ghost use Rattle.sys_model.specs.Model as spec;
ghost use Rattle.sys_model.specs.Model.{IsSpecAs, IsDirective};

use crate::line::behind;
use repo_index::cny_base::{Name, Text, TextFault, text_of};
use std::alloc::Global;
use trove_spec::Spec;

/// What a line of a model file says is to be done with the list that the lines before it make.
pub enum ModelLine {
    /// The trove that the specification means, and all that it reaches, is put in.
    Install {
        spec: Spec,
        /// The specification as the line has it.
        text: Text,
    },
    /// Of the trove that the specification means, and of all that it reaches, what the list has a trove of the same name of takes
    /// that one's place.
    Update {
        spec: Spec,
        /// The specification as the line has it.
        text: Text,
    },
    /// The trove of this name is taken away, with what it alone keeps.
    Erase {
        name: Name,
    },
}

// Written by hand, so that to let a value go is a single call wherever a function ends early.
impl Drop for ModelLine {
    fn drop(self) {
        match self {
            ModelLine::Install {
                spec: _spec,
                text: _text,
            } => {}
            ModelLine::Update {
                spec: _spec,
                text: _text,
            } => {}
            ModelLine::Erase { name: _name } => {}
        }
    }
}

// A specification and its text.
#[derive(Drop)]
struct Given {
    spec: Spec,
    text: Text,
}

// The specification of this text, with the text.
fn read_spec(alloc: Global, bytes: &[u8]) -> Result<Given, TextFault>
    ensures found { IfOk result (λ given. IsSpecAs bytes.now given.spec given.text) }
    ensures only { IfOk result (λ given. (meant : Spec) (text : List ℕ) → IsSpecAs bytes.now meant text → (given.spec ≡ meant) × (given.text ≡ text)) }
    ensures bad { IsErrOf result TextFault.Bad → (meant : Spec) (text : List ℕ) → IsSpecAs bytes.now meant text → ⊥ }
{
    let Some(text) = text_of(bytes) else {
        return Err(TextFault::Bad);
    };
    let spec = Spec::read(alloc, text)?;
    Ok(Given {
        spec,
        text: Text::new(alloc, text)?,
    })
}

// What a line says whose first word is `install`, with this text behind it.
fn read_install(alloc: Global, bytes: &[u8]) -> Result<ModelLine, TextFault>
    ensures found { IfOk result (spec.IsInstall bytes.now) }
    ensures only { IfOk result (λ made. (said : ModelLine) → spec.IsInstall bytes.now said → made ≡ said) }
    ensures bad { IsErrOf result TextFault.Bad → (said : ModelLine) → spec.IsInstall bytes.now said → ⊥ }
{
    match read_spec(alloc, bytes) {
        Ok(Given { spec, text }) => Ok(ModelLine::Install { spec, text }),
        Err(fault) => Err(fault),
    }
}

// What a line says whose first word is `update`, with this text behind it.
fn read_update(alloc: Global, bytes: &[u8]) -> Result<ModelLine, TextFault>
    ensures found { IfOk result (spec.IsUpdate bytes.now) }
    ensures only { IfOk result (λ made. (said : ModelLine) → spec.IsUpdate bytes.now said → made ≡ said) }
    ensures bad { IsErrOf result TextFault.Bad → (said : ModelLine) → spec.IsUpdate bytes.now said → ⊥ }
{
    match read_spec(alloc, bytes) {
        Ok(Given { spec, text }) => Ok(ModelLine::Update { spec, text }),
        Err(fault) => Err(fault),
    }
}

// What a line says whose first word is `erase`, with this text behind it.
fn read_erase(alloc: Global, bytes: &[u8]) -> Result<ModelLine, TextFault>
    ensures found { IfOk result (spec.IsErase bytes.now) }
    ensures only { IfOk result (λ made. (said : ModelLine) → spec.IsErase bytes.now said → made ≡ said) }
    ensures bad { IsErrOf result TextFault.Bad → (said : ModelLine) → spec.IsErase bytes.now said → ⊥ }
{
    match Name::read_bytes(alloc, bytes) {
        Ok(name) => Ok(ModelLine::Erase { name }),
        Err(fault) => Err(fault),
    }
}

/// What a line says, which isn't empty and no comment. It has no CR, and no blanks at its ends.
pub(crate) fn read_directive(alloc: Global, line: &[u8]) -> Result<ModelLine, TextFault>
    ensures found { IfOk result (IsDirective line.now) }
    ensures only { IfOk result (λ made. (said : ModelLine) → IsDirective line.now said → made ≡ said) }
    ensures bad { IsErrOf result TextFault.Bad → (said : ModelLine) → IsDirective line.now said → ⊥ }
{
    if let Some(text) = behind(b"install", line) {
        return read_install(alloc, text);
    }
    if let Some(text) = behind(b"update", line) {
        return read_update(alloc, text);
    }
    if let Some(text) = behind(b"erase", line) {
        return read_erase(alloc, text);
    }
    Err(TextFault::Bad)
}
