//! The arguments of a line.
use crate::stop::Stop;
use crate::terms::bytes_of;
use cny_report::cny_base::Bytes;
use std::alloc::Global;

/// An argument.
pub struct Argument {
    /// As it stands in the line.
    pub raw: String,
    /// The bytes that it stands for; none where it is in no form of bytes, as a list is.
    pub bytes: Option<Bytes>,
}

// Written by hand, so that to let a value go is a single call wherever a function ends early.
impl Drop for Argument {
    fn drop(self) {
        let Argument {
            raw: _raw,
            bytes: _bytes,
        } = self;
    }
}

fn argument_of(alloc: Global, text: &str) -> Result<Argument, Stop> {
    let bytes = match bytes_of(alloc, text) {
        Ok(bytes) => Some(bytes),
        Err(Stop::Unreadable) => None,
        Err(Stop::Memory) => return Err(Stop::Memory),
    };
    let raw = String::from_str(alloc, text)?;
    Ok(Argument { raw, bytes })
}

/// What stands behind the name of a line, with a tab before each.
pub fn arguments_of(alloc: Global, text: &str) -> Result<Vec<Argument>, Stop> {
    let mut arguments = Vec::new(alloc);
    if let Some((_, rest)) = text.split_once('\t') {
        for argument in rest.split('\t') {
            arguments.push(argument_of(alloc, argument)?)?;
        }
    }
    Ok(arguments)
}
