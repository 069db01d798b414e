//! Values of arguments.
use crate::stop::Stop;
use cny_dep::{Dep, Flavor};
use cny_report::cny_base::{Bytes, Mode, Name, Path, Target, Text, read_octal, text_of};
use cny_report::trove_parts::{TroveId, read_id};
use cny_report::trove_stream::{Trove, decode};
use cny_version::{Label, Version};
use std::alloc::Global;

/// What is read of the bytes of an argument, or of a part of one.
pub trait Value: Drop {
    /// The value of these bytes. `Unreadable` where there is none.
    fn read(alloc: Global, bytes: &[u8]) -> Result<Self, Stop>;
}

/// The text of these bytes.
pub fn text_in(bytes: &[u8]) -> Result<&str, Stop> {
    text_of(bytes).ok_or(Stop::Unreadable)
}

/// The number of decimal digits.
pub fn number_in(bytes: &[u8]) -> Result<u64, Stop> {
    text_in(bytes)?.parse::<u64>().ok().ok_or(Stop::Unreadable)
}

impl Value for Bytes {
    fn read(alloc: Global, bytes: &[u8]) -> Result<Self, Stop> {
        Ok(Bytes::new(alloc, bytes)?)
    }
}

impl Value for Text {
    fn read(alloc: Global, bytes: &[u8]) -> Result<Self, Stop> {
        Ok(Text::read_bytes(alloc, bytes)?)
    }
}

impl Value for Path {
    fn read(alloc: Global, bytes: &[u8]) -> Result<Self, Stop> {
        Ok(Path::read_bytes(alloc, bytes)?)
    }
}

impl Value for Name {
    fn read(alloc: Global, bytes: &[u8]) -> Result<Self, Stop> {
        Ok(Name::read_bytes(alloc, bytes)?)
    }
}

impl Value for Target {
    fn read(alloc: Global, bytes: &[u8]) -> Result<Self, Stop> {
        Ok(Target::read_bytes(alloc, bytes)?)
    }
}

// In octal digits.
impl Value for Mode {
    fn read(_: Global, bytes: &[u8]) -> Result<Self, Stop> {
        read_octal(bytes).ok_or(Stop::Unreadable)
    }
}

impl Value for u64 {
    fn read(_: Global, bytes: &[u8]) -> Result<Self, Stop> {
        number_in(bytes)
    }
}

impl Value for u32 {
    fn read(_: Global, bytes: &[u8]) -> Result<Self, Stop> {
        let number = number_in(bytes)?;
        u32::try_from(number).ok().ok_or(Stop::Unreadable)
    }
}

// The name of a content, in hexadecimal digits.
impl Value for [u8; 20] {
    fn read(_: Global, bytes: &[u8]) -> Result<Self, Stop> {
        let mut name = [0u8; 20];
        match hex::decode_to_slice(text_in(bytes)?, &mut name) {
            Ok(()) => Ok(name),
            Err(_) => Err(Stop::Unreadable),
        }
    }
}

impl Value for Label {
    fn read(alloc: Global, bytes: &[u8]) -> Result<Self, Stop> {
        Ok(Label::read(alloc, text_in(bytes)?)?)
    }
}

// With whole labels or abbreviated.
impl Value for Version {
    fn read(alloc: Global, bytes: &[u8]) -> Result<Self, Stop> {
        Ok(Version::read(alloc, text_in(bytes)?)?)
    }
}

impl Value for Flavor {
    fn read(alloc: Global, bytes: &[u8]) -> Result<Self, Stop> {
        Ok(Flavor::read(alloc, text_in(bytes)?)?)
    }
}

impl Value for Dep {
    fn read(alloc: Global, bytes: &[u8]) -> Result<Self, Stop> {
        Ok(Dep::read(alloc, text_in(bytes)?)?)
    }
}

impl Value for TroveId {
    fn read(alloc: Global, bytes: &[u8]) -> Result<Self, Stop> {
        Ok(read_id(alloc, text_in(bytes)?)?)
    }
}

// The trove of this stream, in the compact encoding.
impl Value for Trove {
    fn read(alloc: Global, bytes: &[u8]) -> Result<Self, Stop> {
        Ok(decode(alloc, bytes)?)
    }
}
