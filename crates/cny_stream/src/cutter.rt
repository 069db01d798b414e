//! Where a stream that comes in pieces stands.
ghost use Rattle.std.specs.Prelude.{◌≡◌, ◌<◌};
ghost use Rattle.cny_stream.specs.declared.cutter.Place.TheVariants as places;

/// What a push met.
#[derive(Clone, Copy)]
pub enum Event {
    /// The magic, or the head of an item, isn't whole yet.
    More,
    /// The magic is whole.
    Begun,
    /// The head of an item is whole: its tag, and the length of its value. Where that is 0, so is the item.
    Head { tag: u8, len: u32 },
    /// What was used are the next bytes of an item's value. Where it is whole with them, so is the item.
    Value { whole: bool },
    /// The stream doesn't begin with the magic.
    NoMagic,
    /// An item begins with a tag that isn't expected.
    Unexpected,
}

/// How much of a piece was used, and what it gave.
#[derive(Clone, Copy)]
pub struct Step {
    pub used: usize,
    pub event: Event,
}

/// What the next bytes belong to, or the fault that was met.
#[derive(Clone, Copy)]
pub(crate) enum Place {
    Magic,
    Head,
    Value,
    NoMagic,
    Unexpected,
}

/// The place in a stream up to which it was given. It keeps no value, and takes no memory.
#[derive(Clone, Copy)]
pub struct Cutter {
    pub(crate) magic: [u8; 8],
    pub(crate) place: Place,
    // What there is of the magic or of the head.
    pub(crate) front: [u8; 8],
    pub(crate) have: usize,
    // How many bytes of the value are still to come.
    pub(crate) left: u32,
    ghost room: { have < 8 },
    ghost value_goes_on: { place ≡ places.Value → 0 < left },
}
