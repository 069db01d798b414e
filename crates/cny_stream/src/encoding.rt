//! The two encodings of records.
ghost use Rattle.std.specs.Prelude.{◌≡◌};
ghost use Rattle.cny_stream.specs.Owner as spec;

/// How the bytes of a record name its owner.
#[derive(Clone, Copy)]
pub enum Encoding {
    /// Only where it isn't root.
    Compact,
    /// Always.
    Explicit,
}

impl Encoding {
    // Whether an owner is named, who is root or not.
    pub(crate) fn names(self, is_root: bool) -> bool
        ensures { result ≡ spec.names self is_root }
    {
        match self {
            Encoding::Compact => !is_root,
            Encoding::Explicit => true,
        }
    }
}
