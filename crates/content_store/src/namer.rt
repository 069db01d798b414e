//! How contents are named.
ghost use Rattle.std.specs.Prelude.{◌≡◌, ◌++◌, [], List, ℕ};
ghost use Rattle.sha1.specs.Sha1.{sha1, Holds};
ghost use Rattle.content_store.specs.Namers.{byte_name, first_of};

use sha1::Sha1;

/// Gives a content its name, from its bytes at once, or from pieces that follow each other.
pub trait Namer {
    /// The name of a content.
    ghost name_of: { Self → List ℕ → List ℕ };

    /// A name in the making.
    type Naming: Drop;

    /// Which bytes a name in the making was given so far.
    ghost is_given: { Self → Self.Naming → List ℕ → Type 0 };

    /// The name of these bytes.
    fn name(&self, bytes: &[u8]) -> [u8; 20]
        ensures { result ≡ name_of self.now bytes.now };

    /// A name of no bytes so far.
    fn begin(&self) -> Self::Naming
        ensures { is_given self.now result [] };

    /// Gives it the next bytes.
    fn add(&self, naming: &mut Self::Naming, piece: &[u8])
        ensures { (bytes : List ℕ) → is_given self.now naming.old bytes
            → is_given self.now naming.new (bytes ++ piece.now) };

    /// The name of all that it was given.
    fn end(&self, naming: Self::Naming) -> [u8; 20]
        ensures { (bytes : List ℕ) → is_given self.now naming bytes
            → result ≡ name_of self.now bytes };
}

/// Names a content by its SHA-1.
#[derive(Clone, Copy)]
pub struct Sha1Namer;

impl Namer for Sha1Namer {
    ghost name_of = { λ _ bytes. sha1 bytes };

    type Naming = Sha1;

    ghost is_given = { λ _ hasher bytes. Holds hasher bytes };

    fn name(&self, bytes: &[u8]) -> [u8; 20] {
        Sha1::digest(bytes)
    }

    fn begin(&self) -> Sha1 {
        Sha1::new()
    }

    fn add(&self, naming: &mut Sha1, piece: &[u8]) {
        naming.update(piece)
    }

    fn end(&self, naming: Sha1) -> [u8; 20] {
        naming.finalize()
    }
}

/// Names a content by its first byte, 20 times, and one without bytes by zeros: for tests of contents that differ and have
/// one name.
#[derive(Clone, Copy)]
pub struct ByteNamer;

impl Namer for ByteNamer {
    ghost name_of = { λ _ bytes. byte_name bytes };

    type Naming = Option<u8>;

    ghost is_given = { λ _ first bytes. first ≡ first_of bytes };

    fn name(&self, bytes: &[u8]) -> [u8; 20] {
        match bytes {
            [first, ..] => [*first; 20],
            [] => [0; 20],
        }
    }

    fn begin(&self) -> Option<u8> {
        None
    }

    fn add(&self, naming: &mut Option<u8>, piece: &[u8]) {
        if naming.is_none() {
            *naming = piece.first().copied();
        }
    }

    fn end(&self, naming: Option<u8>) -> [u8; 20] {
        [naming.unwrap_or(0); 20]
    }
}
