//! The next bytes of a stream that comes in pieces.
ghost use Rattle.std.specs.Prelude.{◌≡◌, ◌<◌, ◌≤◌, ◌==◌, ◌++◌, [], ◌∷◌, List, ℕ, length, take};
ghost use Rattle.std.specs.Int.{w32, to_be_bytes};
ghost use Rattle.cny_stream.specs.Cut.{Stands, Position, InMagic, InHead, InValue, StandsBehind, Pushed, PushedMagic, PushedHead, PushedValue, IsLost};
ghost use Rattle.cny_stream.specs.declared.cutter.Place.TheVariants as place;

use crate::cutter::{Cutter, Event, Place, Step};

const MAGIC_LEN: usize = 8;

// A tag, and the length of the value in four bytes.
const HEAD_LEN: usize = 5;

impl Cutter {
    /// Nothing of a stream with this magic.
    pub fn new(magic: [u8; 8]) -> Self
        ensures { Stands magic result [] (InMagic []) }
    {
        Cutter {
            magic,
            place: Place::Magic,
            front: [0; 8],
            have: 0,
            left: 0,
        }
    }

    /// Gives it the next bytes, of which it uses some. An item is to begin with one of these tags.
    pub fn push(&mut self, piece: &[u8], tags: &[u8]) -> Step
        requires { 0 < length piece.now }
        ensures most { result.used ≤ length piece.now }
        ensures some { 0 < result.used }
        // What the bytes gave that it used, and where it stands with them.
        ensures pushed { (magic whole : List ℕ) (position : Position) → Stands magic self.old whole position
            → Pushed magic tags.now self.new whole position (take result.used piece.now) result.event }
        // A fault is told again, whatever comes.
        ensures again { (fault : Event) → IsLost self.old fault → (result.event ≡ fault) × IsLost self.new fault }
    {
        match self.place {
            Place::Magic => Step {
                used: 1,
                event: self.push_magic(piece[0]),
            },
            Place::Head => Step {
                used: 1,
                event: self.push_head(piece[0], tags),
            },
            Place::Value => self.push_value(piece.len()),
            Place::NoMagic => Step {
                used: piece.len(),
                event: Event::NoMagic,
            },
            Place::Unexpected => Step {
                used: piece.len(),
                event: Event::Unexpected,
            },
        }
    }

    // One more byte of the magic.
    fn push_magic(&mut self, byte: u8) -> Event
        requires { self.old.place ≡ place.Magic }
        ensures { (magic whole front : List ℕ) → Stands magic self.old whole (InMagic front)
            → PushedMagic magic self.new whole front (byte ∷ []) result }
    {
        let have = self.have;
        self.front[have] = byte;
        if have + 1 < MAGIC_LEN {
            self.have = have + 1;
            return Event::More;
        }
        self.have = 0;
        if self.front != self.magic {
            self.place = Place::NoMagic;
            return Event::NoMagic;
        }
        self.place = Place::Head;
        Event::Begun
    }

    // One more byte of a head.
    fn push_head(&mut self, byte: u8, tags: &[u8]) -> Event
        requires { self.old.place ≡ place.Head }
        ensures { (magic whole front : List ℕ) → Stands magic self.old whole (InHead front)
            → PushedHead magic tags.now self.new whole front (byte ∷ []) result }
    {
        let have = self.have;
        self.front[have] = byte;
        let [tag, a, b, c, d, _, _, _] = self.front;
        if !tags.contains(&tag) {
            self.place = Place::Unexpected;
            return Event::Unexpected;
        }
        if have + 1 < HEAD_LEN {
            self.have = have + 1;
            return Event::More;
        }
        let len = length_of(a, b, c, d);
        self.begin_value(len);
        Event::Head { tag, len }
    }

    // Goes on behind a head: with a value of this length, or with the next head.
    fn begin_value(&mut self, len: u32)
        requires { self.old.place ≡ place.Head }
        ensures { (magic whole : List ℕ) (tag : ℕ) → self.old.magic ≡ magic
            → StandsBehind magic self.new whole tag len [] (0 == len) }
    {
        self.have = 0;
        self.left = len;
        if len > 0 {
            self.place = Place::Value;
        }
    }

    // Goes on in a value by so many bytes, or by as many as it still has.
    fn push_value(&mut self, most: usize) -> Step
        requires value { self.old.place ≡ place.Value }
        requires some { 0 < most }
        ensures most { result.used ≤ most }
        ensures some { 0 < result.used }
        ensures pushed { (magic whole value taken : List ℕ) (tag len : ℕ) → Stands magic self.old whole (InValue tag len value)
            → length taken ≡ result.used → PushedValue magic self.new whole tag len (value ++ taken) result.event }
    {
        let left = self.left as usize;
        let used = if left < most { left } else { most };
        let whole = used == left;
        self.left = (left - used) as u32;
        if whole {
            self.have = 0;
            self.place = Place::Head;
        }
        Step {
            used,
            event: Event::Value { whole },
        }
    }
}

// The length that the last four bytes of a head tell.
fn length_of(a: u8, b: u8, c: u8, d: u8) -> u32
    ensures { to_be_bytes w32 result ≡ a ∷ b ∷ c ∷ d ∷ [] }
{
    u32::from_be_bytes([a, b, c, d])
}
