//! What the bytes of an item decide.
ghost use Rattle.std.specs.Prelude.{◌≡◌, ◌<◌, ◌++◌, true, false, IsTrue, List, ℕ, length};
ghost use Rattle.cny_stream.specs.Item.{begins_unexpected, is_expected};
ghost use Rattle.cny_stream.specs.Decided.{Decided, Undecided, LacksItem};

/// That no item with an expected tag comes is decided by its first byte, exactly where that is another one: then every
/// continuation has the fault there. As long as the first byte is an expected tag, or hasn't come yet, nothing is decided.
pub fn item_faults()
    ensures unexpected { (tags whole front : List ℕ) → begins_unexpected tags front ≡ true
        → Decided (LacksItem tags (length whole)) (whole ++ front) (length whole) }
    ensures undecided { (tags whole front : List ℕ) (tag : ℕ) → IsTrue (is_expected tags tag) → tag < 256
        → begins_unexpected tags front ≡ false → Undecided (LacksItem tags (length whole)) (whole ++ front) }
{}
