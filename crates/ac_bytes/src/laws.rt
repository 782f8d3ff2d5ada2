// Numbers and their bytes say the same.

ghost use Rattle.std.specs.Prelude.{◌≡◌, ◌<◌, ◌^◌, ◌++◌, ℕ, ℤ, List, length, FitsSigned};
ghost use Rattle.std.specs.Int.{w64};
ghost use Rattle.ac_bytes.specs.Cursors.{Unread, TakesBytes};
ghost use Rattle.ac_bytes.specs.Numbers.{AreBytes, number, big_endian, eight};

/// The bytes of a number write that number, where they are enough for it.
pub fn number_again()
    ensures { (k n : ℕ) → n < 256 ^ k → number (big_endian k n) ≡ n }
{}

/// Bytes are those of the number that they write.
pub fn bytes_again()
    ensures { (bs : List ℕ) → AreBytes bs → big_endian (length bs) (number bs) ≡ bs }
{}

/// Bytes that were put are the only ones, of so many, that are taken again; what was put after them
/// is left.
pub fn front_taken_again()
    ensures { (bs cs rest : List ℕ) (old new : Unread) → length cs ≡ length bs
        → old.left ≡ bs ++ rest → TakesBytes old cs new → (cs ≡ bs) × (new.left ≡ rest) }
{}

/// The same of a number, in as many bytes as hold it.
pub fn taken_again()
    ensures { (k n m : ℕ) (rest : List ℕ) (old new : Unread) → n < 256 ^ k → m < 256 ^ k
        → old.left ≡ big_endian k n ++ rest → TakesBytes old (big_endian k m) new → (m ≡ n) ×
        (new.left ≡ rest) }
{}

/// The same of a signed number in eight bytes.
pub fn signed_taken_again()
    ensures { (z y : ℤ) (rest : List ℕ) (old new : Unread) → FitsSigned w64 z → FitsSigned w64 y
        → old.left ≡ eight z ++ rest → TakesBytes old (eight y) new → (y ≡ z) × (new.left ≡ rest) }
{}
