//! Laws over the definitions of this crate. Each is the contract of a function that does nothing, so
//! that it is proved with the crate and stands for the crates above.
ghost use Rattle.std.specs.Prelude.{◌≡◌, ◌≢◌, ◌≤◌, ◌<◌, ◌+◌, ◌-◌, ◌^◌, ◌++◌};
ghost use Rattle.std.specs.Prelude.{ℕ, List, [], length, take, drop, replicate, slice_index};
ghost use Rattle.myi_base.specs.Numbers.{num, num_bytes, low_num, low_num_bytes, AreBytes};
ghost use Rattle.myi_base.specs.Blanks.{without_blanks};
ghost use Rattle.myi_base.specs.Items.{numbers, spelling, Fit, total_width};

/// Numbers high byte first: what is written is read, in so many bytes, and the bytes are the only
/// ones that spell the number.
pub fn numbers_read_back()
    ensures length { (n v : ℕ) → length (num_bytes n v) ≡ n }
    ensures bytes { (n v : ℕ) → AreBytes (num_bytes n v) }
    ensures read { (n v : ℕ) (rest : List ℕ) → v < 256 ^ n → num n (num_bytes n v ++ rest) ≡ v }
    ensures below { (n : ℕ) (x : List ℕ) → AreBytes x → num n x < 256 ^ n }
    ensures front { (n m : ℕ) (x : List ℕ) → n ≤ m → num n (take m x) ≡ num n x }
    ensures once { (n : ℕ) (x : List ℕ) → AreBytes x → n ≤ length x
        → num_bytes n (num n x) ≡ take n x }
{}

/// The same laws for numbers low byte first.
pub fn low_numbers_read_back()
    ensures length { (n v : ℕ) → length (low_num_bytes n v) ≡ n }
    ensures bytes { (n v : ℕ) → AreBytes (low_num_bytes n v) }
    ensures read { (n v : ℕ) (rest : List ℕ) → v < 256 ^ n
        → low_num n (low_num_bytes n v ++ rest) ≡ v }
    ensures below { (n : ℕ) (x : List ℕ) → AreBytes x → low_num n x < 256 ^ n }
    ensures front { (n m : ℕ) (x : List ℕ) → n ≤ m → low_num n (take m x) ≡ low_num n x }
    ensures once { (n : ℕ) (x : List ℕ) → AreBytes x → n ≤ length x
        → low_num_bytes n (low_num n x) ≡ take n x }
{}

/// Numbers of given widths one after the other: what is spelled is read, and numbers that stand in a
/// front that two lists share are the same in both.
pub fn items_read_back()
    ensures read { (at : ℕ) (ws vs front back : List ℕ) → length front ≡ at → Fit ws vs
        → numbers at ws (front ++ (spelling ws vs ++ back)) ≡ vs }
    ensures length { (ws vs : List ℕ) → Fit ws vs → length (spelling ws vs) ≡ total_width ws }
    ensures same { (at k : ℕ) (ws x y : List ℕ) → at + total_width ws ≤ k → take k x ≡ take k y
        → numbers at ws x ≡ numbers at ws y }
{}

/// Parts of a list of bytes are bytes, and so is what is put together of bytes.
pub fn bytes_in_parts()
    ensures none { AreBytes [] }
    ensures take { (n : ℕ) (x : List ℕ) → AreBytes x → AreBytes (take n x) }
    ensures drop { (n : ℕ) (x : List ℕ) → AreBytes x → AreBytes (drop n x) }
    ensures append { (x y : List ℕ) → AreBytes x → AreBytes y → AreBytes (x ++ y) }
    ensures zeros { (n : ℕ) → AreBytes (replicate n 0) }
{}

/// A slice of bytes holds bytes, whatever else is known of it.
pub fn slices_are_bytes(bytes: &[u8])
    ensures { AreBytes bytes.now }
{}

/// What is taken off the end of a text is blanks, and no blank is left there.
pub fn blanks_taken_off()
    ensures blanks { (bytes : List ℕ)
        → bytes
        ≡ without_blanks bytes
        ++ replicate (length bytes - length (without_blanks bytes)) 0x20 }
    ensures short { (bytes : List ℕ) → length (without_blanks bytes) ≤ length bytes }
    ensures last { (bytes : List ℕ) → 0 < length (without_blanks bytes)
        → slice_index (without_blanks bytes) (length (without_blanks bytes) - 1) ≢ 0x20 }
{}
