//! Laws of the definitions, stated as functions without a body.

ghost use Rattle.std.specs.Prelude.{◌≡◌, ◌+◌, ◌*◌, ◌/◌, ◌%◌, ◌^◌, ◌<◌, ◌++◌, ◌∷◌, [], ℕ, List, length, reverse};
ghost use Rattle.byte_digits.specs.Digits.{IsBytes, number_high_first, number_low_first, digits_high_first, digits_low_first};

/// The number of the `k` lowest digits of `n` is `n` modulo 256 to the power `k`.
pub fn number_of_digits()
    ensures high { (k n : ℕ) → number_high_first (digits_high_first k n) ≡ n % 256 ^ k }
    ensures low { (k n : ℕ) → number_low_first (digits_low_first k n) ≡ n % 256 ^ k }
{}

/// Any bytes are the digits of the number that they encode.
pub fn digits_of_number()
    ensures high { (bytes : List ℕ) → IsBytes bytes → digits_high_first (length bytes) (number_high_first bytes) ≡ bytes }
    ensures low { (bytes : List ℕ) → IsBytes bytes → digits_low_first (length bytes) (number_low_first bytes) ≡ bytes }
{}

/// There are as many digits as were asked for, and each one is a byte.
pub fn digits_are_bytes()
    ensures high { (k n : ℕ) → (length (digits_high_first k n) ≡ k) × IsBytes (digits_high_first k n) }
    ensures low { (k n : ℕ) → (length (digits_low_first k n) ≡ k) × IsBytes (digits_low_first k n) }
{}

/// A number of `k` bytes is less than 256 to the power `k`.
pub fn number_is_bounded()
    ensures high { (bytes : List ℕ) → IsBytes bytes → number_high_first bytes < 256 ^ length bytes }
    ensures low { (bytes : List ℕ) → IsBytes bytes → number_low_first bytes < 256 ^ length bytes }
{}

/// When bytes are joined, the more significant ones are shifted up by the number of the others.
pub fn number_of_joined()
    ensures high { (xs ys : List ℕ) → number_high_first (xs ++ ys) ≡ number_high_first xs * 256 ^ length ys + number_high_first ys }
    ensures low { (xs ys : List ℕ) → number_low_first (xs ++ ys) ≡ number_low_first xs + 256 ^ length xs * number_low_first ys }
{}

/// The digits of a number are those of its upper part and those of its lower part.
pub fn digits_of_parts()
    ensures high { (j k n : ℕ) → digits_high_first (j + k) n ≡ digits_high_first j (n / 256 ^ k) ++ digits_high_first k n }
    ensures low { (j k n : ℕ) → digits_low_first (j + k) n ≡ digits_low_first j n ++ digits_low_first k (n / 256 ^ j) }
{}

/// Each order is the reverse of the other.
pub fn orders_are_mirrored()
    ensures number { (bytes : List ℕ) → number_low_first bytes ≡ number_high_first (reverse bytes) }
    ensures digits { (k n : ℕ) → digits_low_first k n ≡ reverse (digits_high_first k n) }
{}

/// 258 is 1 times 256, plus 2.
pub fn rows()
    ensures high { number_high_first (1 ∷ 2 ∷ []) ≡ 258 }
    ensures low { number_low_first (2 ∷ 1 ∷ []) ≡ 258 }
    ensures high_digits { digits_high_first 4 258 ≡ 0 ∷ 0 ∷ 1 ∷ 2 ∷ [] }
    ensures low_digits { digits_low_first 4 258 ≡ 2 ∷ 1 ∷ 0 ∷ 0 ∷ [] }
    ensures cut { digits_high_first 1 258 ≡ 2 ∷ [] }
{}
