//! Words at the front of bytes.

ghost use Rattle.std.specs.Prelude.{◌≡◌, ℕ, List, ◌∷◌, ◌++◌, IfSome, Some, option_map};
ghost use Rattle.std.specs.Bool.{OnFalse, OnTrue};

/// What stands behind a word.
pub fn after<'a>(bytes: &'a [u8], word: &[u8]) -> Option<&'a [u8]>
    ensures takes { IfSome result (λ rest. bytes.now ≡ word.now ++ rest.now) }
    ensures again { (rest : List ℕ) → bytes.now ≡ word.now ++ rest →
        option_map {U = List ℕ} (λ r. r.now) result ≡ Some rest }
{
    bytes.strip_prefix(word)
}

/// Whether a byte stands at the front.
pub fn begins_with(bytes: &[u8], byte: u8) -> bool
    ensures yes { OnTrue result ((rest : List ℕ) × (bytes.now ≡ byte ∷ rest)) }
    ensures none { OnFalse result ((rest : List ℕ) → bytes.now ≡ byte ∷ rest → ⊥) }
{
    match bytes {
        [first, ..] => *first == byte,
        [] => false,
    }
}
