//! Known words by rising address.

ghost use Rattle.std.specs.Prelude.{◌≡◌, ◌==◌, ℕ, ◌≤◌, Option, Some, None, if◌then◌else◌};
ghost use Rattle.cell_memory.specs.Words.{is_everything, known};
ghost use Rattle.domain_laws.specs.Maps.{Rises, map_leq, topped_leq, value_at};
ghost use Rattle.value_domain.specs.Order.{leq};

use domain_laws::Lattice;
use value_domain::Strided;

/// Whether a value is that of every number.
pub fn is_everything(value: &Strided) -> bool
    ensures { result ≡ is_everything value.now }
{
    value.lo() == 0 && value.hi() == 0xffff_ffff && value.step() == 1
}

/// A value as that of a known word; none where it may be every number.
pub fn known(value: Strided) -> Option<Strided>
    ensures { result ≡ known value }
{
    if is_everything(&value) {
        return None;
    }
    Some(value)
}

/// The words from an address on. It passes the words before it, one by one.
pub fn words_from(words: &[(u32, Strided)], address: u32) -> &[(u32, Strided)]
    requires { (low : ℕ) × Rises low words.now }
    ensures values { (other : ℕ) → address ≤ other → value_at other result.now ≡ value_at other words.now }
    ensures rises { Rises address result.now }
{
    for place in 0..words.len() {
        if address <= words[place].0 {
            return words.split_at(place).1;
        }
    }
    words.split_at(words.len()).1
}

/// The value of a word, if it stands at the address.
fn value_if(word: (u32, Strided), address: u32) -> Option<Strided>
    ensures { result ≡ (if address == word.0 then Some word.1 else None) }
{
    if address == word.0 {
        return Some(word.1);
    }
    None
}

/// The value of a word at an address, before which no word stands.
pub fn first_at(words: &[(u32, Strided)], address: u32) -> Option<Strided>
    requires { Rises address words.now }
    ensures { result ≡ value_at address words.now }
{
    match words {
        [] => None,
        [word, ..] => value_if(*word, address),
    }
}

/// Whether a value is above that of a word, if the word is known.
fn is_value_under(lower: Option<Strided>, value: &Strided) -> bool
    ensures { result ≡ topped_leq leq lower (Some value.now) }
{
    match lower {
        Some(lower) => lower.leq(value),
        None => false,
    }
}

/// Whether the value of each word of the second list is above that of the first. Each list is passed once.
pub fn is_under(below: &[(u32, Strided)], above: &[(u32, Strided)]) -> bool
    requires below { Rises 0 below.now }
    requires above { Rises 0 above.now }
    ensures { result ≡ map_leq leq below.now above.now }
{
    let mut rest = below;
    for word in above {
        rest = words_from(rest, word.0);
        if !is_value_under(first_at(rest, word.0), &word.1) {
            return false;
        }
    }
    true
}
