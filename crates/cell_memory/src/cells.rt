//! The known words, loads and stores.

ghost use Rattle.cell_memory.specs.Meaning.{AreWritable, Covers, IsStore, store_at, word_in};
ghost use Rattle.cell_memory.specs.Stores.{IsStoredWord, MayChange, is_word_store, stored};
ghost use Rattle.cell_memory.specs.Words.{AreWords, known, loaded, widened_word};
ghost use Rattle.domain_laws.specs.Laws.{IsCeiling};
ghost use Rattle.domain_laws.specs.Maps.{map_joined, map_leq, value_at};
ghost use Rattle.mips_decode.specs.Effect.{regions_with};
ghost use Rattle.mips_decode.specs.Memory.{IsSize};
ghost use Rattle.mips_decode.specs.State.{Region};
ghost use Rattle.std.specs.Prelude.{◌≡◌, ◌≢◌, ℕ, ◌<◌, ◌≤◌, ◌^◌, List, [], Some, None, IfOk, OnOk, OnErr, true};
ghost use Rattle.value_domain.specs.Order.{leq};
ghost use Rattle.value_domain.specs.Spans.{Holds, IsStrided, Span, everything, is_single};

use crate::storing::{Store, may_change, push_kept};
use crate::stretch::Stretch;
use crate::words::{first_at, is_everything, words_from};
use std::alloc::{AllocError, Global};
use std::marker::Model;
use value_domain::Strided;

/// What is known of words of memory: their addresses, which are multiples of 4, and their values. A word that isn't
/// known may have every value, and no word is kept with that value.
#[derive(Debug, Drop)]
pub struct Cells {
    /// The words, by rising address.
    pub(crate) words: Vec<(u32, Strided)>,
}

impl Model for Cells {
    ghost use Rattle.std.specs.Prelude.{List, ℕ};
    ghost use Rattle.cell_memory.specs.Words.{AreWords};
    ghost use Rattle.value_domain.specs.Spans.{Span};

    ghost Value = { List (ℕ × Span) };

    ghost view = { λ cells. cells.words.items };

    ghost invariant = { λ cells. AreWords cells.words.items };
}

impl Cells {
    /// No word is known. It takes no memory.
    pub fn none(alloc: Global) -> Cells
        ensures value { result ≡ [] }
        ensures top { (words : List (ℕ × Span)) → map_leq leq words result ≡ true }
        ensures ceiling { IsCeiling AreWords (map_leq leq) (map_joined widened_word) result }
        ensures covers { (regions : List Region) → Covers result regions }
    {
        Cells {
            words: Vec::new(alloc),
        }
    }

    /// The value that is known at a single address that is a multiple of 4, else every number.
    fn value_at(&self, address: &Strided) -> Strided
        ensures value { result ≡ loaded address.now self.now }
        ensures words { AreWords self.now }
    {
        let at = address.lo();
        let from = words_from(&self.words, at);
        if !address.is_one() || at % 4 != 0 {
            return Strided::all();
        }
        match first_at(from, at) {
            Some(value) => value,
            None => Strided::all(),
        }
    }

    /// What a load of a word may give at the held addresses: the value that is known at a single address that is a
    /// multiple of 4, else every number. It takes no memory, and passes the words up to the address.
    pub fn load(&self, address: &Strided) -> Strided
        ensures value { result ≡ loaded address.now self.now }
        ensures holds { (regions : List Region) (at number : ℕ) → Covers self.now regions → Holds address.now at →
            word_in regions at ≡ Some number → number < 2 ^ 32 → Holds result number }
        ensures rises { (wider : Span) (fewer : List (ℕ × Span)) → IsStrided wider → AreWords fewer →
            leq address.now wider ≡ true → map_leq leq self.now fewer ≡ true →
            leq result (loaded wider fewer) ≡ true }
        ensures shape { AreWords self.now }
    {
        let _shape = address.step();
        self.value_at(address)
    }

    /// Puts the words after a store in place of these.
    fn change(&mut self, store: &Store<'_>, value: &Strided) -> Result<(), AllocError>
        ensures value { OnOk result (self.new
            ≡ stored store.now.writable.now store.now.address store.now.size value.now self.old) }
        ensures err { OnErr result (self.new ≡ self.old) }
        ensures words { AreWords self.old }
    {
        let _shape = (store.address.step(), value.step());
        let words = words_after(*self.words.allocator(), &self.words, store, value)?;
        self.words = words;
        Ok(())
    }

    /// Stores some bytes at one of the held addresses, in a stretch that can be written: forgets each word that the
    /// store may change, and knows the word of one aligned word store. Every other word stays, so that no store loses
    /// a word that lies in no such stretch.
    ///
    /// Each word is looked at once, with each stretch.
    pub fn store(
        &mut self,
        writable: &[Stretch],
        address: &Strided,
        size: u32,
        value: &Strided,
    ) -> Result<(), AllocError>
        requires { IsSize size }
        ensures value { OnOk result (self.new ≡ stored writable.now address.now size value.now self.old) }
        ensures kept { OnOk result ((word : ℕ) → (MayChange writable.now address.now size word → ⊥) →
            value_at word self.new ≡ value_at word self.old) }
        ensures forgotten { OnOk result ((word : ℕ) → MayChange writable.now address.now size word →
            (IsStoredWord address.now size word → ⊥) → value_at word self.new ≡ None) }
        ensures stored { OnOk result ((word : ℕ) → MayChange writable.now address.now size word →
            IsStoredWord address.now size word → value_at word self.new ≡ known value.now) }
        ensures covers { OnOk result ((regions : List Region) (at number : ℕ) → Covers self.old regions →
            AreWritable writable.now regions → IsStore regions address.now size value.now at number →
            Covers self.new (regions_with (store_at at size) number regions)) }
        ensures rises { OnOk result ((wider more : Span) (fewer : List (ℕ × Span)) → IsStrided wider → IsStrided more →
            AreWords fewer → leq address.now wider ≡ true → leq value.now more ≡ true →
            map_leq leq self.old fewer ≡ true →
            map_leq leq self.new (stored writable.now wider size more fewer) ≡ true) }
        ensures err { OnErr result (self.new ≡ self.old) }
    {
        let _shape = (address.step(), value.step());
        let store = Store {
            writable,
            address: *address,
            size,
        };
        self.change(&store, value)?;
        Ok(())
    }
}

/// Whether the store is one of an aligned word whose value is then known.
fn is_word_store(store: &Store<'_>, value: &Strided) -> bool
    ensures { result ≡ is_word_store store.now.writable.now store.now.address store.now.size value.now }
{
    store.address.is_one()
        && store.address.lo() % 4 == 0
        && store.size == 4
        && !is_everything(value)
        && may_change(store, store.address.lo())
}

/// The words after a store.
#[tactic(auto, unfolding(crate::specs::Stores::stored))]
fn words_after(
    alloc: Global,
    words: &[(u32, Strided)],
    store: &Store<'_>,
    value: &Strided,
) -> Result<Vec<(u32, Strided)>, AllocError>
    ensures { IfOk result (λ after. after.items
        ≡ stored store.now.writable.now store.now.address store.now.size value.now words.now) }
{
    let mut after = Vec::with_capacity(alloc, words.len() + 1)?;
    if !is_word_store(store, value) {
        push_kept(words, store, 0, 0x1_0000_0000, &mut after)?;
        return Ok(after);
    }
    let at = store.address.lo();
    push_kept(words, store, 0, u64::from(at), &mut after)?;
    after.push((at, *value))?;
    push_kept(words, store, u64::from(at) + 1, 0x1_0000_0000, &mut after)?;
    Ok(after)
}
