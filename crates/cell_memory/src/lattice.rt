//! The order of known words, their joins and their widening.

ghost use Rattle.cell_memory.specs.Rises.{risen};
ghost use Rattle.cell_memory.specs.WordLaws.{words_lattice, words_ranked, words_widening};
ghost use Rattle.cell_memory.specs.Words.{AreWords, joined_word, widened_word};
ghost use Rattle.domain_laws.specs.Maps.{Rises, entry_of, map_joined, map_leq, map_rank, topped_joined};
ghost use Rattle.domain_laws.specs.Plain.{plain_has, plain_lattice, plain_ranked, plain_widening};
ghost use Rattle.std.specs.Prelude.{◌≡◌, ℕ, ◌+◌, ◌*◌, ◌^◌, ◌++◌, Some, IfOk, OnOk, not, []};
ghost use Rattle.value_domain.specs.Order.{leq, rank};

use crate::cells::Cells;
use crate::words::{first_at, is_under, known, words_from};
use domain_laws::{Height, Lattice, Widen};
use std::alloc::{AllocError, Global};
use value_domain::Strided;

/// The two ways in which a value rises.
#[derive(Clone, Copy)]
enum Rise {
    Join,
    Widen,
}

/// What a known value rises to by another one.
fn risen(by: Rise, value: &Strided, newer: &Strided) -> Option<Strided>
    ensures { result ≡ risen by value.now newer.now }
{
    match by {
        Rise::Join => known(value.joined_with(newer)),
        Rise::Widen => known(value.widened_by(newer)),
    }
}

/// Puts a word behind a list, with what its value rises to by that of the other list, if it is known there.
fn push_risen(
    by: Rise,
    word: &(u32, Strided),
    newer: Option<Strided>,
    risen_words: &mut Vec<(u32, Strided)>,
) -> Result<(), AllocError>
    ensures { OnOk result (risen_words.new.items
        ≡ risen_words.old.items ++ entry_of word.now.0 (topped_joined (risen by) (Some word.now.1) newer) []) }
{
    let Some(newer) = newer else {
        return Ok(());
    };
    if let Some(value) = risen(by, &word.1, &newer) {
        risen_words.push((word.0, value))?;
    }
    Ok(())
}

/// The words that both lists know, with what their values rise to. Each list is passed once.
fn risen_words(
    alloc: Global,
    by: Rise,
    words: &[(u32, Strided)],
    newer: &[(u32, Strided)],
) -> Result<Vec<(u32, Strided)>, AllocError>
    requires words { Rises 0 words.now }
    requires newer { Rises 0 newer.now }
    ensures { IfOk result (λ both. both.items ≡ map_joined (risen by) words.now newer.now) }
{
    let mut both = Vec::with_capacity(alloc, words.len())?;
    let mut rest = newer;
    for word in words {
        rest = words_from(rest, word.0);
        push_risen(by, word, first_at(rest, word.0), &mut both)?;
    }
    Ok(both)
}

impl Cells {
    /// Raises these words by other ones, and tells whether anything grew.
    fn rise(&mut self, by: Rise, newer: &Cells) -> Result<bool, AllocError>
        ensures value { OnOk result (self.new ≡ map_joined (risen by) self.old newer.now) }
        ensures grew { IfOk result (λ grew. grew ≡ not (map_leq leq self.new self.old)) }
    {
        let both = risen_words(*self.words.allocator(), by, &self.words, &newer.words)?;
        let grew = !is_under(&both, &self.words);
        self.words = both;
        Ok(grew)
    }
}

impl Lattice for Cells {
    ghost has = { plain_has AreWords };

    ghost leq = { map_leq leq };

    ghost joined = { map_joined joined_word };

    fn copy(&self) -> Result<Self, AllocError> {
        let words = Vec::from_slice(*self.words.allocator(), &self.words)?;
        Ok(Cells { words })
    }

    fn leq(&self, other: &Self) -> bool {
        is_under(&self.words, &other.words)
    }

    fn join(&mut self, other: &Self) -> Result<bool, AllocError> {
        self.rise(Rise::Join, other)
    }

    ghost lattice = { plain_lattice words_lattice };
}

impl Height for Cells {
    ghost rank = { map_rank rank };

    ghost height = { 2 ^ 65 * 2 ^ 32 + 1 };

    ghost ranked = { plain_ranked words_ranked };
}

impl Widen for Cells {
    ghost widened = { map_joined widened_word };

    fn widen(&mut self, newer: &Self) -> Result<bool, AllocError> {
        self.rise(Rise::Widen, newer)
    }

    ghost widening = { plain_widening words_widening };
}
