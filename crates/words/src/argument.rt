// The words of a line that stand behind its command, read one after the other from the left.
ghost use Rattle.std.specs.Prelude.{◌≡◌, Some, None, MatchResult, drop, slice_get, vec_items};
ghost use Rattle.std.specs.Fn.{FnOnceReturnsAt};
ghost use Rattle.words.specs.declared.unclear.Why.TheVariants.{Missing};
ghost use Rattle.words.specs.Arguments.{Passes};
ghost use Rattle.words.specs.Cutting.{texts};
ghost use Rattle.words.specs.Saying.{fault, Reads, Wanted, order_at, code_at, set_at, narrow_at, wide_at, source_at, hex_at, word_at, end_at, pairs_from};

use super::hex::hex_bytes;
use super::line::OrderKind;
use super::named::{Source, order_of, source_of};
use super::spelled::{narrow, role_set, wide};
use super::unclear::{LineError, Unclear, Why};
use std::alloc::Global;

// All words of the line, and the place of the next to be read.
#[derive(Clone, Copy)]
pub(crate) struct Arguments<'a> {
    words: &'a [&'a [u8]],
    place: usize,
}

impl<'a> Arguments<'a> {
    // The command itself is the word 0.
    pub(crate) fn of(words: &'a [&'a [u8]]) -> Arguments<'a>
        ensures words { result.words.now ≡ words.now }
        ensures place { result.place ≡ 1 }
    {
        Arguments { words, place: 1 }
    }

    fn word(&mut self) -> Result<&'a [u8], Unclear>
        ensures answer { MatchResult result (λ word. slice_get (texts self.old.words.now) self.old.place ≡ Some word.now) (λ u. (slice_get (texts self.old.words.now) self.old.place ≡ None) × (u ≡ fault self.old.place Missing)) }
        ensures passes { Passes self.old self.new result }
    {
        match self.words.get(self.place) {
            Some(word) => {
                self.place += 1;
                Ok(*word)
            }
            None => Err(Unclear {
                word: self.place,
                why: Why::Missing,
            }),
        }
    }

    // The next word, read by `parse`, or why it cannot be read so.
    fn read<T, F: FnOnce(&[u8]) -> Option<T>>(&mut self, why: Why, parse: F) -> Result<T, Unclear>
        requires { F.IsAlwaysCallable parse }
        ensures answer { Wanted (FnOnceReturnsAt F.FnOnce parse) why self.old.place (slice_get (texts self.old.words.now) self.old.place) result }
        ensures passes { Passes self.old self.new result }
    {
        let place = self.place;
        let word = self.word()?;
        parse(word).ok_or(Unclear { word: place, why })
    }

    #[tactic(auto, unfolding(crate::specs::Saying::order_at), using(crate::proofs::Places::wanted_from))]
    pub(crate) fn order(&mut self) -> Result<OrderKind, Unclear>
        ensures answer { result ≡ order_at (texts self.old.words.now) self.old.place }
        ensures passes { Passes self.old self.new result }
    {
        self.read(Why::NotAnOrder, order_of)
    }

    #[tactic(auto, unfolding(crate::specs::Saying::code_at), using(crate::proofs::Places::wanted_from))]
    pub(crate) fn role_code(&mut self) -> Result<u32, Unclear>
        ensures answer { result ≡ code_at (texts self.old.words.now) self.old.place }
        ensures passes { Passes self.old self.new result }
    {
        self.read(Why::NotARoleCode, narrow)
    }

    #[tactic(auto, unfolding(crate::specs::Saying::set_at), using(crate::proofs::Places::wanted_from))]
    pub(crate) fn role_set(&mut self) -> Result<u64, Unclear>
        ensures answer { result ≡ set_at (texts self.old.words.now) self.old.place }
        ensures passes { Passes self.old self.new result }
    {
        self.read(Why::NotARoleSet, role_set)
    }

    #[tactic(auto, unfolding(crate::specs::Saying::narrow_at), using(crate::proofs::Places::wanted_from))]
    pub(crate) fn narrow(&mut self) -> Result<u32, Unclear>
        ensures answer { result ≡ narrow_at (texts self.old.words.now) self.old.place }
        ensures passes { Passes self.old self.new result }
    {
        self.read(Why::NotANumber, narrow)
    }

    #[tactic(auto, unfolding(crate::specs::Saying::wide_at), using(crate::proofs::Places::wanted_from))]
    pub(crate) fn wide(&mut self) -> Result<u64, Unclear>
        ensures answer { result ≡ wide_at (texts self.old.words.now) self.old.place }
        ensures passes { Passes self.old self.new result }
    {
        self.read(Why::NotANumber, wide)
    }

    #[tactic(auto, unfolding(crate::specs::Saying::source_at), using(crate::proofs::Places::wanted_from))]
    pub(crate) fn source(&mut self) -> Result<Source, Unclear>
        ensures answer { result ≡ source_at (texts self.old.words.now) self.old.place }
        ensures passes { Passes self.old self.new result }
    {
        self.read(Why::NeitherHexNorFile, source_of)
    }

    // The bytes that the next word spells.
    #[tactic(auto, unfolding(crate::specs::Saying::hex_at))]
    pub(crate) fn hex(&mut self, heap: Global) -> Result<Vec<u8>, LineError>
        ensures answer { Reads vec_items result (hex_at (texts self.old.words.now) self.old.place) }
        ensures passes { Passes self.old self.new result }
    {
        let place = self.place;
        let word = self.word()?;
        let bytes = hex_bytes(heap, word)?;
        Ok(bytes.ok_or(Unclear {
            word: place,
            why: Why::NotHexadecimal,
        })?)
    }

    // The next word's own bytes, whatever they are.
    #[tactic(auto, unfolding(crate::specs::Saying::word_at))]
    pub(crate) fn own_bytes(&mut self, heap: Global) -> Result<Vec<u8>, LineError>
        ensures answer { Reads vec_items result (word_at (texts self.old.words.now) self.old.place) }
        ensures passes { Passes self.old self.new result }
    {
        let word = self.word()?;
        Ok(Vec::from_slice(heap, word)?)
    }

    // Pairs of role codes, up to the end of the line.
    pub(crate) fn pairs(&mut self, heap: Global) -> Result<Vec<(u32, u32)>, LineError>
        ensures answer { Reads vec_items result (pairs_from self.old.place (drop self.old.place (texts self.old.words.now))) }
    {
        let mut pairs = Vec::new(heap);
        while self.place < self.words.len() {
            let a = self.role_code()?;
            let b = self.role_code()?;
            pairs.push((a, b))?;
        }
        Ok(pairs)
    }

    // The line has to end here.
    #[tactic(auto, using(crate::proofs::Places::too_many_at, crate::proofs::Places::ends_at))]
    pub(crate) fn end(&self) -> Result<(), Unclear>
        ensures answer { result ≡ end_at (texts self.now.words.now) self.now.place }
    {
        if self.place < self.words.len() {
            return Err(Unclear {
                word: self.place,
                why: Why::TooMany,
            });
        }
        Ok(())
    }
}
