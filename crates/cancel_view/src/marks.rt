//! The marks of what opens sources: each cancellable has a mark of its own, so that one look tells whether any of many was seen as cancelled.
ghost use Rattle.std.specs.Prelude.{◌≡◌, ◌%◌, ◌^◌, bit_or};
ghost use Rattle.cancel_view.specs.Marks.{cancel_number, opening, meets};

use std::marker::Model;

/// How many cancellables have a mark of their own: as many as a script can name.
const CANCELLABLES: u32 = 256;

/// A number that no mark has: those below it are the marks that a set has room for. From 256 on they are of no cancellable.
pub const NO_MARK: u16 = 320;

/// How many marks a word has.
const WORD: u16 = 64;

/// A set of marks, by their numbers: those of cancellables in four words, and the others in the fifth.
#[derive(Clone, Copy, PartialEq, Eq)]
pub struct Marks {
    first: u64,
    second: u64,
    third: u64,
    fourth: u64,
    fifth: u64,
}

impl Model for Marks {
    ghost use Rattle.std.specs.Prelude.{ℕ};
    ghost use Rattle.std.specs.Coded.{coded_ℕ};

    ghost Value = { ℕ };

    ghost coded = { coded_ℕ };

    ghost use Rattle.cancel_view.specs.Words.{in_words, AreWords, words_of};

    ghost view = { in_words };

    ghost invariant = { AreWords };

    ghost inverse = { words_of };

    ghost use Rattle.cancel_view.specs.WordsBack.{words_back};

    ghost inverse_ok = { words_back };
}

/// The bit of a mark in its word.
#[inline]
fn bit_of(number: u16) -> u64
    ensures { result ≡ 2 ^ (number % 64) }
{
    1 << (number % WORD)
}

impl Marks {
    /// No mark.
    #[inline]
    pub fn none() -> Marks
        ensures { result ≡ 0 }
    {
        Marks {
            first: 0,
            second: 0,
            third: 0,
            fourth: 0,
            fifth: 0,
        }
    }

    /// Adds the mark of a number, where one has it.
    #[inline]
    pub fn add(&mut self, number: u16)
        ensures { self.new ≡ bit_or self.old (opening number) }
    {
        let bit = bit_of(number);
        match number / WORD {
            0 => self.first |= bit,
            1 => self.second |= bit,
            2 => self.third |= bit,
            3 => self.fourth |= bit,
            4 => self.fifth |= bit,
            _ => {}
        }
    }

    /// The marks of two sets together.
    #[inline]
    pub fn union(&self, other: &Marks) -> Marks
        ensures { result ≡ bit_or self.now other.now }
    {
        Marks {
            first: self.first | other.first,
            second: self.second | other.second,
            third: self.third | other.third,
            fourth: self.fourth | other.fourth,
            fifth: self.fifth | other.fifth,
        }
    }

    /// Whether two sets have a mark in common.
    #[inline]
    pub fn meets(&self, other: &Marks) -> bool
        ensures { result ≡ meets self.now other.now }
    {
        let first = self.first & other.first;
        let second = self.second & other.second;
        let third = self.third & other.third;
        let fourth = self.fourth & other.fourth;
        let fifth = self.fifth & other.fifth;
        first | second | third | fourth | fifth != 0
    }

    /// Whether the mark of a number is among these.
    #[inline]
    pub fn has(&self, number: u16) -> bool
        ensures { result ≡ meets (opening number) self.now }
    {
        let word = match number / WORD {
            0 => self.first,
            1 => self.second,
            2 => self.third,
            3 => self.fourth,
            4 => self.fifth,
            _ => 0,
        };
        bit_of(number) & word != 0
    }
}

/// The number of the mark of a cancellable: its own, below 256.
#[inline]
pub fn cancel_number(c: u32) -> u16
    ensures { result ≡ cancel_number c }
{
    (c % CANCELLABLES) as u16
}
