//! The words of a line.
ghost use Rattle.std.specs.Prelude.{◌≡◌, ℕ, List, [], ◌∷◌, MatchOption};
ghost use Rattle.std.specs.Option.{option_map_or};
ghost use Rattle.streams.specs.Reads.{with_rest};
ghost use Rattle.streams.specs.Words.{number_at, words_in};

use crate::digits::number;
use crate::separators::cut;
use std::marker::Model;

/// The words of a line that are not yet read: what stands between spaces and is not empty.
#[derive(Drop)]
pub struct Words<'a> {
    rest: Option<&'a [u8]>,
}

impl<'a> Model for Words<'a> {
    ghost Value = { List (List ℕ) };

    ghost view = { λ w. option_map_or (λ r. words_in r.now) w.rest [] };
}

impl<'a> Words<'a> {
    /// All words of a line.
    pub fn of(line: &'a [u8]) -> Words<'a>
        ensures { result ≡ words_in line.now }
    {
        Words { rest: Some(line) }
    }

    /// The next word; `None` where no word is left.
    pub fn next(&mut self) -> Option<&'a [u8]>
        ensures { MatchOption result (self.old ≡ []) (λ w. self.old ≡ w.now ∷ self.new) }
    {
        'pieces: while let Some(text) = self.rest {
            let (piece, rest) = cut(text, b' ');
            self.rest = rest;
            if !piece.is_empty() {
                return Some(piece);
            }
        }
        None
    }

    /// The number that stands next, if the next word is one (`number`). Which words are left after `None` is not
    /// specified.
    #[tactic(auto, unfolding(crate::specs::Words::number_at))]
    pub fn number(&mut self) -> Option<u64>
        ensures { with_rest self.new result ≡ number_at self.old }
    {
        number(self.next()?)
    }
}
