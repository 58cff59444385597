//! A post of one's own: the letters of one worker, in a list.
ghost use Rattle.std.specs.Prelude.{◌≡◌, [], ◌∷◌, ◌++◌, OnOk, OnErr};

use crate::letter::Letter;
use crate::post::Post;
use std::alloc::Global;
use std::marker::Model;

/// The letters that it took, in order. Contracts see the list of them.
#[derive(Drop)]
pub struct Tray {
    letters: Vec<Letter>,
}

impl Model for Tray {
    ghost use Rattle.std.specs.Prelude.{List};
    ghost use Rattle.post_office.specs.declared.letter.Letter.{Letter};

    ghost Value = { List Letter };

    ghost view = { λ t. t.letters.items };
}

impl Tray {
    /// A tray that took none. It takes no memory.
    pub fn new(alloc: Global) -> Tray
        ensures { result ≡ [] }
    {
        Tray {
            letters: Vec::new(alloc),
        }
    }

    /// The letters in the order in which they were taken. It takes no memory.
    pub fn into_letters(self) -> Vec<Letter>
        ensures { result.items ≡ self }
    {
        self.letters
    }
}

impl Post for Tray {
    ghost letters = { λ t. t };

    ghost home = { λ _. (0, 0) };

    fn post(&mut self, letter: Letter) -> Result<(), Letter> {
        match self.letters.push(letter) {
            Ok(()) => Ok(()),
            Err(_) => Err(letter),
        }
    }
}
