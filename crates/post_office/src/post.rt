//! Where a turn sends its letters: what each way of posting has in common.
ghost use Rattle.std.specs.Prelude.{◌≡◌, ℕ, List, [], ◌∷◌, ◌++◌, MatchResult};
ghost use Rattle.post_office.specs.declared.letter.Letter.{Letter};

use crate::letter::Letter;

/// What takes letters, and keeps their order.
pub trait Post {
    /// What it took, in order.
    ghost letters: { Self → List Letter };

    /// Which office it posts to. No call changes that, so one who lent a post knows it again.
    ghost home: { Self → ℕ × ℕ };

    /// Takes a letter. Only where memory runs out it comes back, and then nothing is changed.
    fn post(&mut self, letter: Letter) -> Result<(), Letter>
        ensures took { MatchResult result (λ _. letters self.new ≡ letters self.old ++ letter ∷ []) (λ back. (back ≡ letter) × (letters self.new ≡ letters self.old)) }
        ensures home { home self.new ≡ home self.old };
}
