//! Values of flags that `clap` has no parser for: a source, ticks from one to another, numbers with commas between.
ghost use Rattle.std.specs.Prelude.{◌≡◌, ◌⊎◌, ℕ, IfSome, Some, codes};
ghost use Rattle.inspect_arguments.specs.Forms.{AreNumbers};
ghost use Rattle.inspect_arguments.specs.declared.values.Source.{Source};
ghost use Rattle.inspect_arguments.specs.declared.values.Ticks.{Ticks};

use short_numbers::number_of;
use thiserror::Error;

/// Some ticks, both included.
#[derive(Clone, Copy, Debug, PartialEq, Eq)]
pub struct Ticks {
    pub first: u32,
    pub last: u32,
}

/// A source, by its context and its number in it.
#[derive(Clone, Copy, Debug, PartialEq, Eq)]
pub struct Source {
    pub context: u32,
    pub id: u32,
}

/// A value that has not the form of its flag, in the words of `clap`.
#[derive(Clone, Copy, Debug, PartialEq, Eq, Error)]
pub(crate) enum WrongValue<'a> {
    #[error("error: invalid value '{0}' for '--ticks <A..B>': --ticks wants two numbers of 1 to 9 digits, as 2..5\n\nFor more information, try '--help'.\n")]
    Ticks(&'a str),
    #[error("error: invalid value '{0}' for '--source <C.S>': --source wants a context and a source, as 0.1\n\nFor more information, try '--help'.\n")]
    Source(&'a str),
}

impl Ticks {
    /// Those of a text `A..B`.
    pub(crate) fn of_text(text: &str) -> Option<Ticks>
        ensures ticks { IfSome result (λ ticks. AreNumbers (codes "..") text.now ticks.first ticks.last) }
        ensures exact { (ticks : Ticks) → AreNumbers (codes "..") text.now ticks.first ticks.last
            → result ≡ Some ticks }
    {
        let (first, last) = numbers_of(text, "..")?;
        Some(Ticks { first, last })
    }
}

impl Source {
    /// That of a text `C.S`.
    pub(crate) fn of_text(text: &str) -> Option<Source>
        ensures source { IfSome result (λ source. AreNumbers (codes ".") text.now source.context source.id) }
        ensures exact { (source : Source) → AreNumbers (codes ".") text.now source.context source.id
            → result ≡ Some source }
    {
        let (context, id) = numbers_of(text, ".")?;
        Some(Source { context, id })
    }
}

/// Two numbers, with a text between them.
fn numbers_of(text: &str, between: &str) -> Option<(u32, u32)>
    requires { (between.now ≡ codes ".") ⊎ (between.now ≡ codes "..") }
    ensures numbers { IfSome result (λ numbers. AreNumbers between.now text.now numbers.0 numbers.1) }
    ensures exact { (first second : ℕ) → AreNumbers between.now text.now first second
        → result ≡ Some (first, second) }
{
    let (left, right) = text.split_once(between)?;
    let left = number_of(left)?;
    let right = number_of(right)?;
    Some((left, right))
}
