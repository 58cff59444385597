//! What the arguments of the program ask for: how many workers, and how lanes are shared out.
ghost use Rattle.std.specs.Prelude.{◌≡◌, IfSome, Some};
ghost use Rattle.tick_stepper.specs.declared.crew.Sharing.{Sharing};
ghost use Rattle.mainctx.specs.declared.arguments.Asked.{Asked};
ghost use Rattle.mainctx.specs.Arguments.{IsWordOf, AskFor};

use short_numbers::number_of;
use tick_stepper::Sharing;

/// How many workers the arguments ask for, and how these share the lanes.
#[derive(Drop)]
pub(crate) struct Asked {
    pub(crate) workers: u32,
    pub(crate) sharing: Sharing,
}

impl Asked {
    /// What the arguments `WORKERS fixed` or `WORKERS queue` ask for.
    pub(crate) fn read(args: &[String]) -> Option<Asked>
        ensures asked { IfSome result (λ asked. AskFor args.now asked) }
        ensures exact { (asked : Asked) → AskFor args.now asked → result ≡ Some asked }
    {
        let [number, word] = args else {
            return None;
        };
        let workers = number_of(number.as_str())?;
        let sharing = sharing_of(word.as_str())?;
        Some(Asked { workers, sharing })
    }
}

/// How a word asks that lanes are shared out.
fn sharing_of(word: &str) -> Option<Sharing>
    ensures word { IfSome result (λ sharing. IsWordOf word.now sharing) }
    ensures exact { (sharing : Sharing) → IsWordOf word.now sharing → result ≡ Some sharing }
{
    match word {
        "fixed" => Some(Sharing::Round),
        "queue" => Some(Sharing::Queue),
        _ => None,
    }
}
