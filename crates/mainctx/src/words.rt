//! The words of actions and of ways to be invoked in the text.
ghost use Rattle.std.specs.Prelude.{◌≡◌, ◌≤◌, length};
ghost use Rattle.mainctx.specs.Text.{invoked_text, word_text};

use lane_turn::{Invoked, Word};

/// How a procedure was invoked, in a word.
pub(crate) fn invoked_word(how: Invoked) -> &'static str
    ensures word { result.now ≡ invoked_text how }
    ensures short { length result.now ≤ 20 }
{
    match how {
        Invoked::Direct => "direct",
        Invoked::Attached => "attached",
        Invoked::Posted => "posted",
    }
}

/// The word of an action, as scripts write it.
pub fn action_word(word: Word) -> &'static str
    ensures word { result.now ≡ word_text word }
    ensures short { length result.now ≤ 20 }
{
    match word {
        Word::Attach => "attach",
        Word::Child => "child",
        Word::Destroy => "destroy",
        Word::SetReady => "set_ready",
        Word::SetPriority => "set_priority",
        Word::Run => "run",
        Word::Quit => "quit",
        Word::Disconnect => "disconnect",
        Word::Push => "push",
        Word::Pop => "pop",
        Word::Release => "release",
        Word::Give => "give",
    }
}
