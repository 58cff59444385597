//! Which letter gives a context, and to whom.
ghost use Rattle.std.specs.Prelude.{◌≡◌};
ghost use Rattle.account.specs.Gifts.{gift_of};

use post_office::{Body, Letter};

/// A context that a lane gives to another.
#[derive(Clone, Copy)]
pub(crate) struct Gift {
    pub from: u32,
    pub to: u32,
    pub context: u32,
}

/// What a letter gives, if it gives a context.
pub(crate) fn gift_of(letter: &Letter) -> Option<Gift>
    ensures { result ≡ gift_of letter.now }
{
    match letter.body {
        Body::Give(context, to) => Some(Gift {
            from: letter.sender,
            to,
            context,
        }),
        Body::Attach(_, _) | Body::Complete(_) | Body::Cancelled(_) => None,
    }
}
