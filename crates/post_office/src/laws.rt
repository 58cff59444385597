//! Laws of letters and queues, as functions that do nothing.
ghost use Rattle.post_office.specs.Order.{OrderIsOne};
ghost use Rattle.post_office.specs.Changes.{TakesAreClaims, PushesArePosts, ListsMoveBack, EachIsThereOnce, LettersAreMerged};

/// The same letters, of which no two have the same sender and number, stand in one order alone.
pub fn order_is_one()
    ensures { OrderIsOne }
{}

/// The queues go with the tick of several workers as its law has it: each take is one value claimed, and each push one letter
/// posted; a pass that comes back moves its list behind those recorded and changes nothing else; and so at every moment each value
/// that was put waits or was taken, once, and the letters are a merge of what was posted.
pub fn queues_follow<T>()
    ensures takes { TakesAreClaims T }
    ensures pushes { PushesArePosts }
    ensures back { ListsMoveBack T }
    ensures once { EachIsThereOnce T }
    ensures merged { LettersAreMerged }
{}
