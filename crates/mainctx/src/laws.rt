//! What is proved of the definitions alone.
ghost use Rattle.mainctx.specs.Laws.{FirstRun};

/// What the script of one source that logs writes over two ticks.
pub fn first_run()
    ensures { FirstRun }
{}
