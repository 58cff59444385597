//! What the help of each command says behind its flags, in lines of 100 characters at most.

pub(crate) const INSPECT: &str =
    "Runs a script, and tells what the run did and why; without FILE, of standard input";

pub(crate) const INSPECT_MORE: &str = "mainctx_inspect COMMAND --help says more.

  mainctx_inspect why examples/ten_lines.json

Status: 0 told, 1 other arguments, 2 the script is refused, which is told as by mainctx_check,
3 no memory, 4 the script could not be read or the answer not written.";

pub(crate) const TEXT: &str = "\
Writes the text of the run, as mainctx writes it; of a script with names with these, and with times
in the place of ticks (docs/NAMES.md).

  mainctx_inspect text examples/ten_lines.json";

pub(crate) const WHY: &str = "\
Tells of each iteration of a context who asked for it, and why each source is dispatched by it or
not, in the order of dispatch. Iterations one after another that are alike are told together, when
something else comes of their thread.

  mainctx_inspect why --source 0.1 examples/ten_lines.json";

pub(crate) const SUMMARY: &str = "\
Tells of each source how often it was dispatched, and how long it was ready without that; of each
loop how often it iterated. Then what was silent: sources that were never dispatched, loops that did
not end, threads that halted, and why.

  mainctx_inspect summary examples/ten_lines.json";

pub(crate) const ACCOUNT: &str = "\
Writes each move of the run as JSON, an object a line; docs/ACCOUNT.md has the keys.

  mainctx_inspect account --ticks 0..1 examples/ten_lines.json";

pub(crate) const STEPS: &str = "\
Tells each step of each turn in a row: what is done, what is in progress after it from the outermost
inwards, and the lines of the text that it writes, as the table of docs/STEP.md does. `iter [2 3]`
is an iteration that has sources 2 and 3 left, `call 1` a call of procedure 1.

  mainctx_inspect steps --ticks 0..0 examples/ten_lines.json";

pub(crate) const STACK: &str = "\
Tells what a thread is in the middle of at one moment of a tick: in one line as steps does, and then
each call, loop and iteration in a line of its own, from the outermost inwards. Of a call it tells
who made it and which action comes next, of an iteration the sources that it has left.

  mainctx_inspect stack --lane 0 --tick 1 --step 2 examples/ten_lines.json";

pub(crate) const TIMELINE: &str = "\
Draws the run: under each thread a row for each source that it had, by context and number, for each
loop that ran, each task and each cancellable that it saw cancelled. A column is a tick, or where
that does not fit several, of which the mark that matters most is shown. A digit is a dispatch with
so many in progress (a letter from the tenth on), r ready when its context was iterated or the turn
of its thread was over, but not dispatched, a dot neither. The reply of a task is known by its
dispatch: without that the task goes on. Sources that only wait are told in one line. The line above
has times in milliseconds, and the last one says what the marks mean.

  mainctx_inspect timeline --columns 120 examples/task_ends.json";

pub(crate) const NOTES: &str = "\
Tells where the real GLib would do otherwise than the rules, at the move at which it does, by a row
of docs/GLIB.md: each row once for each thread and context. From the first note on its text may be
another. Nothing is run by it: ./beside-glib asks the library itself.

  mainctx_inspect notes beside_glib/differences/pending-refills.json";

pub(crate) const TRANSLATE: &str = "\
Writes the script of numbers that a script with names stands for, as mainctx reads it; a script of
numbers as it is. docs/NAMES.md is the page of the form with names, which each command takes.

  mainctx_inspect translate examples/named/ten_lines.json";

pub(crate) const CHECK: &str =
    "Says what is wrong with a script, each fault with its place; without FILE, of standard input";

pub(crate) const CHECK_MORE: &str = "  mainctx_check --json examples/ten_lines.json

Status: 0 no fault, 1 other arguments, 2 faults, 3 no memory, 4 the input could not be read or the
answer not written.";
