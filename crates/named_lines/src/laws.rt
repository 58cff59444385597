//! That lines with names are told apart, as a law of the definitions: a function that does nothing.
ghost use Rattle.named_lines.specs.Alike.{LinesAreApart, TextsAreApart};

/// What is told of a run with the names of its script is told apart: two lines of a thread that are told alike are the same
/// line, and two texts of a thread that are the same to the byte tell of the same lines. So each text with names, each name put
/// back to its number, is one text of numbers: that which `mainctx` writes.
pub fn lines_are_told_apart()
    ensures lines { LinesAreApart }
    ensures texts { TextsAreApart }
{}
