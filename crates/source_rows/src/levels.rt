//! At how many levels the trees of a context may stand: two, or four.
ghost use Rattle.std.specs.Prelude.{◌≡◌};
ghost use Rattle.source_rows.specs.Rows.{level_count};

/// How many levels a tree of rows may have, its root being the first.
#[derive(Clone, Copy, Debug, PartialEq, Eq)]
pub enum Levels {
    /// A row has children, and they have none.
    Two,
    /// Children may have children, down to the fourth level.
    Four,
}

impl Levels {
    /// The number of levels.
    pub(crate) fn count(self) -> u8
        ensures { result ≡ level_count self }
    {
        match self {
            Levels::Two => 2,
            Levels::Four => 4,
        }
    }
}
