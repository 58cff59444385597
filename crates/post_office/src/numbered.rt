//! A value with the number of what it belongs to.
ghost use Rattle.std.specs.Prelude.{◌≡◌, ℕ};

/// What has a number of its own, as a lane has in its script.
pub trait Numbered {
    /// The number as clauses name it.
    ghost number_of: { Self → ℕ };

    /// The number.
    fn number(&self) -> u32
        ensures { result ≡ number_of self.now };
}
