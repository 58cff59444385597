//! What a look at rows goes by: the time, and the marks of what is open.
ghost use Rattle.std.specs.Prelude.{◌≡◌, bit_or};
ghost use Rattle.cancel_view.specs.Marks.{opening};
ghost use Rattle.source_rows.specs.Candidates.{always, descriptor, sleeps};

use cancel_view::Marks;

/// The number of the mark of what a descriptor may open: that of no cancellable.
pub(crate) const DESCRIPTOR: u16 = 256;

/// The number of the mark of what is always open: that of no cancellable either.
pub(crate) const ALWAYS: u16 = 257;

/// What a look at rows goes by: which of them are open, and which are due.
#[derive(Clone, Copy)]
pub struct Sight {
    /// The time, in microseconds.
    pub(crate) now: u64,
    /// The marks of what is open.
    pub(crate) marks: Marks,
}

impl Sight {
    /// The sight at a time, in microseconds, of who has seen cancellables with these marks as cancelled (`cancel_view::View::marks`), while
    /// descriptors may show whatever they do.
    pub fn new(now: u64, mut marks: Marks) -> Sight
        ensures { result ≡ record { now = now; marks = bit_or (bit_or marks always) descriptor } }
    {
        marks.add(ALWAYS);
        marks.add(DESCRIPTOR);
        Sight { now, marks }
    }

    /// The same while no descriptor shows anything.
    pub fn undisturbed(now: u64, mut marks: Marks) -> Sight
        ensures { result ≡ record { now = now; marks = bit_or marks always } }
    {
        marks.add(ALWAYS);
        Sight { now, marks }
    }

    /// The sight in which what a descriptor may open is open, and what is due at time 0 is due.
    pub fn of_descriptors() -> Sight
        ensures { result ≡ record { now = 0; marks = descriptor } }
    {
        let mut marks = Marks::none();
        marks.add(DESCRIPTOR);
        Sight { now: 0, marks }
    }

    /// Whether what is opened by some marks is closed, and is not due.
    #[inline]
    pub(crate) fn sleeps(&self, marks: &Marks, due: u64) -> bool
        ensures { result ≡ sleeps self.entry.now marks.entry.now due }
    {
        self.now < due && !marks.meets(&self.marks)
    }

    /// Whether what is opened by one mark, by its number, is closed, and is not due.
    #[inline]
    pub(crate) fn one_sleeps(&self, mark: u16, due: u64) -> bool
        ensures { result ≡ sleeps self.entry.now (opening mark) due }
    {
        self.now < due && !self.marks.has(mark)
    }
}
