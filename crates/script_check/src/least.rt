//! The class that a reading would refuse with, of all faults: the first one.
ghost use Rattle.std.specs.Prelude.{◌≡◌, map};
ghost use Rattle.std.specs.List.{list_any};
ghost use Rattle.script_check.specs.Laws.{has};
ghost use Rattle.script_check.specs.Least.{is_of, least_class};
ghost use Rattle.script_check.specs.Seen.{found_of};

use crate::fault::{Cause, Class, Fault};

/// The first class of which some fault is, as a script is refused by it; none where there is no fault.
pub fn first_class(faults: &[Fault]) -> Option<Class>
    ensures { result ≡ least_class (map found_of faults.now) }
{
    if has_class(faults, Class::Shape) {
        Some(Class::Shape)
    } else if has_class(faults, Class::Limit) {
        Some(Class::Limit)
    } else if has_class(faults, Class::Reference) {
        Some(Class::Reference)
    } else if has_class(faults, Class::Rule) {
        Some(Class::Rule)
    } else {
        None
    }
}

/// Whether some fault is of a class.
fn has_class(faults: &[Fault], class: Class) -> bool
    ensures { result ≡ has (is_of class) (map found_of faults.now) }
{
    is_among(faults, class)
}

/// Goes over the faults of a script, and tells whether the cause of some is of a class.
fn is_among(faults: &[Fault], class: Class) -> bool
    ensures { result ≡ list_any (λ fault. is_of class fault.cause) faults.now }
{
    faults.iter().any(|fault| is_of(fault.cause, class))
}

/// Whether the cause of a fault is of a class.
fn is_of(cause: Cause, class: Class) -> bool
    ensures { result ≡ is_of class cause }
{
    match (class, cause.class()) {
        (Class::Shape, Class::Shape) => true,
        (Class::Limit, Class::Limit) => true,
        (Class::Reference, Class::Reference) => true,
        (Class::Rule, Class::Rule) => true,
        _ => false,
    }
}
