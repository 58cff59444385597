//! Laws of the faults of a script: what they are by the tables, and where their places lead. As functions that do nothing.
ghost use Rattle.script_check.specs.Laws.{FormFaults};
ghost use Rattle.script_check.specs.Agreement.{ClassesAgree, FirstClassIs};
ghost use Rattle.script_check.specs.PlanPlaces.{PlacesLead};
ghost use Rattle.script_check.specs.VersionFaults.{VersionFaults};

/// A fault of shape is told exactly where a script is misshapen by the tables of keys, words and ranges, and one of limits exactly where some number
/// or count is out of range; what is told is all that is wrong at each place that steps lead to, and nothing else; and
/// steps lead to that value of the document.
pub fn form_faults_go_by_tables()
    ensures { FormFaults }
{}

/// A fault of the version is told exactly where a script of another version than 2 has a `give`; its place leads to an action
/// that begins so, and each such action is told.
pub fn version_faults_stand()
    ensures { VersionFaults }
{}

/// The faults of a script and its reading agree: there is none exactly where a script is read, and else the least class of the faults
/// is that by which it is refused.
pub fn classes_agree()
    ensures { ClassesAgree }
{}

/// The place of each fault of references and of rules leads to a value of the document that says the script, and of what is told to be missing to that
/// number, which is too great.
pub fn places_lead_to_values()
    ensures { PlacesLead }
{}

/// What `first_class` answers of the faults of a script is the class by which it is refused, and none where it is read.
pub fn first_class_is_that_of_reading()
    ensures { FirstClassIs }
{}
