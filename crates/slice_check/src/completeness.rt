//! Laws of what is said of files. Each function does nothing: its clause is the law.
ghost use Rattle.slice_check.specs.Completeness.{FilesAreDecided, VerdictsExist};
ghost use Rattle.slice_check.specs.Upgrades.{UpgradesGoOn};

/// Of rows over as many unknowns, and multipliers, one verdict holds.
pub fn verdicts_exist()
    ensures { VerdictsExist }
{}

/// Something is said of each file, whatever bytes it has: it is accepted, or something is the first that is wrong with it, or a
/// line that is read goes past the file's limit, a goal can't be made, or a number of a sum doesn't fit.
pub fn something_is_said_of_each_file()
    ensures { FilesAreDecided }
{}

/// What the upgrade writes of a file before some line is accepted goes on to an end, whatever bytes the file has: to an answer, or to
/// a fault that is neither a failed read nor want of memory.
pub fn upgrades_go_on()
    ensures { UpgradesGoOn }
{}
