//! Laws of the table at coordinates, which no code runs.

ghost use Rattle.subsetter_cff_at.specs.Fault.{RefusedHasFault, MadeExcludes};
ghost use Rattle.subsetter_cff_at.specs.Promise.{MadeIsTable, LimitsAgree};

/// What is made says, read afresh, what was requested.
pub fn made_is_table()
    ensures { MadeIsTable }
{}

/// What is refused has a fault of that name.
pub fn refused_has_fault()
    ensures { RefusedHasFault }
{}

/// Where a table is made, there is no fault.
pub fn made_excludes()
    ensures { MadeExcludes }
{}

/// Limits never change a table.
pub fn limits_agree()
    ensures { LimitsAgree }
{}
