//! Worked cases, proved by computing one table over the definitions.

ghost use Rattle.table.specs.Cases.{WorkedCases};

/// What lookups, adds and removes answer and leave in eleven small tables of ports.
pub fn worked_cases()
    ensures { WorkedCases }
{}
