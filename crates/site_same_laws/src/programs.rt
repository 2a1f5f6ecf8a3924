//! Laws of programs that are the same but for where their parts stand in memory, each the contract of a function that does nothing.
ghost use Rattle.site_same_laws.specs.Programs.{JoinedProgramsAreSame, SameProgramsHaveSameNames, SameProgramsLiveAlike};

/// Each thread has the same life in both.
pub fn same_programs_live_alike()
    ensures { SameProgramsLiveAlike }
{}

/// Programs that are joined of the same are the same.
pub fn joined_programs_are_same()
    ensures { JoinedProgramsAreSame }
{}

/// Their functions require the same names.
pub fn same_programs_have_same_names()
    ensures { SameProgramsHaveSameNames }
{}
