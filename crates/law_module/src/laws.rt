//! Laws: the limits of modules, the depths that their marks tell, and the names that they declare twice.

ghost use Rattle.def_module.specs.Laws.{DepthsAreCounted, EntriesCover, NamesAreTold};

/// The limits of a module are told token by token.
pub fn entries_cover()
    ensures { EntriesCover }
{}

/// The brackets and braces before a bracket or a block that opens tell how deep it is.
pub fn depths_are_counted()
    ensures { DepthsAreCounted }
{}

/// The name that a module declares twice is the first such name in the first scope that has one.
pub fn names_are_told()
    ensures { NamesAreTold }
{}
