//! Laws: that the limits of trees are told token by token, and that the marks of a text tell how deep its forms nest.

ghost use Rattle.def_tree.specs.Laws.{DepthsAreCounted, EntriesCover};

/// The limits of a tree are told token by token.
pub fn entries_cover()
    ensures { EntriesCover }
{}

/// The brackets and braces before a bracket or a block that opens tell how deep it is.
pub fn depths_are_counted()
    ensures { DepthsAreCounted }
{}
