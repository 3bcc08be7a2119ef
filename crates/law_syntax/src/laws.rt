//! Laws: that a text has one tree at most, and that what is told of it is one thing, which a function tells.

ghost use Rattle.def_module.specs.Laws.{SyntaxIsDetermined, TreesAreUnique};
ghost use Rattle.def_syntax.specs.Laws.{SyntaxIsTold, TreesAreTold};

/// A text is one module within the limits at most.
pub fn trees_are_unique()
    ensures { TreesAreUnique }
{}

/// One thing is told of a text at most: its tree, or a fault.
pub fn syntax_is_determined()
    ensures { SyntaxIsDetermined }
{}

/// What the function tells of a text is what is told of it, and each text is told something.
pub fn syntax_is_told()
    ensures { SyntaxIsTold }
{}

/// The tree of a text is the one of which nothing is told.
pub fn trees_are_told()
    ensures { TreesAreTold }
{}
