//! The search for a scope that declares a name twice.

ghost use Rattle.std.specs.Prelude.{map};
ghost use Rattle.def_module.specs.Twice.{second_name};
ghost use Rattle.sl_scopes.specs.Names.{declared_in};
ghost use Rattle.sl_scopes.specs.Search.{Ends};

use crate::declared::Declared;
use crate::early::Early;
use crate::scope::search_scope;
use std::alloc::Global;

/// Looks through the scopes of a source for one that declares a name twice.
#[derive(Clone, Copy)]
pub struct Search<'a> {
    pub alloc: Global,
    pub source: &'a [u8],
}

impl Search<'_> {
    /// Looks through the scope of these names.
    pub fn scope(&self, names: &[Declared]) -> Result<(), Early>
        ensures { let source = self.now.source.now in Ends source
            (second_name (map (declared_in source) names.now)) result }
    {
        search_scope(self.alloc, self.source, names)
    }
}
