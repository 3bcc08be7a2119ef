//! Laws of the definitions.

ghost use Rattle.def_sources.specs.Laws.{LoadedOnce};

/// The walk over maps ends with one set of sources at most.
pub fn loaded_once()
    ensures { LoadedOnce }
{}
