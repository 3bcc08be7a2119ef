//! Diagnostics in their order.

ghost use Rattle.std.specs.Prelude.{◌≡◌, IfOk, refl};
ghost use Rattle.std.specs.Cmp.{partial_equiv_from_equiv};
ghost use Rattle.def_check.specs.Reply.{place_cmp, site_cmp};

use sl_base::{Bytes, Diag, NoMemory, Place, Site};
use std::alloc::Global;
use std::cmp::Ordering;
use std::marker::Model;

/// A diagnostic beside what its code and arguments say, which contracts see as the diagnostic. The
/// order is that of diagnostics: site, code, text.
#[derive(Debug, Drop)]
pub struct Told {
    diag: Diag,
    text: Bytes,
}

impl Model for Told {
    ghost use Rattle.std.specs.Prelude.{◌≡◌};
    ghost use Rattle.def_slang.specs.Diagnostic.{message};
    ghost use Rattle.sl_base.specs.contracts.diag.Diag as written;
    ghost use Rattle.sl_base.specs.declared.diag.Diag.{Diag};

    ghost Value = { Diag };

    ghost coded = { written.the_row.coded };

    ghost view = { λ told. told.diag };

    ghost invariant = { λ told. told.text ≡ message told.diag.code told.diag.args };
}

impl Told {
    /// A diagnostic, and what it says.
    pub fn new(alloc: Global, diag: Diag) -> Result<Told, NoMemory>
        ensures { IfOk result (λ told. told ≡ diag) }
    {
        let text = diag.message(alloc)?;
        Ok(Told { diag, text })
    }

    /// The diagnostic.
    pub fn into_diag(self) -> Diag
        ensures { result ≡ self }
    {
        self.diag
    }
}

impl PartialEq for Told {
    ghost use Rattle.std.specs.Ordering.{eq_by_cmp};
    ghost use Rattle.def_check.specs.Reply.{diag_cmp};
    ghost use Rattle.rl_all.specs.Ordered.{diag_equivalence};

    ghost eq = { eq_by_cmp diag_cmp };

    ghost laws = { partial_equiv_from_equiv diag_equivalence };

    fn eq(&self, other: &Told) -> bool {
        self.cmp(other) == Ordering::Equal
    }
}

impl Eq for Told {
    ghost use Rattle.rl_all.specs.Ordered.{diag_equivalence};

    ghost laws = { diag_equivalence };
}

impl PartialOrd for Told {
    ghost use Rattle.std.specs.Ordering.{as_partial_cmp};
    ghost use Rattle.def_check.specs.Reply.{diag_cmp};
    ghost use Rattle.rl_all.specs.Ordered.{diag_partial};

    ghost partial_cmp = { as_partial_cmp diag_cmp };

    ghost laws = { diag_partial };

    fn partial_cmp(&self, other: &Told) -> Option<Ordering> {
        Some(self.cmp(other))
    }
}

impl Ord for Told {
    ghost use Rattle.def_check.specs.Reply.{diag_cmp};
    ghost use Rattle.rl_all.specs.Ordered.{diag_total};

    ghost cmp = { diag_cmp };

    ghost total = { diag_total };

    ghost matches_partial_cmp = { λ a b. refl };

    ghost matches_eq = { λ a b. refl };

    fn cmp(&self, other: &Told) -> Ordering {
        let site = compare_sites(&self.diag.site, &other.diag.site);
        let code = self.diag.code.cmp(&other.diag.code);
        let text = self.text.as_slice().cmp(other.text.as_slice());
        site.then(code.then(text))
    }
}

// How two sites are ordered: the request before all modules, and modules by their names.
fn compare_sites(one: &Site, other: &Site) -> Ordering
    ensures { result ≡ site_cmp one.now other.now }
{
    match (one, other) {
        (Site::Request, Site::Request) => Ordering::Equal,
        (Site::Request, Site::Source { .. }) => Ordering::Less,
        (Site::Source { .. }, Site::Request) => Ordering::Greater,
        (
            Site::Source { module, place },
            Site::Source {
                module: name,
                place: at,
            },
        ) => { module.cmp(name).then(compare_places(*place, *at)) }
    }
}

// How two places are ordered: by lines, and then by columns.
fn compare_places(one: Place, other: Place) -> Ordering
    ensures { result ≡ place_cmp one other }
{
    one.line
        .cmp(&other.line)
        .then(one.column.cmp(&other.column))
}
