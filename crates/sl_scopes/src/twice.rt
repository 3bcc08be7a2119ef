//! Which name a module declares twice.

ghost use Rattle.std.specs.Prelude.{IfOk};
ghost use Rattle.std.specs.Option.{option_map};
ghost use Rattle.def_module.specs.Twice.{DeclaresTwice};
ghost use Rattle.sl_token.specs.View.{token_in};
ghost use Rattle.sl_tree.specs.DeclView.{module_in};

use crate::early::Early;
use crate::search::Search;
use sl_base::NoMemory;
use sl_token::Token;
use sl_tree::ModuleTree;
use std::alloc::Global;

/// The first name that clashes with one before it, in the first scope where one does, of the scopes in the order in
/// which they end.
///
/// It takes time that grows with the size of the tree, and with the logarithm of the size of the largest scope.
pub fn declared_twice(
    alloc: Global,
    source: &[u8],
    tree: &ModuleTree,
) -> Result<Option<Token>, NoMemory>
    ensures { IfOk result (λ name. DeclaresTwice (module_in source.now tree.now)
        (option_map (token_in source.now) name)) }
{
    let search = Search { alloc, source };
    match search.module(tree) {
        Ok(()) => Ok(None),
        Err(Early::Twice(name)) => Ok(Some(name)),
        Err(Early::NoMemory) => Err(NoMemory),
    }
}
