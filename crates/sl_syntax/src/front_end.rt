//! The tree of a text, or what is told of it.

ghost use Rattle.std.specs.Prelude.{◌≡◌, ◌+◌, ◌<◌, ◌^◌, length, IfOk, IfErr};
ghost use Rattle.def_module.specs.Syntax as syntax;
ghost use Rattle.def_module.specs.Syntax.{Bad, Good, HasSyntax};
ghost use Rattle.sl_token.specs.View.{Tells, token_in};
ghost use Rattle.sl_tree.specs.DeclView.{module_in};

use sl_base::{Bytes, List, NoMemory, Refusal, code};
use sl_parse_decl::parse;
use sl_scopes::declared_twice;
use sl_token::{Token, lex, text_at};
use sl_tree::ModuleTree;
use std::alloc::Global;

/// The tree of a text of which nothing is told.
///
/// Told is the first lexical fault, wherever it stands (E101 to E105); else why the tokens are no module (E110, E111 or
/// E112); else the first name that a scope declares twice (E120).
pub fn syntax(alloc: Global, text: &[u8]) -> Result<ModuleTree, Refusal>
    requires { length text.now + 1 < 2 ^ 32 }
    ensures tree { IfOk result (λ tree. HasSyntax text.now (Good (module_in text.now tree))) }
    ensures fault { IfErr result (Tells (λ fault. HasSyntax text.now (Bad fault))) }
{
    let tokens = lex(alloc, text)?;
    let tree = parse(alloc, text, &tokens)?;
    match declared_twice(alloc, text, &tree)? {
        None => Ok(tree),
        Some(name) => Err(twice(alloc, text, name)?),
    }
}

// A name is declared twice.
fn twice(alloc: Global, text: &[u8], name: Token) -> Result<Refusal, NoMemory>
    ensures { IfOk result (Tells (λ fault. fault ≡ syntax.twice (token_in text.now name))) }
{
    let mut args = List::new(alloc);
    args.push(Bytes::from_slice(alloc, text_at(text, name.span))?)?;
    Ok(Refusal::Diag {
        at: name.place,
        code: code::DECLARED_TWICE,
        args,
    })
}
