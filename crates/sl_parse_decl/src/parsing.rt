//! Whole modules.

ghost use Rattle.std.specs.Prelude.{IfErr, IfOk, []};
ghost use Rattle.def_module.specs.Entries.{module_entries};
ghost use Rattle.def_module.specs.Module.{IsModule};
ghost use Rattle.def_token.specs.Lexical.{HasTokens};
ghost use Rattle.def_tree.specs.Fault.{IsRead};
ghost use Rattle.sl_token.specs.View.{Tells, tokens_in};
ghost use Rattle.sl_tree.specs.DeclView.{module_in};
ghost use Rattle.sl_cursor.specs.Parts.{HasFaultFrom};

use sl_base::Refusal;
use sl_cursor::refusal::{refusal, refusal_of};
use sl_cursor::source::{Here, Source};
use sl_decl::parser::Parser;
use sl_look::ahead::ahead_of;
use sl_token::Tokens;
use sl_tree::ModuleTree;
use std::alloc::Global;

/// The module that the tokens of a source are, as `lex` gives them.
///
/// They are refused with E110 at the first token that no module goes on with, with E111 at a token that opens the 65th
/// form of a kind, with E112 at the 1,025th token of an expression; the one that stands first is told.
///
/// The tokens are read in time that grows linearly with their number.
pub fn parse(alloc: Global, bytes: &[u8], tokens: &Tokens) -> Result<ModuleTree, Refusal>
    requires tokens { HasTokens bytes.now (tokens_in bytes.now tokens.now) }
    ensures tree { IfOk result (λ tree. IsRead IsModule module_entries (tokens_in bytes.now tokens.now)
        (module_in bytes.now tree) []) }
    ensures fault { IfErr result (Tells (HasFaultFrom IsModule module_entries (tokens_in bytes.now tokens.now) 0)) }
{
    let all = tokens.as_slice();
    let ahead = ahead_of(alloc, bytes, all)?;
    let source = Source {
        alloc,
        bytes,
        tokens: all,
        ahead: ahead.as_slice(),
    };
    let parser = Parser { source };
    let (tree, here) = match parser.module(&Here::start(all)) {
        Ok(found) => found,
        Err(unread) => return Err(refusal_of(alloc, bytes, unread)),
    };
    match here.place.limit {
        None => Ok(tree),
        Some(told) => Err(refusal(alloc, bytes, told.code, told.token)),
    }
}
