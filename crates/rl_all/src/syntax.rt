//! The rule of the syntax of a module.

ghost use Rattle.std.specs.Prelude.{◌≡◌, ◌+◌, ◌<◌, ◌^◌, ℕ, List, IfOk, Ok, length};
ghost use Rattle.def_body.specs.Part.{answer_of};
ghost use Rattle.def_check.specs.Syntax.{syntax_of, told};
ghost use Rattle.def_built.specs.Told.{told_in, unbuilt};
ghost use Rattle.def_module.specs.Syntax.{Bad, Good as Read};
ghost use Rattle.sl_token.specs.View.{token_in};
ghost use Rattle.sl_tree.specs.DeclView.{module_in};
ghost use Rattle.sl_key.specs.declared.key.Kind.TheVariants.{Syntax};

use crate::diagnostics::{diagnostic, no_module};
use crate::rules::SlangRules;
use rl_built::not_built;
use sl_base::{Bytes, List, Name, NoMemory, Refusal, code};
use sl_key::{Answer, Declarations, Good, Shared};
use sl_syntax::syntax;
use sl_token::Token;
use sl_tree::ModuleTree;
use std::alloc::Global;

impl SlangRules {
    /// The syntax of a module. E201 stands at the request where the sources do not have the module; else what is told
    /// of its text stands in the module.
    pub fn syntax(&self, alloc: Global, name: &Name) -> Result<Answer, NoMemory>
        ensures { IfOk result (λ answer. answer ≡ syntax_of self.now name.now) }
    {
        match self.bytes_of(name) {
            Some(text) => told(alloc, name, text),
            None => Ok(Answer::Bad(no_module(alloc, name)?)),
        }
    }
}

// What is told of a module's text, and its declarations where nothing is.
fn told(alloc: Global, name: &Name, text: &[u8]) -> Result<Answer, NoMemory>
    requires { length text.now + 1 < 2 ^ 32 }
    ensures { IfOk result (λ answer. answer ≡ answer_of Syntax (told name.now text.now (told_in text.now))) }
{
    match syntax(alloc, text) {
        Ok(tree) => match not_built(text, &tree) {
            None => declared(alloc, text, tree),
            Some(token) => unbuilt(alloc, name, token),
        },
        Err(Refusal::Diag { at, code, args }) => {
            Ok(Answer::Bad(diagnostic(alloc, name, at, code, args)?))
        }
        Err(Refusal::NoMemory) => Err(NoMemory),
    }
}

// A form that begins with this token is not built yet.
fn unbuilt(alloc: Global, name: &Name, token: Token) -> Result<Answer, NoMemory>
    ensures { (source : List ℕ) → IfOk result (λ answer. answer
        ≡ answer_of Syntax (told name.now source (Bad (unbuilt (token_in source token))))) }
{
    let args = List::new(alloc);
    Ok(Answer::Bad(diagnostic(alloc, name, token.place, code::FORM_NOT_BUILT, args)?))
}

// The declarations of a module of whose text nothing is told.
fn declared(alloc: Global, text: &[u8], tree: ModuleTree) -> Result<Answer, NoMemory>
    requires { told_in text.now ≡ Read (module_in text.now tree) }
    ensures { IfOk result (λ answer. answer ≡ answer_of Syntax (Ok text.now)) }
{
    let source = Bytes::from_slice(alloc, text)?;
    let decls = Declarations::new(alloc, source, tree)?;
    Ok(Answer::Good(Good::Syntax(Shared::new(alloc, decls)?)))
}
