//! Names, and what they name.

ghost use Rattle.std.specs.Prelude.{◌≡◌, IfOk};
ghost use Rattle.def_body.specs.Part.{run};
ghost use Rattle.def_check.specs.Evaluate.{type_named, type_written, unbuilt, unknown, value_named};
ghost use Rattle.sl_key.specs.Fault.{site_of, told_at};
ghost use Rattle.sl_key.specs.Flow.{Tells};
ghost use Rattle.sl_key.specs.Names.{key_named};
ghost use Rattle.sl_key.specs.declared.answer.Answer.TheVariants.{Bad};
ghost use Rattle.sl_key.specs.declared.flow.Early.TheVariants.{Stop};
ghost use Rattle.def_tree.specs.TypeTree as trees;
ghost use Rattle.sl_token.specs.View.{slice_of, token_in, tokens_in};
ghost use Rattle.sl_tree.specs.View.{type_in, word_of};

use sl_base::{Bytes, List, Name, NoMemory, Site};
use sl_key::{
    Answer, Declarations, Early, Facts, Fault, Flow, Key, Kind, Ty, Value, alias_type, const_value,
    modules_of,
};
use sl_token::Token;
use sl_tree::{TypeTree, TypeWord};
use std::alloc::Global;

/// Reads what is written in a module.
#[derive(Clone, Copy)]
pub struct Reader<'a> {
    pub alloc: Global,
    /// The answers that may be used.
    pub facts: &'a Facts,
    /// The module.
    pub module: &'a Name,
    /// Its declarations.
    pub decls: &'a Declarations,
}

impl Reader<'_> {
    ghost use Rattle.rl_sig.specs.Reading.{facts_of, scope_of, text_of};

    /// A rule is broken at a token of the module.
    pub fn broken(&self, token: Token, fault: Fault) -> Result<Early, NoMemory>
        ensures { IfOk result (λ early. early
            ≡ Stop (Bad (told_at (site_of self.now.module.now (token_in (text_of self.now) token)) fault))) }
    {
        let site = Site::Source {
            module: self.module.copy(self.alloc)?,
            place: token.place,
        };
        Ok(Early::Stop(Answer::Bad(fault.told(self.alloc, site)?)))
    }

    /// A form that begins with this token is not built yet.
    pub fn unbuilt<T: Drop>(&self, token: Token) -> Flow<T>
        ensures { Tells result (run (facts_of self.now) (unbuilt (scope_of self.now) (token_in (text_of self.now) token))) }
    {
        Err(self.broken(token, Fault::NotBuilt)?)
    }

    /// The type that is written.
    #[tactic(auto, using(sl_tree::proofs::Forms::type_forms))]
    pub fn type_written(&self, written: &TypeTree) -> Flow<Ty>
        ensures { Tells result
            (run (facts_of self.now) (type_written (scope_of self.now) (type_in (text_of self.now) written.now))) }
    {
        match written {
            TypeTree::Word { word, first, path } => self.word(*word, *first, path),
            TypeTree::Named { first, args, path } if args.is_empty() && path.is_empty() => {
                self.type_named(*first)
            }
            TypeTree::Named { first, .. } => self.unbuilt(*first),
        }
    }

    /// The value that a name stands for.
    pub fn value_named(&self, name: Token) -> Flow<Value>
        ensures { let scope = scope_of self.now in let name = token_in (text_of self.now) name in
            Tells result (run (facts_of self.now) (value_named scope name (key_named scope.module scope.decls name.text))) }
    {
        let Some(key) = self.key_named(name)? else {
            return self.unknown(name);
        };
        match key.kind {
            Kind::Const => const_value(self.alloc, self.facts, key.path),
            Kind::Alias => {
                let _ty = alias_type(self.alloc, self.facts, key.path)?;
                Err(self.broken(name, Fault::NotAValue(self.bytes(name)?))?)
            }
            Kind::Syntax | Kind::Imports => self.unknown(name),
        }
    }

    // The type that a word is, with the names behind its dots.
    fn word(&self, word: TypeWord, first: Token, path: &List<Token>) -> Flow<Ty>
        ensures { let text = text_of self.now in Tells result
            (run (facts_of self.now) (type_written (scope_of self.now)
            (trees.Word (word_of word) (token_in text first) (tokens_in text path.now)))) }
    {
        if !path.is_empty() {
            return self.unbuilt(first);
        }
        match word {
            TypeWord::Bool => Ok(Ty::Bool),
            TypeWord::Int => Ok(Ty::Int),
            TypeWord::Uint => Ok(Ty::Uint),
            TypeWord::Int64
            | TypeWord::Uint64
            | TypeWord::Void
            | TypeWord::Uint3
            | TypeWord::This => self.unbuilt(first),
        }
    }

    // The type that a name stands for.
    fn type_named(&self, name: Token) -> Flow<Ty>
        ensures { let scope = scope_of self.now in let name = token_in (text_of self.now) name in
            Tells result (run (facts_of self.now) (type_named scope name (key_named scope.module scope.decls name.text))) }
    {
        let Some(key) = self.key_named(name)? else {
            return self.unknown(name);
        };
        match key.kind {
            Kind::Alias => alias_type(self.alloc, self.facts, key.path),
            Kind::Const => Err(self.broken(name, Fault::NotAType(self.bytes(name)?))?),
            Kind::Syntax | Kind::Imports => self.unknown(name),
        }
    }

    // The key for which a name stands in the module.
    fn key_named(&self, name: Token) -> Result<Option<Key>, NoMemory>
        ensures { IfOk result (λ key. key
            ≡ key_named self.now.module.now (scope_of self.now).decls (slice_of (text_of self.now) name.span)) }
    {
        self.decls
            .key_named(self.alloc, self.module, self.decls.text(name))
    }

    // The module does not declare the name.
    fn unknown<T: Drop>(&self, name: Token) -> Flow<T>
        ensures { Tells result (run (facts_of self.now) (unknown (scope_of self.now) (token_in (text_of self.now) name))) }
    {
        let _modules = modules_of(self.alloc, self.facts, self.module)?;
        Err(self.broken(name, Fault::UnknownName(self.bytes(name)?))?)
    }

    // The bytes of a name, on their own.
    fn bytes(&self, name: Token) -> Result<Bytes, NoMemory>
        ensures { IfOk result (λ bytes. bytes ≡ slice_of (text_of self.now) name.span) }
    {
        Ok(Bytes::from_slice(self.alloc, self.decls.text(name))?)
    }
}
