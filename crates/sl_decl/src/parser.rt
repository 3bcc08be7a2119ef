//! A source whose declarations are read, and the words and brackets that more than one form has.

ghost use Rattle.std.specs.Prelude.{◌≡◌, ◌<◌, ◌^◌, length, Some};
ghost use Rattle.std.specs.Option.{option_map};
ghost use Rattle.def_decl_reading.specs.MemberReading as forms;
ghost use Rattle.def_tree.specs.Limits.{in_bracket, opens};
ghost use Rattle.def_tree.specs.Symbol.{is_sign};
ghost use Rattle.sl_token.specs.View.{token_in};
ghost use Rattle.sl_tree.specs.DeclView.{access_in};
ghost use Rattle.def_decl_reading.specs.Form.{reads};
ghost use Rattle.sl_cursor.specs.Nestings.{nesting_in};

use sl_cursor::nesting::Nesting;
use sl_cursor::source::{Here, Source};
use sl_token::Token;
use sl_tree::{AccessTree, AccessWord};

/// Reads the declarations of a source.
#[derive(Clone, Copy)]
pub struct Parser<'a> {
    pub source: Source<'a>,
    ghost short: { length source.tokens.now < 2 ^ 63 },
}

impl Parser<'_> {
    ghost use Rattle.sl_decl.specs.Forms.{IsTaken, maybe_text};
    ghost use Rattle.sl_cursor.specs.Following.{IsAt, MayOpen};

    /// A mark or a keyword, if it is written.
    pub fn maybe<'a>(&self, sign: &str, here: &Here<'a>) -> (Option<Token>, Here<'a>)
        requires { IsAt self.now.source here.now.place }
        ensures { IsTaken self.now.source (option_map (token_in self.now.source.bytes.now)) (maybe_text sign.now)
            here.now result.0 result.1 }
    {
        match self.source.sign(sign, here) {
            Some((token, behind)) => (Some(token), behind),
            None => (None, *here),
        }
    }

    /// An opening square bracket, if it is written.
    pub fn square<'a>(&self, around: &Nesting, here: &Here<'a>) -> Option<(Token, Here<'a>)>
        requires { IsAt self.now.source here.now.place }
        ensures { MayOpen self.now.source (is_sign "[") (opens (in_bracket (nesting_in around.now)).brackets)
            here.now result }
    {
        self.source.opening_if("[", around.brackets, here)
    }

    /// A word of access, if there is one.
    pub fn access<'a>(&self, here: &Here<'a>) -> (Option<AccessTree>, Here<'a>)
        requires { IsAt self.now.source here.now.place }
        ensures { IsTaken self.now.source (option_map (access_in self.now.source.bytes.now)) (reads forms.access_form)
            here.now result.0 result.1 }
    {
        if let Some((token, behind)) = self.source.sign("public", here) {
            return (access_by(AccessWord::Public, token), behind);
        }
        if let Some((token, behind)) = self.source.sign("internal", here) {
            return (access_by(AccessWord::Internal, token), behind);
        }
        match self.source.sign("private", here) {
            Some((token, behind)) => (access_by(AccessWord::Private, token), behind),
            None => (None, *here),
        }
    }
}

// A word of access with its token.
fn access_by(word: AccessWord, token: Token) -> Option<AccessTree>
    ensures { result ≡ Some (record { word = word; token = token }) }
{
    Some(AccessTree { word, token })
}
