//! What single tokens are.
ghost use Rattle.std.specs.Prelude.{◌≡◌, Some, None, IfSome, IfNone, IfOk};
ghost use Rattle.c_tree.specs.Symbol.{keyword_of, name_of, callee_of, mark_of};
ghost use Rattle.c_expression.specs.Callee.{callee_lent};

use c_text::TokenKind;
use c_tree::{Callee, Keyword, Punctuator};
use cg_out::{Memory, Text};
use std::alloc::Global;

/// The keyword that a token is, if it is one.
pub fn keyword(kind: &TokenKind) -> Option<Keyword>
    ensures { result ≡ keyword_of kind.now }
{
    match kind {
        TokenKind::Word(word) => Keyword::of(word.bytes()),
        _ => None,
    }
}

/// The name that a token is: a word that is no keyword.
pub fn name(kind: &TokenKind) -> Option<&[u8]>
    ensures some { IfSome result (λ n. name_of kind.now ≡ Some n.now) }
    ensures none { IfNone result (name_of kind.now ≡ None) }
{
    match kind {
        TokenKind::Word(word) => match Keyword::of(word.bytes()) {
            Some(_) => None,
            None => Some(word.bytes()),
        },
        _ => None,
    }
}

/// What a token may call, with its name still in the token.
#[derive(Clone, Copy, Debug)]
pub enum LentCallee<'a> {
    /// The function of this name.
    Name(&'a [u8]),
    /// The standard `memset`.
    Memset,
}

impl LentCallee<'_> {
    /// The callee with a name of its own.
    pub fn copied(self, alloc: Global) -> Result<Callee, Memory>
        ensures { IfOk result (λ c. c ≡ callee_lent self.entry) }
    {
        match self {
            LentCallee::Name(name) => Ok(Callee::Name(Text::copy_of(alloc, name)?)),
            LentCallee::Memset => Ok(Callee::Memset),
        }
    }
}

/// What a token may call: the function of its name, or `memset` behind its header.
pub fn callee(kind: &TokenKind) -> Option<LentCallee<'_>>
    ensures some { IfSome result (λ c. callee_of kind.now ≡ Some (callee_lent c)) }
    ensures none { IfNone result (callee_of kind.now ≡ None) }
{
    match kind {
        TokenKind::Memset => Some(LentCallee::Memset),
        _ => match name(kind) {
            Some(name) => Some(LentCallee::Name(name)),
            None => None,
        },
    }
}

/// The punctuator that a token is, if the subset has a meaning for it.
pub fn mark(kind: &TokenKind) -> Option<Punctuator>
    ensures { result ≡ mark_of kind.now }
{
    match kind {
        TokenKind::Mark(spelling) => Punctuator::of(spelling.bytes()),
        _ => None,
    }
}
