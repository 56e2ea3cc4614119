//! The unit that tokens are.
ghost use Rattle.std.specs.Prelude.{OnOk, IfErr};
ghost use Rattle.c_text.specs.Refusal.{Gives};
ghost use Rattle.c_tree.specs.UnitCut.{unit_of_tokens};
ghost use Rattle.c_depth.specs.Shallow.{IsShallow, IsNotTooDeep};

use crate::items::items;
use crate::matching::matched;
use c_text::{CFault, Token};
use c_tree::Unit;
use std::alloc::Global;

/// The unit that the tokens are, which preprocessing leaves (ISO/IEC 9899:1999, 6.7 to 6.9).
///
/// Tokens with a fault are no unit. The first fault is the answer: where brackets do not match,
/// Syntax at the first closing one that fits none, else at the first opening one that is never
/// closed; Syntax at the first token of the smallest part that no form fits, or at the token behind
/// an empty part; TooDeep at a bracket with which more than 64 are open. Memory is the answer where
/// it runs out.
#[tactic(auto, using(c_depth::proofs::Laws::gives_shallow, c_depth::proofs::Laws::gives_never_too_deep))]
pub fn unit(alloc: Global, tokens: &[Token]) -> Result<Unit, CFault>
    ensures exact { Gives (λ u. u) result (unit_of_tokens tokens.now) }

    // Tokens with which more than 64 brackets are open have no unit, and others are not too deep.
    ensures shallow { OnOk result (IsShallow tokens.now) }
    ensures never_too_deep { IsShallow tokens.now → IfErr result IsNotTooDeep }
{
    cut(alloc, tokens)
}

/// The unit that the tokens are, or their first fault.
fn cut(alloc: Global, tokens: &[Token]) -> Result<Unit, CFault>
    ensures { Gives (λ u. u) result (unit_of_tokens tokens.now) }
{
    matched(alloc, tokens)?;
    let items = items(alloc, tokens)?;
    Ok(Unit { items })
}
