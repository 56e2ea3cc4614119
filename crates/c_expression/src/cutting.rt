//! Expressions, read one operand after the other up to the first fault.
//!
//! Each token is looked at a fixed number of times for each bracket that is open round it.
ghost use Rattle.std.specs.Prelude.{◌≡◌, ◌+◌, ◌-◌, ◌<◌, ◌==◌, ◌≤◌, [], ◌∷◌, Some, None, true, false, length, IfOk, IfErr, IfSome, IfNone};
ghost use Rattle.c_text.specs.declared.refusal.CKind.TheVariants.{Syntax, TooDeep};
ghost use Rattle.c_text.specs.declared.refusal.CFault.TheVariants.{Fault};
ghost use Rattle.c_text.specs.Refusal.{Gives};
ghost use Rattle.c_tree.specs.declared.symbol.Bracket.TheVariants.{Round};
ghost use Rattle.c_tree.specs.declared.expression.ExprKind.TheVariants as kind;
ghost use Rattle.c_tree.specs.Brackets as brackets;
ghost use Rattle.c_tree.specs.Operators as ops;
ghost use Rattle.c_tree.specs.Symbol as symbols;
ghost use Rattle.c_tree.specs.ExpressionCut as spec;
ghost use Rattle.c_expression.specs.Joint.{IsJointless, Grown, GrownAll, Faults};
ghost use Rattle.c_expression.specs.Operand.{IsFrontOf};

use crate::brackets::{closing, opens};
use crate::joints::{Infix, first_joint, infix_at};
use crate::operators::prefix;
use crate::parts::{behind, first_part};
use crate::prefixes::{PrefixKind, PrefixOp, with_prefixes};
use crate::symbols::{callee, mark, name};
use crate::type_names::spelled;
use c_text::{CFault, CKind, Place, Token, TokenKind};
use c_tree::{Bracket, Expr, ExprKind, Punctuator};
use cg_out::{Boxed, List, Memory, Text};
use std::alloc::Global;

/// A part that no form of the grammar fits begins here.
pub fn syntax(place: Place) -> CFault
    ensures { result ≡ Fault Syntax place }
{
    CFault::Fault {
        kind: CKind::Syntax,
        place,
    }
}

/// How many brackets may be open inside one that opens here, where so many may be open with it.
pub fn inside(room: u32, place: Place) -> Result<u32, CFault>
    ensures ok { IfOk result (λ r. ((room == 0) ≡ false) × (r ≡ room - 1)) }
    ensures err { IfErr result (λ e. ((room == 0) ≡ true) × (e ≡ Fault TooDeep place)) }
{
    if room == 0 {
        Err(CFault::Fault {
            kind: CKind::TooDeep,
            place,
        })
    } else {
        Ok(room - 1)
    }
}

/// The tokens before the last one, where that closes the bracket that is open before them, and
/// its place.
pub fn closed(tokens: &[Token]) -> Option<(&[Token], Place)>
    ensures some { IfSome result (λ c. spec.closed tokens.now ≡ Some (spec.closed_in c.0.now c.1)) }
    ensures none { IfNone result (spec.closed tokens.now ≡ None) }
    ensures within { IfSome result (λ c. length c.0.now < length tokens.now) }
{
    let at = closing(tokens)?;
    closed_at(&tokens[..at], &tokens[at..])
}

fn closed_at<'a>(inner: &'a [Token], rest: &[Token]) -> Option<(&'a [Token], Place)>
    ensures some { IfSome result (λ c. spec.closed_at inner.now rest.now ≡ Some (spec.closed_in c.0.now c.1)) }
    ensures none { IfNone result (spec.closed_at inner.now rest.now ≡ None) }
    ensures same { IfSome result (λ c. c.0.now ≡ inner.now) }
{
    match rest {
        [close] => Some((inner, close.place)),
        _ => None,
    }
}

/// The expression that the tokens are, or the first fault in it. So many brackets may be open in it,
/// and `after` is the place of the token behind it.
#[cycle(cutting)]
pub fn cut(alloc: Global, tokens: &[Token], room: u32, after: Place) -> Result<Expr, CFault>
    ensures { Gives (λ e. e) result (spec.expression_of room tokens.now after) }
{
    let (tree, _) = climb(alloc, tokens, 0, room, after)?;
    Ok(tree)
}

/// An expression up to the first operator that is looser than the level, and how many tokens it
/// takes.
#[cycle(cutting)]
fn climb(
    alloc: Global,
    tokens: &[Token],
    least: u32,
    room: u32,
    after: Place,
) -> Result<(Expr, usize), CFault>
    requires { least ≤ 9 }
    ensures ok { IfOk result (λ r. GrownAll room least after tokens.now r.1 r.0) }
    ensures err { Faults result (spec.expression_of room tokens.now after) }
{
    let (mut left, mut count) = operand(alloc, tokens, room, after)?;
    while let Some(infix) = infix_at(tokens, count, least) {
        let rest = behind(tokens, count + 1);
        let (right, more) = climb(alloc, rest, infix.level + 1, room, after)?;
        left = binary(alloc, infix, left, right)?;
        count = count + 1 + more;
    }
    Ok((left, count))
}

/// Two operands and the operator between them.
fn binary(alloc: Global, at: Infix, left: Expr, right: Expr) -> Result<Expr, Memory>
    ensures { IfOk result (λ e. e ≡ spec.node at.place (kind.Binary at.op left right)) }
{
    let Infix { op, place, .. } = at;
    let left = Boxed::new(alloc, left)?;
    let right = Boxed::new(alloc, right)?;
    Ok(Expr {
        place,
        kind: ExprKind::Binary { op, left, right },
    })
}

/// The first operand, and how many tokens it takes.
#[cycle(cutting)]
fn operand(
    alloc: Global,
    tokens: &[Token],
    room: u32,
    after: Place,
) -> Result<(Expr, usize), CFault>
    ensures ok { IfOk result (λ r. Grown room 9 after tokens.now r.1 r.0) }
    ensures err { Faults result (spec.expression_of room tokens.now after) }
{
    match first_joint(tokens) {
        Some(end) => {
            let tree = alone(alloc, &tokens[..end], room, tokens[end].place)?;
            Ok((tree, end))
        }
        None => {
            let tree = alone(alloc, tokens, room, after)?;
            Ok((tree, tokens.len()))
        }
    }
}

/// An operand that is all of the tokens.
#[cycle(cutting)]
fn alone(alloc: Global, tokens: &[Token], room: u32, after: Place) -> Result<Expr, CFault>
    requires { IsJointless tokens.now }
    ensures { Gives (λ e. e) result (spec.expression_of room tokens.now after) }
{
    let mut ops = Vec::new(alloc);
    let mut left = tokens;
    loop {
        match front_of(alloc, left, room, after)? {
            OperandFront::Prefix(op, more) => {
                ops.push(op)?;
                left = behind(left, more + 1);
            }
            OperandFront::Whole(tree) => return Ok(with_prefixes(alloc, ops, tree)?),
        }
    }
}

/// What stands at the front of an operand.
#[derive(Drop)]
pub enum OperandFront {
    /// A prefix operator or a cast, and how many of its tokens follow the first.
    Prefix(PrefixOp, usize),
    /// All of it.
    Whole(Expr),
}

#[cycle(cutting)]
fn front_of(
    alloc: Global,
    tokens: &[Token],
    room: u32,
    after: Place,
) -> Result<OperandFront, CFault>
    ensures ok { IfOk result (λ f. IsFrontOf f room tokens.now after) }
    ensures err { Faults result (spec.operand_of spec.expression_of room tokens.now after) }
{
    let [token, rest @ ..] = tokens else {
        return Err(syntax(after));
    };
    let place = token.place;
    if let Some(op) = prefix(&token.kind) {
        let kind = PrefixKind::Sign(op);
        return Ok(OperandFront::Prefix(PrefixOp { place, kind }, 0));
    }
    if is_round(&token.kind) {
        return round(alloc, token, rest, room, after);
    }
    Ok(OperandFront::Whole(primary(alloc, token, rest, room, after)?))
}

/// What stands without a prefix operator, and not in brackets.
#[cycle(cutting)]
fn primary(
    alloc: Global,
    token: &Token,
    rest: &[Token],
    room: u32,
    after: Place,
) -> Result<Expr, CFault>
    requires { brackets.is_bracket Round (brackets.opens token.now.kind) ≡ false }
    ensures { Gives (λ e. e) result (spec.primary spec.expression_of room token.now.kind token.now rest.now after) }
{
    let place = token.place;
    match &token.kind {
        TokenKind::Word(_) | TokenKind::Memset => named(alloc, token, rest, room),
        TokenKind::Constant(constant) if rest.is_empty() => Ok(Expr {
            place,
            kind: ExprKind::Constant(*constant),
        }),
        TokenKind::Null if rest.is_empty() => Ok(Expr {
            place,
            kind: ExprKind::Null,
        }),
        _ => Err(syntax(place)),
    }
}

/// Whether a token is `(`.
pub fn is_round(kind: &TokenKind) -> bool
    ensures { result ≡ brackets.is_bracket Round (brackets.opens kind.now) }
{
    matches!(opens(kind), Some(Bracket::Round))
}

/// What begins with a name.
#[cycle(cutting)]
fn named(alloc: Global, token: &Token, rest: &[Token], room: u32) -> Result<Expr, CFault>
    ensures { Gives (λ e. e) result (spec.operand_named spec.expression_of room token.now rest.now) }
{
    let place = token.place;
    let [second, behind @ ..] = rest else {
        return name_alone(alloc, token);
    };
    match opens(&second.kind) {
        Some(Bracket::Round) => {
            let Some(function) = callee(&token.kind) else {
                return Err(syntax(place));
            };
            let Some((inner, close)) = closed(behind) else {
                return Err(syntax(place));
            };
            let args = arguments(alloc, inner, inside(room, second.place)?, close)?;
            let function = function.copied(alloc)?;
            Ok(Expr {
                place,
                kind: ExprKind::Call { function, args },
            })
        }
        Some(Bracket::Square) => {
            let Some(base) = name(&token.kind) else {
                return Err(syntax(place));
            };
            let Some((inner, close)) = closed(behind) else {
                return Err(syntax(place));
            };
            let index = cut(alloc, inner, inside(room, second.place)?, close)?;
            let index = Boxed::new(alloc, index)?;
            let base = Text::copy_of(alloc, base)?;
            Ok(Expr {
                place,
                kind: ExprKind::Element { base, index },
            })
        }
        _ => member(alloc, token, second, behind),
    }
}

fn name_alone(alloc: Global, token: &Token) -> Result<Expr, CFault>
    ensures { Gives (λ e. e) result (spec.name_alone token.now.place (symbols.name_of token.now.kind)) }
{
    let place = token.place;
    match name(&token.kind) {
        Some(name) => Ok(Expr {
            place,
            kind: ExprKind::Name(Text::copy_of(alloc, name)?),
        }),
        None => Err(syntax(place)),
    }
}

/// `base->field`, by its first token, its second and those behind.
fn member(alloc: Global, token: &Token, second: &Token, behind: &[Token]) -> Result<Expr, CFault>
    ensures { Gives (λ e. e) result (spec.member_by (symbols.is_arrow second.now.kind) token.now.place (symbols.name_of token.now.kind) behind.now) }
{
    let place = token.place;
    let [last] = behind else {
        return Err(syntax(place));
    };
    if !matches!(mark(&second.kind), Some(Punctuator::Arrow)) {
        return Err(syntax(place));
    }
    let Some(base) = name(&token.kind) else {
        return Err(syntax(place));
    };
    let Some(field) = name(&last.kind) else {
        return Err(syntax(place));
    };
    let base = Text::copy_of(alloc, base)?;
    let field = Text::copy_of(alloc, field)?;
    Ok(Expr {
        place,
        kind: ExprKind::Member { base, field },
    })
}

/// A cast, or an expression in brackets, from the tokens behind its opening bracket.
#[cycle(cutting)]
fn round(
    alloc: Global,
    token: &Token,
    rest: &[Token],
    room: u32,
    after: Place,
) -> Result<OperandFront, CFault>
    requires opens { brackets.is_bracket Round (brackets.opens token.now.kind) ≡ true }
    requires bare { ops.prefix token.now.kind ≡ None }
    ensures ok { IfOk result (λ f. IsFrontOf f room (token.now ∷ rest.now) after) }
    ensures err { Faults result (spec.operand_of spec.expression_of room (token.now ∷ rest.now) after) }
{
    let place = token.place;
    let Some(at) = closing(rest) else {
        return Err(syntax(place));
    };
    if let Some(to) = spelled(&rest[..at]) {
        inside(room, place)?;
        let kind = PrefixKind::Cast(to);
        return Ok(OperandFront::Prefix(PrefixOp { place, kind }, at + 1));
    }
    let Some((inner, close)) = closed_at(&rest[..at], &rest[at..]) else {
        return Err(syntax(place));
    };
    let inner = cut(alloc, inner, inside(room, place)?, close)?;
    Ok(OperandFront::Whole(Expr {
        place,
        kind: ExprKind::Bracket(Boxed::new(alloc, inner)?),
    }))
}

/// The arguments between the brackets of a call, or the first fault in them.
#[cycle(cutting)]
pub fn arguments(
    alloc: Global,
    tokens: &[Token],
    room: u32,
    after: Place,
) -> Result<List<Expr>, CFault>
    ensures { Gives (λ es. es) result (spec.arguments spec.expression_of room tokens.now after) }
{
    let mut args = List::new(alloc);
    let mut left = some_unless_empty(tokens);
    while let Some(tokens) = left {
        let part = first_part(tokens, after);
        args.push(cut(alloc, part.tokens, room, part.after)?)?;
        left = part.rest;
    }
    Ok(args)
}

fn some_unless_empty(tokens: &[Token]) -> Option<&[Token]>
    ensures none { IfNone result (tokens.now ≡ []) }
    ensures some { IfSome result (λ ts. (ts.now ≡ tokens.now) × (0 < length tokens.now)) }
{
    if tokens.is_empty() {
        None
    } else {
        Some(tokens)
    }
}
