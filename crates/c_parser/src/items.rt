//! Structs, prototypes and functions (ISO/IEC 9899:1999, 6.7 and 6.9).
ghost use Rattle.std.specs.Prelude.{◌≡◌, ◌+◌, ◌<◌, ◌≤◌, ◌∷◌, length, Bool, Err, IfOk, IfSome, IfNone};
ghost use Rattle.c_text.specs.Refusal.{Gives};
ghost use Rattle.c_tree.specs.Brackets as brackets;
ghost use Rattle.c_tree.specs.Sequence.{all_read};
ghost use Rattle.c_tree.specs.Symbol.{is_semicolon, keyword_of};
ghost use Rattle.c_tree.specs.UnitCut as spec;
ghost use Rattle.c_tree.specs.StructCut as struct_cut;
ghost use Rattle.c_tree.specs.FunctionCut as function_cut;
ghost use Rattle.c_tree.specs.declared.symbol.Bracket.TheVariants.{Brace};
ghost use Rattle.c_tree.specs.ExpressionCut.{closed, closed_in};
ghost use Rattle.c_parser.specs.Head.{head_of, tail_view, ReturnsItem};

use crate::declarations::{fields, parameters};
use crate::forms::is_void;
use crate::statements::statements;
use c_expression::{
    Stop, behind, closed, closes, closing, depth_after, first_outside, front_type, inside,
    is_round, keyword, mark, name, opens, syntax,
};
use c_text::{CFault, Place, Token, TokenKind};
use c_tree::{Bracket, CType, Field, Function, Item, Keyword, MOST_OPEN, Punctuator, Stmt, Struct};
use cg_out::{List, Text};
use std::alloc::Global;

/// All items that the tokens are.
pub fn items(alloc: Global, tokens: &[Token]) -> Result<List<Item>, CFault>
    ensures { Gives (λ is. is) result (all_read spec.each_item 0 tokens.now) }
{
    let mut list = List::new(alloc);
    let mut left = tokens;
    while let [first, rest @ ..] = left {
        let (item, more) = item(alloc, first, rest, left)?;
        list.push(item)?;
        left = behind(left, more + 1);
    }
    Ok(list)
}

/// The item that the tokens begin with, and how many of its tokens follow the first.
fn item(
    alloc: Global,
    first: &Token,
    rest: &[Token],
    tokens: &[Token],
) -> Result<(Item, usize), CFault>
    requires { tokens.now ≡ first.now ∷ rest.now }
    ensures value { Gives (λ i. i) result (spec.each_item first.now rest.now) }
    ensures within { IfOk result (λ i. i.1 < length tokens.now) }
{
    let place = first.place;
    if matches!(keyword(&first.kind), Some(Keyword::Struct)) {
        let Some(end) = first_outside(Stop::Semicolon, rest) else {
            return Err(syntax(place));
        };
        let item = struct_of(alloc, place, &rest[..end])?;
        return Ok((item, end + 1));
    }
    let Some(end) = item_end(tokens) else {
        return Err(syntax(place));
    };
    let item = function_item(alloc, place, &tokens[..end + 1])?;
    Ok((item, end))
}

/// A struct, from the tokens between `struct` and the semicolon.
fn struct_of(alloc: Global, first: Place, tokens: &[Token]) -> Result<Item, CFault>
    ensures { Gives (λ i. i) result (struct_cut.struct_of first tokens.now) }
{
    let [token, brace, rest @ ..] = tokens else {
        return Err(syntax(first));
    };
    let Some(tag) = name(&token.kind) else {
        return Err(syntax(first));
    };
    if !is_brace(&brace.kind) {
        return Err(syntax(first));
    }
    let Some((inner, close)) = closed(rest) else {
        return Err(syntax(first));
    };
    let fields = fields(alloc, inner, close)?;
    Ok(Item::Struct(Struct {
        tag: Text::copy_of(alloc, tag)?,
        fields,
        place: token.place,
    }))
}

fn is_brace(kind: &TokenKind) -> bool
    ensures { result ≡ brackets.is_bracket Brace (brackets.opens kind.now) }
{
    matches!(opens(kind), Some(Bracket::Brace))
}

fn is_semicolon(kind: &TokenKind) -> bool
    ensures { result ≡ is_semicolon kind.now }
{
    matches!(mark(kind), Some(Punctuator::Semicolon))
}

/// Whether a token, behind which so many brackets are open, ends an item.
fn ends_item(depth: usize, kind: &TokenKind) -> bool
    ensures { result ≡ spec.ends_item depth (brackets.closes kind.now) kind.now }
{
    depth == 0 && (matches!(closes(kind), Some(Bracket::Brace)) || is_semicolon(kind))
}

/// How many tokens stand before the last token of the first item.
fn item_end(tokens: &[Token]) -> Option<usize>
    ensures value { result ≡ spec.item_end 0 0 tokens.now }
    ensures within { IfSome result (λ i. i < length tokens.now) }
{
    let mut depth = 0;
    for (i, token) in tokens.iter().enumerate() {
        depth = depth_after(&token.kind, depth);
        if ends_item(depth, &token.kind) {
            return Some(i);
        }
    }
    None
}

/// A prototype or a function, from all its tokens.
fn function_item(alloc: Global, first: Place, tokens: &[Token]) -> Result<Item, CFault>
    ensures { Gives (λ i. i) result (function_cut.function_item first tokens.now) }
{
    let [token, rest @ ..] = tokens else {
        return Err(syntax(first));
    };
    if matches!(keyword(&token.kind), Some(Keyword::Static)) {
        function_of(alloc, token.place, true, rest)
    } else {
        function_of(alloc, token.place, false, tokens)
    }
}

/// From the tokens behind an optional `static`.
fn function_of(alloc: Global, first: Place, fixed: bool, tokens: &[Token]) -> Result<Item, CFault>
    ensures { Gives (λ i. i) result (function_cut.function_of first fixed tokens.now) }
{
    match returns_of(tokens) {
        Some((returns, rest)) => with_returns(alloc, first, fixed, returns, rest),
        None => Err(syntax(first)),
    }
}

/// `void` or a type of integers, and the tokens behind it.
fn returns_of(tokens: &[Token]) -> Option<(CType, &[Token])>
    ensures some { IfSome result (λ r. ReturnsItem tokens.now (λ first fixed. function_cut.with_returns first fixed r.0 r.1.now)) }
    ensures none { IfNone result (ReturnsItem tokens.now (λ first fixed. Err (brackets.syntax first))) }
{
    match tokens {
        [] => None,
        [first, rest @ ..] if is_void(&first.kind) => Some((CType::Void, rest)),
        _ => {
            let (kind, count) = front_type(tokens)?;
            Some((CType::Integer(kind), behind(tokens, count)))
        }
    }
}

/// A function but for its parameters and its body.
#[derive(Drop)]
struct Head {
    fixed: bool,
    returns: CType,
    name: Text,
    place: Place,
}

/// From the tokens behind the type that it returns.
fn with_returns(
    alloc: Global,
    first: Place,
    fixed: bool,
    returns: CType,
    tokens: &[Token],
) -> Result<Item, CFault>
    ensures { Gives (λ i. i) result (function_cut.with_returns first fixed returns tokens.now) }
{
    let [token, open, rest @ ..] = tokens else {
        return Err(syntax(first));
    };
    let Some(name) = name(&token.kind) else {
        return Err(syntax(first));
    };
    if !is_round(&open.kind) {
        return Err(syntax(first));
    }
    let Some(end) = closing(rest) else {
        return Err(syntax(first));
    };
    let head = Head {
        fixed,
        returns,
        name: Text::copy_of(alloc, name)?,
        place: token.place,
    };
    let tail = behind(rest, end + 1);
    with_tail(alloc, first, head, &rest[..end], rest[end].place, tail)
}

/// With its parameters between brackets of which the last has this place, and what follows them.
fn with_tail(
    alloc: Global,
    first: Place,
    head: Head,
    inner: &[Token],
    close: Place,
    tail: &[Token],
) -> Result<Item, CFault>
    ensures { Gives (λ i. i) result (function_cut.with_tail first (head_of head) (closed_in inner.now close) (function_cut.tail_of tail.now)) }
{
    match tail_of(tail) {
        Tail::Prototype(end) => {
            let params = parameters(alloc, inner, close)?;
            Ok(function(head, params, None, end))
        }
        Tail::Definition { brace, body, end } => {
            let params = parameters(alloc, inner, close)?;
            let body = statements(alloc, body, false, inside(MOST_OPEN, brace)?, end)?;
            Ok(function(head, params, Some(body), end))
        }
        Tail::Unfinished => Err(syntax(first)),
    }
}

/// What stands behind the parameters of a function.
#[derive(Drop)]
enum Tail<'a> {
    /// A semicolon with this place.
    Prototype(Place),
    /// The statements between two braces, with the places of these.
    Definition {
        brace: Place,
        body: &'a [Token],
        end: Place,
    },
    /// Neither.
    Unfinished,
}

fn tail_of(tokens: &[Token]) -> Tail<'_>
    ensures { tail_view result ≡ function_cut.tail_of tokens.now }
{
    match tokens {
        [] => Tail::Unfinished,
        [token] => {
            if is_semicolon(&token.kind) {
                Tail::Prototype(token.place)
            } else {
                Tail::Unfinished
            }
        }
        [first, rest @ ..] => body_of(first, rest),
    }
}

fn body_of<'a>(first: &Token, rest: &'a [Token]) -> Tail<'a>
    ensures { tail_view result ≡ function_cut.body_tail (brackets.opens first.now.kind) first.now.place (closed rest.now) }
{
    if !is_brace(&first.kind) {
        return Tail::Unfinished;
    }
    match closed(rest) {
        Some((body, end)) => Tail::Definition {
            brace: first.place,
            body,
            end,
        },
        None => Tail::Unfinished,
    }
}

fn function(head: Head, params: List<Field>, body: Option<List<Stmt>>, close: Place) -> Item
    ensures { result ≡ function_cut.function (head_of head) params body close }
{
    Item::Function(Function {
        fixed: head.fixed,
        returns: head.returns,
        name: head.name,
        params,
        body,
        place: head.place,
        close,
    })
}
