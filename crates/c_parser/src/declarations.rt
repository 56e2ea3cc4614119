//! Fields of structs and parameters of functions.
ghost use Rattle.std.specs.Prelude.{◌≡◌, ◌+◌, ◌<◌, ◌≤◌, ◌∷◌, length, drop, IfOk};
ghost use Rattle.c_text.specs.Refusal.{Gives};
ghost use Rattle.c_tree.specs.StructCut as struct_cut;
ghost use Rattle.c_tree.specs.ParameterCut as parameter_cut;
ghost use Rattle.c_tree.specs.DeclarationCut as declaration_cut;
ghost use Rattle.c_tree.specs.ExpressionCut.{closed_in, parts};
ghost use Rattle.c_tree.specs.Sequence.{all_read};
ghost use Rattle.c_tree.specs.Symbol as symbols;

use crate::forms::is_void;
use c_expression::{
    Stop, behind, first_outside, first_part, front_type, keyword, mark, name, syntax,
};
use c_text::{CFault, Place, Spelled, Token, TokenKind};
use c_tree::{CType, Field, Keyword, Punctuator, Target};
use cg_out::{List, Text};
use std::alloc::Global;

/// A name alone, with the type before it, in tokens that begin at a place.
fn named(alloc: Global, first: Place, kind: CType, tokens: &[Token]) -> Result<Field, CFault>
    ensures { Gives (λ f. f) result (declaration_cut.declared_as first kind tokens.now) }
{
    let [token] = tokens else {
        return Err(syntax(first));
    };
    let Some(name) = name(&token.kind) else {
        return Err(syntax(first));
    };
    Ok(Field {
        kind,
        name: Text::copy_of(alloc, name)?,
        place: token.place,
    })
}

/// A type of integers and a name.
fn integer(alloc: Global, first: Place, tokens: &[Token]) -> Result<Field, CFault>
    ensures { Gives (λ f. f) result (declaration_cut.integer first tokens.now) }
{
    let Some((kind, count)) = front_type(tokens) else {
        return Err(syntax(first));
    };
    named(alloc, first, CType::Integer(kind), &tokens[count..])
}

/// A field of a struct, from the tokens before its semicolon, which has this place.
fn field(alloc: Global, tokens: &[Token], after: Place) -> Result<Field, CFault>
    ensures { Gives (λ f. f) result (struct_cut.struct_field (tokens.now, after)) }
{
    match tokens {
        [] => Err(syntax(after)),
        [first, ..] => integer(alloc, first.place, tokens),
    }
}

/// The field that the tokens begin with, and how many tokens follow its first.
fn field_at(
    alloc: Global,
    first: &Token,
    rest: &[Token],
    tokens: &[Token],
) -> Result<(Field, usize), CFault>
    requires { tokens.now ≡ first.now ∷ rest.now }
    ensures value { Gives (λ f. f) result (struct_cut.each_field first.now rest.now) }
    ensures within { IfOk result (λ f. f.1 < length tokens.now) }
{
    let Some(end) = first_outside(Stop::Semicolon, tokens) else {
        return Err(syntax(first.place));
    };
    let made = field(alloc, &tokens[..end], tokens[end].place)?;
    Ok((made, end))
}

/// The fields of a struct, one or more, from the tokens between its braces.
pub fn fields(alloc: Global, tokens: &[Token], close: Place) -> Result<List<Field>, CFault>
    ensures { Gives (λ fs. fs) result (struct_cut.fields (closed_in tokens.now close)) }
{
    if tokens.is_empty() {
        return Err(syntax(close));
    }
    all_fields(alloc, tokens)
}

fn all_fields(alloc: Global, tokens: &[Token]) -> Result<List<Field>, CFault>
    ensures { Gives (λ fs. fs) result (all_read struct_cut.each_field 0 tokens.now) }
{
    let mut list = List::new(alloc);
    let mut left = tokens;
    while let [first, rest @ ..] = left {
        let (made, more) = field_at(alloc, first, rest, left)?;
        list.push(made)?;
        left = behind(left, more + 1);
    }
    Ok(list)
}

fn is_byte(kind: &TokenKind) -> bool
    ensures { result ≡ parameter_cut.is_byte kind.now }
{
    matches!(
        kind,
        TokenKind::TypeName(Spelled::Exact {
            width: 8,
            signed: false
        })
    )
}

fn is_star(kind: &TokenKind) -> bool
    ensures { result ≡ symbols.is_star kind.now }
{
    matches!(mark(kind), Some(Punctuator::Star))
}

/// A pointer with a name, from the tokens behind what it points to.
fn pointer(
    alloc: Global,
    first: Place,
    constant: bool,
    target: Target,
    tokens: &[Token],
) -> Result<Field, CFault>
    ensures { Gives (λ f. f) result (parameter_cut.pointer first constant target tokens.now) }
{
    match tokens {
        [star, rest @ ..] if is_star(&star.kind) => {
            named(alloc, first, CType::Pointer { target, constant }, rest)
        }
        _ => Err(syntax(first)),
    }
}

/// A pointer to a struct, from the tokens behind `struct`.
fn struct_pointer(
    alloc: Global,
    first: Place,
    constant: bool,
    tokens: &[Token],
) -> Result<Field, CFault>
    ensures { Gives (λ f. f) result (parameter_cut.struct_pointer first constant tokens.now) }
{
    let [tag, rest @ ..] = tokens else {
        return Err(syntax(first));
    };
    let Some(tag) = name(&tag.kind) else {
        return Err(syntax(first));
    };
    let target = Target::Struct(Text::copy_of(alloc, tag)?);
    pointer(alloc, first, constant, target, rest)
}

fn is_byte_pointer(first: &Token, rest: &[Token]) -> bool
    ensures { result ≡ parameter_cut.is_byte_pointer first.now rest.now }
{
    match rest {
        [] => false,
        [second, ..] => is_byte(&first.kind) && is_star(&second.kind),
    }
}

/// A parameter behind an optional `const`.
fn parameter_of(
    alloc: Global,
    place: Place,
    constant: bool,
    tokens: &[Token],
) -> Result<Field, CFault>
    ensures { Gives (λ f. f) result (parameter_cut.parameter_of place constant tokens.now) }
{
    let [first, rest @ ..] = tokens else {
        return Err(syntax(place));
    };
    if matches!(keyword(&first.kind), Some(Keyword::Struct)) {
        return struct_pointer(alloc, place, constant, rest);
    }
    if is_byte_pointer(first, rest) {
        return pointer(alloc, place, constant, Target::Byte, rest);
    }
    if constant {
        return Err(syntax(place));
    }
    integer(alloc, place, tokens)
}

/// A parameter, behind which a token stands at this place.
fn parameter(alloc: Global, tokens: &[Token], after: Place) -> Result<Field, CFault>
    ensures { Gives (λ f. f) result (parameter_cut.parameter (tokens.now, after)) }
{
    let [first, rest @ ..] = tokens else {
        return Err(syntax(after));
    };
    let place = first.place;
    if matches!(keyword(&first.kind), Some(Keyword::Const)) {
        parameter_of(alloc, place, true, rest)
    } else {
        parameter_of(alloc, place, false, tokens)
    }
}

fn is_void_alone(tokens: &[Token]) -> bool
    ensures { result ≡ parameter_cut.is_void_alone tokens.now }
{
    match tokens {
        [only] => is_void(&only.kind),
        _ => false,
    }
}

/// The parameters between the brackets of a function, of which the last has this place.
pub fn parameters(alloc: Global, tokens: &[Token], close: Place) -> Result<List<Field>, CFault>
    ensures { Gives (λ fs. fs) result (parameter_cut.parameters (closed_in tokens.now close)) }
{
    if is_void_alone(tokens) {
        return Ok(List::new(alloc));
    }
    each_parameter(alloc, tokens, close)
}

fn each_parameter(alloc: Global, tokens: &[Token], close: Place) -> Result<List<Field>, CFault>
    ensures { Gives (λ fs. fs) result (parameter_cut.each_parameter (parts close 0 tokens.now)) }
{
    let mut list = List::new(alloc);
    let mut left = Some(tokens);
    while let Some(tokens) = left {
        let part = first_part(tokens, close);
        list.push(parameter(alloc, part.tokens, part.after)?)?;
        left = part.rest;
    }
    Ok(list)
}
