//! The forms of a statement that ends with a semicolon, from the tokens before it.
ghost use Rattle.std.specs.Prelude.{◌≡◌, ◌<◌, ◌≤◌, length, IfSome, IfNone};
ghost use Rattle.c_tree.specs.StatementCut as spec;
ghost use Rattle.c_tree.specs.declared.symbol.Bracket.TheVariants.{Round};
ghost use Rattle.c_tree.specs.Brackets.{is_bracket, closes};
ghost use Rattle.c_tree.specs.ExpressionCut.{closed_in};
ghost use Rattle.c_expression.specs.Callee.{callee_lent};
ghost use Rattle.c_parser.specs.Form.{value_of};

use c_expression::{
    LentCallee, Stop, assignment, callee, closed, closes, first_outside, front_type, is_round,
    keyword, mark, name, opens,
};
use c_text::{Place, Spelled, Token, TokenKind};
use c_tree::{AssignOp, Bracket, Keyword, Punctuator};

/// `kind name` or `kind name = value`.
#[derive(Drop)]
pub struct Declared<'a> {
    pub kind: Spelled,
    pub name: &'a [u8],
    pub place: Place,
    pub value: Option<&'a [Token]>,
}

/// A declaration of a local, if the tokens have its form.
pub fn declaration(tokens: &[Token]) -> Option<Declared<'_>>
    ensures some { IfSome result (λ d. spec.declaration_form tokens.now ≡ spec.declares d.kind d.name.now d.place (value_of d.value)) }
    ensures none { IfNone result (spec.declaration_form tokens.now ≡ spec.unknown) }
{
    let (kind, count) = front_type(tokens)?;
    declared_behind(kind, &tokens[count..])
}

fn declared_behind(kind: Spelled, tokens: &[Token]) -> Option<Declared<'_>>
    ensures some { IfSome result (λ d. spec.declares_name kind tokens.now ≡ spec.declares d.kind d.name.now d.place (value_of d.value)) }
    ensures none { IfNone result (spec.declares_name kind tokens.now ≡ spec.unknown) }
{
    let [token, rest @ ..] = tokens else {
        return None;
    };
    let place = token.place;
    let name = name(&token.kind)?;
    match rest {
        [] => Some(Declared {
            kind,
            name,
            place,
            value: None,
        }),
        [second, value @ ..] => {
            if matches!(mark(&second.kind), Some(Punctuator::Equal)) {
                Some(Declared {
                    kind,
                    name,
                    place,
                    value: Some(value),
                })
            } else {
                None
            }
        }
    }
}

/// `(void)name`, with the places of the name and the bracket.
#[derive(Drop)]
pub struct Discarded<'a> {
    pub name: &'a [u8],
    pub place: Place,
    pub opening: Place,
}

/// A name whose value is not used, if the tokens have that form.
pub fn discard(tokens: &[Token]) -> Option<Discarded<'_>>
    ensures some { IfSome result (λ d. spec.discard_form tokens.now ≡ spec.discards d.name.now d.place d.opening) }
    ensures none { IfNone result (spec.discard_form tokens.now ≡ spec.unknown) }
{
    let [open, void, close, last] = tokens else {
        return None;
    };
    if is_round(&open.kind) && is_void(&void.kind) && is_round_close(&close.kind) {
        Some(Discarded {
            name: name(&last.kind)?,
            place: last.place,
            opening: open.place,
        })
    } else {
        None
    }
}

/// Whether a token is `void`.
pub fn is_void(kind: &TokenKind) -> bool
    ensures { result ≡ spec.is_void kind.now }
{
    matches!(keyword(kind), Some(Keyword::Void))
}

fn is_round_close(kind: &TokenKind) -> bool
    ensures { result ≡ is_bracket Round (closes kind.now) }
{
    matches!(closes(kind), Some(Bracket::Round))
}

/// `function(inner)`, with the places of the name and both brackets.
#[derive(Drop)]
pub struct Called<'a> {
    pub function: LentCallee<'a>,
    pub place: Place,
    pub opening: Place,
    pub inner: &'a [Token],
    pub close: Place,
}

/// A call, if the tokens have its form.
pub fn call(tokens: &[Token]) -> Option<Called<'_>>
    ensures some { IfSome result (λ c. spec.call_form tokens.now ≡ spec.calls (callee_lent c.function) c.place c.opening (closed_in c.inner.now c.close)) }
    ensures none { IfNone result (spec.call_form tokens.now ≡ spec.unknown) }
{
    let [first, second, rest @ ..] = tokens else {
        return None;
    };
    if !is_round(&second.kind) {
        return None;
    }
    let function = callee(&first.kind)?;
    let (inner, close) = closed(rest)?;
    Some(Called {
        function,
        place: first.place,
        opening: second.place,
        inner,
        close,
    })
}

/// Whether the tokens are a name, `base->field` or `base[..]`.
fn is_target(tokens: &[Token]) -> bool
    ensures { result ≡ spec.is_target tokens.now }
{
    match tokens {
        [] => false,
        [first, rest @ ..] => name(&first.kind).is_some() && is_target_rest(rest),
    }
}

fn is_target_rest(tokens: &[Token]) -> bool
    ensures { result ≡ spec.is_target_rest tokens.now }
{
    match tokens {
        [] => true,
        [second, rest @ ..] => {
            if matches!(opens(&second.kind), Some(Bracket::Square)) {
                closed(rest).is_some()
            } else {
                matches!(mark(&second.kind), Some(Punctuator::Arrow)) && is_one_name(rest)
            }
        }
    }
}

fn is_one_name(tokens: &[Token]) -> bool
    ensures { result ≡ spec.is_one_name tokens.now }
{
    match tokens {
        [only] => name(&only.kind).is_some(),
        _ => false,
    }
}

/// `target op value`, with the place of the operator.
#[derive(Drop)]
pub struct Assigned<'a> {
    pub target: &'a [Token],
    pub op: AssignOp,
    pub place: Place,
    pub value: &'a [Token],
}

/// An assignment, if the tokens have its form.
pub fn assignment_of(tokens: &[Token]) -> Option<Assigned<'_>>
    ensures some { IfSome result (λ a. spec.assignment_form tokens.now ≡ spec.assigns a.target.now a.op a.place a.value.now) }
    ensures none { IfNone result (spec.assignment_form tokens.now ≡ spec.unknown) }
{
    let at = first_outside(Stop::Assignment, tokens)?;
    assigned_at(&tokens[..at], &tokens[at..])
}

fn assigned_at<'a>(target: &'a [Token], rest: &'a [Token]) -> Option<Assigned<'a>>
    ensures some { IfSome result (λ a. spec.assigns_at target.now rest.now ≡ spec.assigns a.target.now a.op a.place a.value.now) }
    ensures none { IfNone result (spec.assigns_at target.now rest.now ≡ spec.unknown) }
{
    let [token, value @ ..] = rest else {
        return None;
    };
    if !is_target(target) {
        return None;
    }
    Some(Assigned {
        target,
        op: assignment(&token.kind)?,
        place: token.place,
        value,
    })
}
