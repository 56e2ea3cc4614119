//! Statements that end with a semicolon.
ghost use Rattle.c_text.specs.Refusal.{Gives};
ghost use Rattle.c_tree.specs.ExpressionCut.{closed_in};
ghost use Rattle.c_tree.specs.StatementCut as spec;
ghost use Rattle.c_expression.specs.Callee.{callee_lent};
ghost use Rattle.c_parser.specs.Form.{value_of};

use crate::forms::{
    Assigned, Called, Declared, Discarded, assignment_of, call, declaration, discard,
};
use c_expression::{arguments, cut, inside, keyword, syntax};
use c_text::{CFault, Place, Token};
use c_tree::{Keyword, Stmt, StmtKind};
use cg_out::Text;
use std::alloc::Global;

/// The statement that the tokens before a semicolon are. Whether a `break` may stand there, how
/// many brackets may be open, and the place of the semicolon.
pub fn simple(
    alloc: Global,
    tokens: &[Token],
    may_break: bool,
    room: u32,
    after: Place,
) -> Result<Stmt, CFault>
    ensures { Gives (λ s. s) result (spec.simple may_break room tokens.now after) }
{
    let [first, rest @ ..] = tokens else {
        return Err(syntax(after));
    };
    let place = first.place;
    match keyword(&first.kind) {
        Some(Keyword::Return) => return_of(alloc, place, rest, room, after),
        Some(Keyword::Break) => {
            if may_break && rest.is_empty() {
                Ok(Stmt {
                    place,
                    kind: StmtKind::Break,
                })
            } else {
                Err(syntax(place))
            }
        }
        _ => by_form(alloc, place, tokens, room, after),
    }
}

fn return_of(
    alloc: Global,
    place: Place,
    value: &[Token],
    room: u32,
    after: Place,
) -> Result<Stmt, CFault>
    ensures { Gives (λ s. s) result (spec.return_of room place value.now after) }
{
    let value = if value.is_empty() {
        None
    } else {
        Some(cut(alloc, value, room, after)?)
    };
    Ok(Stmt {
        place,
        kind: StmtKind::Return(value),
    })
}

#[tactic(auto, unfolding(c_tree::specs::StatementCut::form_of))]
fn by_form(
    alloc: Global,
    place: Place,
    tokens: &[Token],
    room: u32,
    after: Place,
) -> Result<Stmt, CFault>
    ensures { Gives (λ s. s) result (spec.by_form room place (spec.form_of tokens.now) after) }
{
    if let Some(form) = declaration(tokens) {
        return declare(alloc, &form, room, after);
    }
    if let Some(form) = discard(tokens) {
        return discard_statement(alloc, &form, room);
    }
    if let Some(form) = call(tokens) {
        return call_statement(alloc, &form, room);
    }
    match assignment_of(tokens) {
        Some(form) => assign(alloc, &form, room, after),
        None => Err(syntax(place)),
    }
}

fn declare(alloc: Global, form: &Declared<'_>, room: u32, after: Place) -> Result<Stmt, CFault>
    ensures { Gives (λ s. s) result (spec.declare room form.now.kind form.now.name.now form.now.place (value_of form.now.value) after) }
{
    let value = match form.value {
        None => None,
        Some(tokens) => Some(cut(alloc, tokens, room, after)?),
    };
    Ok(Stmt {
        place: form.place,
        kind: StmtKind::Declare {
            kind: form.kind,
            name: Text::copy_of(alloc, form.name)?,
            value,
        },
    })
}

fn discard_statement(alloc: Global, form: &Discarded<'_>, room: u32) -> Result<Stmt, CFault>
    ensures { Gives (λ s. s) result (spec.discard_statement room form.now.name.now form.now.place form.now.opening) }
{
    inside(room, form.opening)?;
    Ok(Stmt {
        place: form.place,
        kind: StmtKind::Discard(Text::copy_of(alloc, form.name)?),
    })
}

fn call_statement(alloc: Global, form: &Called<'_>, room: u32) -> Result<Stmt, CFault>
    ensures { Gives (λ s. s) result (spec.call_statement room (callee_lent form.now.function) form.now.place form.now.opening (closed_in form.now.inner.now form.now.close)) }
{
    let args = arguments(alloc, form.inner, inside(room, form.opening)?, form.close)?;
    Ok(Stmt {
        place: form.place,
        kind: StmtKind::Call {
            function: form.function.copied(alloc)?,
            args,
        },
    })
}

fn assign(alloc: Global, form: &Assigned<'_>, room: u32, after: Place) -> Result<Stmt, CFault>
    ensures { Gives (λ s. s) result (spec.assign_statement room form.now.target.now form.now.op form.now.place form.now.value.now after) }
{
    let target = cut(alloc, form.target, room, form.place)?;
    let value = cut(alloc, form.value, room, after)?;
    Ok(Stmt {
        place: form.place,
        kind: StmtKind::Assign {
            target,
            op: form.op,
            value,
        },
    })
}
