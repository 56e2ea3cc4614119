//! Parts of a unit, each made of a few texts and numbers.
use crate::reading::{WITHOUT_BOOL, unit_behind};
use c_mean::{CFault, Constant, Expr, ExprKind, Item, Place};
use c_printer::{Part, PrintUnit, print, print_function, print_struct};
use cg_out::{Boxed, List, Memory, Text};
use std::alloc::Global;

#[derive(Clone, Copy)]
pub(super) enum Piece {
    Comment(&'static str),
    Blank,
    /// `#include <..>`.
    Include(&'static str),
    /// `#include ".."`.
    Beside(&'static str),
    IfNotDefined(&'static str),
    EndIf,
    Define(&'static str, Body),
    /// A struct or a function, and the comments before the fields.
    Item(&'static str, &'static [&'static str]),
}

/// The body of a macro.
#[derive(Clone, Copy)]
pub(super) enum Body {
    Empty,
    /// A decimal constant.
    Alone(u64),
    /// A constant in brackets: its value, its base, whether it has a `u`, and how many `l`.
    Bracketed(u64, u8, bool, u8),
}

/// The place of a tree that no text has.
const NOWHERE: Place = Place {
    header: false,
    line: 0,
    start: 0,
    end: 0,
};

fn expression(kind: ExprKind) -> Expr {
    Expr {
        place: NOWHERE,
        kind,
    }
}

fn constant(value: u64, base: u8, unsigned: bool, longs: u8) -> Expr {
    expression(ExprKind::Constant(Constant {
        value,
        base,
        unsigned,
        longs,
    }))
}

fn body_of(alloc: Global, body: Body) -> Result<Option<Expr>, Memory> {
    Ok(match body {
        Body::Empty => None,
        Body::Alone(value) => Some(constant(value, 10, false, 0)),
        Body::Bracketed(value, base, unsigned, longs) => {
            let inner = Boxed::new(alloc, constant(value, base, unsigned, longs))?;
            Some(expression(ExprKind::Bracket(inner)))
        }
    })
}

fn text(alloc: Global, word: &str) -> Result<Text, Memory> {
    Text::copy_of(alloc, word.as_bytes())
}

fn define(alloc: Global, name: &str, body: Body) -> Result<Part, Memory> {
    let body = body_of(alloc, body)?;
    let name = text(alloc, name)?;
    Ok(Part::Define { name, body })
}

fn include(alloc: Global, word: &str, quoted: bool) -> Result<Part, Memory> {
    let name = text(alloc, word)?;
    Ok(Part::Include { name, quoted })
}

/// The part of a piece that is no item.
fn part_of(alloc: Global, piece: Piece) -> Result<Part, Memory> {
    match piece {
        Piece::Comment(word) => Ok(Part::Comment(text(alloc, word)?)),
        Piece::Blank | Piece::Item(..) => Ok(Part::Blank),
        Piece::Include(name) => include(alloc, name, false),
        Piece::Beside(name) => include(alloc, name, true),
        Piece::IfNotDefined(name) => Ok(Part::IfNotDefined(text(alloc, name)?)),
        Piece::EndIf => Ok(Part::EndIf),
        Piece::Define(name, body) => define(alloc, name, body),
    }
}

fn print_piece(alloc: Global, piece: Piece, out: &mut Vec<u8>) -> Result<(), Memory> {
    let mut parts = List::new(alloc);
    parts.push(part_of(alloc, piece)?)?;
    Ok(print(&PrintUnit { parts }, out)?)
}

fn texts(alloc: Global, words: &[&str]) -> Result<Vec<Text>, Memory> {
    let mut list = Vec::new(alloc);
    for word in words {
        list.push(text(alloc, word)?)?;
    }
    Ok(list)
}

fn print_item(
    alloc: Global,
    item: &Item,
    comments: &[&str],
    out: &mut Vec<u8>,
) -> Result<(), Memory> {
    let comments = texts(alloc, comments)?;
    match item {
        Item::Struct(item) => Ok(print_struct(item, &comments, out)?),
        Item::Function(item) => Ok(print_function(item, out)?),
    }
}

/// Prints the items of a text, in which `true` and `false` are names.
fn print_items(
    alloc: Global,
    text: &str,
    comments: &[&str],
    out: &mut Vec<u8>,
) -> Result<(), CFault> {
    let unit = unit_behind(alloc, WITHOUT_BOOL, text.as_bytes())?;
    for item in unit.items.items() {
        print_item(alloc, item, comments, out)?;
    }
    Ok(())
}

/// The text that the parts are printed as.
pub(super) fn printed(alloc: Global, pieces: &[Piece]) -> Result<Vec<u8>, CFault> {
    let mut out = Vec::new(alloc);
    for piece in pieces {
        match piece {
            Piece::Item(text, comments) => print_items(alloc, text, comments, &mut out)?,
            other => print_piece(alloc, *other, &mut out)?,
        }
    }
    Ok(out)
}
