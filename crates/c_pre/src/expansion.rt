//! What is left behind the lines that were read.
ghost use Rattle.std.specs.Prelude.{◌≡◌, ◌∷◌, ◌++◌, [], map, Some, None, Ok, OnOk};
ghost use Rattle.std.specs.List.{list_any};
ghost use Rattle.c_text.specs.Refusal.{Gives};
ghost use Rattle.c_pre.specs.Shown.{flats, shown, header_shown};
ghost use Rattle.c_pre.specs.Run as run;
ghost use Rattle.c_pre.specs.Parts.{lines_in, KnowEnds};
ghost use Rattle.c_pre.specs.Kept.{progress};

use crate::comparing::same_body;
use crate::flags::Flags;
use crate::line::{Header, Line};
use crate::macros::Macros;
use crate::parts::{FileLine, lines_behind};
use crate::replacing::write;
use c_text::{CFault, CKind, Place, Token};
use cg_out::{List, Memory};
use std::alloc::Global;

/// The tokens that are left, the macros, and the standard headers that were included, each once.
#[derive(Drop)]
pub struct Expansion<'a> {
    pub tokens: List<Token>,
    pub macros: Macros<'a>,
    pub headers: List<Header>,
}

impl<'a> Expansion<'a> {
    pub fn new(alloc: Global) -> Expansion<'a>
        ensures { progress result ≡ run.nothing_left }
    {
        Expansion {
            tokens: List::new(alloc),
            macros: Macros::new(alloc),
            headers: List::new(alloc),
        }
    }

    /// Reads the lines of the source, where the header's lines stand for a quoted include.
    pub fn read_source(
        &mut self,
        alloc: Global,
        header: &[FileLine<'a>],
        source: &[FileLine<'a>],
    ) -> Result<(), CFault>
        requires header { KnowEnds header.now }
        requires source { KnowEnds source.now }
        ensures { Gives (λ u. progress self.new) result (run.ran (run.ran_header (lines_in header.now)) [] (progress self.old) (lines_in source.now)) }
    {
        let mut reads = Flags::new(alloc);
        let mut left = source;
        while let Some((entry, rest)) = left.split_last() {
            self.read_source_line(alloc, header, &mut reads, entry.line)?;
            left = lines_behind(entry, rest, &reads);
        }
        Ok(())
    }

    fn read_source_line(
        &mut self,
        alloc: Global,
        header: &[FileLine<'a>],
        reads: &mut Flags,
        line: Line<'a>,
    ) -> Result<(), CFault>
        requires { KnowEnds header.now }
        ensures state { Gives (λ u. progress self.new) result (run.passed (run.ran_header (lines_in header.now)) reads.old (progress self.old) (shown line.entry)) }
        ensures reads { OnOk result (reads.new ≡ run.reads_then reads.old (progress self.old) (shown line.entry)) }
    {
        match line {
            Line::Quoted if reads.all() => self.read_header(alloc, header),
            _ => self.read_line(alloc, reads, line),
        }
    }

    /// Reads the lines of the header.
    fn read_header(&mut self, alloc: Global, lines: &[FileLine<'a>]) -> Result<(), CFault>
        requires { KnowEnds lines.now }
        ensures { Gives (λ u. progress self.new) result (run.ran_header (lines_in lines.now) (progress self.old)) }
    {
        let mut reads = Flags::new(alloc);
        let mut left = lines;
        while let Some((entry, rest)) = left.split_last() {
            self.read_line(alloc, &mut reads, entry.line)?;
            left = lines_behind(entry, rest, &reads);
        }
        Ok(())
    }

    fn read_line(&mut self, alloc: Global, reads: &mut Flags, line: Line<'a>) -> Result<(), CFault>
        ensures state { Gives (λ u. progress self.new) result (run.passed (λ s. Ok s) reads.old (progress self.old) (shown line.entry)) }
        ensures reads { OnOk result (reads.new ≡ run.reads_then reads.old (progress self.old) (shown line.entry)) }
    {
        match line {
            Line::Conditional { wanted, name, .. } => {
                let is_macro = self.macros.body_of(name).is_some();
                reads.push(if wanted { is_macro } else { !is_macro })?;
                Ok(())
            }
            Line::Otherwise { .. } => {
                if let Some(read) = reads.pop() {
                    reads.push(!read)?;
                }
                Ok(())
            }
            Line::EndIf { .. } => {
                reads.pop();
                Ok(())
            }
            Line::Unbalanced { hash } => Err(fault(CKind::Unbalanced, hash)),
            _ if reads.all() => self.take(alloc, line),
            _ => Ok(()),
        }
    }

    /// Takes in a line that is read.
    fn take(&mut self, alloc: Global, line: Line<'a>) -> Result<(), CFault>
        ensures { Gives (λ u. progress self.new) result (run.taken (progress self.old) (shown line.entry)) }
    {
        match line {
            Line::Text(tokens) => {
                let headers = self.headers.items();
                Ok(write(alloc, &mut self.tokens, &self.macros, headers, tokens)?)
            }
            Line::Standard(header) => Ok(self.include(header)?),
            Line::Define { hash, name, body } => self.define(hash, name, body),
            Line::Refused { hash, kind } => Err(fault(kind, hash)),
            _ => Ok(()),
        }
    }

    fn include(&mut self, header: Header) -> Result<(), Memory>
        ensures { OnOk result (progress self.new ≡ record (progress self.old) { headers = run.with_header (progress self.old).headers (header_shown header) }) }
    {
        if is_among(self.headers.items(), header) {
            Ok(())
        } else {
            self.headers.push(header)
        }
    }

    fn define(&mut self, hash: Place, name: &'a [u8], body: &'a [Token]) -> Result<(), CFault>
        ensures { let old = progress self.old in Gives (λ u. progress self.new) result (run.defined old hash name.now (flats body.now) (run.look name.now old.macros)) }
    {
        match self.macros.body_of(name) {
            None => Ok(self.macros.define(name, body)?),
            Some(first) => {
                if same_body(first, body) {
                    Ok(())
                } else {
                    Err(fault(CKind::Redefined, hash))
                }
            }
        }
    }
}

fn is_among(headers: &[Header], header: Header) -> bool
    ensures { result ≡ list_any (λ g. run.same_header g (header_shown header)) (map header_shown headers.now) }
{
    headers.contains(&header)
}

fn fault(kind: CKind, place: Place) -> CFault
    ensures { result ≡ CFault.Fault kind place }
{
    CFault::Fault { kind, place }
}
