//! Trees of C in one line, as a person reads them: an operator and its parts, in brackets.
use c_mean::{
    AssignOp, BinaryOp, CType, Callee, Constant, Expr, ExprKind, Field, Function, IntType, Item,
    Place, Spelled, Stmt, StmtKind, Struct, SwitchPart, Target, UnaryOp,
};
use cg_out::Memory;
use std::alloc::Global;

/// A line that is being written.
#[derive(Drop)]
pub struct Line {
    alloc: Global,
    bytes: Vec<u8>,
    /// Whether each tree has the offset of its place behind it.
    with_places: bool,
}

impl Line {
    pub fn new(alloc: Global, with_places: bool) -> Line {
        Line {
            alloc,
            bytes: Vec::new(alloc),
            with_places,
        }
    }

    pub fn into_bytes(self) -> Vec<u8> {
        let Line { bytes, .. } = self;
        bytes
    }

    pub fn put(&mut self, text: &[u8]) -> Result<(), Memory> {
        Ok(self.bytes.extend_from_slice(text)?)
    }

    /// A word, apart from what stands before it.
    fn word(&mut self, text: &[u8]) -> Result<(), Memory> {
        if !matches!(self.bytes.last(), None | Some(b'(' | b'[')) {
            self.put(b" ")?;
        }
        self.put(text)
    }

    /// The place of the tree that was just begun.
    fn place(&mut self, place: Place) -> Result<(), Memory> {
        if self.with_places {
            let spelled = format!(in self.alloc; "@{}", place.start)?;
            self.put(spelled.as_bytes())?;
        }
        Ok(())
    }

    /// A tree without parts.
    fn leaf(&mut self, text: &[u8], place: Place) -> Result<(), Memory> {
        self.word(text)?;
        self.place(place)
    }

    /// Begins a tree.
    fn open(&mut self, operator: &[u8], place: Place) -> Result<(), Memory> {
        self.word(b"(")?;
        self.leaf(operator, place)
    }

    /// A tree ends.
    fn close(&mut self) -> Result<(), Memory> {
        self.put(b")")
    }

    /// A type of integers.
    fn kind(&mut self, kind: Spelled) -> Result<(), Memory> {
        match kind {
            Spelled::Exact { width, signed } => {
                self.word(if signed { b"int" } else { b"uint" })?;
                let rest = format!(in self.alloc; "{width}_t")?;
                self.put(rest.as_bytes())
            }
            Spelled::Size => self.word(b"size_t"),
            Spelled::Plain(plain) => self.word(plain_kind(plain).as_bytes()),
        }
    }

    /// A constant: its value and its suffix.
    fn constant(&mut self, constant: &Constant, place: Place) -> Result<(), Memory> {
        let value = format!(in self.alloc; "{}", constant.value)?;
        self.word(value.as_bytes())?;
        if constant.unsigned {
            self.put(b"u")?;
        }
        for _ in 0..constant.longs {
            self.put(b"l")?;
        }
        self.place(place)
    }
}

fn plain_kind(kind: IntType) -> &'static str {
    match kind {
        IntType::Bool => "_Bool",
        IntType::SignedChar => "signed char",
        IntType::UnsignedChar => "unsigned char",
        IntType::Short => "short",
        IntType::UnsignedShort => "unsigned short",
        IntType::Int => "int",
        IntType::UnsignedInt => "unsigned",
        IntType::Long => "long",
        IntType::UnsignedLong => "unsigned long",
        IntType::LongLong => "long long",
        IntType::UnsignedLongLong => "unsigned long long",
    }
}

fn unary(op: UnaryOp) -> &'static str {
    match op {
        UnaryOp::Plus => "+",
        UnaryOp::Minus => "-",
        UnaryOp::Complement => "~",
        UnaryOp::Not => "!",
    }
}

fn binary(op: BinaryOp) -> &'static str {
    match op {
        BinaryOp::LogicalOr => "||",
        BinaryOp::LogicalAnd => "&&",
        BinaryOp::BitOr => "|",
        BinaryOp::BitXor => "^",
        BinaryOp::BitAnd => "&",
        BinaryOp::Equal => "==",
        BinaryOp::NotEqual => "!=",
        BinaryOp::Less => "<",
        BinaryOp::Greater => ">",
        BinaryOp::LessEqual => "<=",
        BinaryOp::GreaterEqual => ">=",
        BinaryOp::ShiftLeft => "<<",
        BinaryOp::ShiftRight => ">>",
        BinaryOp::Add => "+",
        BinaryOp::Subtract => "-",
    }
}

fn assigned(op: AssignOp) -> &'static str {
    match op {
        AssignOp::Set => "=",
        AssignOp::BitOr => "|=",
        AssignOp::BitAnd => "&=",
        AssignOp::BitXor => "^=",
        AssignOp::Add => "+=",
        AssignOp::Subtract => "-=",
        AssignOp::ShiftLeft => "<<=",
        AssignOp::ShiftRight => ">>=",
    }
}

/// The standard `memset` is told from a function of that name.
fn open_call(line: &mut Line, function: &Callee, place: Place) -> Result<(), Memory> {
    match function {
        Callee::Name(name) => {
            line.open(b"call", place)?;
            line.word(name.bytes())
        }
        Callee::Memset => line.open(b"memset", place),
    }
}

fn write_expr(line: &mut Line, expr: &Expr) -> Result<(), Memory> {
    let place = expr.place;
    match &expr.kind {
        ExprKind::Constant(constant) => return line.constant(constant, place),
        ExprKind::Name(name) => return line.leaf(name.bytes(), place),
        ExprKind::Null => return line.leaf(b"(null)", place),
        ExprKind::Member { base, field } => {
            line.open(b"->", place)?;
            line.word(base.bytes())?;
            line.word(field.bytes())?;
        }
        ExprKind::Element { base, index } => {
            line.open(b"at", place)?;
            line.word(base.bytes())?;
            write_expr(line, index.get())?;
        }
        ExprKind::Call { function, args } => {
            open_call(line, function, place)?;
            for arg in args.items() {
                write_expr(line, arg)?;
            }
        }
        ExprKind::Unary { op, operand } => {
            line.open(unary(*op).as_bytes(), place)?;
            write_expr(line, operand.get())?;
        }
        ExprKind::Cast { to, operand } => {
            line.open(b"cast", place)?;
            line.kind(*to)?;
            write_expr(line, operand.get())?;
        }
        ExprKind::Binary { op, left, right } => {
            line.open(binary(*op).as_bytes(), place)?;
            write_expr(line, left.get())?;
            write_expr(line, right.get())?;
        }
        ExprKind::Bracket(inner) => {
            line.open(b"group", place)?;
            write_expr(line, inner.get())?;
        }
    }
    line.close()
}

fn write_value(line: &mut Line, value: &Option<Expr>) -> Result<(), Memory> {
    match value {
        Some(value) => write_expr(line, value),
        None => Ok(()),
    }
}

fn write_stmt(line: &mut Line, stmt: &Stmt) -> Result<(), Memory> {
    let place = stmt.place;
    match &stmt.kind {
        StmtKind::Declare { kind, name, value } => {
            line.open(b"declare", place)?;
            line.kind(*kind)?;
            line.word(name.bytes())?;
            write_value(line, value)?;
        }
        StmtKind::Assign { target, op, value } => {
            line.open(assigned(*op).as_bytes(), place)?;
            write_expr(line, target)?;
            write_expr(line, value)?;
        }
        StmtKind::Call { function, args } => {
            open_call(line, function, place)?;
            for arg in args.items() {
                write_expr(line, arg)?;
            }
        }
        StmtKind::Discard(name) => {
            line.open(b"discard", place)?;
            line.word(name.bytes())?;
        }
        StmtKind::Empty => line.open(b"empty", place)?,
        StmtKind::Block(list) => {
            line.open(b"block", place)?;
            for inner in list.items() {
                write_stmt(line, inner)?;
            }
        }
        StmtKind::If { condition, yes, no } => {
            line.open(b"if", place)?;
            write_expr(line, condition)?;
            write_stmt(line, yes.get())?;
            if let Some(no) = no {
                write_stmt(line, no.get())?;
            }
        }
        StmtKind::Return(value) => {
            line.open(b"return", place)?;
            write_value(line, value)?;
        }
        StmtKind::Break => line.open(b"break", place)?,
        StmtKind::Switch { value, parts } => {
            line.open(b"switch", place)?;
            write_expr(line, value)?;
            for part in parts.items() {
                match part {
                    SwitchPart::Label { value, place } => write_label(line, value, *place)?,
                    SwitchPart::Statement(inner) => write_stmt(line, inner)?,
                }
            }
        }
    }
    line.close()
}

fn write_label(line: &mut Line, value: &Option<Expr>, place: Place) -> Result<(), Memory> {
    let word = if value.is_some() {
        b"case".as_slice()
    } else {
        b"default"
    };
    line.open(word, place)?;
    write_value(line, value)?;
    line.close()
}

pub fn write_stmts(line: &mut Line, list: &[Stmt]) -> Result<(), Memory> {
    for stmt in list {
        write_stmt(line, stmt)?;
    }
    Ok(())
}

fn write_type(line: &mut Line, kind: &CType) -> Result<(), Memory> {
    match kind {
        CType::Void => line.word(b"void"),
        CType::Integer(kind) => line.kind(*kind),
        CType::Pointer { target, constant } => {
            if *constant {
                line.word(b"const")?;
            }
            match target {
                Target::Byte => line.word(b"uint8_t")?,
                Target::Struct(tag) => {
                    line.word(b"struct")?;
                    line.word(tag.bytes())?;
                }
            }
            line.put(b"*")
        }
    }
}

/// Fields of a struct, or parameters.
fn write_fields(line: &mut Line, list: &[Field]) -> Result<(), Memory> {
    for field in list {
        line.word(b"(")?;
        write_type(line, &field.kind)?;
        line.leaf(field.name.bytes(), field.place)?;
        line.close()?;
    }
    Ok(())
}

fn write_struct(line: &mut Line, item: &Struct) -> Result<(), Memory> {
    line.word(b"(struct")?;
    line.leaf(item.tag.bytes(), item.place)?;
    write_fields(line, item.fields.items())?;
    line.close()
}

/// A definition has `:` before its statements.
fn write_function(line: &mut Line, item: &Function) -> Result<(), Memory> {
    line.word(b"(")?;
    if item.fixed {
        line.word(b"static")?;
    }
    write_type(line, &item.returns)?;
    line.leaf(item.name.bytes(), item.place)?;
    write_fields(line, item.params.items())?;
    if let Some(body) = &item.body {
        line.word(b":")?;
        write_stmts(line, body.items())?;
        line.place(item.close)?;
    }
    line.close()
}

pub fn write_items(line: &mut Line, items: &[Item]) -> Result<(), Memory> {
    for item in items {
        match item {
            Item::Struct(item) => write_struct(line, item)?,
            Item::Function(item) => write_function(line, item)?,
        }
    }
    Ok(())
}
