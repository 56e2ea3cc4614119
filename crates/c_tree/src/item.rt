//! What stands outside functions (ISO/IEC 9899:1999, 6.7 and 6.9).
use crate::statement::Stmt;
use c_text::{Place, Spelled};
use cg_out::{List, Text};

/// What a pointer points to.
#[derive(Debug, Drop)]
pub enum Target {
    /// `uint8_t`.
    Byte,
    /// A struct with this tag.
    Struct(Text),
}

/// A type.
#[derive(Debug, Drop)]
pub enum CType {
    Void,
    Integer(Spelled),
    /// A pointer, to const or not.
    Pointer { target: Target, constant: bool },
}

/// A field of a struct, or a parameter of a function.
#[derive(Debug, Drop)]
pub struct Field {
    pub kind: CType,
    pub name: Text,
    /// The name.
    pub place: Place,
}

/// The definition of a struct.
#[derive(Debug, Drop)]
pub struct Struct {
    pub tag: Text,
    /// One or more, in order.
    pub fields: List<Field>,
    /// The tag.
    pub place: Place,
}

/// A prototype or the definition of a function.
#[derive(Debug, Drop)]
pub struct Function {
    /// Whether it is `static`.
    pub fixed: bool,
    /// `void` or a type of integers.
    pub returns: CType,
    pub name: Text,
    pub params: List<Field>,
    /// The statements of a definition.
    pub body: Option<List<Stmt>>,
    /// The name.
    pub place: Place,
    /// The brace that closes a definition, or the semicolon of a prototype.
    pub close: Place,
}

/// A part of a unit.
#[derive(Debug, Drop)]
pub enum Item {
    Struct(Struct),
    Function(Function),
}

/// What a header and a source declare and define, in order.
#[derive(Debug, Drop)]
pub struct Unit {
    pub items: List<Item>,
}
