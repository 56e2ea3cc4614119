//! The helpers, whole.
ghost use Rattle.std.specs.Prelude.{◌≡◌, IfOk};
ghost use Rattle.shift_helpers.specs.HelperResult.{IsWidth};
ghost use Rattle.shift_helpers.specs.HelperTree.{helper};
ghost use Rattle.shift_helpers.specs.HelperMeaning.{Helps};

use crate::naming::helper_name;
use crate::parts::{nowhere, parameter, returned, unsigned};
use c_tree::{Function, Stmt, StmtKind};
use cg_out::{List, Memory, Text};
use std::alloc::Global;

/// What a helper does with a byte of a frame and a value as wide as a signal's.
#[derive(Clone, Copy, Debug, PartialEq, Eq)]
pub enum HelperKind {
    /// A value's bits, moved up by 0 to 7, into a byte.
    PackLeft,
    /// A value's bits, moved down by less than the value's width, into a byte.
    PackRight,
    /// A byte's bits, moved up by less than the value's width, into a value.
    UnpackLeft,
    /// A byte's bits, moved down by 0 to 7, into a value.
    UnpackRight,
}

/// The helpers for values of so many bits: `uint8_t`, `uint16_t`, `uint32_t` or `uint64_t`.
pub struct Helper<const W: u32>;

impl<const W: u32> Helper<W> {
    /// The definition of a helper, `static`; the mask has the bits of the byte that are wanted.
    ///
    /// A call gives, under every data model, the number of its kind below, where `x` is the first
    /// argument and `W` is 16: no shift is undefined (6.5.7p3 and p4), and both casts keep the low
    /// bits (6.3.1.3p2).
    ///
    /// ```text
    /// pack_left_shift_u16      (x * 2^shift mod 2^8) & mask      x a uint16_t, shift 0 to 7
    /// pack_right_shift_u16     (x div 2^shift mod 2^8) & mask    x a uint16_t, shift 0 to 15
    /// unpack_left_shift_u16    (x & mask) * 2^shift mod 2^16     x a byte, shift 0 to 15
    /// unpack_right_shift_u16   (x & mask) div 2^shift            x a byte, shift 0 to 7
    /// ```
    pub fn tree(alloc: Global, kind: HelperKind) -> Result<Function, Memory>
        requires width { IsWidth W }
        ensures tree { IfOk result (λ f. f ≡ helper kind W) }
        ensures helps { IfOk result (λ f. Helps kind W f) }
    {
        let (taken, given) = match kind {
            HelperKind::PackLeft | HelperKind::PackRight => (W, 8),
            HelperKind::UnpackLeft | HelperKind::UnpackRight => (8, W),
        };
        let mut params = List::new(alloc);
        params.push(parameter(alloc, taken, b"value")?)?;
        params.push(parameter(alloc, 8, b"shift")?)?;
        params.push(parameter(alloc, 8, b"mask")?)?;
        let mut body = List::new(alloc);
        body.push(Stmt {
            place: nowhere(),
            kind: StmtKind::Return(Some(returned(alloc, kind, W)?)),
        })?;
        Ok(Function {
            fixed: true,
            returns: unsigned(given),
            name: Text::copy_of(alloc, helper_name(kind, W))?,
            params,
            body: Some(body),
            place: nowhere(),
            close: nowhere(),
        })
    }
}
