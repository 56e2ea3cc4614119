//! The pack function of a message.
ghost use Rattle.std.specs.Prelude.{◌≡◌, map, None, IfOk};
ghost use Rattle.std.specs.List.{AllByRecursion};
ghost use Rattle.can_model.specs.Validity.{IsOfValidDatabase};
ghost use Rattle.c_tree.specs.BareUnit.{bare_field, bare_body, bare_item, function};
ghost use Rattle.c_tree.specs.BareExpression.{name};
ghost use Rattle.c_tree.specs.BareStatement.{bare_statement};
ghost use Rattle.c_tree.specs.declared.item.Item.TheVariants.{Function as AFunction};
ghost use Rattle.gen_pack.specs.Switches.{HasNoParent};
ghost use Rattle.gen_pack.specs.Packs.{PacksAs};
ghost use Rattle.gen_pack.specs.Named.{IsNamed};
ghost use Rattle.gen_pack.specs.PackTree as spec;

use crate::body::{empty_body, long_body, size};
use crate::nodes::nowhere;
use crate::puts::{buffer, source};
use c_text::{IntType, Spelled};
use c_tree::{CType, Field, Function, Stmt, Target};
use can_model::Message;
use cg_out::{List, Memory, Text};
use name_rules::MessageNames;
use std::alloc::Global;

fn parameter(alloc: Global, kind: CType, name: &[u8]) -> Result<Field, Memory>
    ensures { IfOk result (λ f. bare_field f ≡ spec.parameter kind name.now) }
{
    Ok(Field {
        kind,
        name: Text::copy_of(alloc, name)?,
        place: nowhere(),
    })
}

/// The buffer, the struct of that tag, and the buffer's size.
fn parameters(alloc: Global, tag: &[u8]) -> Result<List<Field>, Memory>
    ensures { IfOk result (λ v. map bare_field v ≡ spec.parameters tag.now) }
{
    let to = CType::Pointer {
        target: Target::Byte,
        constant: false,
    };
    let from = CType::Pointer {
        target: Target::Struct(Text::copy_of(alloc, tag)?),
        constant: true,
    };
    let mut params = List::new(alloc);
    params.push(parameter(alloc, to, buffer())?)?;
    params.push(parameter(alloc, from, source())?)?;
    params.push(parameter(alloc, CType::Integer(Spelled::Size), size())?)?;
    Ok(params)
}

fn body(alloc: Global, message: &Message, names: &MessageNames) -> Result<List<Stmt>, Memory>
    requires valid { IsOfValidDatabase message.now }
    requires flat { AllByRecursion HasNoParent message.now.signals }
    ensures { IfOk result (λ v. map bare_statement v ≡ spec.message_body (name spec.error_name) message.now names.now) }
{
    if message.length == 0 {
        empty_body(alloc)
    } else {
        long_body(
            alloc,
            message.length,
            message.signals.items(),
            names.signals.items(),
        )
    }
}

/// The function with this body, or its prototype where there is none.
fn with_body(
    alloc: Global,
    names: &MessageNames,
    body: Option<List<Stmt>>,
) -> Result<Function, Memory>
    ensures { IfOk result (λ f. bare_item (AFunction f) ≡ function (spec.pack_head names.now) (bare_body body)) }
{
    Ok(Function {
        fixed: false,
        returns: CType::Integer(Spelled::Plain(IntType::Int)),
        name: Text::copy_of(alloc, names.pack.bytes())?,
        params: parameters(alloc, names.tag.bytes())?,
        body,
        place: nowhere(),
        close: nowhere(),
    })
}

/// The prototype of a message's pack function.
///
/// ```text
/// int can_ping_pack(uint8_t *dst_p, const struct can_ping_t *src_p, size_t size);
/// ```
pub fn pack_prototype(alloc: Global, names: &MessageNames) -> Result<Function, Memory>
    ensures { IfOk result (λ f. bare_item (AFunction f) ≡ function (spec.pack_head names.now) None) }
{
    with_body(alloc, names, None)
}

fn whole(alloc: Global, message: &Message, names: &MessageNames) -> Result<Function, Memory>
    requires valid { IsOfValidDatabase message.now }
    requires flat { AllByRecursion HasNoParent message.now.signals }
    ensures { IfOk result (λ f. bare_item (AFunction f) ≡ spec.pack_function (name spec.error_name) message.now names.now) }
{
    let body = body(alloc, message, names)?;
    with_body(alloc, names, Some(body))
}

/// The pack function of a message in which no signal has a parent.
///
/// Under every data model, a call of it gives -22 where the size is below the message's length, and
/// 0 where that length is 0, for any two pointers, and touches nothing. Else, where the first pointer
/// is at a buffer of at least `size` bytes, the second at the message's struct, and the fields of its
/// active signals have values, it gives the length, and the buffer begins with the message's frame of
/// those values. That is said of the function as a text has it, in which `EINVAL` is the number 22,
/// in each unit that has the message's struct and the helpers that are called.
pub fn pack_tree(alloc: Global, message: &Message, names: &MessageNames) -> Result<Function, Memory>
    requires valid { IsOfValidDatabase message.now }
    requires flat { AllByRecursion HasNoParent message.now.signals }
    ensures tree { IfOk result (λ f. bare_item (AFunction f) ≡ spec.pack_function (name spec.error_name) message.now names.now) }
    ensures packs { IsNamed message.now names.now → IfOk result (λ f. PacksAs message.now names.now f) }
{
    whole(alloc, message, names)
}
