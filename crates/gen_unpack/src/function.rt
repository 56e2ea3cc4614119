//! The unpack function of a message.
ghost use Rattle.std.specs.Prelude.{◌≡◌, map, None, IfOk};
ghost use Rattle.std.specs.List.{AllByRecursion};
ghost use Rattle.can_model.specs.Validity.{IsOfValidDatabase};
ghost use Rattle.c_tree.specs.BareUnit.{bare_field, bare_body, bare_item, function};
ghost use Rattle.c_tree.specs.BareExpression.{name};
ghost use Rattle.c_tree.specs.BareStatement.{bare_statement};
ghost use Rattle.c_tree.specs.declared.item.Item.TheVariants.{Function as AFunction};
ghost use Rattle.gen_pack.specs.Named.{IsNamed};
ghost use Rattle.gen_pack.specs.Switches.{HasNoParent};
ghost use Rattle.gen_pack.specs.PackTree as pack;
ghost use Rattle.gen_unpack.specs.UnpackTree as spec;
ghost use Rattle.gen_unpack.specs.Unpacks.{UnpacksAs};

use crate::body::{empty_body, long_body, size};
use crate::nodes::nowhere;
use crate::reads::{bytes, structure};
use c_text::{IntType, Spelled};
use c_tree::{CType, Field, Function, Stmt, Target};
use can_model::Message;
use cg_out::{List, Memory, Text};
use name_rules::MessageNames;
use std::alloc::Global;

fn parameter(alloc: Global, kind: CType, name: &[u8]) -> Result<Field, Memory>
    ensures { IfOk result (λ f. bare_field f ≡ pack.parameter kind name.now) }
{
    Ok(Field {
        kind,
        name: Text::copy_of(alloc, name)?,
        place: nowhere(),
    })
}

/// The struct of that tag, the bytes, and how many they are.
fn parameters(alloc: Global, tag: &[u8]) -> Result<List<Field>, Memory>
    ensures { IfOk result (λ v. map bare_field v ≡ spec.parameters tag.now) }
{
    let to = CType::Pointer {
        target: Target::Struct(Text::copy_of(alloc, tag)?),
        constant: false,
    };
    let from = CType::Pointer {
        target: Target::Byte,
        constant: true,
    };
    let mut params = List::new(alloc);
    params.push(parameter(alloc, to, structure())?)?;
    params.push(parameter(alloc, from, bytes())?)?;
    params.push(parameter(alloc, CType::Integer(Spelled::Size), size())?)?;
    Ok(params)
}

fn body(alloc: Global, message: &Message, names: &MessageNames) -> Result<List<Stmt>, Memory>
    requires valid { IsOfValidDatabase message.now }
    requires flat { AllByRecursion HasNoParent message.now.signals }
    ensures { IfOk result (λ v. map bare_statement v ≡ spec.message_body (name pack.error_name) message.now names.now) }
{
    if message.length == 0 {
        empty_body(alloc)
    } else {
        long_body(
            alloc,
            message.length,
            message.signals.items(),
            names.signals.items(),
        )
    }
}

/// The function with this body, or its prototype where there is none.
fn with_body(
    alloc: Global,
    names: &MessageNames,
    body: Option<List<Stmt>>,
) -> Result<Function, Memory>
    ensures { IfOk result (λ f. bare_item (AFunction f) ≡ function (spec.unpack_head names.now) (bare_body body)) }
{
    Ok(Function {
        fixed: false,
        returns: CType::Integer(Spelled::Plain(IntType::Int)),
        name: Text::copy_of(alloc, names.unpack.bytes())?,
        params: parameters(alloc, names.tag.bytes())?,
        body,
        place: nowhere(),
        close: nowhere(),
    })
}

/// The prototype of a message's unpack function.
///
/// ```text
/// int can_ping_unpack(struct can_ping_t *dst_p, const uint8_t *src_p, size_t size);
/// ```
pub fn unpack_prototype(alloc: Global, names: &MessageNames) -> Result<Function, Memory>
    ensures { IfOk result (λ f. bare_item (AFunction f) ≡ function (spec.unpack_head names.now) None) }
{
    with_body(alloc, names, None)
}

fn whole(alloc: Global, message: &Message, names: &MessageNames) -> Result<Function, Memory>
    requires valid { IsOfValidDatabase message.now }
    requires flat { AllByRecursion HasNoParent message.now.signals }
    ensures { IfOk result (λ f. bare_item (AFunction f) ≡ spec.unpack_function (name pack.error_name) message.now names.now) }
{
    let body = body(alloc, message, names)?;
    with_body(alloc, names, Some(body))
}

/// The unpack function of a message in which no signal has a parent.
///
/// Under every data model, a call of it gives -22 where the size is below the message's length, and
/// 0 where that length is 0, for any two pointers, and touches nothing. Else, where the first pointer
/// is at the message's struct, and the second at an object that begins with as many bytes as the
/// message has, it gives 0; each field whose signal is active holds the signal's raw value of these
/// bytes, and all other fields and objects are as before. That is said of the function as a text has
/// it, in which `EINVAL` is the number 22, in each unit that has the message's struct and the helpers
/// that are called.
pub fn unpack_tree(
    alloc: Global,
    message: &Message,
    names: &MessageNames,
) -> Result<Function, Memory>
    requires valid { IsOfValidDatabase message.now }
    requires flat { AllByRecursion HasNoParent message.now.signals }
    ensures tree { IfOk result (λ f. bare_item (AFunction f) ≡ spec.unpack_function (name pack.error_name) message.now names.now) }
    ensures unpacks { IsNamed message.now names.now → IfOk result (λ f. UnpacksAs message.now names.now f) }
{
    whole(alloc, message, names)
}
