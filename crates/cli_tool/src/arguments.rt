//! The arguments that words give a function.
ghost use Rattle.std.specs.Prelude.{◌≡◌, IfOk, OnOk};
ghost use Rattle.std.specs.Option.{option_map};
ghost use Rattle.c_widths.specs.DataModel.{IsModel, model_of};
ghost use Rattle.c_types.specs.Setting.{structs};
ghost use Rattle.cli_tool.specs.CallArguments as spec;

use c_exec::{Arg, Object, Pointer};
use c_mean::Field;
use c_types::TypedUnit;
use cg_out::{List, Memory};
use command_words::Word;
use exec_words::{Argument, argument_of};
use std::alloc::Global;
use std::marker::Model;

/// Arguments, and the objects that they bring.
#[derive(Drop)]
pub struct Given {
    pub args: List<Arg>,
    pub objects: Vec<Object>,
}

impl Model for Given {
    ghost use Rattle.cli_tool.specs.CallArguments.{Given as Arguments};

    ghost Value = { Arguments };

    ghost view = { λ g. record { args = g.args; objects = g.objects.items } };
}

impl Given {
    /// Adds an argument behind the others.
    fn push(&mut self, argument: Argument) -> Result<(), Memory>
        ensures { OnOk result (self.new ≡ spec.with_argument self.old argument) }
    {
        match argument {
            Argument::Number(number) => self.args.push(Arg::Integer(number)),
            Argument::Null => self.args.push(Arg::Pointer(Pointer::Null)),
            Argument::Stray => self.args.push(Arg::Pointer(Pointer::Stray)),
            Argument::Object(object) => self.push_object(object),
        }
    }

    /// Adds a pointer to an object, and the object.
    fn push_object(&mut self, object: Object) -> Result<(), Memory>
        ensures { OnOk result (self.new ≡ spec.with_object self.old object) }
    {
        // More objects than this take more memory than there is.
        let Ok(index) = u32::try_from(self.objects.len()) else {
            return Err(Memory);
        };
        self.args.push(Arg::Pointer(Pointer::At(index)))?;
        self.objects.push(object)?;
        Ok(())
    }
}

/// The arguments that words give parameters, or none where they do not match.
pub fn arguments<const INT: u32, const LONG: u32, const PTR: u32>(
    alloc: Global,
    words: &[Word],
    params: &[Field],
    typed: &TypedUnit<'_, INT, LONG, PTR>,
) -> Result<Option<Given>, Memory>
    requires { IsModel INT LONG PTR }
    ensures { IfOk result (λ o. o ≡ spec.arguments_of (model_of INT LONG PTR) (structs typed.now.items) params.now words.now) }
{
    let given = Given {
        args: List::new(alloc),
        objects: Vec::new(alloc),
    };
    with_arguments(params, words, given, alloc, typed)
}

/// The same behind others.
fn with_arguments<const INT: u32, const LONG: u32, const PTR: u32>(
    params: &[Field],
    words: &[Word],
    mut given: Given,
    alloc: Global,
    typed: &TypedUnit<'_, INT, LONG, PTR>,
) -> Result<Option<Given>, Memory>
    requires { IsModel INT LONG PTR }
    ensures { IfOk result (λ o. o ≡ spec.with_arguments (model_of INT LONG PTR) (structs typed.now.items) params.now words.now given) }
{
    match params {
        [] => match words {
            [] => Ok(Some(given)),
            [_, ..] => Ok(None),
        },
        [param, params @ ..] => match words {
            [] => Ok(None),
            [word, words @ ..] => match argument_of(alloc, word.bytes(), &param.kind, typed)? {
                Some(argument) => {
                    given.push(argument)?;
                    with_arguments(params, words, given, alloc, typed)
                }
                None => Ok(None),
            },
        },
    }
}
