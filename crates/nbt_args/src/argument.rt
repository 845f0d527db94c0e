//! The arguments of a command as a table, and the command that `clap` makes of it.

use clap::builder::ValueParser;
use clap::{Arg, ArgAction, Command};
use std::alloc::{AllocError, Global};
use std::fmt;

/// How an argument is written. Each form but a flag has the placeholder of its value in the help.
#[derive(Clone, Copy)]
pub enum Form {
    /// A positional value.
    Placed(&'static str),
    /// One or more positional values.
    PlacedMany(&'static str),
    /// A positional value that is one of these.
    PlacedChoice(&'static str, &'static [&'static str]),
    /// An option with a value.
    Option(&'static str),
    /// An option with a value, which may be repeated.
    Options(&'static str),
    /// An option with a value that is one of these.
    OptionChoice(&'static str, &'static [&'static str]),
    /// An option without a value.
    Flag,
}

/// Whether an argument must be given.
#[derive(Clone, Copy)]
pub enum Presence {
    Required,
    Optional,
    /// Optional, with this default value.
    Default(&'static str),
    /// Required unless the argument of this name is given.
    Unless(&'static str),
    /// Optional, and only beside the argument of this name.
    With(&'static str),
    /// Optional, and not beside the argument of this name.
    Apart(&'static str),
    /// Optional, and beside neither of the arguments of these names.
    ApartFrom(&'static str, &'static str),
    /// Either this argument is required or the argument of this name, and not both.
    InsteadOf(&'static str),
}

/// An argument of a command.
#[derive(Clone, Copy)]
pub struct Argument {
    /// The name under which its value is found. An option is written `--` and its name.
    pub name: &'static str,
    pub form: Form,
    pub presence: Presence,
    pub help: &'static str,
}

/// As usage has it: `<LIFE>`, `--at <MS>` or `--forever`.
impl fmt::Display for Argument {
    fn fmt<W: fmt::Write>(&self, f: &mut fmt::Formatter<W>) -> fmt::Result {
        let name = self.name;
        match self.form {
            Form::Placed(placeholder)
            | Form::PlacedMany(placeholder)
            | Form::PlacedChoice(placeholder, _) => write!(f, "<{placeholder}>"),
            Form::Option(placeholder)
            | Form::Options(placeholder)
            | Form::OptionChoice(placeholder, _) => write!(f, "--{name} <{placeholder}>"),
            Form::Flag => write!(f, "--{name}"),
        }
    }
}

/// A command, with its arguments and the help on it.
#[derive(Clone, Copy)]
pub struct Description {
    pub name: &'static str,
    pub about: &'static str,
    pub arguments: &'static [Argument],
    /// What the help prints after the arguments.
    pub help: &'static str,
}

/// Makes the command for `clap`.
pub fn command_of<'a>(alloc: Global, description: &Description) -> Result<Command<'a>, AllocError> {
    let mut command = Command::new(alloc, description.name)
        .about(description.about)
        .after_help(description.help);
    for argument in description.arguments {
        command = command.arg(arg_of(alloc, argument)?)?;
    }
    Ok(command)
}

/// Makes the argument for `clap`.
fn arg_of<'a>(alloc: Global, argument: &Argument) -> Result<Arg<'a>, AllocError> {
    let arg = Arg::new(alloc, argument.name).help(argument.help);
    let arg = with_form(arg, argument.name, argument.form);
    match argument.presence {
        Presence::Required => Ok(arg.required(true)),
        Presence::Optional => Ok(arg),
        Presence::Default(value) => Ok(arg.default_value(value)),
        Presence::With(other) => arg.requires_arg(other),
        Presence::Apart(other) => arg.conflicts_with(other),
        Presence::ApartFrom(one, other) => arg.conflicts_with(one)?.conflicts_with(other),
        Presence::Unless(other) => arg.required_unless_present(other),
        Presence::InsteadOf(other) => arg.conflicts_with(other)?.required_unless_present(other),
    }
}

/// Gives the argument this form. An option has this name.
fn with_form<'a>(arg: Arg<'a>, name: &'static str, form: Form) -> Arg<'a> {
    match form {
        Form::Placed(placeholder) => arg.value_name(placeholder),
        Form::PlacedMany(placeholder) => arg
            .value_name(placeholder)
            .action(ArgAction::Append)
            .num_args(1..),
        Form::PlacedChoice(placeholder, values) => arg
            .value_name(placeholder)
            .value_parser(ValueParser::Names(values)),
        Form::Option(placeholder) => arg.long(name).value_name(placeholder),
        Form::Options(placeholder) => arg
            .long(name)
            .value_name(placeholder)
            .action(ArgAction::Append),
        Form::OptionChoice(placeholder, values) => arg
            .long(name)
            .value_name(placeholder)
            .value_parser(ValueParser::Names(values)),
        Form::Flag => arg.long(name).action(ArgAction::SetTrue),
    }
}
