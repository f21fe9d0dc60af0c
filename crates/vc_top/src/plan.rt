ghost use Rattle.std.specs.Prelude.{Some};
ghost use Rattle.vc_command.specs.Requests.{HasLimit};
ghost use Rattle.vc_command.specs.Views.{asked};
ghost use Rattle.vc_top.specs.Commands.{AnswersFile, AnswersFiles, AnswersTexts, AreWithin, HasLimits, IsPlan, IsWithin};
ghost use Rattle.vc_top.specs.Inputs.{IsSoundInput};
ghost use Rattle.vc_top.specs.Outcomes.{OrMemory};
ghost use Rattle.vc_top.specs.Plans.{plan_of};
ghost use Rattle.vc_top.specs.Views.{answer_of, input_of};

use crate::context::context;
use crate::evaluation::eval;
use crate::expression::expr;
use crate::input::AnyInput;
use crate::operation::{Operation, print};
use crate::product::{Product, print_product};
use crate::refusal::Refusal;
use crate::standard::{eval_text, standard};
use std::alloc::Global;
use vc_command::Request;

/// What a request wants: the files that are read, and the command that answers to them.
#[derive(Clone, Copy)]
pub(crate) enum Plan<'w> {
    /// No file is read.
    Texts(TextCommand<'w>),
    /// The file of this name is read.
    File(&'w str, FileCommand<'w>),
    /// The files of these names are read.
    Files(&'w str, &'w str, FilesCommand),
}

/// A command that reads no file.
#[derive(Clone, Copy)]
pub(crate) enum TextCommand<'w> {
    /// One that is not built.
    Unbuilt,
    /// `context C`
    Context {
        text: &'w str,
    },
    /// `expr C E`
    Expr {
        context: &'w str,
        text: &'w str,
    },
    /// `eval C E WORD`
    Eval {
        context: &'w str,
        text: &'w str,
        word: &'w str,
    },
    /// `standard C E`
    Standard {
        context: &'w str,
        text: &'w str,
        limit: u64,
    },
}

/// A command that reads one file.
#[derive(Clone, Copy)]
pub(crate) enum FileCommand<'w> {
    /// `cat FILE`, `proper FILE` and `trim FILE`
    Print(Operation),
    /// `eval FILE WORD`
    Eval { word: &'w str },
}

/// A command that reads two files.
#[derive(Clone, Copy)]
pub(crate) enum FilesCommand {
    /// `conjunction A B` and `shuffle A B`
    Join { product: Product, limit: u64 },
}

/// The plan of a request: a line for each command.
pub(crate) fn plan_of(request: &Request) -> Plan<'_>
    requires { HasLimit (asked request.now) }
    ensures plan { IsPlan result (plan_of (Some (asked request.now))) }
    ensures limits { HasLimits result }
{
    match request {
        Request::Context { text } => Plan::Texts(TextCommand::Context { text }),
        Request::Expr { context, text } => Plan::Texts(TextCommand::Expr { context, text }),
        Request::EvalExpr {
            context,
            text,
            word,
        } => Plan::Texts(TextCommand::Eval {
            context,
            text,
            word,
        }),
        Request::Standard {
            context,
            text,
            limit,
        } => Plan::Texts(TextCommand::Standard {
            context,
            text,
            limit: *limit,
        }),
        Request::Cat { file } => Plan::File(file, FileCommand::Print(Operation::Itself)),
        Request::Proper { file } => Plan::File(file, FileCommand::Print(Operation::Proper)),
        Request::Trim { file } => Plan::File(file, FileCommand::Print(Operation::Trim)),
        Request::Conjunction {
            first,
            second,
            limit,
        } => Plan::Files(
            first,
            second,
            FilesCommand::Join {
                product: Product::Conjunction,
                limit: *limit,
            },
        ),
        Request::Shuffle {
            first,
            second,
            limit,
        } => Plan::Files(
            first,
            second,
            FilesCommand::Join {
                product: Product::Shuffle,
                limit: *limit,
            },
        ),
        Request::EvalFile { file, word } => Plan::File(file, FileCommand::Eval { word }),
        _ => Plan::Texts(TextCommand::Unbuilt),
    }
}

/// The answer of a command that reads no file.
pub(crate) fn on_texts<'w>(alloc: Global, command: TextCommand<'w>) -> Result<String, Refusal<'w>>
    requires { IsWithin command }
    ensures { OrMemory (AnswersTexts command.entry) (answer_of result) }
{
    match command {
        TextCommand::Unbuilt => Err(Refusal::Usage),
        TextCommand::Context { text } => context(alloc, text.as_bytes()),
        TextCommand::Expr { context, text } => expr(alloc, context.as_bytes(), text),
        TextCommand::Eval {
            context,
            text,
            word,
        } => eval_text(alloc, context.as_bytes(), text, word),
        TextCommand::Standard {
            context,
            text,
            limit,
        } => standard(alloc, context.as_bytes(), text, limit),
    }
}

/// The answer of a command to the automaton of its file.
pub(crate) fn on_file<'w>(
    alloc: Global,
    command: FileCommand<'w>,
    input: AnyInput,
) -> Result<String, Refusal<'w>>
    requires { IsSoundInput (input_of input) }
    ensures { OrMemory (AnswersFile command.entry (input_of input)) (answer_of result) }
{
    match command {
        FileCommand::Print(operation) => print(alloc, operation, &input),
        FileCommand::Eval { word } => eval(alloc, input, word),
    }
}

/// The answer of a command to the automata of its two files.
pub(crate) fn on_files<'w>(
    alloc: Global,
    command: FilesCommand,
    first: &AnyInput,
    second: &AnyInput,
) -> Result<String, Refusal<'w>>
    requires { AreWithin command }
    ensures { OrMemory (AnswersFiles command (input_of first.now) (input_of second.now)) (answer_of
        result) }
{
    match command {
        FilesCommand::Join { product, limit } => {
            print_product(alloc, product, first, second, limit)
        }
    }
}
