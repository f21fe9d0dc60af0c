ghost use Rattle.std.specs.Prelude.{◌≡◌, IfOk};
ghost use Rattle.std.specs.Option.{option_map};
ghost use Rattle.vc_command.specs.Requests.{command_of, expression_request, fixed_request, limited_request};
ghost use Rattle.vc_command.specs.Views.{asked, texts};

use crate::number::number_within;
use crate::request::Request;
use std::alloc::{AllocError, Global};

/// The commands that name no option.
#[derive(Clone, Copy)]
pub(crate) enum Fixed {
    Context,
    Expr,
    Cat,
    Eval,
    Proper,
    Trim,
    Quotient,
    Reduce,
    Generate,
}

/// The commands that name `--limit`.
#[derive(Clone, Copy)]
pub(crate) enum Limited {
    Standard,
    Derived,
    Conjunction,
    Shuffle,
    Compose,
    Determinize,
}

/// The commands, by the option that they name; `to-expression` names `--order`.
#[derive(Clone, Copy)]
pub(crate) enum Command {
    Fixed(Fixed),
    Limited(Limited),
    ToExpression,
}

impl Command {
    /// The command of this name.
    pub(crate) fn named(name: &str) -> Option<Command>
        ensures { result ≡ command_of name.now }
    {
        Some(match name {
            "context" => Command::Fixed(Fixed::Context),
            "expr" => Command::Fixed(Fixed::Expr),
            "cat" => Command::Fixed(Fixed::Cat),
            "eval" => Command::Fixed(Fixed::Eval),
            "proper" => Command::Fixed(Fixed::Proper),
            "trim" => Command::Fixed(Fixed::Trim),
            "quotient" => Command::Fixed(Fixed::Quotient),
            "reduce" => Command::Fixed(Fixed::Reduce),
            "generate" => Command::Fixed(Fixed::Generate),
            "standard" => Command::Limited(Limited::Standard),
            "derived" => Command::Limited(Limited::Derived),
            "conjunction" => Command::Limited(Limited::Conjunction),
            "shuffle" => Command::Limited(Limited::Shuffle),
            "compose" => Command::Limited(Limited::Compose),
            "determinize" => Command::Limited(Limited::Determinize),
            "to-expression" => Command::ToExpression,
            _ => return None,
        })
    }
}

/// The request of a command that names no option, or none. `words` are those behind the command.
pub(crate) fn fixed_request(
    alloc: Global,
    command: Fixed,
    words: &[&str],
) -> Result<Option<Request>, AllocError>
    ensures { IfOk result (λ r. option_map asked r ≡ fixed_request command (texts words.now)) }
{
    let owned = |text: &str| String::from_str(alloc, text);
    let request = match (command, words) {
        (Fixed::Context, [text]) => Request::Context { text: owned(text)? },
        (Fixed::Expr, [context, text]) => Request::Expr {
            context: owned(context)?,
            text: owned(text)?,
        },
        (Fixed::Cat, [file]) => Request::Cat { file: owned(file)? },
        (Fixed::Eval, [file, word]) => Request::EvalFile {
            file: owned(file)?,
            word: owned(word)?,
        },
        (Fixed::Eval, [context, text, word]) => Request::EvalExpr {
            context: owned(context)?,
            text: owned(text)?,
            word: owned(word)?,
        },
        (Fixed::Proper, [file]) => Request::Proper { file: owned(file)? },
        (Fixed::Trim, [file]) => Request::Trim { file: owned(file)? },
        (Fixed::Quotient, [file]) => Request::Quotient { file: owned(file)? },
        (Fixed::Reduce, [file]) => Request::Reduce { file: owned(file)? },
        (Fixed::Generate, [n]) => {
            return Ok(number_within(1, 1_000, n).map(|n| Request::Generate { n: u64::from(n) }));
        }
        _ => return Ok(None),
    };
    Ok(Some(request))
}

/// The request of a command that names `--limit`, or none.
pub(crate) fn limited_request(
    alloc: Global,
    command: Limited,
    words: &[&str],
    limit: u64,
) -> Result<Option<Request>, AllocError>
    ensures { IfOk result (λ r. option_map asked r ≡ limited_request command (texts words.now) limit) }
{
    let owned = |text: &str| String::from_str(alloc, text);
    let request = match (command, words) {
        (Limited::Standard, [context, text]) => Request::Standard {
            context: owned(context)?,
            text: owned(text)?,
            limit,
        },
        (Limited::Derived, [context, text]) => Request::Derived {
            context: owned(context)?,
            text: owned(text)?,
            limit,
        },
        (Limited::Conjunction, [first, second]) => Request::Conjunction {
            first: owned(first)?,
            second: owned(second)?,
            limit,
        },
        (Limited::Shuffle, [first, second]) => Request::Shuffle {
            first: owned(first)?,
            second: owned(second)?,
            limit,
        },
        (Limited::Compose, [first, second]) => Request::Compose {
            first: owned(first)?,
            second: owned(second)?,
            limit,
        },
        (Limited::Determinize, [file]) => Request::Determinize {
            file: owned(file)?,
            limit,
        },
        _ => return Ok(None),
    };
    Ok(Some(request))
}

/// The request of `to-expression`, or none.
pub(crate) fn expression_request(
    alloc: Global,
    words: &[&str],
    order: Option<Vec<u32>>,
) -> Result<Option<Request>, AllocError>
    ensures { IfOk result (λ r. option_map asked r ≡ expression_request (texts words.now) (option_map (λ v. v.items) order)) }
{
    let [file] = words else {
        return Ok(None);
    };
    let file = String::from_str(alloc, file)?;
    Ok(Some(Request::ToExpression { file, order }))
}
