ghost use Rattle.std.specs.Prelude.{◌≡◌, ◌≢◌, IfOk, IsErrOf, map, None, string_bytes};
ghost use Rattle.std.specs.Option.{option_map};
ghost use Rattle.vc_command.specs.Requests.{line_request, request_of};
ghost use Rattle.vc_command.specs.Views.{asked, line};
ghost use Rattle.vc_command.specs.Parsers.{app};
ghost use Rattle.clap.specs.Words.{app_of, kind_of};

use crate::command::{Command, expression_request, fixed_request, limited_request};
use crate::number::{number_within, order_of};
use crate::request::{Request, RequestFault};
use clap::error::ErrorKind;
use clap::{Arg, ArgAction};
use std::alloc::{AllocError, Global};

/// The greatest limit of states.
const MOST_STATES: u32 = 1_000_000;

/// The limit of states where none is given.
const DEFAULT_LIMIT: u64 = 100_000;

/// The plain words of a command line, and the values of its options.
#[derive(Drop)]
pub(crate) struct Line<'w> {
    pub(crate) plain: Vec<&'w str>,
    pub(crate) limit: Option<&'w str>,
    pub(crate) order: Option<&'w str>,
}

/// What `clap` is told: two options with one value each, and a last positional with several.
fn parser<'w>(alloc: Global) -> Result<clap::Command<'w>, AllocError>
    ensures { IfOk result (λ c. app_of c ≡ app) }
{
    let limit = Arg::new(alloc, "limit").long("limit");
    let order = Arg::new(alloc, "order").long("order");
    let words = Arg::new(alloc, "words")
        .action(ArgAction::Append)
        .num_args(1..);
    clap::Command::new(alloc, "vcsnr")
        .no_binary_name(true)
        .disable_help_flag(true)
        .disable_version_flag(true)
        .arg(limit)?
        .arg(order)?
        .arg(words)
}

/// Want of memory, where `clap` says so; any other error is one of the words.
fn fault(error: &clap::Error) -> RequestFault
    ensures { result ≡ RequestFault.Usage → kind_of error.now ≢ ErrorKind.OutOfMemory }
{
    match error.kind() {
        ErrorKind::OutOfMemory => RequestFault::Memory(AllocError),
        _ => RequestFault::Usage,
    }
}

impl<'w> Line<'w> {
    /// A line that has the request of the words, or `Usage`, where they have none.
    ///
    /// It is their line, but where `clap` takes a lone dash as the value of an option: that is no number.
    pub(crate) fn read(alloc: Global, words: &'w [String]) -> Result<Line<'w>, RequestFault>
        ensures ok { IfOk result (λ l. request_of (map string_bytes words.entry.now) ≡ line_request (line l)) }
        ensures usage { IsErrOf result RequestFault.Usage → request_of (map string_bytes words.entry.now) ≡ None }
    {
        let matches = match parser(alloc)?.try_get_matches_from(words) {
            Ok(matches) => matches,
            Err(error) => return Err(fault(&error)),
        };
        let plain = match matches.get_strs("words") {
            Some(words) => Vec::from_slice(alloc, words)?,
            None => Vec::new(alloc),
        };
        Ok(Line {
            plain,
            limit: matches.get_str("limit"),
            order: matches.get_str("order"),
        })
    }

    /// The request of the line, or none.
    pub(crate) fn request(&self, alloc: Global) -> Result<Option<Request>, AllocError>
        ensures { IfOk result (λ r. option_map asked r ≡ line_request (line self.now)) }
    {
        let Some((name, words)) = self.plain.split_first() else {
            return Ok(None);
        };
        let Some(command) = Command::named(name) else {
            return Ok(None);
        };
        match (command, self.limit, self.order) {
            (Command::Fixed(command), None, None) => fixed_request(alloc, command, words),
            (Command::Limited(command), None, None) => {
                limited_request(alloc, command, words, DEFAULT_LIMIT)
            }
            (Command::Limited(command), Some(text), None) => {
                match number_within(1, MOST_STATES, text) {
                    Some(limit) => limited_request(alloc, command, words, u64::from(limit)),
                    None => Ok(None),
                }
            }
            (Command::ToExpression, None, None) => expression_request(alloc, words, None),
            (Command::ToExpression, None, Some(text)) => match order_of(alloc, text)? {
                Some(order) => expression_request(alloc, words, Some(order)),
                None => Ok(None),
            },
            _ => Ok(None),
        }
    }
}
