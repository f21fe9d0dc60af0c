ghost use Rattle.std.specs.Prelude.{◌≡◌, IfOk, IsErrOf, map, None, Some, string_bytes};
ghost use Rattle.vc_command.specs.Requests.{request_of};
ghost use Rattle.vc_command.specs.Views.{asked};

use crate::line::Line;
use std::alloc::{AllocError, Global};

/// What words ask for. A text is the word that gave it, as it was written.
#[derive(Debug, Drop, PartialEq, Eq)]
pub enum Request {
    /// `context C`
    Context {
        text: String,
    },
    /// `expr C E`
    Expr {
        context: String,
        text: String,
    },
    /// `cat FILE`
    Cat {
        file: String,
    },
    /// `eval FILE WORD`
    EvalFile {
        file: String,
        word: String,
    },
    /// `eval C E WORD`
    EvalExpr {
        context: String,
        text: String,
        word: String,
    },
    /// `standard C E`
    Standard {
        context: String,
        text: String,
        limit: u64,
    },
    /// `derived C E`
    Derived {
        context: String,
        text: String,
        limit: u64,
    },
    /// `proper FILE`
    Proper {
        file: String,
    },
    /// `trim FILE`
    Trim {
        file: String,
    },
    /// `conjunction A B`
    Conjunction {
        first: String,
        second: String,
        limit: u64,
    },
    /// `shuffle A B`
    Shuffle {
        first: String,
        second: String,
        limit: u64,
    },
    /// `compose A B`
    Compose {
        first: String,
        second: String,
        limit: u64,
    },
    /// `determinize FILE`
    Determinize {
        file: String,
        limit: u64,
    },
    /// `quotient FILE`
    Quotient {
        file: String,
    },
    /// `to-expression FILE`
    ToExpression {
        file: String,
        order: Option<Vec<u32>>,
    },
    /// `reduce FILE`
    Reduce {
        file: String,
    },
    /// `generate N`
    Generate {
        n: u64,
    },
}

/// Why words gave no request.
#[derive(Clone, Copy, Debug, PartialEq, Eq)]
pub enum RequestFault {
    /// There is no request of these words.
    Usage,
    /// There was no memory.
    Memory(AllocError),
}

impl From<AllocError> for RequestFault {
    ghost use Rattle.vc_command.specs.declared.request.RequestFault.TheVariants.{Memory};

    ghost from_gives = { λ error fault. fault ≡ Memory error };

    fn from(error: AllocError) -> RequestFault {
        RequestFault::Memory(error)
    }
}

/// The request of the words behind the program's name.
///
/// It is `Usage` exactly where the words give none; want of memory may come at any place.
pub fn request_of(alloc: Global, words: &[String]) -> Result<Request, RequestFault>
    ensures ok { IfOk result (λ r. request_of (map string_bytes words.now) ≡ Some (asked r)) }
    ensures usage { IsErrOf result RequestFault.Usage → request_of (map string_bytes words.now) ≡ None }
{
    let line = Line::read(alloc, words)?;
    match line.request(alloc)? {
        Some(request) => Ok(request),
        None => Err(RequestFault::Usage),
    }
}
