//! The program: real files and streams, and the words after the program's name.
#![tactic(auto)]

ghost use Rattle.std.specs.Prelude.{◌≡◌};
ghost use Rattle.std.specs.Process.{exit_status};
ghost use Rattle.vc_top.specs.Statuses.{code_of};

use std::alloc::AllocError;
use std::env;
use std::io::ErrorKind;
use std::process::ExitCode;
use vc_command::RequestFault;
use vc_files::{RealFiles, RealSink};
use vc_top::{Status, refuse, run};

/// The words after the program's name, or why they are not to be had: they are no text, or there is no memory for them.
fn words<R: std::rt::Env + AllocGlobal>(rt: &R) -> Result<Vec<String>, RequestFault> {
    let mut words = Vec::new(rt.alloc());
    let mut all = match env::args(rt) {
        Ok(all) => all,
        Err(error) if error.kind() == ErrorKind::OutOfMemory => {
            return Err(RequestFault::Memory(AllocError));
        }
        Err(_) => return Err(RequestFault::Usage),
    };
    all.next();
    for word in all {
        if let Err(fault) = words.push(word) {
            return Err(RequestFault::Memory(fault.into()));
        }
    }
    Ok(words)
}

/// The exit code of a status.
fn exit_code(status: Status) -> ExitCode
    ensures { exit_status result ≡ code_of status }
{
    ExitCode::from(status.code())
}

fn main(rt: HostRuntime) -> ExitCode {
    let mut err = RealSink::new(rt.stderr());
    let status = match words(&rt) {
        Ok(words) => {
            let mut files = RealFiles::new(rt.alloc(), &rt);
            let mut out = RealSink::new(rt.stdout());
            run(rt.alloc(), &words, &mut files, &mut out, &mut err)
        }
        Err(fault) => refuse(fault, &mut err),
    };
    exit_code(status)
}
