//! What a line asks, as far as it matters before it is carried out.
ghost use Rattle.std.specs.Prelude.{◌≡◌, false, MatchOption};
ghost use Rattle.tt_requests.specs.Asked.{asks_read_only, asks_to_forget, IsForgetRequest};

use crate::request::{Command, Request};
use crate::told::ToldTime;
use tt_grammar::DocFault;

/// A request to forget what lies before a time.
#[derive(Clone, Copy)]
pub struct ForgetRequest {
    /// The current time that it expects, if it does.
    pub expected: Option<ToldTime>,
    /// What lies before this time is to be forgotten.
    pub time: ToldTime,
}

/// Whether what a line asks leaves the database as it is, as a fault does.
pub fn asks_read_only(asked: &Result<Request, DocFault>) -> bool
    ensures { result ≡ asks_read_only asked.now }
{
    match asked {
        Ok(request) => request.command.is_read_only(),
        Err(_) => true,
    }
}

/// Whether what a line asks is to forget what lies before a time.
pub fn asks_to_forget(asked: &Result<Request, DocFault>) -> bool
    ensures { result ≡ asks_to_forget asked.now }
{
    match asked {
        Ok(request) => request.command.is_forget(),
        Err(_) => false,
    }
}

/// What a line asks, if it is to forget what lies before a time.
pub fn forget_request(asked: &Result<Request, DocFault>) -> Option<ForgetRequest>
    ensures { MatchOption result (asks_to_forget asked.now ≡ false) (IsForgetRequest asked.now) }
{
    let Ok(request) = asked else {
        return None;
    };
    match request.command {
        Command::Forget(time) => Some(ForgetRequest {
            expected: request.expected,
            time,
        }),
        _ => None,
    }
}
