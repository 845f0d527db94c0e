//! The outcome of a lookup, and its text.

ghost use Rattle.std.specs.Prelude.{◌≡◌, ◌++◌, ℕ, List, IfOk, length, nat_eq, if◌then◌else◌};
ghost use Rattle.std.specs.String.{string_bytes};
ghost use Rattle.nbt_client.specs.Answers.{answer_status, silence, no_names, TellsEnding};

use crate::lookup::Ending;
use nbt_show::{Reply, write_reply};
use std::alloc::AllocError;

/// The outcome of a lookup.
#[derive(Clone, Copy, Debug, PartialEq, Eq)]
pub enum Answer {
    /// There are addresses, or names.
    Found,
    /// The name isn't there.
    NotFound,
    /// No reply came in time.
    NoReply,
}

impl Answer {
    /// The exit status of the program: 0, 1 and 5 (our profile).
    pub fn status(self) -> u8
        ensures { result ≡ answer_status self }
    {
        match self {
            Answer::Found => 0,
            Answer::NotFound => 1,
            Answer::NoReply => 5,
        }
    }
}

/// Appends the text of the outcome of a lookup that ended so, `octets` being its reply if one came: the text of the reply, the line
/// `no names` where it lists nothing, or the line `no reply`, also where the node sent nothing.
pub fn write_ending(ending: Ending, octets: &[u8], out: &mut String) -> Result<Answer, AllocError>
    ensures { IfOk result (λ answer. (text : List ℕ) × TellsEnding ending octets.now answer text × (string_bytes out.new ≡ string_bytes out.old ++ text)) }
{
    match ending {
        Ending::Told => write_told(octets, out),
        Ending::NoReply => write_silence(out),
        Ending::Refused(_) => write_silence(out),
    }
}

/// Appends what a reply says, or `no reply` if the octets are none.
fn write_told(octets: &[u8], out: &mut String) -> Result<Answer, AllocError>
    ensures { IfOk result (λ answer. (text : List ℕ) × TellsEnding Ending.Told octets.now answer text × (string_bytes out.new ≡ string_bytes out.old ++ text)) }
{
    let before = out.as_str().len();
    match write_reply(octets, out)? {
        Reply::Found => end_found(before, out),
        Reply::NotFound => Ok(Answer::NotFound),
        Reply::Other => write_silence(out),
    }
}

/// Appends that nothing is listed, if nothing was appended to so many octets.
fn end_found(before: usize, out: &mut String) -> Result<Answer, AllocError>
    ensures { IfOk result (λ answer. (answer ≡ Answer.Found)
        × (string_bytes out.new ≡ (if nat_eq (length (string_bytes out.old)) before then string_bytes out.old ++ no_names else string_bytes out.old))) }
{
    if out.as_str().len() == before {
        out.push_str("no names\n")?;
    }
    Ok(Answer::Found)
}

/// Appends that no reply came.
fn write_silence(out: &mut String) -> Result<Answer, AllocError>
    ensures { IfOk result (λ answer. (answer ≡ Answer.NoReply) × (string_bytes out.new ≡ string_bytes out.old ++ silence)) }
{
    out.push_str("no reply\n")?;
    Ok(Answer::NoReply)
}
