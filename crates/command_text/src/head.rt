//! The head lines of replies.

ghost use Rattle.std.specs.Prelude.{◌≡◌, ◌≤◌, length, take};
ghost use Rattle.command_types.specs.Text.{head_text};

use crate::answer_text::put_answer;
use crate::put::{put, put_told};
use crate::refusal_text::put_refusal;
use command_types::{Answer, Reply, Roster};

// Writes the head line into a buffer of at least 256 bytes.
fn put_head(into: &mut [u8], reply: &Reply, roster: &Roster) -> usize
    requires { 256 ≤ length into.old }
    ensures end { result ≤ length into.old }
    ensures text { take result into.new ≡ head_text roster.now reply.now.at reply.now.answer }
{
    if let Answer::No(refusal) = reply.answer {
        let end = put_told(into, 0, b"no ", reply.at);
        let end = put(into, end, b" ");
        let end = put_refusal(into, end, roster, refusal);
        return put(into, end, b"\n");
    }
    let end = put_told(into, 0, b"ok ", reply.at);
    let end = put_answer(into, end, &reply.answer);
    put(into, end, b"\n")
}

/// Writes the head line of a reply at the buffer's start, with its line feed, and says how many bytes it has. It always
/// fits, and takes no memory. A place of a `BadCertificate` that the roster has not is told without a name; `Problems`,
/// which no session is told, have no words.
pub fn write_head(reply: &Reply, roster: &Roster, into: &mut [u8; 4096]) -> usize
    ensures fits { result ≤ 4096 }
    ensures text { take result into.new ≡ head_text roster.now reply.now.at reply.now.answer }
{
    put_head(into, reply, roster)
}
