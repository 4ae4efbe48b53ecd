// The answer to one line.
ghost use Rattle.std.specs.Prelude.{◌≡◌, ◌⊎◌, ◌++◌, ◌∷◌, [], List, ℕ, Some, Option, IfOk, IfErr, IsErrOf, OnOk, codes, string_bytes};
ghost use Rattle.std.specs.Io.KnownBytes.{Appends};
ghost use Rattle.line_words.specs.Texts.{IsFront};
ghost use Rattle.line_words.specs.Added.{AddsLine};
ghost use Rattle.sessions.specs.Commands.{is_bye, question_in, request_of, said};
ghost use Rattle.sessions.specs.Session.{Answer, Replied, answer_text, is_last, question, response, told};

use crate::Service;
use crate::command::{Command, Question, read_command};
use crate::line::LINE_BYTES;
use crate::session::SessionFault;
use line_words::{print_refusal, without_return, write_whole};
use ring_records::{Refusal, Reply};
use std::alloc::{AllocError, Global};
use std::io::Write;

fn print_answer(out: &mut String, answer: Result<Reply, Refusal>) -> Result<(), AllocError>
    ensures { OnOk result (AddsLine (string_bytes out.old) (string_bytes out.new) (answer_text answer)) }
{
    match answer {
        Ok(reply) => writeln!(out, "{reply}"),
        Err(refusal) => print_refusal(out, refusal),
    }
}

fn ask_and_print<S: Service>(
    service: &mut S,
    question: Question,
    out: &mut String,
) -> Result<(), AllocError>
    ensures { (answer : Option Answer) × Replied S.answers service.old (Some (request_of question)) answer service.new
        × OnOk result (AddsLine (string_bytes out.old) (string_bytes out.new) (told answer)) }
{
    let answer = service.ask(question);
    print_answer(out, answer)
}

fn print_bye(out: &mut String) -> Result<(), AllocError>
    ensures { OnOk result (AddsLine (string_bytes out.old) (string_bytes out.new) (codes "bye")) }
{
    writeln!(out, "bye")
}

// Adds the line that answers what a line says.
fn print_response<S: Service>(
    service: &mut S,
    judged: Result<Command, Refusal>,
    out: &mut String,
) -> Result<(), AllocError>
    ensures { (answer : Option Answer) × Replied S.answers service.old (question_in judged) answer service.new
        × OnOk result (AddsLine (string_bytes out.old) (string_bytes out.new) (response judged answer)) }
{
    match judged {
        Ok(Command::Ask(question)) => ask_and_print(service, question, out),
        Ok(Command::Bye) => print_bye(out),
        Err(refusal) => print_refusal(out, refusal),
    }
}

// Writes a text whole, and flushes it out.
fn send<W: Write>(writer: &mut W, text: &str) -> Result<(), SessionFault>
    ensures ok { OnOk result (Appends (W.contents writer.old) (W.contents writer.new) text.now) }
    ensures front { (front : List ℕ) × IsFront front text.now × Appends (W.contents writer.old) (W.contents writer.new) front }
    ensures err { IfErr result (λ e. e ≡ SessionFault.Write) }
{
    if write_whole(writer, text.as_bytes()).is_err() {
        return Err(SessionFault::Write);
    }
    match writer.flush() {
        Ok(()) => Ok(()),
        Err(_) => Err(SessionFault::Write),
    }
}

fn is_bye(judged: &Result<Command, Refusal>) -> bool
    ensures { result ≡ is_bye judged.now }
{
    matches!(judged, Ok(Command::Bye))
}

#[tactic(auto, unfolding(crate::specs::Commands::said))]
/// Answers a line, which is given without its line feed, and tells whether the session ends with it. Refused as `Write`
/// after a front of the answer; as `Memory` with nothing written, and then the service was asked or not.
pub fn respond<W: Write, S: Service>(
    alloc: Global,
    writer: &mut W,
    service: &mut S,
    line: &[u8],
    out: &mut String,
) -> Result<bool, SessionFault>
    ensures ok { IfOk result (λ last. (last ≡ is_last line.now) × ((answer : Option Answer)
        × Replied S.answers service.old (question line.now) answer service.new
        × Appends (W.contents writer.old) (W.contents writer.new) (response (said line.now) answer ++ 10 ∷ []))) }
    ensures write { IsErrOf result SessionFault.Write → (answer : Option Answer)
        × Replied S.answers service.old (question line.now) answer service.new
        × ((front : List ℕ) × IsFront front (response (said line.now) answer ++ 10 ∷ [])
        × Appends (W.contents writer.old) (W.contents writer.new) front) }
    ensures memory { IsErrOf result SessionFault.Memory → Appends (W.contents writer.old) (W.contents writer.new) []
        × ((service.new ≡ service.old) ⊎ ((answer : Option Answer) × Replied S.answers service.old (question line.now) answer service.new)) }
    ensures read { IsErrOf result SessionFault.Read → ⊥ }
{
    out.clear();
    let judged = match read_command(alloc, without_return(line)) {
        Ok(judged) => judged,
        Err(_) => return Err(SessionFault::Memory),
    };
    if print_response(service, judged, out).is_err() {
        return Err(SessionFault::Memory);
    }
    send(writer, out)?;
    Ok(is_bye(&judged) || line.len() >= LINE_BYTES)
}
