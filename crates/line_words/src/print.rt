// A refusal as a printed line.
ghost use Rattle.std.specs.Prelude.{OnOk, string_bytes};
ghost use Rattle.ring_records.specs.Texts.{refusal_text};
ghost use Rattle.line_words.specs.Added.{AddsLine};

use ring_records::Refusal;
use std::alloc::AllocError;

/// Adds the line of a refusal. After want of memory, the only `Err`, `out` has no meaning.
pub fn print_refusal(out: &mut String, refusal: Refusal) -> Result<(), AllocError>
    ensures { OnOk result (AddsLine (string_bytes out.old) (string_bytes out.new) (refusal_text refusal)) }
{
    writeln!(out, "{refusal}")
}
