// What stands around each page.
ghost use Rattle.std.specs.Prelude.{◌≡◌, ◌++◌, OnOk, string_bytes};
ghost use Rattle.ring_page.specs.Escaped.{escaped};
ghost use Rattle.ring_page.specs.Frame.{behind_title, before_title, end, start_of};

use crate::escape::push_escaped;
use std::alloc::AllocError;

#[tactic(auto, unfolding(crate::specs::Frame::before_title))]
fn print_before_title(out: &mut String) -> Result<(), AllocError>
    ensures { OnOk result (string_bytes out.new ≡ string_bytes out.old ++ before_title) }
{
    out.push_str(
        "<!DOCTYPE html>\n<html lang=\"en\">\n<head>\n<meta charset=\"utf-8\">\n<meta http-equiv=\"refresh\" content=\"5\">\n<meta http-equiv=\"Content-Security-Policy\" content=\"default-src 'none'; style-src 'unsafe-inline'; img-src data:\">\n<meta name=\"viewport\" content=\"width=device-width\">\n<link rel=\"icon\" href=\"data:,\">\n<title>",
    )
}

#[tactic(auto, unfolding(crate::specs::Frame::behind_title))]
fn print_behind_title(out: &mut String) -> Result<(), AllocError>
    ensures { OnOk result (string_bytes out.new ≡ string_bytes out.old ++ behind_title) }
{
    out.push_str(
        "</title>\n<style>body{font:15px sans-serif;margin:1em}table{border-collapse:collapse}th,td{border:1px solid #888;padding:2px 8px;text-align:right}svg{font-size:10px;text-anchor:middle}.way,.used{fill:none;stroke:#888}.used{stroke:#246;stroke-width:4}.well{fill:#cec}.limit{fill:#ffc;background:#ffc}.full{fill:#fd9;background:#fd9}.hangs,.failed{fill:#fbb;background:#fbb}</style>\n</head>\n<body>\n<h1>",
    )
}

#[tactic(auto, unfolding(crate::specs::Frame::end))]
/// Adds what ends a page.
pub(crate) fn print_end(out: &mut String) -> Result<(), AllocError>
    ensures { OnOk result (string_bytes out.new ≡ string_bytes out.old ++ end) }
{
    out.push_str("</body>\n</html>\n")
}

#[tactic(auto, using(ring_status::proofs::Appends::four))]
/// Adds what begins a page of this title, up to the end of its text at the top.
pub(crate) fn print_start(out: &mut String, title: &str) -> Result<(), AllocError>
    ensures { OnOk result (string_bytes out.new ≡ string_bytes out.old ++ start_of title.now) }
{
    print_before_title(out)?;
    push_escaped(out, title)?;
    print_behind_title(out)?;
    push_escaped(out, title)
}
