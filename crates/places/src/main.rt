// The program: it reads standard input to its end, and writes the report on it. An input that is too long needs no more than its first
// 12,001 bytes. Where reading or writing fails, a line on standard error says which, and the status is 1; an input that was not read to its end
// has no report.
#![tactic(auto)]

mod failure;

ghost use Rattle.std.specs.Prelude.{IfSome, IfErr, OnOk};
ghost use Rattle.std.specs.Io.KnownBytes.{Appends, Keeps};
ghost use Rattle.report.specs.Report.{report_of};
ghost use Rattle.places.specs.Failures.{IsReading};

use failure::Failure;
use page::Page;
use std::io::{Read, Write};
use std::process::ExitCode;

fn main(rt: HostRuntime) -> ExitCode {
    match answer(&mut rt.stdin(), &mut rt.stdout()) {
        Ok(()) => ExitCode::SUCCESS,
        Err(failure) => {
            let _ = eprintln!(rt; "places: {failure}");
            ExitCode::FAILURE
        }
    }
}

// Reads an input to its end and writes its report, of which nothing is written where reading fails.
fn answer<R: Read, W: Write>(reader: &mut R, writer: &mut W) -> Result<(), Failure>
    ensures report { OnOk result (IfSome (R.remaining reader.old)
        (λ input. Appends (W.contents writer.old) (W.contents writer.new) (report_of input))) }
    ensures unread { IfErr result (λ failure. IsReading failure → Keeps (W.contents writer.old) (W.contents writer.new)) }
{
    let mut input = [0u8; input::MAX_INPUT + 1];
    let n = calls::read_all(reader, &mut input).map_err(Failure::Reading)?;
    let mut bytes = [0u8; report::PAGE];
    let mut page = Page::new(&mut bytes);
    report::put_report(&mut page, &input[..n]);
    writer.write_all(page.written()).map_err(Failure::Writing)
}
