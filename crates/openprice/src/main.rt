// Reads orders from standard input and prints the report on their auction.
#![tactic(auto)]

use ladder::BandedLadder;
use order_text::ReadError;
use price_report::report;
use std::io::Read;
use std::process::ExitCode;

fn main(rt: HostRuntime) -> anyhow::Result<ExitCode> {
    let heap = rt.alloc();
    let mut text = Vec::new(heap);
    rt.stdin().read_to_end(&mut text)?;
    match report(heap, &BandedLadder, text.as_slice()) {
        Ok(table) => {
            rt.print(table.as_str())?;
            Ok(ExitCode::SUCCESS)
        }
        Err(ReadError::Bad(line)) => {
            rt.eprint(line)?;
            Ok(ExitCode::FAILURE)
        }
        Err(e @ ReadError::NoMemory) => Err(e.into()),
    }
}
