// Reports on the recording book that stands on standard input (document 01, "The recording book"). Where the input cannot be read to its end, there is no
// report.
#![tactic(auto)]

ghost use Rattle.std.specs.Prelude.{◌≡◌, length};

// Room for every report.
fn space() -> [u8; report_text::MOST]
    ensures { 1966198 ≡ length result }
{
    [0; report_text::MOST]
}

fn main(rt: HostRuntime) {
    let mut input = rt.stdin();
    let mut book = [0u8; words::ROOM];
    let n = words::read_full(&mut input, &mut book);
    if !words::is_whole(&rt, &mut input, n, words::ROOM, "standard input") {
        return;
    }
    let mut out = space();
    match report_text::report(&book[..n], &mut out) {
        Err(_) => unreachable!(),
        Ok(m) => write(&rt, &out[..m]),
    }
}

// Writes the report; where that fails, it is told on standard error.
fn write(rt: &(impl Print + Eprint + Alloc), report: &[u8]) {
    if let Err(e) = rt.write_all(report) {
        words::fail(rt, "standard output", &e);
    }
}
