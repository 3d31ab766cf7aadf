//! Reads a script on standard input and prints its trace; after a fault, the record of the fault.
#![tactic(auto)]

ghost use Rattle.std.specs.Prelude.{◌≤◌, length, IfOk};

use runner::run::{SCRIPT_LIMIT, run_script};
use std::io::{Read, Write};
use std::{env, io};
use trace::fault_record;

/// What the program says of itself.
const HELP: &str = "line-run: runs a script of calls on a line, and prints what it answers

  line-run < SCRIPT

A script is RFC 4180 text of at most 65536 bytes, a record of seven fields for each call:
  call,member,number,set,class,first,second
  O opens the line (member count, last issue number, and in class the kind of machine:
    1 axis bank, 2 recorder, 3 tally)
  S sends a command (sender, set of members, class 1 to 4, first, second)
  H hears, G gathers, T settles (member, issue number)
  R runs (member)
Fields that a call does not use are empty.

The trace has a record for each call: step, 0 or the refusal, issue number, timestamp.
At the end come the cells of every station: C, member, cell index, cell.
After a fault in the script comes one record more: F, number, record, byte offset.

docs/FORMATS.md has every rule, limit and number.
";

/// Reads until the input ends or the bytes are full, and answers how many were read.
fn read_input(rt: &HostRuntime, bytes: &mut [u8]) -> io::Result<usize>
    ensures { IfOk result (λ n. n ≤ length bytes.old) }
{
    let mut input = rt.stdin();
    // `read_exact` refuses a shorter script, and `take` with `read_to_end` wants a `Vec`: the buffers are arrays, with no heap.
    let mut filled = 0;
    while filled < bytes.len() {
        let count = input.read(&mut bytes[filled..])?;
        if count == 0 {
            break;
        }
        filled += count;
    }
    Ok(filled)
}

/// Whether a word of the command line asks what the program does.
fn asks_for_help(rt: &HostRuntime) -> io::Result<bool> {
    Ok(env::args(rt)?.any(|word| word.as_str() == "--help"))
}

fn main(rt: HostRuntime) -> io::Result<()> {
    if asks_for_help(&rt)? {
        return rt.print(HELP);
    }
    let mut script = [0; SCRIPT_LIMIT + 1];
    let mut trace = [0; SCRIPT_LIMIT];
    let length = read_input(&rt, &mut script)?;
    let report = run_script(&script[..length], &mut trace);
    let mut output = rt.stdout();
    output.write_all(&trace[..report.written])?;
    if let Some(fault) = report.fault {
        let record = fault_record(fault);
        output.write_all(&record.bytes[..record.used])?;
    }
    Ok(())
}
