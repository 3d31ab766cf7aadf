//! Runs each example and says whether it gives the trace that is written for it.
#![tactic(auto)]

ghost use Rattle.example_runs.specs.Differences.{FirstDifference};
ghost use Rattle.example_runs.specs.Printed.{printed};
ghost use Rattle.runner.specs.Scripts.{outcome};
ghost use Rattle.std.specs.List.{prefix_len, zip};
ghost use Rattle.std.specs.Prelude.{◌≡◌, IfOk, nat_eq};

use runner::run::{SCRIPT_LIMIT, run_script};
use std::alloc::{AllocError, Global};
use std::{fs, io};
use trace::fault_record;

/// How many bytes two texts share before they differ or one of them ends.
fn shared_len(a: &[u8], b: &[u8]) -> usize
    ensures { result ≡ prefix_len (λ p. nat_eq p.0 p.1) (zip a.now b.now) }
{
    a.iter().zip(b).take_while(|(x, y)| *x == *y).count()
}

/// Where two texts first differ, if they do.
fn first_difference(a: &[u8], b: &[u8]) -> Option<usize>
    ensures { FirstDifference a.now b.now result }
{
    if a == b { None } else { Some(shared_len(a, b)) }
}

/// What a script gives: its trace, and the record of its fault behind it.
fn output(heap: Global, script: &[u8]) -> Result<Vec<u8>, AllocError>
    ensures { IfOk result (λ v. v.items ≡ printed (outcome script.now 65536)) }
{
    let mut trace = [0; SCRIPT_LIMIT];
    let report = run_script(script, &mut trace);
    let mut output = Vec::new(heap);
    output.extend_from_slice(&trace[..report.written])?;
    let Some(fault) = report.fault else {
        return Ok(output);
    };
    let record = fault_record(fault);
    output.extend_from_slice(&record.bytes[..record.used])?;
    Ok(output)
}

/// Runs one example.
fn run_example(rt: &HostRuntime, name: &str) -> io::Result<()> {
    let heap = rt.alloc();
    let script = fs::read(rt, format!(in heap; "{name}.csv")?)?;
    let trace = fs::read(rt, format!(in heap; "{name}.trace")?)?;
    let output = output(heap, &script)?;
    match first_difference(&output, &trace) {
        None => println!(rt; "{name}: {} bytes as written", output.len()),
        Some(at) => println!(rt; "{name}: differs at byte {at}"),
    }
}

fn main(rt: HostRuntime) -> io::Result<()> {
    for name in ["bottling", "fault", "refusals", "two_axes"] {
        run_example(&rt, name)?;
    }
    Ok(())
}
