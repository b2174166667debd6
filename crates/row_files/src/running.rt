// The rows of standard input, one after another.
use crate::file::{RowFault, RowFile};
use crate::members::word_at;
use crate::told::{Told, Totals};
use json_tree::tree_of;
use serde_json::Value;
use std::alloc::AllocError;
use std::io;
use std::io::{BufRead, BufReader};
use std::process::ExitCode;

fn run_row<F: Fn(&RowFile, &Value, &mut Told)>(
    run: &F,
    file: &RowFile,
    name: &str,
    row: &Value,
    totals: &mut Totals,
) -> Result<(), AllocError>
    requires { F.IsAlwaysCallable run.now }
{
    let mut told = Told::new(file.alloc());
    run(file, row, &mut told);
    totals.ran(name, &told)
}

// Takes over what an object names, or runs the row that it is.
fn run_object<F: Fn(&RowFile, &Value, &mut Told)>(
    run: &F,
    file: &mut RowFile,
    object: &Value,
    totals: &mut Totals,
) -> Result<(), AllocError>
    requires { F.IsAlwaysCallable run.now }
{
    if let Some(name) = word_at(object, "let") {
        return match file.name(name, object) {
            Ok(()) => Ok(()),
            Err(fault) => totals.unread(fault),
        };
    }
    match word_at(object, "name") {
        Some(name) => run_row(run, file, name, object, totals),
        None if object.is_object() => totals.unread(RowFault::NoName),
        None => totals.unread(RowFault::NotAnObject),
    }
}

fn run_line<F: Fn(&RowFile, &Value, &mut Told)>(
    run: &F,
    file: &mut RowFile,
    line: &str,
    totals: &mut Totals,
) -> Result<(), AllocError>
    requires { F.IsAlwaysCallable run.now }
{
    totals.next_line();
    if line.is_empty() || line.starts_with('#') {
        return Ok(());
    }
    match tree_of(file.alloc(), line.as_bytes()) {
        Ok(object) => run_object(run, file, &object, totals),
        Err(_) => totals.unread(RowFault::NotAnObject),
    }
}

/// Runs the rows of standard input: `run` does what the members of a row say, and compares what comes of it (`Told`). Tells each row that comes
/// otherwise than it is wanted, each line that isn't read, and at the end how many passed and failed. The status is 0 where there were
/// rows and all passed, else 1.
pub fn run_rows<F: Fn(&RowFile, &Value, &mut Told)>(
    rt: &HostRuntime,
    run: &F,
) -> io::Result<ExitCode>
    requires { F.IsAlwaysCallable run.now }
{
    let mut file = RowFile::new(rt.alloc());
    let mut totals = Totals::new(rt.alloc());
    for line in BufReader::new(rt.alloc(), rt.reader())?.lines(rt.alloc()) {
        run_line(run, &mut file, line?.as_str(), &mut totals)?;
        let told = totals.told();
        print!(rt; "{told}")?;
    }
    let (passed, failed) = totals.counts();
    println!(rt; "{passed} passed, {failed} failed")?;
    if passed > 0 && failed == 0 {
        Ok(ExitCode::SUCCESS)
    } else {
        Ok(ExitCode::FAILURE)
    }
}
