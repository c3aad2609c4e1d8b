// The two files that the program writes: both, or neither.
use std::alloc::{AllocError, Global};
use std::fs::OpenOptions;
use std::io::Write;
use std::rt::Files;
use std::{fs, io};

const SET: &str = "converted.tbl";

const PLAN: &str = "converted.rpt";

// Makes a file, open for writing. It fails where the name is taken.
fn create<R: Files>(rt: &R, name: &str) -> io::Result<R::File> {
    OpenOptions::new()
        .write(true)
        .create_new(true)
        .open(rt, name)
}

// Why something failed, in the system's words, without the error's number, which std puts behind them.
fn reason(alloc: Global, error: &io::Error) -> Result<String, AllocError> {
    let whole = format!(in alloc; "{error}")?;
    let code = error.raw_os_error().unwrap_or(0);
    let number = format!(in alloc; " (os error {code})")?;
    let words = whole
        .as_str()
        .strip_suffix(number.as_str())
        .unwrap_or(whole.as_str());
    format!(in alloc; "{words}")
}

// Says on standard error what failed, and why.
fn fail(rt: &impl Eprint, alloc: Global, what: &str, error: io::Error) {
    let _ = match reason(alloc, &error) {
        Ok(words) => eprintln!(rt; "{what}: {words}"),
        Err(_) => eprintln!(rt; "{what}: {error}"),
    };
}

// Removes a file that the program has made, as far as it can.
fn unlink(rt: &impl Files, name: &str) {
    let _ = fs::remove_file(rt, name);
}

// Writes bytes to an open file and closes it. An error is that not all were written.
fn fill(mut file: impl Write + Drop, bytes: &[u8]) -> io::Result<()> {
    file.write_all(bytes)
}

// Writes both to open files, and says whether all of both was written. Where one cannot be written, neither is left.
fn fill_both<R: Files + Eprint>(
    rt: &R,
    alloc: Global,
    set_file: R::File,
    plan_file: R::File,
    set: &[u8],
    plan: &[u8],
) -> bool {
    let set_written = fill(set_file, set);
    let plan_written = fill(plan_file, plan);
    match plan_written.and(set_written) {
        Ok(()) => true,
        Err(e) => {
            fail(rt, alloc, "converted.tbl, converted.rpt", e);
            unlink(rt, SET);
            unlink(rt, PLAN);
            false
        }
    }
}

// Makes both files and writes them, and says whether it did. A name that is taken is left as it is, and then nothing is written.
pub(crate) fn write_both(
    rt: &(impl Files + Eprint),
    alloc: Global,
    set: &[u8],
    plan: &[u8],
) -> bool {
    let set_file = match create(rt, SET) {
        Ok(file) => file,
        Err(e) => {
            fail(rt, alloc, SET, e);
            return false;
        }
    };
    let plan_file = match create(rt, PLAN) {
        Ok(file) => file,
        Err(e) => {
            fail(rt, alloc, PLAN, e);
            drop(set_file);
            unlink(rt, SET);
            return false;
        }
    };
    fill_both(rt, alloc, set_file, plan_file, set, plan)
}
