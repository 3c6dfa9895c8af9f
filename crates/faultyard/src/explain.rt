//! What is told below a fault line, on a terminal or by `--explain`: which file it is about, and
//! why; and of a bad entry what the rules give in its place.
use crate::bad_entry::{BadEntry, find_bad_entry};
use fy_streams::{Stop, load_config};
use fy_where::run_config;
use std::fs::{self, File};
use std::io::{self, IsTerminal, Read, Write};

/// What a fault may be about.
#[derive(Clone, Copy)]
pub struct Named<'a> {
    /// The files that the command line names, the cluster file first.
    pub files: [Option<&'a str>; 2],
    /// The audit whose entries are checked, if one is.
    pub audit: Option<&'a str>,
    /// Whether it is explained, whatever standard error is.
    pub explain: bool,
}

/// Whether a fault is explained: on a terminal, or where it was asked for.
fn is_wanted(rt: &HostRuntime, named: &Named<'_>) -> bool {
    named.explain || rt.stderr().is_terminal()
}

/// Says below the fault line of a stop which of the files can't be read and why, or where the fault
/// of the cluster file lies.
pub fn explain(rt: &HostRuntime, named: &Named<'_>, stop: Stop) {
    if !is_wanted(rt, named) {
        return;
    }
    match stop {
        Stop::Read => explain_read(rt, &named.files),
        Stop::Config { .. } => {
            if let Some(path) = named.files[0] {
                explain_config(rt, path, stop);
            }
        }
        _ => {}
    }
}

/// Says of the first bad entry of the audit how it is there, and what the rules give. It does so
/// only where cluster file and audit can be read twice.
pub fn explain_entry(rt: &HostRuntime, named: &Named<'_>) {
    if !is_wanted(rt, named) {
        return;
    }
    if let (Some(config), Some(audit)) = (named.files[0], named.audit) {
        if let Ok(Some(bad)) = bad_entry_of(rt, config, audit) {
            write_bad_entry(rt, audit, &bad);
        }
    }
}

/// The first bad entry of an audit, if both files can be read again.
fn bad_entry_of(rt: &HostRuntime, config: &str, audit: &str) -> Result<Option<BadEntry>, Stop> {
    let (Some(mut file), Some(mut audit)) = (open_again(rt, config), open_again(rt, audit)) else {
        return Ok(None);
    };
    let config = load_config(rt.alloc(), &mut file)?;
    find_bad_entry(rt.alloc(), config, &mut audit)
}

/// Writes where a bad entry stands and why it is bad, and below that the entry and the one that the
/// rules give.
fn write_bad_entry(rt: &HostRuntime, path: &str, bad: &BadEntry) {
    let place = bad.entry.at;
    // An entry a line, behind the header.
    let line = place as u64 + 2;
    let _ = match bad.given {
        Some(_) => eprint!(rt; "{path}:{line}: the rules give another reply\n"),
        None => eprint!(rt; "{path}:{line}: the journal is full: its limit is {place}\n"),
    };
    if let Ok(lines) = bad.lines(rt.alloc()) {
        let _ = rt.stderr().write_all(lines.as_slice());
    }
}

/// Names the first of these files that can't be read, with the reason.
fn explain_read(rt: &HostRuntime, files: &[Option<&str>]) {
    for path in files.iter().flatten() {
        if let Err(error) = read_a_byte(rt, path) {
            let _ = eprint!(rt; "{path}: {error}\n");
            return;
        }
    }
}

/// Whether a file can be read. What can be read but once, as a pipe, isn't tried.
fn read_a_byte(rt: &HostRuntime, path: &str) -> io::Result<()> {
    let meant = fs::metadata(rt, path)?;
    if meant.is_file() || meant.is_dir() {
        let mut byte = [0u8; 1];
        let _ = fs::open(rt, path)?.read(&mut byte)?;
    }
    Ok(())
}

/// A file once more from its beginning. What can be read but once, as a pipe, isn't opened.
fn open_again(rt: &HostRuntime, path: &str) -> Option<File> {
    match fs::metadata(rt, path) {
        Ok(meant) if meant.is_file() => fs::open(rt, path).ok(),
        _ => None,
    }
}

/// Says where the fault of a cluster file lies, where the file still has it.
fn explain_config(rt: &HostRuntime, path: &str, stop: Stop) {
    let Some(mut file) = open_again(rt, path) else {
        return;
    };
    let Err(refusal) = run_config(rt.alloc(), path, &mut file, &mut io::sink()) else {
        return;
    };
    if refusal.stop == stop {
        let why = refusal.why.as_str();
        let _ = eprint!(rt; "{why}");
    }
}
