//! What `demo SEED COUNT` prints, over files and an output in memory.

use crate::world::PRINTED;
use std::alloc::Global;
use std::rt::HostRuntime;
use std::test::Fail;
use test_check::is_row;
use warg_base::{MemoryFiles, MemoryOut};
use warg_program::run;

/// The status of a run of the command with these words, and what it prints.
fn ended(alloc: Global, seed: &str, count: &str) -> Result<String, Fail> {
    let mut words = Vec::new(alloc);
    for word in ["demo", seed, count].iter() {
        words.push(String::from_str(alloc, word)?)?;
    }
    let mut files = MemoryFiles::new(alloc);
    let mut out = MemoryOut::new(alloc);
    let status = run(alloc, &words, &mut files, &mut out);
    let printed = String::from_utf8_lossy(alloc, out.bytes())?;
    Ok(format!(in alloc; "{status} {printed}")?)
}

/// Fails at the first row of a seed, a count, and what is printed with the status 0, that ends otherwise.
fn print_so(alloc: Global, rows: &[(&str, &str, &str)]) -> Result<(), Fail> {
    for (seed, count, printed) in rows {
        let wanted = format!(in alloc; "0 {printed}")?;
        is_row(seed, &ended(alloc, seed, count)?, &wanted)?;
    }
    Ok(())
}

#[test]
fn worlds_are_assembled_as_the_formats_make_them(rt: HostRuntime) -> Result<(), Fail> {
    print_so(rt.alloc(), PRINTED)
}

#[test]
fn the_same_words_print_the_same_lines(rt: HostRuntime) -> Result<(), Fail> {
    let alloc = rt.alloc();
    let first = ended(alloc, "1", "5")?;
    is_row("1 5", &ended(alloc, "1", "5")?, &first)?;
    // Zeros in front change no number.
    is_row("01 005", &ended(alloc, "01", "005")?, &first)
}

/// Words that are no command: a seed and a count.
const NO_NUMBERS: &[(&str, &str)] = &[
    ("1", "0"),
    ("1", "201"),
    ("1", "4294967297"),
    ("x", "5"),
    ("", "5"),
    ("+1", "5"),
    ("-1", "5"),
    ("18446744073709551616", "5"),
];

/// Fails at the first row that is taken for a command.
fn are_no_command(alloc: Global, rows: &[(&str, &str)]) -> Result<(), Fail> {
    for (seed, count) in rows {
        is_row(seed, &ended(alloc, seed, count)?, "2 usage\n")?;
    }
    Ok(())
}

#[test]
fn other_numbers_are_no_command(rt: HostRuntime) -> Result<(), Fail> {
    are_no_command(rt.alloc(), NO_NUMBERS)
}
