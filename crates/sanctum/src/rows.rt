//! Rows of reports as texts, and how they are checked.
//!
//! A text of rows has one part for each row; an empty line ends it. A row's first line says with how many
//! calls of its bench it begins, and its name. The lines that follow are lines of its script, each with what
//! the report says of its call: `LINE = REPLY tried OBJECTS`, where the call is printed as it was written,
//! else `LINE > CALL = REPLY tried OBJECTS`; `LINE >` makes no call of its own. A line `> CALL = ..` is a call
//! that guest code or the machine makes, and `! EVENT` one that is no call. Behind ` # ` may stand why. Lines
//! at the end that begin with `: ` are lines of the report's tables.

use crate::tests::{Files, run_files};
use std::alloc::{AllocError, Global};
use std::process::Abort;
use std::test::Fail;
use std::thread::Threads;

/// What rows are run on.
#[derive(Clone, Copy)]
pub struct Bench {
    /// The commands, which all print the same; their script is the file "S", and the image of a file "I".
    pub commands: &'static [&'static [&'static str]],
    /// The bytes of the image in hexadecimal digits.
    pub image: &'static str,
    /// How each report begins.
    pub head: &'static str,
    /// The calls with which rows begin.
    pub loaded: &'static str,
}

/// The script of a row, and what its report says of the calls and of the log.
#[derive(Drop)]
struct Row {
    script: String,
    calls: String,
    events: String,
    made: u32,
}

impl Row {
    fn new(alloc: Global) -> Row {
        Row {
            script: String::new(alloc),
            calls: String::new(alloc),
            events: String::new(alloc),
            made: 0,
        }
    }

    /// Adds a line of a row.
    fn add(&mut self, alloc: Global, line: &str) -> Result<(), AllocError> {
        let line = match line.split_once(" # ") {
            Some((line, _why)) => line,
            None => line,
        };
        if let Some(event) = line.strip_prefix("! ") {
            self.add_event(event)
        } else if let Some(call) = line.strip_prefix("> ") {
            self.add_call(alloc, call)
        } else if let Some((script, printed)) = line.split_once(" >") {
            self.add_line(script)?;
            match printed.strip_prefix(' ') {
                Some(call) => self.add_call(alloc, call),
                None => Ok(()),
            }
        } else if let Some((script, _)) = line.split_once(" = ") {
            self.add_line(script)?;
            self.add_call(alloc, line)
        } else {
            Ok(())
        }
    }

    fn add_line(&mut self, line: &str) -> Result<(), AllocError> {
        self.script.push_str(line)?;
        self.script.push('\n')
    }

    fn add_event(&mut self, event: &str) -> Result<(), AllocError> {
        self.events.push_str(event)?;
        self.events.push('\n')
    }

    fn add_call(&mut self, alloc: Global, call: &str) -> Result<(), AllocError> {
        let serial = self.made;
        self.made = serial.saturating_add(1);
        let ticket = self.made;
        let line = format!(in alloc; "call {ticket} core 0 serial {serial} {call}\n")?;
        self.calls.push_str(&line)?;
        let entry = format!(in alloc; "entry {ticket}")?;
        self.add_event(&entry)
    }
}

/// What a row says, with the calls of its bench with which it begins.
fn row_of(alloc: Global, bench: &Bench, begin: usize, lines: &str) -> Result<Row, Fail> {
    let mut row = Row::new(alloc);
    for line in bench.loaded.lines().take(begin) {
        row.add(alloc, line)?;
    }
    for line in lines.lines() {
        row.add(alloc, line)?;
    }
    Ok(row)
}

/// Runs the script of a row by each command of its bench, and compares the report with what the row says.
fn check_row<R: Threads + Sync + Abort>(
    rt: &R,
    alloc: Global,
    bench: &Bench,
    row: &str,
) -> Result<(), Fail> {
    let (head, lines) = row.split_once('\n').ok_or("a row without lines")?;
    let (begin, name) = head.split_once(' ').ok_or("a row without a name")?;
    let want = row_of(alloc, bench, begin.parse()?, lines)?;
    let image = hex::decode(alloc, bench.image)?;
    let files = Files::of_script(want.script.as_bytes(), &image);
    let (front, calls, events) = (bench.head, want.calls.as_str(), want.events.as_str());
    let told = format!(in alloc; "{front}{calls}log 0\n{events}region 0 ")?;
    for command in bench.commands {
        check_report(rt, alloc, name, command, &files, &told, lines)?;
    }
    Ok(())
}

/// Runs the words over files, and checks that the report begins with a text and has the lines of the tables that
/// the row says.
fn check_report<R: Threads + Sync + Abort>(
    rt: &R,
    alloc: Global,
    name: &str,
    words: &[&str],
    files: &Files<'_>,
    told: &str,
    lines: &str,
) -> Result<(), Fail> {
    let (status, out) = run_files(rt, alloc, words, files)?;
    assert_eq!(rt; status.code(), 0, "{name}");
    let text = str::from_utf8(out.as_slice())?;
    assert!(rt; text.starts_with(told), "{name}: not {told} but {text}");
    check_tables(rt, lines, text);
    Ok(())
}

/// Checks that the report has the lines of the tables that the row says.
fn check_tables(rt: &impl Abort, lines: &str, text: &str) {
    for line in lines.lines() {
        if let Some(("", table)) = line.split_once(": ") {
            assert!(rt; has_line(text, table), "no {table} in {text}");
        }
    }
}

fn has_line(text: &str, line: &str) -> bool {
    text.lines().any(|other| other == line)
}

/// Checks every row of a text.
pub fn check_rows<R: Threads + Sync + Abort>(
    rt: &R,
    alloc: Global,
    bench: &Bench,
    rows: &str,
) -> Result<(), Fail> {
    for row in rows.split("\n\n") {
        check_row(rt, alloc, bench, row)?;
    }
    Ok(())
}
