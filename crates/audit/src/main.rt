// Audits a replay: reads a tape of calls and a tape of answers from the files that its first two words name, and prints
// `agrees` or the number of the first record where the answers are not those that the rules give (docs/TAPE.md). The library
// tape has the verdict; here bytes are read and records counted. What the program reports: specs/Report.antt.
#![tactic(auto)]

ghost use Rattle.std.specs.Prelude.{◌≡◌, ◌+◌, ◌≤◌, length as ListN·length};
ghost use Rattle.tables.specs.Reset.{zeros, reset_bytes};
ghost use Rattle.tape.specs.Inside.{Finds, Starts};
ghost use Rattle.audit.specs.Report.{Reports, Reported};
ghost use Rattle.audit.specs.Inside.{shown, Used, passed, Stands, Goes, Wide, Round};

use std::fs::File;
use std::ops::ControlFlow;
use std::rt::Env;
use std::{fmt, rt};
use tape::input::{Held, Source};
use tape::{Found, Part};

// The files of the two tapes.
#[derive(Drop)]
struct Files {
    calls: Source,
    answers: Source,
}

// The bytes held of each tape, and the number of the record due.
#[derive(Clone, Copy, Default)]
struct Position {
    calls: Held,
    answers: Held,
    number: u64,
}

// The verdict: the tapes agree, or the first record that differs has this number.
#[derive(Clone, Copy)]
enum Report {
    Agrees,
    Differs(u64),
}

impl fmt::Display for Report {
    fn fmt<W: fmt::Write>(&self, f: &mut fmt::Formatter<W>) -> fmt::Result {
        match self {
            Report::Agrees => f.write_str("agrees"),
            Report::Differs(number) => write!(f, "{number}"),
        }
    }
}

fn find(
    state: &mut [u8],
    memory: &mut [u8],
    calls: &[u8],
    answers: &[u8],
    position: Position,
) -> Found
    requires { Stands position calls.now answers.now }
    ensures finds { Finds
        (shown state.old memory.old calls.now answers.now position) result
        state.new memory.new }
    ensures used { Used result position }
{
    let c = position.calls;
    let a = position.answers;
    let calls = Part {
        bytes: &calls[c.from..c.to],
        ended: c.ended,
    };
    let answers = Part {
        bytes: &answers[a.from..a.to],
        ended: a.ended,
    };
    tape::audit::audit(state, memory, calls, answers)
}

// The record due is answered as it must be, by so many bytes of each tape.
fn pass(position: Position, used: usize, seen: usize) -> Position
    requires { Used (Found.Same used seen) position × (position.number ≤ 18446744073709551614) }
    ensures { result ≡ passed position used seen }
{
    let c = position.calls;
    let a = position.answers;
    Position {
        calls: Held {
            from: c.from + used,
            ..c
        },
        answers: Held {
            from: a.from + seen,
            ..a
        },
        number: position.number + 1,
    }
}

// Goes on from the next position, or breaks off with the report. A tape that can't be read has no verdict.
fn round(
    state: &mut [u8],
    memory: &mut [u8],
    calls: &mut [u8],
    answers: &mut [u8],
    files: &Files,
    position: Position,
) -> ControlFlow<Option<Report>, Position>
    requires { Stands position calls.old answers.old × Wide calls.old answers.old
        × (position.number ≤ 18446744073709551614) }
    ensures round { Round files.now
        state.old memory.old calls.old answers.old position result
        state.new memory.new calls.new answers.new }
    ensures goes { Goes result position.number calls.new answers.new }
{
    match find(state, memory, calls, answers, position) {
        Found::Calls => match tape::input::more(&files.calls, calls, position.calls) {
            Ok(calls) => ControlFlow::Continue(Position { calls, ..position }),
            Err(_) => ControlFlow::Break(None),
        },
        Found::Answers => match tape::input::more(&files.answers, answers, position.answers) {
            Ok(answers) => ControlFlow::Continue(Position {
                answers,
                ..position
            }),
            Err(_) => ControlFlow::Break(None),
        },
        Found::Same {
            calls: used,
            answers: seen,
        } => ControlFlow::Continue(pass(position, used, seen)),
        Found::Agrees => ControlFlow::Break(Some(Report::Agrees)),
        Found::Differs { later } => {
            let number = position.number + later;
            ControlFlow::Break(Some(Report::Differs(number)))
        }
    }
}

// A proved loop has to end, and nothing says that a tape does: there are more rounds than tapes below 2^63 bytes use up.
fn run(
    state: &mut [u8],
    memory: &mut [u8],
    calls: &mut [u8],
    answers: &mut [u8],
    files: &Files,
) -> Option<Report>
    requires wide { Wide calls.old answers.old }
    requires state_value { (state.old ≡ reset_bytes (ListN·length memory.old))
        × (memory.old ≡ zeros (ListN·length memory.old)) }
    ensures { Reports files.now.calls.number files.now.answers.number (ListN·length memory.old) result }
{
    let mut position = Position::default();
    for _ in 0..u64::MAX {
        match round(state, memory, calls, answers, files, position) {
            ControlFlow::Continue(next) => position = next,
            ControlFlow::Break(report) => return report,
        }
    }
    None
}

// Audits over the first bytes of the memory, to which the card is reset.
fn audit(state: &mut [u8], memory: &mut [u8], length: usize, files: &Files) -> Option<Report>
    requires { Starts 3 length state.old memory.old }
    ensures { Reports files.now.calls.number files.now.answers.number length result }
{
    let mut calls = [0u8; 65536];
    let mut answers = [0u8; 65536];
    run(
        state,
        &mut memory[..length],
        &mut calls,
        &mut answers,
        files,
    )
}

// The report by the command line, and none where there is no verdict. A file that can't be opened can't be read either.
fn reported<R: Env + rt::Files<File = File>>(rt: &R) -> Option<Report>
    ensures { Reported result }
{
    let calls = tape::input::open(rt, 1);
    let answers = tape::input::open(rt, 2);
    let mut state = [0u8; tape::STATE];
    let mut memory = tape::start::memory();
    let files = Files { calls, answers };
    let length = tape::start::length_asked(rt, 3)?;
    if tape::start::start(&mut state, length) {
        return audit(&mut state, &mut memory, length as usize, &files);
    }
    None
}

fn main(rt: HostRuntime) {
    if let Some(report) = reported(&rt) {
        let _ = println!(rt; "{report}");
    }
}
