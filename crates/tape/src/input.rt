// An input that is read piece by piece into a window.
ghost use Rattle.std.specs.Prelude.{◌≡◌, ◌≤◌, pos, negsuc, length};
ghost use Rattle.tape.specs.System.{Opens};
ghost use Rattle.tape.specs.Inside.{count_in, is_err, Gives, Reads};

use std::fs::File;
use std::io;
use std::os::fd::AsRawFd;
use std::rt::{Env, Files, Stdin};

// What is read, and its descriptor, by which the contracts name it: a negative number where a file could not be opened.
#[derive(Drop)]
pub struct Source {
    pub number: i32,
    stream: Stream,
}

#[derive(Drop)]
enum Stream {
    Named(File),
    Standard(Stdin),
    Missing, // no Err of `open`: `Reported` has a read of the file that failed (`Silent.no_calls`)
}

// The bytes of a window that are held of an input, and whether a read has found its end.
#[derive(Clone, Copy, Default)]
pub struct Held {
    pub from: usize,
    pub to: usize,
    pub ended: bool,
}

// A read failed, and gave nothing: what is held after it.
#[derive(Clone, Copy)]
pub struct ReadFailed {
    pub held: Held,
}

// Opens the file that word i of the command line names, for reading; a source with a negative number, of which no read
// succeeds, where that can't be done. The library opens no name that is not UTF-8.
pub fn open<R: Env + Files<File = File>>(rt: &R, i: usize) -> Source
    ensures { Opens i result.number }
{
    let mut name = [0u8; 4096];
    let n = rt.arg(i, &mut name).unwrap_or(0);
    let Ok(path) = str::from_utf8(&name[..n]) else {
        return missing();
    };
    match File::open(rt, path) {
        Ok(file) => Source {
            number: file.as_raw_fd(),
            stream: Stream::Named(file),
        },
        Err(_) => missing(),
    }
}

// One that could not be opened.
fn missing() -> Source
    ensures { result.number ≡ negsuc 0 }
{
    Source {
        number: -1,
        stream: Stream::Missing,
    }
}

// Standard input.
pub fn standard(stdin: Stdin) -> Source
    ensures { result.number ≡ pos 0 }
{
    Source {
        number: 0,
        stream: Stream::Standard(stdin),
    }
}

// One read of the source.
fn read_once(source: &Source, buffer: &mut [u8]) -> io::Result<usize>
    ensures count_in_bounds { count_in result ≤ length buffer.new }
    ensures gives { Gives source.now.number buffer.new (count_in result) (is_err result) }
{
    match &source.stream {
        Stream::Named(file) => {
            let mut file: &File = file;
            io::Read::read(&mut file, buffer)
        }
        Stream::Standard(stdin) => {
            let mut stdin: &Stdin = stdin;
            io::Read::read(&mut stdin, buffer)
        }
        Stream::Missing => Err(io::Error::from(io::ErrorKind::NotFound)),
    }
}

// One read behind the bytes held, which move to the window's start. A read that gives nothing, or fails, is the input's end.
// No type holds the window with its bytes: `Reads` speaks of every window and every `held`, which such a type would narrow.
pub fn more(source: &Source, window: &mut [u8], held: Held) -> Result<Held, ReadFailed>
    ensures { Reads source.now.number held window.old result window.new }
{
    let Held { from, to, .. } = held;
    if to < from || window.len() < to {
        // the window has no such bytes
        return Err(ReadFailed {
            held: Held {
                ended: true,
                ..Held::default()
            },
        });
    }
    window.copy_within(from..to, 0);
    let kept = to - from;
    match read_once(source, &mut window[kept..]) {
        Ok(n) => Ok(Held {
            from: 0,
            to: kept + n,
            ended: n == 0,
        }),
        Err(_) => {
            let held = Held {
                from: 0,
                to: kept,
                ended: true,
            };
            Err(ReadFailed { held })
        }
    }
}
