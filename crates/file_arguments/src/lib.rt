// The files that a program's arguments name, read into the caller's buffer.
#![tactic(auto)]

ghost use Rattle.std.specs.Prelude.{◌≡◌, ◌≤◌, length, Err, IfOk, IsErrOf};
ghost use Rattle.file_arguments.specs.Opened.{NoneUnopened};

use std::env::{Env, FillError};
use std::fs::File;
use std::io;
use std::io::Read;

// Linux's errno of an argument that is missing, of one that is longer than any file's name, and of a file's name that isn't UTF-8, by which std opens no file.
const EINVAL: i32 = 22;

const ENAMETOOLONG: i32 = 36;

const EILSEQ: i32 = 84;

const NAME_LEN: usize = 4096;

// How many arguments the program was started with, its own name among them. std's contract on Env says of no argument whether it is there.
pub fn argument_count<E: Env>(env: &E) -> usize {
    let is_missing = |i: &usize| matches!(env.arg(*i, &mut []), Err(FillError::NotPresent));
    (0..usize::MAX).find(is_missing).unwrap_or(usize::MAX)
}

fn open_named(rt: &HostRuntime, name: &[u8]) -> io::Result<File> {
    let path = std::str::from_utf8(name).map_err(|_| io::Error::from_raw_os_error(EILSEQ))?;
    File::open(rt, path)
}

// What is read of a file that couldn't be opened or read, or that no argument names, once its line is written.
fn unread(rt: &HostRuntime, name: &[u8], error: io::Error) -> io::Result<usize>
    ensures { result ≡ Err error }
{
    whole_io::write_failure(&mut rt.stderr(), name, &error);
    Err(error)
}

// Reads the file, where it was opened.
fn read_opened<F: Read + Drop>(
    rt: &HostRuntime,
    opened: io::Result<F>,
    name: &[u8],
    text: &mut [u8],
) -> io::Result<usize>
    ensures unopened { NoneUnopened opened result }
    ensures count { IfOk result (λ n. n ≤ length text.new) }
    ensures length { length text.new ≡ length text.old }
{
    let mut file = match opened {
        Ok(file) => file,
        Err(e) => return unread(rt, name, e),
    };
    match whole_io::read_whole(&mut file, text) {
        Ok(count) => Ok(count),
        Err(e) => unread(rt, name, e),
    }
}

// Reads the file that argument i names, until text is full or the file ends. A failure, at whatever place of the file, gets one line on standard error, which
// begins with the file's name, or with label where the argument is missing or too long.
pub fn read_argument(rt: &HostRuntime, i: usize, label: &[u8], text: &mut [u8]) -> io::Result<usize>
    ensures count { IfOk result (λ n. n ≤ length text.new) }
    ensures length { length text.new ≡ length text.old }
{
    // Of fixed size, as no program here has a heap.
    let mut path = [0u8; NAME_LEN];
    match rt.arg(i, &mut path) {
        Ok(n) => {
            let name = &path[..n];
            read_opened(rt, open_named(rt, name), name, text)
        }
        Err(FillError::NotPresent) => unread(rt, label, io::Error::from_raw_os_error(EINVAL)),
        Err(FillError::TooLong) => unread(rt, label, io::Error::from_raw_os_error(ENAMETOOLONG)),
    }
}
