// The pairing program: FIELD.TAB and TRIM.TAB of the working folder and the query on standard input, to the listing or
// a refusal's number on standard output. What it prints is program::whole_query's; here bytes are only moved.
#![tactic(auto)]

ghost use Rattle.std.specs.Prelude.{◌≤◌, length};
ghost use Rattle.io.specs.Counts.{IsPrefixLen};

use std::io::{Read, Write};
use std::rt::Files;
use std::{fs, io};

// How many bytes a read put into `buf`; none where it failed.
fn read_some<R: Read>(from: &mut R, buf: &mut [u8]) -> usize
    ensures { result ≤ length buf.new }
{
    match from.read(buf) {
        Ok(n) => n,
        Err(_) => 0,
    }
}

// Reads until `buf` is full, the input ends or a read fails: how many bytes stand at the front of `buf`.
fn read_full<R: Read>(from: &mut R, buf: &mut [u8]) -> usize
    ensures { IsPrefixLen result buf.new }
{
    let mut done = 0;
    // a read gives as many bytes as it has: no index is counted
    while done < buf.len() {
        let n = read_some(from, &mut buf[done..]);
        if n == 0 {
            break;
        }
        done += n;
    }
    done
}

// A file's bytes, as many of them as `buf` takes: their count. A file that is not there reads as empty.
fn read_file<R: Files>(rt: &R, path: &str, buf: &mut [u8]) -> usize
    ensures { IsPrefixLen result buf.new }
{
    match fs::open(rt, path) {
        Ok(mut file) => read_full(&mut file, buf),
        Err(_) => 0,
    }
}

// One byte more is read of a file and of the input than is allowed, so that one too long is seen. All in fixed memory.
fn main(rt: HostRuntime) -> io::Result<()> {
    let mut field = [0u8; program_sizes::FILE_ROOM];
    let m = read_file(&rt, "FIELD.TAB", &mut field);
    let mut trim = [0u8; program_sizes::FILE_ROOM];
    let n = read_file(&rt, "TRIM.TAB", &mut trim);
    let mut input = [0u8; program_sizes::INPUT_ROOM];
    let k = read_full(&mut rt.reader(), &mut input);
    let mut out = [0u8; program::OUT_ROOM];
    let r = program::whole_query(&field[..m], &trim[..n], &input[..k], &mut out);
    io::writer(&rt).write_all(&out[..r])
}
