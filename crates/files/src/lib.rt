// What the programs share: reading a file of the working folder, or any other input, into a buffer, the programs' large buffers, and the cases
// that the case programs read (`cases`).
#![tactic(auto)]

ghost use Rattle.files.specs.Counts.{IsPrefixLen};
ghost use Rattle.std.specs.Io.KnownBytes.{Consumes};
ghost use Rattle.std.specs.Prelude.{◌≡◌, length, take};

pub mod cases;

use std::fs::File;
use std::io::Read;
use std::rt::Files;
use std::str;

// Puts a file's bytes at the front of a buffer, as far as it goes, and says how many there are: none where the file cannot be read.
// A name that is not UTF-8 counts as that of no file, since std opens files by text alone.
pub fn read_file(rt: &impl Files, name: &[u8], buffer: &mut [u8]) -> usize
    ensures { IsPrefixLen result buffer.new }
{
    let Ok(path) = str::from_utf8(name) else {
        return 0;
    };
    match File::open(rt, path) {
        Ok(mut file) => read_full(&mut file, buffer),
        Err(_) => 0,
    }
}

// Reads until the buffer is full, the input ends or a read fails, and says how many bytes stand at the buffer's front. std's `read_exact` gives
// no count where the input ends, and its `read_to_end` wants a buffer that grows.
pub fn read_full<R: Read>(reader: &mut R, buffer: &mut [u8]) -> usize
    ensures in_bounds { IsPrefixLen result buffer.new }
    ensures bytes { Consumes (R.remaining reader.old) (R.remaining reader.new) (take result buffer.new) }
{
    let mut done = 0;
    while done < buffer.len() {
        match reader.read(&mut buffer[done..]) {
            Ok(0) | Err(_) => break,
            Ok(n) => done += n,
        }
    }
    done
}

// A large buffer of zeros. The contract gives only the length, which lending the buffer as a slice needs.
pub fn zeros<T: Copy + Default, const N: usize>() -> [T; N]
    ensures { N ≡ length result }
{
    [T::default(); N]
}

// One byte more than the longest set of eight tables. Of a longer file only these bytes are read, and the answer is that for the whole:
// tables are met from the front, and any byte after eight of them is refused.
pub fn set_bytes() -> [u8; 1024065]
    ensures { 1024065 ≡ length result }
{
    zeros()
}
