ghost use Rattle.std.specs.Prelude.{◌≡◌, length};
ghost use Rattle.model.specs.Files.{taken_size};
ghost use Rattle.files.specs.Reading.{IsRead, said};

use std::io::Read;
use std::rt::Files;
use std::{fs, io, str};

// How the reading of a file ended: where the file does, before the file does so that there may be more, or at a read that failed.
#[derive(Clone, Copy, Debug, PartialEq, Eq)]
pub enum End {
    Reached,
    Unknown,
    Failed,
}

impl End {
    // As a last read says it: 0 where the file has ended, above 0 where there may be more, and below 0 where the read failed.
    pub fn said(self) -> isize
        ensures { result ≡ said self }
    {
        match self {
            End::Reached => 0,
            End::Unknown => 1,
            End::Failed => -1,
        }
    }
}

// What was read of a file: the count of bytes, and how it ended.
#[derive(Clone, Copy, Debug, PartialEq, Eq)]
pub struct Reading {
    pub size: usize,
    pub end: End,
}

// The next byte, or none where the file has ended. An interrupted read failed too.
fn read_byte<F: Read>(file: &mut F) -> io::Result<Option<u8>> {
    let mut byte = [0];
    let count = file.read(&mut byte)?;
    Ok((count != 0).then_some(byte[0]))
}

// Reads until the buffer is full, the file has ended or a read fails. It goes byte by byte, so that no read gives less than it was asked
// for, and nothing is copied.
fn read_bytes<F: Read>(file: &mut F, buffer: &mut [u8]) -> Reading
    ensures { IsRead result buffer.new }
{
    for (size, slot) in buffer.iter_mut().enumerate() {
        match read_byte(file) {
            Ok(Some(byte)) => *slot = byte,
            Ok(None) => return Reading {
                size,
                end: End::Reached,
            },
            Err(_) => return Reading {
                size,
                end: End::Failed,
            },
        }
    }
    Reading {
        size: buffer.len(),
        end: End::Unknown,
    }
}

// The file of a path, open for reading. Paths are text here, so bytes that are no text name no file.
fn open_file<R: Files>(files: &R, path: &[u8]) -> Option<R::File> {
    let name = str::from_utf8(path).ok()?;
    fs::open(files, name).ok()
}

// What is read of a file; an absent one counts as empty.
pub fn read_file<R: Files>(files: &R, path: &[u8], buffer: &mut [u8]) -> Reading
    ensures { IsRead result buffer.new }
{
    match open_file(files, path) {
        Some(mut file) => read_bytes(&mut file, buffer),
        None => Reading {
            size: 0,
            end: End::Reached,
        },
    }
}

// How many of the bytes read are taken, by what the last read said: where the file has ended all, where there may be more only those that
// fill the buffer, and where the read failed none.
#[tactic(auto, unfolding(model::specs::Files::taken_size))]
pub fn taken(buffer: &[u8], size: usize, said: isize) -> usize
    ensures { result ≡ taken_size (length buffer.now) size said }
{
    match said {
        0 => size,
        1.. if size == buffer.len() => size,
        _ => 0,
    }
}
