//! Tests of `vc_files`: files and sinks in memory, real ones, and ends that fail.

use std::alloc::Allocator;
use std::fs::{self, Metadata, OpenFile, OpenOptions};
use std::io::{self, ErrorKind, Read, Seek, SeekFrom, Write};
use std::test::Fail;
use vc_files::{Files, MemFile, MemFiles, MemSink, ReadFault, RealFiles, RealSink, Sink};

/// The bytes of an answer, or its fault in words.
fn answer(read: &Result<Vec<u8>, ReadFault>) -> Result<&[u8], &'static str> {
    match read {
        Ok(bytes) => Ok(bytes.as_slice()),
        Err(ReadFault::Failed) => Err("failed"),
        Err(ReadFault::TooLong { taken: 3 }) => Err("three bytes and more"),
        Err(ReadFault::TooLong { .. }) => Err("another length"),
        Err(ReadFault::Memory(_)) => Err("no memory"),
    }
}

#[test]
fn memory_answers_by_name_and_by_call(rt: HostRuntime) -> Result<(), Fail> {
    let mut held = Vec::new(rt.alloc());
    for (name, text) in [("twice", "abc"), ("empty", ""), ("twice", "other")] {
        held.push(MemFile {
            name: String::from_str(rt.alloc(), name)?,
            bytes: text.as_bytes().to_vec(rt.alloc())?,
        })?;
    }
    let failing = [1].to_vec(rt.alloc())?;
    let mut files = MemFiles::new(rt.alloc(), held, failing);
    for (name, most, wanted) in [
        ("twice", 3, Ok("abc".as_bytes())),
        ("twice", 3, Err("failed")),
        ("twice", 2, Err("three bytes and more")),
        ("missing", 9, Err("failed")),
        ("empty", 0, Ok("".as_bytes())),
        ("twice", u64::MAX, Ok("abc".as_bytes())),
    ] {
        let read = files.read_all(name, most);
        assert_eq!(rt; answer(&read), wanted, "{name} of at most {most}");
    }
    Ok(())
}

#[test]
fn memory_takes_what_fits(rt: HostRuntime) -> Result<(), Fail> {
    let mut sink = MemSink::new(rt.alloc(), 5)?;
    for (piece, is_whole, written) in [
        ("abc", true, "abc"),
        ("defg", false, "abcde"),
        ("", true, "abcde"),
        ("h", false, "abcde"),
    ] {
        assert_eq!(rt;
            sink.write_all(piece.as_bytes()).is_ok(),
            is_whole,
            "{piece}"
        );
        assert_eq!(rt; sink.written(), written.as_bytes(), "{piece}");
    }
    Ok(())
}

/// A file that gives so many letters, one at a time, and then ends or fails. Nothing else can be done with it.
#[derive(Drop)]
struct Trickle {
    left: u64,
    ends: bool,
}

fn refused<T>() -> io::Result<T> {
    Err(ErrorKind::Unsupported.into())
}

impl Read for Trickle {
    fn read(&mut self, piece: &mut [u8]) -> io::Result<usize> {
        if self.left == 0 && !self.ends {
            return Err(ErrorKind::Other.into());
        }
        if self.left == 0 || piece.is_empty() {
            return Ok(0);
        }
        self.left -= 1;
        piece[0] = b'a';
        Ok(1)
    }
}

impl Write for Trickle {
    fn write(&mut self, _piece: &[u8]) -> io::Result<usize> {
        Err(ErrorKind::Unsupported.into())
    }

    fn flush(&mut self) -> io::Result<()> {
        refused()
    }
}

impl Seek for Trickle {
    fn seek(&mut self, _to: SeekFrom) -> io::Result<u64> {
        refused()
    }
}

impl OpenFile for Trickle {
    fn metadata(&self) -> io::Result<Metadata> {
        refused()
    }

    fn set_len(&self, _size: u64) -> io::Result<()> {
        refused()
    }

    fn sync_all(&self) -> io::Result<()> {
        refused()
    }

    fn sync_data(&self) -> io::Result<()> {
        refused()
    }
}

/// A system in which each file has three letters, after which reading ends or fails.
#[derive(Drop)]
struct ThreeLetters {
    ends: bool,
}

impl std::rt::Files for ThreeLetters {
    type File = Trickle;

    type Dir = Trickle;

    fn open_file(&self, _how: &OpenOptions, _path: &str) -> io::Result<Trickle> {
        Ok(Trickle {
            left: 3,
            ends: self.ends,
        })
    }

    fn open_dir(&self, _path: &str) -> io::Result<Trickle> {
        refused()
    }

    fn metadata(&self, _path: &str) -> io::Result<Metadata> {
        refused()
    }

    fn symlink_metadata(&self, _path: &str) -> io::Result<Metadata> {
        refused()
    }

    fn copy(&self, _from: &str, _to: &str) -> io::Result<u64> {
        refused()
    }

    fn rename(&self, _from: &str, _to: &str) -> io::Result<()> {
        refused()
    }

    fn remove_file(&self, _path: &str) -> io::Result<()> {
        refused()
    }

    fn create_dir(&self, _path: &str) -> io::Result<()> {
        refused()
    }

    fn remove_dir(&self, _path: &str) -> io::Result<()> {
        refused()
    }

    fn remove_dir_all<B: Allocator>(&self, _alloc: B, _path: &str) -> io::Result<()> {
        refused()
    }
}

// A read behind the last byte that may be taken would fail here, where a file is too long.
#[test]
fn a_file_that_fails_in_the_middle_is_no_shorter_file(rt: HostRuntime) -> Result<(), Fail> {
    for (ends, most, wanted) in [
        (true, 3, Ok("aaa".as_bytes())),
        (true, u64::MAX, Ok("aaa".as_bytes())),
        (true, 2, Err("three bytes and more")),
        (false, 2, Err("three bytes and more")),
        (false, 3, Err("failed")),
        (false, u64::MAX, Err("failed")),
    ] {
        let system = ThreeLetters { ends };
        let mut files = RealFiles::new(rt.alloc(), &system);
        let read = files.read_all("any", most);
        assert_eq!(rt; answer(&read), wanted, "at most {most}");
    }
    Ok(())
}

/// A writer that takes so many bytes at once, and whose flush may fail.
#[derive(Drop)]
struct Taker {
    most: usize,
    is_flushed: bool,
}

impl Write for Taker {
    fn write(&mut self, piece: &[u8]) -> io::Result<usize> {
        Ok(piece.len().min(self.most))
    }

    fn flush(&mut self) -> io::Result<()> {
        if self.is_flushed {
            Ok(())
        } else {
            Err(ErrorKind::Other.into())
        }
    }
}

#[test]
fn a_writer_that_takes_nothing_or_is_not_flushed_fails(rt: HostRuntime) -> Result<(), Fail> {
    for (most, is_flushed, piece, is_whole) in [
        (2, true, "abcde", true),
        (0, true, "", true),
        (0, true, "a", false),
        (2, false, "ab", false),
    ] {
        let mut sink = RealSink::new(Taker { most, is_flushed });
        assert_eq!(rt;
            sink.write_all(piece.as_bytes()).is_ok(),
            is_whole,
            "{piece}"
        );
    }
    Ok(())
}

#[test]
fn the_system_reads_and_writes(rt: HostRuntime) -> Result<(), Fail> {
    let name = "vc_files_written";
    let mut sink = RealSink::new(fs::create(&rt, name)?);
    assert!(rt; sink.write_all(b"ab").is_ok());
    assert!(rt; sink.write_all(b"c").is_ok());
    let mut files = RealFiles::new(rt.alloc(), &rt);
    for (most, wanted) in [
        (3, Ok("abc".as_bytes())),
        (2, Err("three bytes and more")),
        (u64::MAX, Ok("abc".as_bytes())),
    ] {
        let read = files.read_all(name, most);
        assert_eq!(rt; answer(&read), wanted, "at most {most}");
    }
    fs::remove_file(&rt, name)?;
    assert_eq!(rt; answer(&files.read_all(name, 3)), Err("failed"));
    Ok(())
}
