//! Scripts whose reader or writer fails, and when answers are printed.
use quic_run_core::{ScriptError, run_script, run_script_within};
use std::alloc::Global;
use std::cell::Cell;
use std::io;
use std::io::{ErrorKind, Read, Write};
use std::test::Fail;

/// Gives its text a byte at a time, then fails, or gives no end at all; and counts its calls.
#[derive(Drop)]
struct Failing<'a> {
    text: &'a [u8],
    endless: bool,
    calls: &'a Cell<u64>,
}

impl Read for Failing<'_> {
    fn read(&mut self, buf: &mut [u8]) -> io::Result<usize> {
        self.calls.set(self.calls.get().wrapping_add(1));
        match (self.text.split_first(), buf.first_mut()) {
            (Some((byte, rest)), Some(place)) => {
                *place = *byte;
                self.text = rest;
                Ok(1)
            }
            (None, Some(place)) if self.endless => {
                *place = b'\n';
                Ok(1)
            }
            _ => Err(io::Error::from(ErrorKind::BrokenPipe)),
        }
    }
}

/// Takes so many bytes, then fails, or takes none.
#[derive(Drop)]
struct Full {
    taken: Vec<u8>,
    room: usize,
    fails: bool,
    flushes: bool,
}

impl Write for Full {
    fn write(&mut self, buf: &[u8]) -> io::Result<usize> {
        let count = buf.len().min(self.room);
        if count == 0 && self.fails {
            return Err(io::Error::from(ErrorKind::BrokenPipe));
        }
        self.taken.extend_from_slice(&buf[..count])?;
        self.room -= count;
        Ok(count)
    }

    fn flush(&mut self) -> io::Result<()> {
        if self.flushes {
            Ok(())
        } else {
            Err(io::Error::from(ErrorKind::BrokenPipe))
        }
    }
}

/// Gives its text a byte at a time, and fails where the line before wasn't answered.
#[derive(Drop)]
struct Waiting<'a> {
    text: &'a [u8],
    answered: &'a Cell<bool>,
}

impl Read for Waiting<'_> {
    fn read(&mut self, buf: &mut [u8]) -> io::Result<usize> {
        if !self.answered.get() {
            return Err(io::Error::from(ErrorKind::BrokenPipe));
        }
        match (self.text.split_first(), buf.first_mut()) {
            (Some((byte, rest)), Some(place)) => {
                *place = *byte;
                self.answered.set(*byte != b'\n');
                self.text = rest;
                Ok(1)
            }
            _ => Ok(0),
        }
    }
}

/// Takes all bytes, and tells when a line was flushed.
#[derive(Drop)]
struct Answering<'a> {
    taken: Vec<u8>,
    answered: &'a Cell<bool>,
}

impl Write for Answering<'_> {
    fn write(&mut self, buf: &[u8]) -> io::Result<usize> {
        self.taken.extend_from_slice(buf)?;
        Ok(buf.len())
    }

    fn flush(&mut self) -> io::Result<()> {
        self.answered.set(self.taken.ends_with(b"\n"));
        Ok(())
    }
}

/// How a script ends whose reader fails behind this text or has no end and is called 100 times at
/// most, what it prints, and how often the reader is called.
fn ended(alloc: Global, text: &[u8], endless: bool) -> (Result<(), ScriptError>, Vec<u8>, u64) {
    let mut out = Vec::new(alloc);
    let calls = Cell::new(0);
    let reader = Failing {
        text,
        endless,
        calls: &calls,
    };
    let ended = run_script_within(alloc, reader, &mut out, 100);
    (ended, out, calls.get())
}

#[test]
fn a_reader_that_fails_or_has_no_end_is_a_read_fault(rt: HostRuntime) {
    let texts: [(&[u8], bool, u64); 2] = [
        (b"c open bi\nc wri", false, 16),
        (b"c open bi\n", true, 100),
    ];
    for (text, endless, wanted) in texts {
        let (ended, out, calls) = ended(rt.alloc(), text, endless);
        assert_eq!(rt; calls, wanted);
        assert_eq!(rt; ended, Err(ScriptError::ReadFault));
        assert!(rt; out.as_slice() == b"c open 0\n".as_slice());
    }
}

#[test]
fn a_writer_that_fails_is_a_write_fault(rt: HostRuntime) {
    let script = b"c open bi\nc poll 0\n".as_slice();
    let printed = b"c open 0\nc poll 0 222 ect0\n".as_slice();
    for (room, fails, flushes) in [(12, true, true), (12, false, true), (99, true, false)] {
        let mut writer = Full {
            taken: Vec::new(rt.alloc()),
            room,
            fails,
            flushes,
        };
        let ended = run_script(rt.alloc(), script, &mut writer);
        assert_eq!(rt; ended, Err(ScriptError::WriteFault));
        assert!(rt; printed.starts_with(writer.taken.as_slice()));
    }
}

/// Two lines, and what they print.
const SCRIPT: &[u8] = b"c open bi\nc ping\n";

const PRINTED: &[u8] = b"c open 0\nc ping ok\n";

#[test]
fn a_reader_may_fail_at_any_call(rt: HostRuntime) {
    for given in 0..18usize {
        let text = &SCRIPT[..given.min(SCRIPT.len())];
        let (ended, out, calls) = ended(rt.alloc(), text, false);
        assert_eq!(rt; ended, Err(ScriptError::ReadFault));
        assert_eq!(rt; calls, given as u64 + 1);
        assert!(rt; PRINTED.starts_with(out.as_slice()));
    }
}

#[test]
fn a_writer_may_fail_at_any_byte(rt: HostRuntime) {
    for room in 0..19usize {
        let mut writer = Full {
            taken: Vec::new(rt.alloc()),
            room,
            fails: room % 2 == 0,
            flushes: true,
        };
        let ended = run_script(rt.alloc(), SCRIPT, &mut writer);
        assert_eq!(rt; ended, Err(ScriptError::WriteFault));
        assert!(rt; writer.taken.as_slice() == &PRINTED[..room.min(PRINTED.len())]);
    }
}

#[test]
fn each_answer_is_printed_before_more_is_read(rt: HostRuntime) {
    let text = b"c open bi\nc ping\ns ping\n".as_slice();
    let answered = Cell::new(true);
    let reader = Waiting {
        text,
        answered: &answered,
    };
    let mut writer = Answering {
        taken: Vec::new(rt.alloc()),
        answered: &answered,
    };
    let ended = run_script(rt.alloc(), reader, &mut writer);
    assert_eq!(rt; ended, Ok(()));
    let answers = b"c open 0\nc ping ok\ns ping ok\n".as_slice();
    assert!(rt; writer.taken.as_slice() == answers);
}

#[test]
fn faults_are_told(rt: HostRuntime) -> Result<(), Fail> {
    for (error, text) in [
        (ScriptError::ReadFault, "read fault"),
        (ScriptError::WriteFault, "write fault"),
    ] {
        let told = format!(in rt.alloc(); "{error}")?;
        assert_eq!(rt; told.as_str(), text);
    }
    Ok(())
}
