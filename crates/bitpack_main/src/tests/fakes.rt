//! Readers and writers over memory that move few bytes a call, and that fail at a call of the test's choice.

use std::alloc::Global;
use std::cell::Cell;
use std::io;
use std::io::{Error, ErrorKind, Read, Write};

/// No call is the one that fails.
pub const NEVER: usize = usize::MAX;

/// Reads bytes, then a number of letters `a`, which need no memory, and then further bytes: at most `step` bytes a call. The call
/// numbered `fails_at` is interrupted, and so is each call after the last byte if `fails_at_end`; a further one would go on.
#[derive(Drop)]
pub struct Giver<'a> {
    left: &'a [u8],
    pub letters: usize,
    pub then: &'a [u8],
    step: usize,
    pub fails_at: usize,
    pub fails_at_end: bool,
    pub calls: usize,
}

impl<'a> Giver<'a> {
    pub fn new(left: &'a [u8], step: usize) -> Giver<'a> {
        Giver {
            left,
            letters: 0,
            then: &[],
            step,
            fails_at: NEVER,
            fails_at_end: false,
            calls: 0,
        }
    }
}

impl<'a> Read for Giver<'a> {
    fn read(&mut self, buffer: &mut [u8]) -> io::Result<usize> {
        let call = self.calls;
        self.calls = call.saturating_add(1);
        if self.left.is_empty() && self.letters > 0 && call != self.fails_at {
            let count = self.letters.min(self.step).min(buffer.len());
            buffer[..count].fill(b'a');
            self.letters -= count;
            return Ok(count);
        }
        if self.left.is_empty() {
            self.left = self.then;
            self.then = &[];
        }
        if call == self.fails_at || self.fails_at_end && self.left.is_empty() {
            return Err(Error::from(ErrorKind::Interrupted));
        }
        let count = self.step.min(self.left.len()).min(buffer.len());
        let (now, later) = self.left.split_at(count);
        buffer[..count].copy_from_slice(now);
        self.left = later;
        Ok(count)
    }
}

/// Accepts at most `step` bytes a call. The call numbered `fails_at` is interrupted; a further one would go on.
#[derive(Drop)]
pub struct Taker {
    pub taken: Vec<u8>,
    step: usize,
    pub fails_at: usize,
    pub calls: usize,
    pub flush_fails: bool,
    pub flushes: usize,
}

impl Taker {
    pub fn new(alloc: Global, step: usize) -> Taker {
        Taker {
            taken: Vec::new(alloc),
            step,
            fails_at: NEVER,
            calls: 0,
            flush_fails: false,
            flushes: 0,
        }
    }
}

impl Write for Taker {
    fn write(&mut self, buffer: &[u8]) -> io::Result<usize> {
        let call = self.calls;
        self.calls = call.saturating_add(1);
        if call == self.fails_at {
            return Err(Error::from(ErrorKind::Interrupted));
        }
        let count = self.step.min(buffer.len());
        self.taken.extend_from_slice(&buffer[..count])?;
        Ok(count)
    }

    fn flush(&mut self) -> io::Result<()> {
        self.flushes = self.flushes.saturating_add(1);
        if self.flush_fails {
            Err(Error::from(ErrorKind::Interrupted))
        } else {
            Ok(())
        }
    }
}

/// Reads at most `step` bytes a call, and counts the calls that come before each line that it read is answered.
#[derive(Drop)]
pub struct Asker<'a> {
    left: &'a [u8],
    step: usize,
    asked: usize,
    answered: &'a Cell<usize>,
    pub early: usize,
}

impl<'a> Asker<'a> {
    pub fn new(left: &'a [u8], step: usize, answered: &'a Cell<usize>) -> Asker<'a> {
        Asker {
            left,
            step,
            asked: 0,
            answered,
            early: 0,
        }
    }
}

impl<'a> Read for Asker<'a> {
    fn read(&mut self, buffer: &mut [u8]) -> io::Result<usize> {
        if self.answered.get() < self.asked {
            self.early = self.early.saturating_add(1);
        }
        let count = self.step.min(self.left.len()).min(buffer.len());
        let (now, later) = self.left.split_at(count);
        buffer[..count].copy_from_slice(now);
        self.left = later;
        self.asked = self.asked.saturating_add(feeds(now));
        Ok(count)
    }
}

/// Accepts at most `step` bytes a call, stores none, and counts the answers, which end with a line feed.
#[derive(Drop)]
pub struct Hearer<'a> {
    step: usize,
    answered: &'a Cell<usize>,
}

impl<'a> Hearer<'a> {
    pub fn new(step: usize, answered: &'a Cell<usize>) -> Hearer<'a> {
        Hearer { step, answered }
    }
}

impl<'a> Write for Hearer<'a> {
    fn write(&mut self, buffer: &[u8]) -> io::Result<usize> {
        let count = self.step.min(buffer.len());
        let answered = self.answered.get();
        self.answered
            .set(answered.saturating_add(feeds(&buffer[..count])));
        Ok(count)
    }

    fn flush(&mut self) -> io::Result<()> {
        Ok(())
    }
}

/// How many line feeds the bytes have.
pub fn feeds(bytes: &[u8]) -> usize {
    occurrences(bytes, b'\n')
}

fn occurrences(bytes: &[u8], wanted: u8) -> usize {
    let mut count = 0usize;
    for byte in bytes {
        if *byte == wanted {
            count = count.saturating_add(1);
        }
    }
    count
}
