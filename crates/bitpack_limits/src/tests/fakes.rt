//! Readers and writers over memory that move few bytes a call, and a writer that fails at a call of the test's choice.

use std::alloc::Global;
use std::io;
use std::io::{Error, ErrorKind, Read, Write};

/// Reads bytes, then a number of letters `a`, which need no memory, and then further bytes: at most `step` bytes a call.
#[derive(Drop)]
pub struct Giver<'a> {
    left: &'a [u8],
    pub letters: usize,
    pub then: &'a [u8],
    step: usize,
}

impl<'a> Giver<'a> {
    pub fn new(left: &'a [u8], step: usize) -> Giver<'a> {
        Giver {
            left,
            letters: 0,
            then: &[],
            step,
        }
    }
}

impl<'a> Read for Giver<'a> {
    fn read(&mut self, buffer: &mut [u8]) -> io::Result<usize> {
        if self.left.is_empty() && self.letters > 0 {
            let count = self.letters.min(self.step).min(buffer.len());
            buffer[..count].fill(b'a');
            self.letters -= count;
            return Ok(count);
        }
        if self.left.is_empty() {
            self.left = self.then;
            self.then = &[];
        }
        let count = self.step.min(self.left.len()).min(buffer.len());
        let (now, later) = self.left.split_at(count);
        buffer[..count].copy_from_slice(now);
        self.left = later;
        Ok(count)
    }
}

/// Accepts at most `step` bytes a call. The call numbered `fails_at` is interrupted; a further one would go on.
#[derive(Drop)]
pub struct Taker {
    pub taken: Vec<u8>,
    step: usize,
    pub fails_at: usize,
    calls: usize,
}

impl Taker {
    pub fn new(alloc: Global, step: usize) -> Taker {
        Taker {
            taken: Vec::new(alloc),
            step,
            fails_at: usize::MAX,
            calls: 0,
        }
    }
}

impl Write for Taker {
    fn write(&mut self, buffer: &[u8]) -> io::Result<usize> {
        let call = self.calls;
        self.calls = call.saturating_add(1);
        if call == self.fails_at {
            return Err(Error::from(ErrorKind::Interrupted));
        }
        let count = self.step.min(buffer.len());
        self.taken.extend_from_slice(&buffer[..count])?;
        Ok(count)
    }

    fn flush(&mut self) -> io::Result<()> {
        Ok(())
    }
}

fn occurrences(bytes: &[u8], wanted: u8) -> usize {
    let mut count = 0usize;
    for byte in bytes {
        if *byte == wanted {
            count = count.saturating_add(1);
        }
    }
    count
}

/// Accepts all bytes and stores none of them: it counts bytes, commas and calls.
#[derive(Drop)]
pub struct Counter {
    pub bytes: usize,
    pub commas: usize,
    pub calls: usize,
}

impl Write for Counter {
    fn write(&mut self, buffer: &[u8]) -> io::Result<usize> {
        self.calls = self.calls.saturating_add(1);
        self.bytes = self.bytes.saturating_add(buffer.len());
        self.commas = self.commas.saturating_add(occurrences(buffer, b','));
        Ok(buffer.len())
    }

    fn flush(&mut self) -> io::Result<()> {
        Ok(())
    }
}
