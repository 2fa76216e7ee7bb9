ghost use Rattle.std.specs.Prelude.{◌≡◌, Some, take, IfOk};
ghost use Rattle.image.specs.Verdict.{judged, told};
ghost use Rattle.plancheck.specs.Source.{Cut};

use crate::input::reading::{judge_first, judge_reader};
use crate::source::Source;
use image::outcome::Outcome;
use std::io;
use std::io::{ErrorKind, Read};
use std::test::Fail;

/// Bytes in memory, delivered in pieces of at most `most` bytes, or of one byte where that is 0.
#[derive(Drop)]
struct Pieces<'a> {
    left: &'a [u8],
    most: usize,
}

impl<'a> Source for Pieces<'a> {
    ghost gave = { λ s xs t. Cut s.left.now xs t.left.now };

    fn deliver(&mut self, buf: &mut [u8]) -> io::Result<usize> {
        let n = self.left.len().min(buf.len()).min(self.most.max(1));
        buf[..n].copy_from_slice(&self.left[..n]);
        self.left = &self.left[n..];
        Ok(n)
    }
}

/// The verdict of bytes in memory, delivered in pieces.
fn judge_pieces(image: &[u8], most: usize) -> io::Result<Outcome>
    ensures { IfOk result (λ o. o ≡ told (judged (take 4096 image.now))) }
{
    let mut pieces = Pieces { left: image, most };
    judge_first(&mut pieces)
}

/// An empty plan in two pieces is judged as yes 0.
#[test]
fn pieces_are_joined(rt: HostRuntime) -> Result<(), Fail> {
    assert_eq!(rt; judge_pieces(b"EN", 1)?, Outcome::Yes(0));
    Ok(())
}

/// A reader of bytes in memory, in pieces of at most `most` bytes, or of one byte where that is 0.
#[derive(Drop)]
struct ReadPieces<'a> {
    left: &'a [u8],
    most: usize,
}

impl<'a> Read for ReadPieces<'a> {
    ghost remaining = { λ s. Some s.left.now };

    fn read(&mut self, buf: &mut [u8]) -> io::Result<usize> {
        let most = buf.len().min(self.most.max(1));
        self.left.read(&mut buf[..most])
    }
}

/// The verdict of bytes in memory, read in pieces.
fn judge_read_pieces(image: &[u8], most: usize) -> io::Result<Outcome>
    ensures { IfOk result (λ o. o ≡ told (judged (take 4096 image.now))) }
{
    let mut pieces = ReadPieces { left: image, most };
    judge_reader(&mut pieces)
}

/// An empty plan that is read in two pieces is judged as yes 0.
#[test]
fn read_pieces_are_joined(rt: HostRuntime) -> Result<(), Fail> {
    assert_eq!(rt; judge_read_pieces(b"EN", 1)?, Outcome::Yes(0));
    Ok(())
}

/// Bytes in memory, and an error at every read behind them: which bytes it has left is known, and still it fails.
#[derive(Drop)]
struct Broken<'a> {
    left: &'a [u8],
}

impl<'a> Read for Broken<'a> {
    ghost remaining = { λ s. Some s.left.now };

    fn read(&mut self, buf: &mut [u8]) -> io::Result<usize> {
        if self.left.is_empty() {
            return Err(io::Error::from(ErrorKind::ConnectionReset));
        }
        self.left.read(buf)
    }
}

/// What comes of a reader that fails behind these bytes: the kind of the error, or nothing where there is a verdict.
fn error_behind(left: &[u8]) -> Option<ErrorKind> {
    judge_first(&mut Broken { left }).err().map(|e| e.kind())
}

/// A read that fails gives its error and no verdict, at the first read and behind a whole image.
#[test]
fn errors_come_out(rt: HostRuntime) -> Result<(), Fail> {
    assert_eq!(rt; error_behind(b""), Some(ErrorKind::ConnectionReset));
    assert_eq!(rt; error_behind(b"EN"), Some(ErrorKind::ConnectionReset));
    Ok(())
}

/// A read that would fail behind the first 4,096 bytes is never made: the verdict is that of these bytes.
#[test]
fn errors_behind_the_limit_stay_out(rt: HostRuntime) -> Result<(), Fail> {
    assert_eq!(rt; error_behind(&[b'E'; 4096]), None);
    Ok(())
}

/// Bytes in memory, delivered one by one, and one read that is interrupted once `before` bytes were delivered.
#[derive(Drop)]
struct Interrupted<'a> {
    left: &'a [u8],
    before: usize,
    done: bool,
}

impl<'a> Read for Interrupted<'a> {
    ghost remaining = { λ s. Some s.left.now };

    fn read(&mut self, buf: &mut [u8]) -> io::Result<usize> {
        if self.before == 0 && !self.done {
            self.done = true;
            return Err(io::Error::from(ErrorKind::Interrupted));
        }
        self.before = self.before.saturating_sub(1);
        let most = buf.len().min(1);
        self.left.read(&mut buf[..most])
    }
}

/// What comes of an empty plan where a read is interrupted behind this many bytes of it: the kind of the error, or
/// nothing where there is a verdict.
fn error_at(before: usize) -> Option<ErrorKind> {
    judge_first(&mut Interrupted {
        left: b"EN",
        before,
        done: false,
    })
    .err()
    .map(|e| e.kind())
}

/// An interrupted read is not made again: it gives its error and no verdict, at the first read, between two bytes and
/// behind a whole image. Where no read is interrupted, there is a verdict.
#[test]
fn interrupted_reads_come_out(rt: HostRuntime) -> Result<(), Fail> {
    assert_eq!(rt; error_at(0), Some(ErrorKind::Interrupted));
    assert_eq!(rt; error_at(1), Some(ErrorKind::Interrupted));
    assert_eq!(rt; error_at(2), Some(ErrorKind::Interrupted));
    assert_eq!(rt; error_at(3), None);
    Ok(())
}
