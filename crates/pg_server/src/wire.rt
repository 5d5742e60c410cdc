//! Frames over a reader and a writer.
ghost use Rattle.std.specs.Prelude.{◌≡◌, ◌<◌, ◌≤◌, ◌+◌, ◌^◌, ◌++◌, length, take};
ghost use Rattle.pg_server.specs.Counts.{inner_of, faults_of};
ghost use Rattle.pg_server.specs.Frames.{frame, body_limit};
ghost use Rattle.pg_server.specs.Wire.{AreBytes, Fills, Receives, Sends};

use crate::counted::{Counted, DeviceFault};
use std::io::{Read, Write};

/// The longest body that is read.
pub(crate) const MAX_BODY: usize = 1_048_576;

/// How the filling of a buffer ended.
#[derive(Clone, Copy)]
pub(crate) enum Filled {
    Whole,
    /// The input ended after so many bytes.
    Ended(usize),
    Failed,
}

/// How the reading of a frame ended.
#[derive(Clone, Copy)]
pub(crate) enum Incoming {
    /// The input ended where a frame could begin.
    NoFrame,
    /// The input ended inside a frame.
    Cut,
    TooLong,
    Failed,
    /// A whole frame, whose body is the first so many bytes of the buffer.
    Body(usize),
}

/// Reads until the buffer is full, the input over or the reader failed.
pub(crate) fn fill<R: Read>(reader: &mut Counted<R>, buf: &mut [u8]) -> Filled
    ensures fills { Fills (R.remaining (inner_of reader.old)) (R.remaining (inner_of reader.new))
        (faults_of reader.old) (faults_of reader.new) buf.new result }
    ensures bytes { AreBytes buf.new }
{
    let mut at = 0;
    while at < buf.len() {
        match reader.read(&mut buf[at..]) {
            Ok(0) => return Filled::Ended(at),
            Ok(n) => at += n,
            Err(_) => return Filled::Failed,
        }
    }
    Filled::Whole
}

/// Reads one frame, and no byte after it.
pub(crate) fn read_frame<R: Read>(reader: &mut Counted<R>, buffer: &mut [u8]) -> Incoming
    requires { length buffer.old ≡ body_limit }
    ensures { Receives (R.remaining (inner_of reader.old)) (R.remaining (inner_of reader.new))
        (faults_of reader.old) (faults_of reader.new) buffer.new result }
{
    let mut header = [0u8; 4];
    match fill(reader, &mut header) {
        Filled::Whole => {}
        Filled::Ended(0) => return Incoming::NoFrame,
        Filled::Ended(_) => return Incoming::Cut,
        Filled::Failed => return Incoming::Failed,
    }
    let length = u32::from_be_bytes(header) as usize;
    if length > MAX_BODY {
        return Incoming::TooLong;
    }
    match fill(reader, &mut buffer[..length]) {
        Filled::Whole => Incoming::Body(length),
        Filled::Ended(_) => Incoming::Cut,
        Filled::Failed => Incoming::Failed,
    }
}

/// Writes all of the bytes, in as many writes as it takes.
pub(crate) fn write_whole<W: Write>(
    writer: &mut Counted<W>,
    bytes: &[u8],
) -> Result<(), DeviceFault>
    ensures { Sends (W.contents (inner_of writer.old)) (W.contents (inner_of writer.new))
        (faults_of writer.old) (faults_of writer.new) bytes.now result }
{
    let mut rest = bytes;
    while !rest.is_empty() {
        let n = writer.write(rest)?;
        rest = &rest[n..];
    }
    Ok(())
}

/// Writes one frame: by one write where the buffer has room for it and the writer takes it whole.
pub(crate) fn write_frame<W: Write>(
    writer: &mut Counted<W>,
    buffer: &mut [u8],
    body: &[u8],
) -> Result<(), DeviceFault>
    requires { length body.now < 2 ^ 32 }
    ensures { Sends (W.contents (inner_of writer.old)) (W.contents (inner_of writer.new))
        (faults_of writer.old) (faults_of writer.new) (frame body.now) result }
{
    let header = (body.len() as u32).to_be_bytes();
    if buffer.len() < 4 + body.len() {
        write_whole(writer, &header)?;
        return write_whole(writer, body);
    }
    join(buffer, &header, body);
    write_whole(writer, &buffer[..4 + body.len()])
}

/// Puts the parts one behind the other at the buffer's front.
fn join(buffer: &mut [u8], front: &[u8], back: &[u8])
    requires { length front.now + length back.now ≤ length buffer.old }
    ensures { take (length front.now + length back.now) buffer.new ≡ front.now ++ back.now }
{
    let end = front.len() + back.len();
    buffer[..front.len()].copy_from_slice(front);
    buffer[front.len()..end].copy_from_slice(back);
}
