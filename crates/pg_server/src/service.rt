//! Serving frames: each body is handed to a service, whose reply is written as a frame.
ghost use Rattle.std.specs.Prelude.{◌≡◌, ℕ, List, length};
ghost use Rattle.pg_server.specs.Counts.{inner_of, faults_of};
ghost use Rattle.pg_server.specs.Frames.{frame, body_limit};
ghost use Rattle.pg_server.specs.Served.{Served, device, too_long_reply, read_faults, write_faults};
ghost use Rattle.pg_server.specs.Wire.{Sends};

use crate::counted::{Counted, DeviceFault};
use crate::end::End;
use crate::wire::{Incoming, read_frame, write_frame};
use pg_json::{ReplyBytes, refusal};
use pg_meaning::Fault;
use std::io::{Read, Write};

/// What answers requests.
pub(crate) trait Service {
    // From the first state, a body may get this reply, which leaves the second state.
    ghost answers: { Self → List ℕ → List ℕ → Self → Type 0 };

    fn answer(&mut self, body: &[u8]) -> ReplyBytes
        ensures { answers self.old body.now result self.new };
}

/// Served at most so many frames, with a buffer for one body.
pub(crate) fn serve<S: Service, R: Read, W: Write>(
    service: &mut S,
    reader: &mut Counted<R>,
    writer: &mut Counted<W>,
    buffer: &mut [u8],
    max_frames: u64,
) -> End
    requires { length buffer.old ≡ body_limit }
    ensures serves { Served S.answers
        (device (R.remaining (inner_of reader.old)) (R.remaining (inner_of reader.new)))
        (device (W.contents (inner_of writer.old)) (W.contents (inner_of writer.new)))
        service.old service.new max_frames result }
    ensures read_faults { faults_of reader.new ≡ read_faults result (faults_of reader.old) }
    ensures write_faults { faults_of writer.new ≡ write_faults result (faults_of writer.old) }
{
    for _served in 0..max_frames {
        match read_frame(reader, buffer) {
            Incoming::NoFrame => return End::Done,
            Incoming::Cut => return End::Cut,
            Incoming::Failed => return End::ReadFailed,
            Incoming::TooLong => {
                return match refuse_length(writer, buffer) {
                    Ok(()) => End::TooLong,
                    Err(_) => End::WriteFailed,
                };
            }
            Incoming::Body(length) => {
                let reply = service.answer(&buffer[..length]);
                match write_frame(writer, buffer, reply.as_slice()) {
                    Ok(()) => {}
                    Err(_) => return End::WriteFailed,
                }
            }
        }
    }
    End::Done
}

/// The reply to a frame that is too long, whose body stays unread.
fn refuse_length<W: Write>(writer: &mut Counted<W>, buffer: &mut [u8]) -> Result<(), DeviceFault>
    ensures { Sends (W.contents (inner_of writer.old)) (W.contents (inner_of writer.new))
        (faults_of writer.old) (faults_of writer.new) (frame too_long_reply) result }
{
    write_frame(writer, buffer, refusal(Fault::FrameTooLong).as_slice())
}
