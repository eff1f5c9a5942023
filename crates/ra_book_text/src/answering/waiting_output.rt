//! What waits to be written.
ghost use Rattle.std.specs.Prelude.{◌≡◌, ◌≤◌, [], true, false, length};
ghost use Rattle.ra_book_text.specs.Output.{Puts};

use arrayvec::ArrayVec;
use ra_text::write_out;
use std::io::Write;

/// The most bytes that wait.
const MOST_WAITING: usize = 16_384;

/// The text that waits to be written, and whether the writer failed. After that nothing is written any more, and what
/// is put out is dropped: so the calls that put text out have no errors. Only this file asks the writer, and so only it
/// says that the writer failed.
#[derive(Drop)]
pub struct Output {
    waiting: ArrayVec<u8, MOST_WAITING>,
    failed: bool,
}

impl Output {
    /// Makes one with nothing waiting.
    pub fn new() -> Output
        ensures waiting { result.waiting.items ≡ [] }
        ensures failed { result.failed ≡ false }
    {
        Output {
            waiting: ArrayVec::new(),
            failed: false,
        }
    }
}

/// Writes all that waits.
pub fn write_waiting<W: Write>(writer: &mut W, out: &mut Output)
    ensures puts { Puts (W.contents writer.old) (W.contents writer.new) out.old out.new [] }
    ensures none { out.new.failed ≡ false → out.new.waiting.items ≡ [] }
    ensures kept { out.old.failed ≡ true → out.new.failed ≡ true }
{
    if !out.failed {
        out.failed = write_out(writer, out.waiting.as_slice()).is_err();
        out.waiting.clear();
    }
}

/// Writes all that waits, and has the writer pass it on. Returns whether the writer failed, now or before.
pub fn flush<W: Write>(writer: &mut W, out: &mut Output) -> bool
    ensures failed { result ≡ out.new.failed }
    ensures puts { Puts (W.contents writer.old) (W.contents writer.new) out.old out.new [] }
    ensures none { out.new.failed ≡ false → out.new.waiting.items ≡ [] }
    ensures kept { out.old.failed ≡ true → out.new.failed ≡ true }
{
    write_waiting(writer, out);
    if !out.failed {
        out.failed = writer.flush().is_err();
    }
    out.failed
}

/// Does as [`flush`] if the reader is drained: it shows nothing more, so that to ask it may mean to wait. Returns
/// whether the writer failed, now or before.
pub fn flush_if<W: Write>(is_drained: bool, writer: &mut W, out: &mut Output) -> bool
    ensures failed { result ≡ out.new.failed }
    ensures puts { Puts (W.contents writer.old) (W.contents writer.new) out.old out.new [] }
    ensures written { is_drained ≡ true → out.new.failed ≡ false → out.new.waiting.items ≡ [] }
{
    if is_drained {
        flush(writer, out)
    } else {
        out.failed
    }
}

/// Puts out a short text after what waits, and first writes that if there is no room for both.
pub fn put<W: Write>(writer: &mut W, out: &mut Output, text: &[u8])
    requires { length text.now ≤ 256 }
    ensures { Puts (W.contents writer.old) (W.contents writer.new) out.old out.new text.now }
{
    if out.waiting.remaining_capacity() < text.len() {
        write_waiting(writer, out);
    }
    if !out.failed {
        out.waiting.try_extend_from_slice(text).unwrap();
    }
}
