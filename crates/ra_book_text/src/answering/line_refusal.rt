ghost use Rattle.std.specs.Prelude.{◌≡◌, ◌≤◌, length};
ghost use Rattle.ra_book_text.specs.Answers as spec;

use ra_book::BookError;
use ra_frame::FrameError;

/// Why a line of a book is refused. The causes are looked for in this order.
#[derive(Clone, Copy)]
pub enum Refusal {
    /// It has none of the forms of lines in the version of its book, or more than 256 bytes.
    Line,
    /// The digits are an odd number, or not hexadecimal.
    Hex,
    /// The bytes are no frame.
    Frame(FrameError),
    /// The node does not take the event, or there is no clock or no memory for it.
    Event(BookError),
}

/// Returns the line that answers a refused line. It does not allocate.
pub fn refused_line(why: Refusal) -> &'static str
    ensures text { result.now ≡ spec.refused_line why }
    ensures short { length result.now ≤ 40 }
{
    match why {
        Refusal::Line => "refused Line\n",
        Refusal::Hex => "refused Hex\n",
        Refusal::Frame(fault) => fault.refused_line(),
        Refusal::Event(cause) => match cause {
            BookError::Failed => "refused Failed\n",
            BookError::Frame(fault) => fault.refused_line(),
            BookError::Busy => "refused Busy\n",
            BookError::Exhausted => "refused Exhausted\n",
            BookError::NotHeld => "refused NotHeld\n",
            BookError::NotWaiting => "refused NotWaiting\n",
            BookError::WrongNode => "refused WrongNode\n",
            BookError::Stranger => "refused Stranger\n",
            BookError::ClockFull => "refused ClockFull\n",
            BookError::Memory => "refused Memory\n",
        },
    }
}
