//! Laws of frame texts, for the crates above: each function has no code, and its contract is the law.
ghost use Rattle.std.specs.Prelude.{◌≡◌, ℕ, ◌<◌, List, All, None};
ghost use Rattle.ra_frame.specs.declared.format.Format.{Format};
ghost use Rattle.ra_frame.specs.declared.frame.Frame.{Frame};
ghost use Rattle.ra_frame.specs.FrameText.{IsFrameText, IsFrameTextOf, IsWrittenText};
ghost use Rattle.ra_frame.specs.Faults.{first_fault};

/// No two texts of one version are the same frame.
pub fn one_spelling()
    ensures { (format : Format) (a b : List ℕ) (frame : Frame) → IsFrameTextOf format a frame
        → IsFrameTextOf format b frame → a ≡ b }
{}

/// What is written may be read, and what is read may be written. A text of either version has no fault and is one
/// frame, and that frame has a text in version 2, which is the one that is written. Bytes without a fault are the text
/// of a frame, and its only text in their version.
pub fn round_trip()
    ensures no_fault { (bytes : List ℕ) (frame : Frame) → IsFrameText bytes frame → first_fault bytes ≡ None }
    ensures one_frame { (bytes : List ℕ) (a b : Frame) → IsFrameText bytes a → IsFrameText bytes b → a ≡ b }
    ensures has_frame { (bytes : List ℕ) → All (λ byte. byte < 256) bytes → first_fault bytes ≡ None
        → (frame : Frame) × (format : Format) × IsFrameTextOf format bytes frame
        × ((other : List ℕ) → IsFrameTextOf format other frame → other ≡ bytes) }
    ensures written_is_read { (bytes : List ℕ) (frame : Frame) → IsWrittenText bytes frame → IsFrameText bytes frame }
    ensures read_is_written { (bytes : List ℕ) (frame : Frame) → IsFrameText bytes frame
        → (text : List ℕ) × IsWrittenText text frame }
{}
