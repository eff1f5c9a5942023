//! What is true of every picture. The function does nothing, and its contract is the law.
ghost use Rattle.std.specs.Prelude.{◌≡◌, ℕ, List};
ghost use Rattle.ra_draw.specs.Pictures.{AreLines};
ghost use Rattle.ra_trace.specs.declared.line.Line.{Line};

/// No text is made of two lists of lines. So it says which of its lines a picture of a part of it has.
pub fn each_text_has_one_list_of_lines()
    ensures { (text : List ℕ) (a b : List Line) → AreLines a text → AreLines b text → a ≡ b }
{}
