//! What is true of every text of books. Each function does nothing, and its contract is the law.
ghost use Rattle.std.specs.Prelude.{◌≡◌, ◌∷◌, ◌++◌, ℕ, Bool, List};
ghost use Rattle.ra_book.specs.Book.{BookState};
ghost use Rattle.ra_book_text.specs.Texts.{AreRight, IsText, Said, Says};
ghost use Rattle.ra_book_text.specs.Verdicts.{HasFittingBooks, IsWrong, IsWrongLine};
ghost use Rattle.ra_book_text.specs.declared.next_line.book_version.BookVersion.{BookVersion};
ghost use Rattle.ra_book_text.specs.declared.text_settling.settle_error.TextCause.{TextCause};

use crate::lines_are_read_in_one_way;
use ra_book::histories_are_determined;
use ra_node::events_go_on;

/// No text of books can be read in two ways: it has one list of lines, no line says two things, and the lines are those
/// of one list of books at most.
pub fn texts_of_books_are_read_in_one_way()
    ensures lines { (text : List ℕ) (lines others : List (List ℕ)) → IsText text lines → IsText text others
        → lines ≡ others }
    ensures said { (line : List ℕ) (a b : Said) → Says line a → Says line b → a ≡ b }
    ensures books { (lines : List (List ℕ)) (books others : List BookState)
        → AreRight lines books → AreRight lines others → books ≡ others }
    // The first line of the last book names this version.
    ensures version { (lines : List (List ℕ)) (books others : List BookState) (is : AreRight lines books)
        (other : AreRight lines others) → is.version ≡ other.version }
    // No line is wrong among lines that are right, and none is wrong for two causes.
    ensures right { (before after : List (List ℕ)) (line : List ℕ) (why : TextCause) (earlier books : List BookState)
        → (is : AreRight before earlier) → IsWrongLine is.version earlier line why
        → AreRight (before ++ line ∷ after) books → ⊥ }
    ensures cause { (version : BookVersion) (books : List BookState) (line : List ℕ) (cause why : TextCause)
        → IsWrongLine version books line cause → IsWrongLine version books line why → cause ≡ why }
{
    lines_are_read_in_one_way();
    histories_are_determined();
    events_go_on();
}

/// No text of books has two verdicts. If its books fit, nothing is wrong with it; otherwise at most one line is, for
/// one cause.
pub fn each_text_of_books_has_one_verdict()
    ensures fit { (repeats : Bool) (text : List ℕ) (line : ℕ) (cause : TextCause)
        → HasFittingBooks repeats text → IsWrong repeats text line cause → ⊥ }
    ensures wrong { (repeats : Bool) (text : List ℕ) (line other : ℕ) (cause why : TextCause)
        → IsWrong repeats text line cause → IsWrong repeats text other why → (line ≡ other) × (cause ≡ why) }
{
    texts_of_books_are_read_in_one_way();
}
