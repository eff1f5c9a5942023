//! What joins the answers of nodes and the settling of their books. The function does nothing, and its contract is the
//! law.
ghost use Rattle.std.specs.Prelude.{◌≡◌, ◌∷◌, ◌++◌, ℕ, Bool, List, All, codes};
ghost use Rattle.std.specs.List.{AllZip};
ghost use Rattle.ra_book.specs.Book.{BookState};
ghost use Rattle.ra_book_text.specs.declared.text_settling.SettledText.{SettledText};
ghost use Rattle.ra_book_text.specs.Answers.{lines_of, text_of};
ghost use Rattle.ra_book_text.specs.Book.{AnswersBook};
ghost use Rattle.ra_book_text.specs.Laws.{AreLinesTold, Driven, IsBookOf, IsDriven, all_book_lines};
ghost use Rattle.ra_book_text.specs.Texts.{AreBeside, AreRight, IsText};
ghost use Rattle.ra_book_text.specs.Verdicts.{IsSettledText};

use crate::laws::lines_are_read_in_one_way;
use ra_book::{histories_are_determined, timed_nodes_have_histories};
use ra_node::events_go_on;

/// The lines that a node accepted are its book, as `settle_text` reads it. The frames that the node answered are those
/// that the book sent, in order and each with its clock, and the marks that it answered are the book's.
pub fn books_say_what_nodes_answered()
    // What `answer_book` answered to a book is what a node answers that its lines drive.
    ensures driven { (first : List ℕ) (lines : List (List ℕ)) (text : List ℕ) → AnswersBook (first ∷ lines) text
        → (driven : Driven) × IsDriven driven × (driven.first ≡ first) × (lines_of driven.answered ≡ lines)
        × (text ≡ codes "ok\n" ++ text_of driven.answered) }
    // The lines that were kept of a node are such a book.
    ensures book { (driven : Driven) → IsDriven driven → (book : BookState) × IsBookOf driven book }
    // The answers are lines, and they tell exactly the frames that the book sent and its marks.
    ensures lines { (driven : Driven) (book : BookState) (is : IsBookOf driven book) → AreLinesTold driven book is }
    // The books of different nodes of one cluster, one after the other, have no wrong line.
    ensures right { (driven : List Driven) (books : List BookState) → AllZip IsBookOf driven books → AreBeside books
        → AreRight (all_book_lines driven) books }
    // What is read of them is these books and no others.
    ensures read { (driven : List Driven) (books : List BookState) → All IsDriven driven
        → AreRight (all_book_lines driven) books
        → AllZip IsBookOf driven books }
    // If the text of them settles, it is these books that do.
    ensures settled { (repeats : Bool) (driven : List Driven) (input : List ℕ) (text : SettledText)
        → (is : IsSettledText repeats input text) → All IsDriven driven → IsText input (all_book_lines driven)
        → AllZip IsBookOf driven is.books }
{
    lines_are_read_in_one_way();
    histories_are_determined();
    events_go_on();
    timed_nodes_have_histories();
}
