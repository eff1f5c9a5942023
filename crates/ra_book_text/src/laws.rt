//! What is true of books, for hosts. Each function does nothing, and its contract is the law.
pub mod node_books;
pub mod text_verdicts;

ghost use Rattle.std.specs.Prelude.{◌≡◌, ◌⊎◌, ℕ, List, map};
ghost use Rattle.std.specs.List.{AllZip};
ghost use Rattle.ra_book.specs.declared.book.event.BookEvent.{BookEvent};
ghost use Rattle.ra_book.specs.declared.book.sent.Sent.{Sent};
ghost use Rattle.ra_book.specs.History.{IsHistory, clock_of};
ghost use Rattle.ra_book.specs.declared.book.event.BookKind.{BookKind};
ghost use Rattle.ra_book_text.specs.Answers.{Answered, AnswersEach, kept_of, lines_of, text_of};
ghost use Rattle.ra_book_text.specs.BookText.{Form, HasForm, IsEvent, IsEventIn, IsFirst, IsUnread};
ghost use Rattle.ra_book_text.specs.declared.next_line.book_version.BookVersion.{BookVersion};
ghost use Rattle.ra_book_text.specs.declared.answering.line_refusal.Refusal.{Refusal};
ghost use Rattle.ra_book_text.specs.Laws.{IsCutShort};
ghost use Rattle.ra_book.specs.Timed.{Timed, opening};

use ra_book::timed_nodes_have_histories;
use ra_frame::{one_spelling, round_trip};
use ra_node::events_are_determined;

/// The lines that a node accepted are its book. So a node comes back when it is handed its book again, with the same
/// answers as before.
pub fn books_determine_nodes()
    // The answers to lines tell which of them were accepted, and what the node is after them.
    ensures told { (version : BookVersion) (old a b : Timed) (all others : List Answered)
        → AnswersEach version old all a → AnswersEach version old others b
        → lines_of all ≡ lines_of others → text_of all ≡ text_of others → (all ≡ others) × (a ≡ b) }
    // The lines that were accepted are accepted without the others, with the very same answers, and lead to the same
    // node with the same clock.
    ensures kept { (version : BookVersion) (old new : Timed) (all : List Answered) → AnswersEach version old all new
        → AnswersEach version old (kept_of all) new }
    // If the same lines were accepted, the answers to them are the same, and so are the node and its clock, whatever
    // was refused.
    ensures determined { (version : BookVersion) (old a b : Timed) (all others : List Answered)
        → AnswersEach version old all a → AnswersEach version old others b
        → lines_of (kept_of all) ≡ lines_of (kept_of others) → (kept_of all ≡ kept_of others) × (a ≡ b) }
    // A node that is handed the book again answers each line as before, and is the same then; or memory runs out, and
    // the first line with another answer is refused for that.
    ensures again { (version : BookVersion) (old a b : Timed) (all others : List Answered)
        → AnswersEach version old all a → AnswersEach version old others b
        → lines_of others ≡ lines_of (kept_of all)
        → ((others ≡ kept_of all) × (b ≡ a)) ⊎ IsCutShort (kept_of all) others }
    // The lines that were accepted are the events of a history.
    ensures history { (version : BookVersion) (me n start : ℕ) (new : Timed) (all : List Answered)
        → AnswersEach version (opening me n start) all new
        → (events : List BookEvent) × (sent : List Sent) × IsHistory me n start events sent new.node
        × AllZip (IsEventIn version) (lines_of (kept_of all)) (map (λ e. e.kind) events)
        × (clock_of events ≡ new.clock) }
{
    lines_are_read_in_one_way();
    events_are_determined();
    timed_nodes_have_histories();
    one_spelling();
    round_trip();
}

/// No line can be read in two ways: it is the first line of one book, or one event, or neither.
pub fn lines_are_read_in_one_way()
    ensures first { (line : List ℕ) (version version' : BookVersion) (node other nodes nodes' start start' : ℕ)
        → IsFirst line version node nodes start → IsFirst line version' other nodes' start'
        → (version ≡ version') × (node ≡ other) × (nodes ≡ nodes') × (start ≡ start') }
    ensures event { (line : List ℕ) (a b : BookKind) → IsEvent line a → IsEvent line b → a ≡ b }
    // A first line has none of the forms of events, and an event is not refused as a line.
    ensures apart { (line : List ℕ) (version : BookVersion) (node nodes start : ℕ) (form : Form)
        → IsFirst line version node nodes start → HasForm line form → ⊥ }
    ensures is_read { (line : List ℕ) (kind : BookKind) (why : Refusal) → IsEvent line kind → IsUnread line why → ⊥ }
{
    round_trip();
}
