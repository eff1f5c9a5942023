//! The versions of books.
ghost use Rattle.std.specs.Prelude.{◌≡◌, ◌↔◌, IsTrue};
ghost use Rattle.ra_book_text.specs.BookText.{AllowsKind, version_text};

use ra_book::BookKind;

/// The version of a book, which its first line names. Each line after it is read in this version.
#[derive(Clone, Copy, Debug, PartialEq, Eq)]
pub enum BookVersion {
    /// Clients ask and leave, and frames come.
    One,
    /// The same, and clients give up, and the node forgets names.
    Two,
}

impl BookVersion {
    /// Returns the words that begin a book of this version. It does not allocate.
    pub fn words(self) -> &'static str
        ensures { result.now ≡ version_text self }
    {
        match self {
            BookVersion::One => "book 1",
            BookVersion::Two => "book 2",
        }
    }

    /// Returns whether a book of this version can have an event of this kind.
    pub fn allows(self, kind: &BookKind) -> bool
        ensures { IsTrue result ↔ AllowsKind self kind.now }
    {
        match (self, kind) {
            (BookVersion::One, BookKind::Cancel { .. } | BookKind::Forget) => false,
            _ => true,
        }
    }
}
