//! How the dot of a client that asks, leaves or gives up is drawn.
use crate::svg::wording::MODE_TEXTS;
use crate::timeline::LockKey;
use ra_stamp::Mode;

/// What a dot says, and how it looks.
#[derive(Clone, Copy)]
pub struct ActLook {
    pub key: LockKey,
    /// What the client does, before the name.
    pub what: &'static str,
    /// The mode that it asks for, after the name.
    pub mode_text: &'static str,
    /// What the label says before the name, and after it.
    pub verb: &'static str,
    pub space: &'static str,
    pub word: &'static str,
    /// The class of the dot.
    pub class: &'static str,
    pub is_crossed: bool,
}

impl ActLook {
    /// Returns the look of an ask.
    pub fn of_ask(key: &LockKey, mode: Mode) -> ActLook {
        ActLook {
            key: *key,
            what: "asks for",
            mode_text: MODE_TEXTS[mode as usize],
            verb: "asks",
            space: " ",
            word: mode.word(),
            class: "ask",
            is_crossed: false,
        }
    }

    /// Returns the look of a leave.
    pub fn of_leave(key: &LockKey) -> ActLook {
        ActLook {
            key: *key,
            what: "leaves",
            mode_text: "",
            verb: "leaves",
            space: "",
            word: "",
            class: "leave",
            is_crossed: false,
        }
    }

    /// Returns the look of a cancel.
    pub fn of_cancel(key: &LockKey) -> ActLook {
        ActLook {
            key: *key,
            what: "gives up",
            mode_text: "",
            verb: "cancels",
            space: "",
            word: "",
            class: "leave",
            is_crossed: true,
        }
    }
}
