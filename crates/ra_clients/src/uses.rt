//! The names that one client holds or waits for.
ghost use Rattle.std.specs.Prelude.{◌≡◌, ◌<◌, ◌++◌, ◌∷◌, [], ℕ, true, false, if◌then◌else◌, length, slice_index_or, Some, MatchOption, IfSome, IfNone, OnOk, OnErr};
ghost use Rattle.ra_clients.specs.Uses as spec;
ghost use Rattle.ra_clients.specs.Uses.{let_in, lock_refusal, new_use, use_of, waits_for, without};
ghost use Rattle.ra_clients.specs.declared.uses.NameUse as listed;

use ra_host_text::Refusal;
use ra_stamp::{Memory, Name};

/// What a client makes of a name.
#[derive(Clone, Copy, Debug, PartialEq, Eq)]
pub enum Standing {
    /// It waits for the name, or is queued for it.
    Waits {
        /// When it gives up, if it does, in milliseconds since the start.
        until: Option<u64>,
    },
    /// It holds the name.
    Holds,
}

/// A name that a client holds or waits for.
#[derive(Clone, Copy, Debug, PartialEq, Eq)]
pub struct NameUse {
    /// The name.
    pub name: Name,
    /// Since when it holds the name, or waits for it, in milliseconds since the start.
    pub since: u64,
    /// What it makes of the name.
    pub standing: Standing,
}

impl Standing {
    /// Returns whether the client waits. It does not allocate.
    pub fn waits(self) -> bool
        ensures { result ≡ spec.waits self }
    {
        match self {
            Standing::Waits { .. } => true,
            Standing::Holds => false,
        }
    }

    /// Returns when the client gives up, if it does. It does not allocate.
    pub fn until(self) -> Option<u64>
        ensures { result ≡ spec.until_of self }
    {
        match self {
            Standing::Waits { until } => until,
            Standing::Holds => None,
        }
    }
}

impl NameUse {
    /// Returns whether it is the use of this name.
    fn is_of(&self, name: &Name) -> bool
        ensures { result ≡ spec.is_of name.now self.now }
    {
        self.name == *name
    }
}

/// Returns the place of the use of a name.
fn place_of(uses: &[NameUse], name: &Name) -> Option<usize>
    ensures within { IfSome result (λ place. place < length uses.now) }
    ensures found { IfSome result
        (λ place. (d : listed.NameUse) → spec.is_of name.now (slice_index_or uses.now place d) ≡ true) }
    ensures first { IfSome result (λ place. (k : ℕ) (d : listed.NameUse) → k < place
        → spec.is_of name.now (slice_index_or uses.now k d) ≡ false) }
    ensures none { IfNone result ((k : ℕ) (d : listed.NameUse) → k < length uses.now
        → spec.is_of name.now (slice_index_or uses.now k d) ≡ false) }
{
    for place in 0..uses.len() {
        if uses[place].is_of(name) {
            return Some(place);
        }
    }
    None
}

/// Returns the use of a name, if the client has one. The cost is linear in the number of its names. It does not
/// allocate.
pub fn find_use(uses: &[NameUse], name: &Name) -> Option<NameUse>
    ensures { result ≡ use_of name.now uses.now }
{
    let Some(place) = place_of(uses, name) else {
        return None;
    };
    Some(uses[place])
}

/// Returns the name for which the client asked first, if it has one. It does not allocate.
#[tactic(auto, using(crate::proofs::UseLists::first_named))]
pub fn first_use(uses: &[NameUse]) -> Option<NameUse>
    ensures { MatchOption result (uses.now ≡ []) (λ first. use_of first.name uses.now ≡ Some first) }
{
    if uses.is_empty() {
        return None;
    }
    Some(uses[0])
}

/// Returns why a client may not ask for a name, if it may not: `Busy`, if it holds the name or waits for it, and
/// otherwise `Limit`, if it has the greatest number of names that it may have. The cost is linear in the number of its
/// names. It does not allocate.
pub fn check_lock(uses: &[NameUse], name: &Name, most: usize) -> Option<Refusal>
    ensures { result ≡ lock_refusal name.now most uses.now }
{
    if find_use(uses, name).is_some() {
        return Some(Refusal::Busy);
    }
    if most <= uses.len() {
        return Some(Refusal::Limit);
    }
    None
}

/// The client begins to wait for a name.
///
/// # Errors
///
/// `Memory`: nothing has changed.
pub fn begin_use(
    uses: &mut Vec<NameUse>,
    name: &Name,
    now: u64,
    until: Option<u64>,
) -> Result<(), Memory>
    ensures ok { OnOk result (uses.new.items ≡ uses.old.items ++ new_use name.now now until ∷ []) }
    ensures err { OnErr result (uses.new.items ≡ uses.old.items) }
{
    uses.push(NameUse {
        name: *name,
        since: now,
        standing: Standing::Waits { until },
    })?;
    Ok(())
}

/// The client is let in to a name, if it waits for it, and holds it from now on. Returns whether it waited. The cost is
/// linear in the number of its names. It does not allocate.
pub fn enter_use(uses: &mut Vec<NameUse>, name: &Name, now: u64) -> bool
    ensures waited { result ≡ waits_for name.now uses.old.items }
    ensures uses { uses.new.items ≡ (if result then let_in name.now now uses.old.items else uses.old.items) }
{
    let Some(place) = place_of(uses, name) else {
        return false;
    };
    if !uses[place].standing.waits() {
        return false;
    }
    uses[place] = NameUse {
        name: *name,
        since: now,
        standing: Standing::Holds,
    };
    true
}

/// The client neither holds a name nor waits for it any more. Returns what it made of the name, if anything. The cost
/// is linear in the number of its names. It does not allocate.
pub fn end_use(uses: &mut Vec<NameUse>, name: &Name) -> Option<NameUse>
    ensures value { result ≡ use_of name.now uses.old.items }
    ensures uses { uses.new.items ≡ without name.now uses.old.items }
{
    let Some(place) = place_of(uses, name) else {
        return None;
    };
    Some(uses.remove(place))
}
