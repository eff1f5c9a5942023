//! What is true of the steps of an automaton, for the crates above. The function has no code, and its contract is the
//! law.
ghost use Rattle.std.specs.Prelude.{ℕ, ◌≤◌, List, Bool};
ghost use Rattle.ra_stamp.specs.declared.message.Message.{Message};
ghost use Rattle.ra_stamp.specs.declared.mode.Mode.{Mode};
ghost use Rattle.ra_stamp.specs.Message.{from_of};
ghost use Rattle.ra_stamp.specs.NodeId.{IsNodeNumber};
ghost use Rattle.ra_automaton.specs.State.{State, opening, IsOther, IsConsistent};
ghost use Rattle.ra_automaton.specs.Steps.{RequestStep, ReceiveStep, LeaveStep, LeaveAndRequestStep};
ghost use Rattle.ra_automaton.specs.Steps.{WithdrawStep, WithdrawAndRequestStep};

/// The state of one of 1 to 64 nodes that has met nothing is consistent. Each request, leave and withdrawal, and each
/// message from another node leads from a consistent state to a consistent one.
pub fn steps_keep_a_state_consistent()
    ensures opening { (me nodes start : ℕ) (name : List ℕ)
        → IsNodeNumber nodes → IsNodeNumber me → me ≤ nodes → IsConsistent (opening me nodes name start) }
    ensures request { (old new : State) (mode : Mode) (sends : List Message) (entered : Bool)
        → IsConsistent old → RequestStep old mode sends entered new → IsConsistent new }
    ensures receive { (old new : State) (message : Message) (sends : List Message) (entered : Bool)
        → IsConsistent old → IsOther old (from_of message) → ReceiveStep old message sends entered new
        → IsConsistent new }
    ensures leave { (old new : State) (sends : List Message)
        → IsConsistent old → LeaveStep old sends new → IsConsistent new }
    ensures leave_and_request { (old new : State) (mode : Mode) (sends : List Message) (entered : Bool)
        → IsConsistent old → LeaveAndRequestStep old mode sends entered new → IsConsistent new }
    ensures withdraw { (old new : State) (sends : List Message)
        → IsConsistent old → WithdrawStep old sends new → IsConsistent new }
    ensures withdraw_and_request { (old new : State) (mode : Mode) (sends : List Message) (entered : Bool)
        → IsConsistent old → WithdrawAndRequestStep old mode sends entered new → IsConsistent new }
{}
