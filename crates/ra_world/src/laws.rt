//! What is true of every run of a world, for the crates above. Each function does nothing, and its contract is the law.
pub mod fairness;
pub mod fitting;

ghost use Rattle.std.specs.Prelude.{◌≡◌, ◌≢◌, ◌+◌, ◌-◌, ◌*◌, ◌<◌, ◌≤◌, ◌++◌, ◌∷◌, ◌↔◌, [], ℕ, List, Some, All, AllPairs, Contains, length, map};
ghost use Rattle.ra_stamp.specs.declared.message.Message.{Message};
ghost use Rattle.ra_stamp.specs.declared.mode.Mode.{Mode};
ghost use Rattle.ra_stamp.specs.declared.entry.Entry.{Entry};
ghost use Rattle.ra_stamp.specs.declared.entry.Mark.{Mark};
ghost use Rattle.ra_stamp.specs.Message.{from_of, to_of, seq_of};
ghost use Rattle.ra_stamp.specs.Mode.{Conflict};
ghost use Rattle.ra_stamp.specs.NodeId.{IsNodeNumber};
ghost use Rattle.ra_automaton.specs.State.{IsOtherNode};
ghost use Rattle.ra_automaton.specs.Steps.{Awaits};
ghost use Rattle.ra_node.specs.Resource.{Holds, IsKeptWaiting, holder_of};
ghost use Rattle.ra_node.specs.Turns.{MayAsk};
ghost use Rattle.ra_node.specs.Node.{NodeState, opening_node, resource_at};
ghost use Rattle.ra_node.specs.Events.{Event, NodeEvent, NodeEvents};
ghost use Rattle.ra_table.specs.Table.{LockTable, TableRun, MayEnter};
ghost use Rattle.ra_table.specs.Laws.{IsAt};
ghost use Rattle.ra_world.specs.declared.step.Step.{Step};
ghost use Rattle.ra_world.specs.Traffic.{Move, TakesEach, LeavesUnderWay, IsUnderWay, sent_by, put_in, put_by, repeated_by, taken_by, taken_in};
ghost use Rattle.ra_world.specs.Numbers.{IsNumberedMark, IsNumberedMessage};
ghost use Rattle.ra_world.specs.AtNodes.{IsTableOf};
ghost use Rattle.ra_world.specs.Asked.{AsksIn, IsGrantedIn, asks_by, cancels_by};
ghost use Rattle.ra_world.specs.Quiet.{IsQuiet, IsBlocked, MeetsMessageCount, requests_in, withdrawn_in};
ghost use Rattle.ra_world.specs.Run.{IsRun, IsFit, GoesOn, WorldRun, EndsWith, events_at, marks_of, happened_at, waiting_at_all, queued_at_all, with_node};

use crate::Step;
use ra_stamp::{Entry, Mark, Message};

/// Mutual exclusion: at the end of a run no two different nodes hold a name in modes that conflict, whatever was lost
/// or repeated and in whatever order the messages came.
pub fn two_nodes_never_hold_in_conflict()
    ensures { (n start : ℕ) (moves : List Move) (nodes : ℕ
        → NodeState) (i j : ℕ) (name : List ℕ) (a b : Entry)
        → IsNodeNumber n → IsRun n start moves → EndsWith n start moves nodes
        → IsNodeNumber i → i ≤ n → IsNodeNumber j → j ≤ n → i ≢ j
        → holder_of (resource_at (nodes i) name) ≡ Some a → holder_of (resource_at (nodes j) name) ≡ Some b
        → ¬ Conflict a.mode b.mode }
{}

/// Which steps a run goes on with: an ask, a leave or a cancel at an existing node, if its client may ask, holds, or
/// waits or is queued at the end of the run; that an existing node forgets; and the delivery, the loss or a copy of a
/// message that is under way.
pub fn runs_go_on_where_steps_are_allowed()
    ensures empty { (n start : ℕ) → IsRun n start [] }
    ensures ask { (n start : ℕ) (moves : List Move) (nodes : ℕ → NodeState)
        → IsNodeNumber n → IsRun n start moves → EndsWith n start moves nodes
        → (node client : ℕ) (name : List ℕ) (mode : Mode)
        → GoesOn n start moves (Step.Ask node client name mode)
        ↔ (((1 ≤ node) × (node ≤ n)) × MayAsk (resource_at (nodes node) name) client) }
    ensures leave { (n start : ℕ) (moves : List Move) (nodes : ℕ → NodeState)
        → IsNodeNumber n → IsRun n start moves → EndsWith n start moves nodes
        → (node client : ℕ) (name : List ℕ)
        → GoesOn n start moves (Step.Leave node client name)
        ↔ (((1 ≤ node) × (node ≤ n)) × ((entry : Entry)
        × Holds (resource_at (nodes node) name) client entry)) }
    ensures cancel { (n start : ℕ) (moves : List Move) (nodes : ℕ → NodeState)
        → IsNodeNumber n → IsRun n start moves → EndsWith n start moves nodes
        → (node client : ℕ) (name : List ℕ)
        → GoesOn n start moves (Step.Cancel node client name)
        ↔ (((1 ≤ node) × (node ≤ n)) × IsKeptWaiting (resource_at (nodes node) name) client) }
    ensures forget { (n start : ℕ) (moves : List Move) → IsNodeNumber n → IsRun n start moves
        → (node : ℕ) → GoesOn n start moves (Step.Forget node) ↔ ((1 ≤ node) × (node ≤ n)) }
    ensures deliver { (n start : ℕ) (moves : List Move) → IsNodeNumber n → IsRun n start moves
        → (message : Message) → GoesOn n start moves (Step.Deliver message) ↔ IsUnderWay moves message }
    ensures lose { (n start : ℕ) (moves : List Move) → IsNodeNumber n → IsRun n start moves
        → (message : Message) → GoesOn n start moves (Step.Lose message) ↔ IsUnderWay moves message }
    ensures repeat { (n start : ℕ) (moves : List Move) → IsNodeNumber n → IsRun n start moves
        → (message : Message) → GoesOn n start moves (Step.Repeat message) ↔ IsUnderWay moves message }
{}

/// A node changes by its own steps alone: after a move at another node, a run goes on with an ask, a leave or a
/// cancel at this node if it did before.
pub fn steps_elsewhere_leave_a_node()
    ensures ask { (n start : ℕ) (moves : List Move) (move : Move) → IsNodeNumber n → IsRun n start (moves ++ move ∷ [])
        → (node client : ℕ) (name : List ℕ) (mode : Mode) → events_at node move.step ≡ []
        → GoesOn n start moves (Step.Ask node client name mode)
        ↔ GoesOn n start (moves ++ move ∷ []) (Step.Ask node client name mode) }
    ensures leave { (n start : ℕ) (moves : List Move) (move : Move) → IsNodeNumber n
        → IsRun n start (moves ++ move ∷ [])
        → (node client : ℕ) (name : List ℕ) → events_at node move.step ≡ []
        → GoesOn n start moves (Step.Leave node client name)
        ↔ GoesOn n start (moves ++ move ∷ []) (Step.Leave node client name) }
    ensures cancel { (n start : ℕ) (moves : List Move) (move : Move) → IsNodeNumber n
        → IsRun n start (moves ++ move ∷ [])
        → (node client : ℕ) (name : List ℕ) → events_at node move.step ≡ []
        → GoesOn n start moves (Step.Cancel node client name)
        ↔ GoesOn n start (moves ++ move ∷ []) (Step.Cancel node client name) }
{}

/// The marks of a run are a run of the lock table, even if messages were lost or repeated, or requests withdrawn. So
/// no two conflicting entries on one name hold at once, and conflicting entries on one name are granted in the order
/// of their stamps. As many requests wait in the table as at the nodes.
pub fn marks_of_runs_are_table_runs()
    ensures table { (n start : ℕ) (moves : List Move) → IsNodeNumber n → IsRun n start moves
        → (table : LockTable) × TableRun (marks_of moves) table }
    ensures waiting { (n start : ℕ) (moves : List Move) (nodes : ℕ → NodeState) (table : LockTable)
        → IsNodeNumber n → IsRun n start moves → EndsWith n start moves nodes
        → TableRun (marks_of moves) table
        → length table.waiting ≡ waiting_at_all n nodes }
{}

/// The lock table of a run is what its nodes say at the end. On each name, a request that waits at its node is that
/// node's waiting entry, and one that is granted is its holding entry. The table has no other entries.
pub fn tables_of_runs_are_those_of_their_nodes()
    ensures { (n start : ℕ) (moves : List Move) (nodes : ℕ → NodeState) (table : LockTable)
        → IsNodeNumber n → IsRun n start moves → EndsWith n start moves nodes
        → TableRun (marks_of moves) table → IsTableOf n nodes table }
{}

/// At each moment, and whatever was lost or withdrawn, a run has sent at most two messages for each request and other
/// node, and a further one for each copy.
pub fn runs_send_at_most_two_messages_for_each_request_and_other_node()
    ensures with_copies { (n start : ℕ) (moves : List Move) → IsNodeNumber n → IsRun n start moves
        → length (sent_by moves) ≤ 2 * (n - 1) * requests_in (marks_of moves) + length (repeated_by moves) }
    ensures unrepeated { (n start : ℕ) (moves : List Move) → IsNodeNumber n → IsRun n start moves
        → repeated_by moves ≡ [] → length (sent_by moves) ≤ 2 * (n - 1) * requests_in (marks_of moves) }
{}

/// No number rises above the start value and the requests made so far, at any node and on any name. So from 0, an ask
/// is refused as `Exhausted` only after 2^64-1 requests.
pub fn numbers_rise_at_most_by_the_requests()
    ensures { (n start : ℕ) (moves : List Move) (nodes : ℕ → NodeState) (i : ℕ) (name : List ℕ)
        → IsNodeNumber n → IsRun n start moves → EndsWith n start moves nodes → 1 ≤ i → i ≤ n
        → (resource_at (nodes i) name).state.highest ≤ start + requests_in (marks_of moves) }
{}

/// Each ask has made its request, or its client is queued, or was queued when it gave up. The requests made, the
/// clients that are queued and the cancels are together as many as the asks and the requests that were withdrawn. In
/// a run without cancels the requests and the queued clients are as many as the asks.
pub fn asks_make_requests_or_are_queued()
    ensures made { (n start : ℕ) (moves : List Move) (nodes : ℕ → NodeState)
        → IsNodeNumber n → IsRun n start moves → EndsWith n start moves nodes
        → requests_in (marks_of moves) + queued_at_all n nodes + cancels_by moves
        ≡ asks_by moves + withdrawn_in (marks_of moves) }
    // Only a cancel withdraws.
    ensures withdrawn { (n start : ℕ) (moves : List Move) → IsNodeNumber n → IsRun n start moves
        → withdrawn_in (marks_of moves) ≤ cancels_by moves }
{}

/// What was withdrawn never returns, whatever was lost or repeated. The numbers of a node's requests on a name rise. So
/// no request is made twice, and one that is withdrawn is never granted, neither before nor afterwards. A client that
/// gives up, even one that was only queued, is granted the name again only if it asks again: as prefixes of runs are
/// runs, before the grant.
pub fn withdrawn_requests_never_return()
    ensures rise { (n start : ℕ) (moves : List Move) (e f : Entry) (i j : ℕ) → IsNodeNumber n → IsRun n start moves
        → i < j → IsAt (marks_of moves) i (Mark.Requested e) → IsAt (marks_of moves) j (Mark.Requested f)
        → e.stamp.node ≡ f.stamp.node → e.name ≡ f.name → e.stamp.seq < f.stamp.seq }
    ensures withdrawn { (n start : ℕ) (moves : List Move) (e : Entry) (i j : ℕ) → IsNodeNumber n → IsRun n start moves
        → IsAt (marks_of moves) i (Mark.Withdrawn e) → ¬ IsAt (marks_of moves) j (Mark.Entered e) }
    ensures given_up { (n start : ℕ) (before later : List Move) (move : Move) (node client : ℕ) (name : List ℕ)
        → IsNodeNumber n → IsRun n start (before ++ move ∷ later) → move.step ≡ Step.Cancel node client name
        → IsGrantedIn (marks_of (move ∷ later)) node client name → AsksIn later node client name }
{}

/// After each run the messages under way are one list. Each of them has a number, and goes from one existing node to
/// another. The list changes step by step: a message that is taken is removed, and what is sent, or a copy, is added at
/// the end. If nothing was repeated, what was put under way is what was sent.
pub fn messages_under_way_are_between_nodes()
    ensures exist { (n start : ℕ) (moves : List Move) → IsNodeNumber n → IsRun n start moves
        → (left : List Message) × LeavesUnderWay moves left }
    ensures are_one { (moves : List Move) (a b : List Message)
        → LeavesUnderWay moves a → LeavesUnderWay moves b → a ≡ b }
    ensures among_them { (moves : List Move) (left : List Message) (message : Message)
        → LeavesUnderWay moves left
        → IsUnderWay moves message ↔ Contains left message }
    ensures go_on { (moves : List Move) (move : Move) (left next : List Message) → LeavesUnderWay moves left
        → TakesEach left (taken_in move.step) next
        → LeavesUnderWay (moves ++ move ∷ []) (next ++ put_in move) }
    ensures put_is_sent { (moves : List Move) → repeated_by moves ≡ [] → put_by moves ≡ sent_by moves }
    ensures between_nodes { (n start : ℕ) (moves : List Move) (message : Message)
        → IsNodeNumber n → IsRun n start moves → IsUnderWay moves message
        → ((1 ≤ to_of message) × (to_of message ≤ n)) × IsOtherNode (to_of message) n (from_of message) }
    ensures numbered { (n start : ℕ) (moves : List Move) (message : Message)
        → IsNodeNumber n → IsRun n start moves → IsUnderWay moves message → 1 ≤ seq_of message }
{}

/// A run goes on by the event that a node really makes of a step, and the other nodes stay as they are. It also goes on
/// by the loss or a copy of a message under way, and then all nodes stay.
pub fn runs_go_on_by_events()
    ensures event { (n start : ℕ) (moves : List Move) (nodes : ℕ
        → NodeState) (i : ℕ) (event : Event) (move : Move)
        (new : NodeState) → IsNodeNumber n → IsRun n start moves → EndsWith n start moves nodes
        → 1 ≤ i → i ≤ n → IsFit n moves move.step move.sends move.marks → events_at i move.step ≡ event ∷ []
        → NodeEvent (nodes i) event move.sends move.marks new
        → IsRun n start (moves ++ move ∷ []) × EndsWith n start (moves ++ move ∷ []) (with_node nodes i new) }
    ensures loss { (n start : ℕ) (moves : List Move) (nodes : ℕ → NodeState) (message : Message)
        → IsRun n start moves → EndsWith n start moves nodes → IsUnderWay moves message
        → IsRun n start (moves ++ record { step = Step.Lose message; sends = []; marks = [] } ∷ [])
        × EndsWith n start (moves ++ record { step = Step.Lose message; sends = []; marks = [] } ∷ []) nodes }
    ensures copy { (n start : ℕ) (moves : List Move) (nodes : ℕ → NodeState) (message : Message)
        → IsRun n start moves → EndsWith n start moves nodes → IsUnderWay moves message
        → IsRun n start (moves ++ record { step = Step.Repeat message; sends = []; marks = [] } ∷ [])
        × EndsWith n start (moves ++ record { step = Step.Repeat message; sends = []; marks = [] } ∷ []) nodes }
{}

/// Each prefix of a run is a run, and so is each prefix of a list of steps that is a run. Such a list goes on with a
/// step exactly if the run does.
pub fn prefixes_of_runs_are_runs()
    ensures moves { (n start : ℕ) (prefix rest : List Move) → IsRun n start (prefix ++ rest)
        → IsRun n start prefix }
    ensures steps { (n start : ℕ) (prefix rest : List Step) → WorldRun n start (prefix ++ rest)
        → WorldRun n start prefix }
    ensures step { (n start : ℕ) (moves : List Move) (step : Step) → IsNodeNumber n → IsRun n start moves
        → WorldRun n start (map (λ move. move.step) moves ++ step ∷ []) ↔ GoesOn n start moves step }
{}

/// Each mark of a run has a number, 1 or more, and so has each message that is delivered or lost in it.
pub fn marks_of_runs_are_numbered()
    ensures marks { (n start : ℕ) (moves : List Move) → IsNodeNumber n → IsRun n start moves
        → All IsNumberedMark (marks_of moves) }
    ensures taken { (n start : ℕ) (moves : List Move) → IsNodeNumber n → IsRun n start moves
        → All IsNumberedMessage (taken_by moves) }
{}

/// If nothing was repeated, all messages that a run sends are different. (A REQUEST that comes again is answered
/// again.)
pub fn messages_of_runs_are_different()
    ensures { (n start : ℕ) (moves : List Move) → IsNodeNumber n → IsRun n start moves → repeated_by moves ≡ []
        → AllPairs (λ a b. a ≢ b) (sent_by moves) }
{}

/// If nothing was repeated or withdrawn before, no REPLY that is delivered in a run is a stray: its receiver waits
/// with its number and awaits it.
pub fn no_delivered_reply_is_a_stray()
    ensures { (n start : ℕ) (prefix rest : List Move) (move : Move) (from to : ℕ) (name : List ℕ) (seq : ℕ)
        (node : NodeState)
        → IsNodeNumber n → IsRun n start (prefix ++ move ∷ rest) → repeated_by prefix ≡ []
        → withdrawn_in (marks_of prefix) ≡ 0
        → move.step ≡ Step.Deliver (Message.Reply from to name seq)
        → NodeEvents (opening_node to n start) (happened_at to prefix) node
        → (mode : Mode) × Awaits (resource_at node name).state from seq mode }
{}

/// The steps of a run determine what is sent and marked.
pub fn runs_are_determined()
    ensures { (n start : ℕ) (a b : List Move) → IsNodeNumber n → IsRun n start a → IsRun n start b
        → map (λ move. move.step) a ≡ map (λ move. move.step) b → a ≡ b }
{}

/// If nothing was lost and nothing is under way, not even a copy, each waiting request is blocked: an entry that
/// excludes it holds, or waits with an earlier stamp. So no waiting request could enter, whatever was repeated.
pub fn waiting_requests_are_blocked_in_quiet_runs()
    ensures blocked { (n start : ℕ) (moves : List Move) (table : LockTable) (e : Entry)
        → IsNodeNumber n → IsRun n start moves → IsQuiet moves → TableRun (marks_of moves) table
        → Contains table.waiting e → IsBlocked table e }
    ensures no_entry { (n start : ℕ) (moves : List Move) (table : LockTable) (e : Entry)
        → IsNodeNumber n → IsRun n start moves → IsQuiet moves → TableRun (marks_of moves) table
        → ¬ MayEnter table e }
{}

/// If nothing was lost, repeated or withdrawn, nothing is under way and no request waits, exactly two messages were
/// sent for each request and other node, in all.
pub fn quiet_runs_sent_two_messages_for_each_request_and_other_node()
    ensures { (n start : ℕ) (moves : List Move) (table : LockTable)
        → IsNodeNumber n → IsRun n start moves → IsQuiet moves → repeated_by moves ≡ []
        → withdrawn_in (marks_of moves) ≡ 0
        → TableRun (marks_of moves) table
        → table.waiting ≡ [] → MeetsMessageCount n moves }
{}
