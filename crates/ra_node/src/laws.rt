//! What is true of the events of a node, for the crates above. Each function does nothing, and its contract is the law.
ghost use Rattle.std.specs.Prelude.{◌≡◌, ◌≢◌, ◌+◌, ◌≤◌, ◌++◌, ◌∷◌, ◌↔◌, [], ℕ, List, All, length};
ghost use Rattle.std.specs.FinMap as map;
ghost use Rattle.ra_stamp.specs.declared.entry.Entry.{Entry};
ghost use Rattle.ra_stamp.specs.declared.entry.Mark.{Mark};
ghost use Rattle.ra_stamp.specs.declared.message.Message.{Message};
ghost use Rattle.ra_stamp.specs.declared.mode.Mode.{Mode};
ghost use Rattle.ra_stamp.specs.Message.{seq_of};
ghost use Rattle.ra_stamp.specs.NodeId.{IsNodeNumber};
ghost use Rattle.ra_node.specs.Resource.{Holds, IsKeptWaiting, use_of};
ghost use Rattle.ra_node.specs.Turns.{MayAsk};
ghost use Rattle.ra_node.specs.Node.{NodeState, opening_node, resource_at, clients_count, IsConsistentNode};
ghost use Rattle.ra_node.specs.Forgetting.{raised};
ghost use Rattle.ra_node.specs.Events.{Event, Happening, IsNamed, AreNamed, name_of_event, NodeEvent, NodeEvents, AllowsEvent, IsForThisNode, AreForThisNode};
ghost use Rattle.ra_node.specs.Carried.{IsSend, IsMark, MarksLead, sends_at_most, marks_at_most, replies_at_most, entries_at_most};

/// An event about one name leaves all other names, and the identity of the node, as they were. To forget is about no
/// name. It raises the highest number of each name and of those that are not met to one number, if they are lower,
/// and changes nothing else.
pub fn events_leave_other_names()
    ensures entry { (old new : NodeState) (event : Event) (sends : List Message) (marks : List Mark)
        (other : List ℕ)
        → NodeEvent old event sends marks new → IsNamed event → other ≢ name_of_event event
        → map.get new.resources other ≡ map.get old.resources other }
    ensures resource { (old new : NodeState) (event : Event) (sends : List Message) (marks : List Mark)
        (other : List ℕ)
        → NodeEvent old event sends marks new → IsNamed event → other ≢ name_of_event event
        → resource_at new other ≡ resource_at old other }
    ensures node { (old new : NodeState) (event : Event) (sends : List Message) (marks : List Mark)
        → NodeEvent old event sends marks new
        → (new.me ≡ old.me) × (new.nodes ≡ old.nodes) × (old.start ≤ new.start) }
    ensures start { (old new : NodeState) (event : Event) (sends : List Message) (marks : List Mark)
        → NodeEvent old event sends marks new → IsNamed event → new.start ≡ old.start }
    ensures forgets { (old new : NodeState) (sends : List Message) (marks : List Mark)
        → NodeEvent old Event.Forget sends marks new
        → (number : ℕ) × ((name : List ℕ) → resource_at new name ≡ raised number (resource_at old name)) }
{}

/// A node that has met nothing is consistent, and each event of a node leads from a consistent node to a consistent
/// one. What an event sends goes from this node to another one, and has a number if the message that came has one: a
/// message is answered with its own number. The marks are of this node. Both are about the event's name, and they are
/// few, so that a caller can make room for them before the event. The marks lead from one use of the name to the next,
/// so a node has at most one request on a name.
pub fn events_keep_a_node_consistent()
    ensures opening { (me nodes start : ℕ) → IsNodeNumber nodes → (1 ≤ me) × (me ≤ nodes)
        → IsConsistentNode (opening_node me nodes start) }
    ensures consistent { (old new : NodeState) (event : Event) (sends : List Message) (marks : List Mark)
        → IsConsistentNode old → IsForThisNode old event → NodeEvent old event sends marks new
        → IsConsistentNode new }
    ensures sends { (old new : NodeState) (event : Event) (sends : List Message) (marks : List Mark)
        → IsConsistentNode old → IsForThisNode old event → NodeEvent old event sends marks new
        → All (IsSend old.me old.nodes (name_of_event event)) sends }
    ensures numbered { (old new : NodeState) (event : Event) (sends : List Message) (marks : List Mark)
        → IsConsistentNode old → IsForThisNode old event → NodeEvent old event sends marks new
        → ((message : Message) → event ≡ Event.Receive message → 1 ≤ seq_of message)
        → All (λ message. 1 ≤ seq_of message) sends }
    ensures answers { (old new : NodeState) (message : Message) (sends : List Message) (marks : List Mark)
        → IsConsistentNode old → IsForThisNode old (Event.Receive message)
        → NodeEvent old (Event.Receive message) sends marks new
        → All (λ sent. seq_of sent ≡ seq_of message) sends }
    ensures marks { (old new : NodeState) (event : Event) (sends : List Message) (marks : List Mark)
        → IsConsistentNode old → IsForThisNode old event → NodeEvent old event sends marks new
        → All (IsMark old.me (name_of_event event)) marks }
    ensures room_by_event { (old new : NodeState) (event : Event) (sends : List Message) (marks : List Mark)
        → IsConsistentNode old → NodeEvent old event sends marks new
        → (length sends ≤ sends_at_most old.nodes event) × (length marks ≤ marks_at_most event) }
    ensures room_by_message { (old new : NodeState) (message : Message) (sends : List Message)
        (marks : List Mark)
        → NodeEvent old (Event.Receive message) sends marks new
        → (length sends ≤ replies_at_most message) × (length marks ≤ entries_at_most message) }
    ensures one_request { (old new : NodeState) (event : Event) (sends : List Message) (marks : List Mark)
        → NodeEvent old event sends marks new
        → MarksLead (use_of (resource_at old (name_of_event event))) marks
        (use_of (resource_at new (name_of_event event))) }
{}

/// Events of a node, one after the other, lead from a consistent node to a consistent one. They may begin at a node
/// that had met nothing. The node's identity does not change, and its start rises only if it forgets. Whether each
/// event is for this node may be judged by the node as it was at first.
pub fn histories_keep_a_node_consistent()
    ensures consistent { (old new : NodeState) (happened : List Happening)
        → IsConsistentNode old → AreForThisNode old happened → NodeEvents old happened new
        → IsConsistentNode new }
    ensures from_opening { (me nodes start : ℕ) (new : NodeState) (happened : List Happening)
        → IsNodeNumber nodes → (1 ≤ me) × (me ≤ nodes) → AreForThisNode (opening_node me nodes start) happened
        → NodeEvents (opening_node me nodes start) happened new → IsConsistentNode new }
    ensures node { (old new : NodeState) (happened : List Happening) → NodeEvents old happened new
        → (new.me ≡ old.me) × (new.nodes ≡ old.nodes) × (old.start ≤ new.start) }
    ensures start { (old new : NodeState) (happened : List Happening) → NodeEvents old happened new → AreNamed happened
        → new.start ≡ old.start }
{}

/// A node's state and an event determine what is sent, what is marked, and the state after it.
pub fn events_are_determined()
    ensures event { (old a b : NodeState) (event : Event)
        (sends sends' : List Message) (marks marks' : List Mark)
        → NodeEvent old event sends marks a → NodeEvent old event sends' marks' b
        → (sends ≡ sends') × (marks ≡ marks') × (a ≡ b) }
    ensures events { (old a b : NodeState) (happened : List Happening)
        → NodeEvents old happened a → NodeEvents old happened b → a ≡ b }
{}

/// An ask adds one to the clients that wait, are queued or hold at a node, a leave and a cancel take one away, and a
/// message and to forget do neither. So a caller can keep for each client what its leave or its cancel will need.
pub fn events_count_clients()
    ensures opening { (me nodes start : ℕ) → clients_count (opening_node me nodes start) ≡ 0 }
    ensures ask { (old new : NodeState) (client : ℕ) (name : List ℕ) (mode : Mode) (sends : List Message)
        (marks : List Mark)
        → IsConsistentNode old → NodeEvent old (Event.Ask client name mode) sends marks new
        → clients_count new ≡ clients_count old + 1 }
    ensures leave { (old new : NodeState) (client : ℕ) (name : List ℕ) (sends : List Message) (marks : List Mark)
        → NodeEvent old (Event.Leave client name) sends marks new
        → clients_count new + 1 ≡ clients_count old }
    ensures cancel { (old new : NodeState) (client : ℕ) (name : List ℕ) (sends : List Message) (marks : List Mark)
        → NodeEvent old (Event.Cancel client name) sends marks new
        → clients_count new + 1 ≡ clients_count old }
    ensures receive { (old new : NodeState) (message : Message) (sends : List Message) (marks : List Mark)
        → NodeEvent old (Event.Receive message) sends marks new
        → clients_count new ≡ clients_count old }
    ensures forget { (old new : NodeState) (sends : List Message) (marks : List Mark)
        → NodeEvent old Event.Forget sends marks new
        → clients_count new ≡ clients_count old }
    ensures holds { (node : NodeState) (client : ℕ) (name : List ℕ) (entry : Entry)
        → Holds (resource_at node name) client entry → 1 ≤ clients_count node }
    ensures kept_waiting { (node : NodeState) (client : ℕ) (name : List ℕ)
        → IsKeptWaiting (resource_at node name) client → 1 ≤ clients_count node }
{}

/// Which events are possible at a consistent node. A client may ask if it neither waits, nor is queued, nor holds, and
/// a number is left. It may leave if it holds, and cancel if it waits or is queued. A message may come at any time;
/// `IsForThisNode` says whether it is for this node. A node may forget at any time.
pub fn events_exist_where_they_are_allowed()
    ensures ask { (old : NodeState) (client : ℕ) (name : List ℕ) (mode : Mode) → IsConsistentNode old
        → AllowsEvent old (Event.Ask client name mode) ↔ MayAsk (resource_at old name) client }
    ensures leave { (old : NodeState) (client : ℕ) (name : List ℕ) → IsConsistentNode old
        → AllowsEvent old (Event.Leave client name)
        ↔ ((entry : Entry) × Holds (resource_at old name) client entry) }
    ensures cancel { (old : NodeState) (client : ℕ) (name : List ℕ) → IsConsistentNode old
        → AllowsEvent old (Event.Cancel client name) ↔ IsKeptWaiting (resource_at old name) client }
    ensures receive { (old : NodeState) (message : Message)
        → IsConsistentNode old → AllowsEvent old (Event.Receive message) }
    ensures forget { (old : NodeState) → IsConsistentNode old → AllowsEvent old Event.Forget }
{}

/// Lists of events can be extended by one event, and each part of a list of events is a list of events.
pub fn events_go_on()
    ensures step { (happened : List Happening) (event : Event) (sends : List Message) (marks : List Mark)
        (a b c : NodeState)
        → NodeEvents a happened b → NodeEvent b event sends marks c
        → NodeEvents a (happened ++ record { event = event; sends = sends; marks = marks } ∷ []) c }
    ensures joins { (prefix rest : List Happening) (a b c : NodeState)
        → NodeEvents a prefix b → NodeEvents b rest c
        → NodeEvents a (prefix ++ rest) c }
    ensures splits { (prefix rest : List Happening) (a c : NodeState) → NodeEvents a (prefix ++ rest) c
        → (b : NodeState) × NodeEvents a prefix b × NodeEvents b rest c }
{}
