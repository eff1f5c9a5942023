//! The help of the program and of each command, below their options.
ghost use Rattle.std.specs.Prelude.{◌≡◌, map, string_bytes};
ghost use Rattle.ra_arguments.specs.Helping as spec;
ghost use Rattle.ra_arguments.specs.Helping.{asks_summary, help_of, helps_of};

use crate::command_line::command_rows::{CommandKind, row_named};

/// The help of the command `answer`, below its options.
pub const ANSWER_HELP: &str = "\
Read one frame of version 1 or 2, as a line of hexadecimal digits, and print the
frames with which the node answers, in version 2, one per line. The node is
idle: it has seen no sequence number, and its event clock is 0.

Modes, and their bytes in a frame (version 1 has only the first two):
  S    00  shared
  X    01  exclusive
  IS   02  intent shared
  IX   03  intent exclusive
  SIX  04  shared and intent exclusive

Example: node 2 of 3 answers a version 1 REQUEST of node 1 for the name r.
  echo 0101010201000000000000000100000000000000010172 |
    ra answer --node 2 --nodes 3

Exit status:
  0  the frame was answered
  1  the input or standard output failed
  2  the command line or the frame was refused";

/// The help of the command `sim`, below its options.
pub const SIM_HELP: &str = "\
Read a script. A script is a TOML document with the number of nodes, 1 to 64,
and with 1 to 64 clients. Each client has a node and at most 1024 operations,
which it does in order: `X r` locks the name r in mode X, and `U r` unlocks it.
A name is 1 to 32 characters from A-Z, a-z, 0-9, _, - and .
  nodes = 2
  client = [{ node = 1, ops = [\"X r\", \"U r\"] },
            { node = 2, ops = [\"S r\", \"U r\"] }]

Modes, and which ones others may hold at the same time:
  S    shared, to read all of it: S, IS
  X    exclusive, to change all of it: no other
  IS   intent shared, to read parts that are locked with S: all but X
  IX   intent exclusive, to change parts that are locked with X: IS, IX
  SIX  shared and intent exclusive, to read all of it and to change parts that
       are locked with X: IS

Policies, which choose each step:
  oldest  the first client of the script that can go on; if there is none, the
          message that was sent first
  newest  the same, but the message that was sent last
  seeded  a client that can go on or a message under way, at random: the next
          word of the generator PCG XSL RR 128/64 decides. A script and a --seed
          give the same run on every machine
  faulty  like seeded, but a second word, modulo 1000, decides what becomes of a
          message: below --lose it is lost, below --lose plus --repeat it is
          repeated, and otherwise it is delivered. The two add up to at most
          1000
  listed  the --choices, in order: cK does the next operation of client K,
          counted from 1; mI delivers and lI loses the message at place I of
          those under way, counted from 0 in the order of sending. For example:
          --choices \"c1 m0 m0 c1\"

--trace prints the steps of the run, each with its marks, as `ra check` reads
them. With --sends, it prints the messages that each step sends, too.
Example: ra sim --trace script.toml | ra check

--as-choices prints the choices of the run, by which --policy listed repeats it,
so that you can edit them. A repeated message cannot be written as a choice, so
faulty needs --repeat 0 here.
Example: ra sim --policy seeded --seed 7 --as-choices script.toml

--state prints the state at the end of the run: what each node knows of each
name, the messages under way with the places that --choices takes, what each
client is at, and which requests wait and hold.
Example: ra sim --policy listed --choices \"c1 m0\" --state script.toml

--seeds A..B runs the script under seeded or faulty with each seed from A to B,
0 <= A <= B < 2^64. It prints how many runs ended finished and stuck, the first
seed of each, and the least and the most turns and messages of a run.
Example: ra sim --policy seeded --seeds 1..1000 script.toml

--find finished or --find stuck prints the trace of the first of these runs that
ends so or, with --as-choices, its choices, and tries no seed after it; if there
is none, it prints `none`. With --shrink, --find stuck prints the choices of a
shorter run.
Example: ra sim --policy seeded --seeds 1..1000 --find stuck script.toml

--shrink prints the choices of a shorter run that is stuck, too: no client that
has begun can go on, nothing is under way, and some client waits. One step after
the other is left out, with all that the client does after it, as long as the
others, done again, get stuck in fewer steps. If the run is not stuck, it prints
`none`. With --seeds it needs --find stuck, and shrinks the run that is found.
Like --as-choices, it needs --repeat 0 under faulty.
Example: ra sim --policy seeded --seed 7 --shrink script.toml

Exit status:
  0  every run finished: all operations are done, and nothing waits, is queued
     or is under way. With --find: the printed run finished, or --find stuck
     found none
  1  the input or standard output failed
  2  the command line or the script was refused
  3  a run did not finish, or --find finished found none";

/// The help of the command `check`, below its options.
pub const CHECK_HELP: &str = "\
Read a trace: the steps of a run, one per line, each with its marks on the lines
after it.
  trace 2 2 0
  ask 1 1 r X
  request 1 1 r X 1
  deliver request 1 2 r X 1
  deliver reply 2 1 r 1
  enter 1 1 r X 1
  end
The first line has the version, the number of nodes, and the number that each
name begins with (0 to 2^64 - 1). The others have nodes, a client (0 to
2^32 - 1), a name, a mode and a number (1 to 2^64 - 1). Version 2, which `ra sim
--trace` prints, has 1 to 64 nodes and five modes. Version 1 has 1 to 16 nodes
and the modes S and X.
  S    shared
  X    exclusive
  IS   intent shared
  IX   intent exclusive
  SIX  shared and intent exclusive
A line with `lose` in place of `deliver` loses the message. From version 2 on, a
line with `repeat` puts a copy of the message under way. Version 3 has three
more lines, and sends if its first line ends with ` sends`:
  cancel 1 1 r            the client gives up: it waits or is queued no more
  withdraw 1 1 r X 1      the mark of a cancel, if the client waited
  forget 1                the node forgets the names that nobody uses
  send reply 2 1 r 1      after a step, before its marks: what the step sends

Print `valid` and the numbers of requests and messages, or `invalid`, the first
wrong line and the cause:
  Line         not a line of a trace, or not allowed here
  Refused      the client may not ask, release or cancel, or there is no such
               node
  NotUnderWay  the message was never sent, or was already delivered or lost
  Sends        the messages are not those that the step sends
  Marks        the marks are not those of the step
  Table        the lock table does not allow the mark
A node's own request raises its highest number. In the algorithm as published in
1981 it does not, so some of its runs are invalid here.

Example: ra sim --trace script.toml | ra check

With --marks, read a mark log: a line for each request, grant, release and
withdrawal of any lock service. Each has a node (1 to 64), a client (0 to
2^32 - 1), a name, a mode and a number (1 to 2^64 - 1). The number of a request
must be above every number granted for the name so far. Requests of two nodes
may have one number, so a fencing token is the number and the node.
  request 1 1 r X 1
  enter 1 1 r X 1
  leave 1 1 r X 1
A line with `withdraw` in place of `enter` says that the client gave up.
Print `valid` and the numbers of requests and grants if the lock table allows
each mark, or `invalid`, the first wrong line and the cause:
  Line        not a mark
  NodeBusy    a request, but its node already waits for the name or holds it
  NotAbove    a request, but a number granted for the name is as high or higher
  NotWaiting  a grant or a withdrawal, but the request does not wait
  Held        a grant, but a conflicting request holds the name
  Earlier     a grant, but a conflicting request waits with a lower number, or
              with the same number at a lower node
  NotHeld     a release of what is not held

Example: ra check --marks service.log

With --complete, the status is also 3 if nothing was requested, or if at the end
a request waits or holds, a client is queued, or a message is under way.

With --follow, the input may have any length, and may still be written. It is
judged line by line, and the command ends at the first wrong line. With --every
N, standard error says after each N lines how many requests and grants, or of a
trace messages, came so far.

With --marks --all, each wrong line is left out, and the log goes on without it.
At its end, print the first wrong line on each name, and the first that is not a
mark; how many lines are wrong for each cause; and the numbers of requests and
grants among the other lines. The input may have any length.

Exit status:
  0  valid
  1  the input or standard output failed
  2  the command line was refused, or the input has more than 16777216 bytes and
     is not followed
  3  invalid, or not complete";

/// The help of the command `draw`, below its options.
pub const DRAW_HELP: &str = "\
Read a trace, as `ra sim --trace` prints it and `ra check --help` describes it.
Print its picture as one SVG file, which any browser shows. Each node has a
lane, and time goes down. An arrow leads from where a message was sent to where
it was delivered, a cross marks a message that was lost, and a loop one that was
repeated. Bars beside the lanes are clients that are queued, wait or hold. A
crossed dot is a client that gives up. Rest the pointer on a shape to read what
it means.

Example: ra sim --trace script.toml | ra draw > run.svg

With --marks, read a mark log, as `ra check --help` describes it. Its picture
has a row for each mark, and the bars alone.

Example: ra draw --marks service.log > service.svg

At most 4096 lines are drawn: of a longer input, choose a part with --from and
--to. The lines before it are followed and those after it are checked, but they
are not drawn.

Exit status:
  0  the input was drawn
  1  the input or standard output failed
  2  the command line was refused, the part to draw has NoLines or is TooLong,
     or the input has more than 16777216 bytes
  3  not valid: the first wrong line is printed, as by `ra check`";

/// The help of the command `cluster`, below its options.
pub const CLUSTER_HELP: &str = "\
Read a script, as `ra sim --help` describes it: 1 to 64 nodes, and 1 to 64
clients that lock names in these modes:
  S    shared
  X    exclusive
  IS   intent shared
  IX   intent exclusive
  SIX  shared and intent exclusive

This one has two clients that want the same name:
  nodes = 3
  client = [{ node = 1, ops = [\"X r\", \"U r\"] },
            { node = 2, ops = [\"X r\", \"U r\"] }]

Example: ra cluster script.toml

Each node and each client has a thread of its own. The threads decide what comes
first, so the order of the marks and their numbers may differ from run to run.
When all threads have ended, what the nodes recorded is put together into one
run of the cluster, whose marks and totals are printed.

--trace prints the steps of this run, each with its marks, as `ra check` reads
them.
Example: ra cluster --trace script.toml | ra check

--books prints the books of the nodes, one after the other, as `ra settle` reads
them: what happened at each node, in order.
Example: ra cluster --books script.toml | ra settle

A client that waits in vain would keep the program waiting forever. So two kinds
of scripts are refused before any thread starts:
  OutOfOrder  a client locks a name that does not sort, byte by byte, after
              every name that it holds. If one client locks b while it holds a,
              and another locks a while it holds b, each waits for the other
  Unreleased  a client holds a name at its end, so a client that asks for it
              later would wait for one that is gone

Nothing bounds how long a run takes. `ra sim` takes any script, and tells who
waits at the end.

Exit status:
  0  all operations are done, and nothing waits, is queued, lost or under way
  1  the input or standard output failed
  2  the command line or the script was refused, or the run failed: Fault if a
     node was stopped, for example for lack of memory or threads; Settle,
     PlanUnmet, Lost or UnderWay if the nodes did not record one run of the
     whole script";

/// The help of the command `node`, below its options.
pub const NODE_HELP: &str = "\
Be one node of a cluster, for a host in any language that carries the frames
from node to node. Read a book: what happens at the node, one event per line.
Answer each line on standard output.
  book 1 NODE NODES START
  ask CLIENT NAME MODE
  release CLIENT NAME
  receive HEX
  cancel CLIENT NAME
  forget
The first line has the node, 1 to NODES, the number of nodes, 1 to 64, and the
number that each name begins with, 0 to 2^64 - 1. In the others, a client, 0 to
2^32 - 1, asks for a name, releases it or gives up waiting for it, a frame of
version 1 or 2 comes, as hexadecimal digits, or the node forgets the names that
nobody uses. A book with a cancel or a forget begins with `book 2`. A name is 1
to 32 characters from A-Z, a-z, 0-9, _, - and .
  S    shared
  X    exclusive
  IS   intent shared
  IX   intent exclusive
  SIX  shared and intent exclusive

The first line is answered `ok`. An event is answered with a line `send TO HEX`
for each frame to carry to node TO, a line for each mark, and `ok`. Or the
answer is `refused` and a word, and the node is as before:
  Line       not a line of a book, or longer than 256 bytes
  Hex        not an even number of hexadecimal digits
  Busy       the client already waits for the name, is queued or holds it
  Exhausted  no number is left for the name
  NotHeld    the client does not hold the name
  NotWaiting the client neither waits for the name nor is queued for it
  WrongNode  the frame is for another node
  Stranger   the sender of the frame is this node, or there is no such node
  ClockFull  the event clock would pass 2^62
  Memory     memory ran out, and the line can be sent again
A frame with a fault is refused with its word, as by `ra answer`.

Answers are written before more input is waited for. The node ends with its
input. It keeps no history: if the host keeps the book, a new node that reads it
gives the same answers, and goes on from there.

Example: node 2 of 3 answers a version 1 REQUEST of node 1 for the name r.
  (echo book 1 2 3 0
   echo receive 0101010201000000000000000100000000000000010172) | ra node

Exit status:
  0  the input was read to its end, whatever was refused
  1  the input or standard output failed
  2  the command line was refused, or the first line, which is answered
     `refused Line`";

/// The help of the command `settle`, below its options.
pub const SETTLE_HELP: &str = "\
Read the books of all nodes of a cluster, one after the other, each as `ra node
--help` describes it. They may be in any order. Find out whether they are one
run of the cluster: whether each frame that came was sent, with its clock, and
no message came twice. If they are, print its marks and totals, or with --trace
its trace, which `ra check` and `ra draw` read.
Example: ra settle *.book

With --repeats, frames may come more than once, as happens if a host hands its
node a frame that was sent again. A frame that comes n times is repeated n - 1
times in the run, as `repeat` does in a trace.

A line that is cut off at the end of the text, without a line feed, is passed
over. If the books do not settle, print `invalid`, the line, counted over the
whole text, and the cause:
  Line     not a line of a book, or the text does not begin with a first line
  Books    a first line, but its node has a book already, or the numbers of
           nodes or the starts differ; at the number of lines plus 1, the book
           of a node is missing
  Refused  the node does not take the event, or the frame has a fault
  NotSent  a frame comes that its sender did not send with this clock
  Twice    a message comes that came by an earlier line; not with --repeats
The first line that is Line, Books or Refused comes before a missing book, then
the first that is NotSent, and then the first that is Twice.

Exit status:
  0  the books settle
  1  the input or standard output failed
  2  the command line was refused, memory ran out, or the input has more than
     1073741824 bytes
  3  invalid";

/// The summary of the help of each command, below its options.
pub const SUMMARY_HELP: &str = "\
See --help for what the command reads and prints, an example, and the exit
statuses.";

/// The help of the program, below its commands.
pub const STATUS_HELP: &str = "\
Each command has a help of its own: ra help COMMAND.
Example: ra sim script.toml

Exit status:
  0  done
  1  the input or standard output failed
  2  refused: standard output has the cause as one word
  3  a run did not finish, or a trace, a mark log or books are not valid";

/// Returns the help of the command `sim`. Each of these texts but the shortest has a function of its own, since the
/// cost of proving a function grows with the square of the bytes of the texts that it names.
fn sim_help() -> &'static str
    ensures { result.now ≡ SIM_HELP.now }
{
    SIM_HELP
}

/// Returns the help of the command `cluster`.
fn cluster_help() -> &'static str
    ensures { result.now ≡ CLUSTER_HELP.now }
{
    CLUSTER_HELP
}

/// Returns the help of the command `check`.
fn check_help() -> &'static str
    ensures { result.now ≡ CHECK_HELP.now }
{
    CHECK_HELP
}

/// Returns the help of the command `node`.
fn node_help() -> &'static str
    ensures { result.now ≡ NODE_HELP.now }
{
    NODE_HELP
}

/// Returns the help of the command `settle`.
fn settle_help() -> &'static str
    ensures { result.now ≡ SETTLE_HELP.now }
{
    SETTLE_HELP
}

/// Returns the help of a command, below its options, or its summary, which names --help.
fn help_on(kind: CommandKind, is_summary: bool) -> &'static str
    ensures { result.now ≡ help_of
        (helps_of ANSWER_HELP.now SIM_HELP.now CLUSTER_HELP.now CHECK_HELP.now DRAW_HELP.now NODE_HELP.now
        SETTLE_HELP.now SUMMARY_HELP.now STATUS_HELP.now) is_summary kind }
{
    match kind {
        _ if is_summary => SUMMARY_HELP,
        CommandKind::Answer => ANSWER_HELP,
        CommandKind::Sim => sim_help(),
        CommandKind::Cluster => cluster_help(),
        CommandKind::Check => check_help(),
        CommandKind::Draw => DRAW_HELP,
        CommandKind::Node => node_help(),
        CommandKind::Settle => settle_help(),
    }
}

/// Returns whether an argument asks for the summary of a command's help, if it asks for help. It does not allocate.
fn summary_by(argument: &str) -> Option<bool>
    ensures { result ≡ spec.summary_by argument.now }
{
    match argument {
        "-h" => Some(true),
        "--help" => Some(false),
        _ => None,
    }
}

/// Returns whether the arguments ask for the summary of a command's help: the first of them that asks for help is `-h`.
/// It does not allocate.
fn asks_for_summary(arguments: &[String]) -> bool
    ensures { result ≡ asks_summary (map string_bytes arguments.now) }
{
    for argument in arguments {
        if let Some(is_summary) = summary_by(argument.as_str()) {
            return is_summary;
        }
    }
    false
}

/// Returns the help below the options of the command that the arguments name or, if they name none, below the commands
/// of the program. It does not allocate.
pub fn help_below(arguments: &[String]) -> &'static str
    ensures { result.now ≡ spec.help_below
        (helps_of ANSWER_HELP.now SIM_HELP.now CLUSTER_HELP.now CHECK_HELP.now DRAW_HELP.now NODE_HELP.now
        SETTLE_HELP.now SUMMARY_HELP.now STATUS_HELP.now) (map string_bytes arguments.now) }
{
    match row_named(arguments) {
        Some(row) => help_on(row.kind, asks_for_summary(arguments)),
        None => STATUS_HELP,
    }
}
