//! The command `answer`.
ghost use Rattle.std.specs.Prelude.{◌≡◌, ◌⊎◌, List, ℕ, ◌∷◌, [], ◌++◌, Ok, All, OnOk, IfOk, IfErr, IfSome, MatchResult};
ghost use Rattle.hex.specs.Hex.{decode_of, encode_lower};
ghost use Rattle.ra_stamp.specs.Member.{IsMember};
ghost use Rattle.ra_frame.specs.Fits.{Fits};
ghost use Rattle.ra_frame.specs.FrameText.{IsWrittenText};
ghost use Rattle.ra_cli.specs.Answer.{Carries, IsUnwanted, Reacts, AreLines, IsAnswered, Refuses};
ghost use Rattle.ra_cli.specs.AnswerCall.{ComesTo, IsOfInput, of_receive};
ghost use Rattle.ra_automaton.specs.State.{IsForNode};
ghost use Rattle.ra_arguments.specs.declared.command_line.Task.{Task};
ghost use Rattle.ra_cli.specs.Tasks.{Does};

use crate::AnswerError;
use crate::input_line::only_line_of;
use crate::output::{ALL_DONE, CommandOutcome, refuse};
use crate::refusal_lines::CommandRefusal;
use hex::FromHexError;
use ra_automaton::{Automaton, Reaction, ReceiveError};
use ra_book_text::MAX_LINE;
use ra_frame::{Frame, MAX_FRAME, decode, encoded};
use ra_stamp::{Member, Memory, Message, Messages, NodeCount};
use ra_text::{read_up_to, write_out};
use std::alloc::Global;
use std::io::{Read, Write};

/// Returns the node as a member of a cluster of this many nodes. It does not allocate.
///
/// # Errors
///
/// The first that holds:
///
/// 1. `BadCount`: there are not 1 to 64 nodes.
/// 2. `BadNode`: the node is not 1 to `nodes`.
fn member_of(node: u16, nodes: u16) -> Result<Member, AnswerError>
    ensures ok { IfOk result (λ me. (me.node ≡ node) × (me.nodes ≡ nodes) × IsMember me.node me.nodes) }
    ensures err { IfErr result (λ fault. (input : List ℕ) → Refuses node nodes input fault) }
    ensures early { IfErr result (λ fault.
        (fault ≡ AnswerError.BadCount) ⊎ (fault ≡ AnswerError.BadNode)) }
{
    let Some(count) = NodeCount::new(nodes) else {
        return Err(AnswerError::BadCount);
    };
    if node == 0 || node > nodes {
        return Err(AnswerError::BadNode);
    }
    Ok(Member::at(node - 1, count))
}

/// Returns the bytes that hexadecimal digits spell.
///
/// # Errors
///
/// `Hex`: they are not an even number of hexadecimal digits. `Memory`, which may come before it: there is none for the
/// bytes.
fn bytes_of(alloc: Global, digits: &[u8]) -> Result<Vec<u8>, AnswerError>
    ensures ok { IfOk result (λ bytes. decode_of digits.now ≡ Ok bytes.items) }
    ensures err { IfErr result (λ fault. (fault ≡ AnswerError.Memory)
        ⊎ ((fault ≡ AnswerError.Hex) × ((bytes : List ℕ) → decode_of digits.now ≡ Ok bytes → ⊥))) }
{
    match hex::decode(alloc, digits) {
        Ok(bytes) => Ok(bytes),
        Err(FromHexError::OutOfMemory) => Err(AnswerError::Memory),
        Err(_) => Err(AnswerError::Hex),
    }
}

/// Returns the frame that the input carries.
///
/// # Errors
///
/// The first that holds, except that `Memory` may come before `Hex` and `Frame`:
///
/// 1. `Line`: the input is no line.
/// 2. `Hex`: the line is no even number of hexadecimal digits.
/// 3. `Frame`: the bytes are no frame.
/// 4. `Memory`: there is none for the bytes.
fn frame_in(alloc: Global, input: &[u8]) -> Result<Frame, AnswerError>
    ensures { MatchResult result (λ frame. Carries input.now frame × Fits frame)
        (λ fault. ((node nodes : ℕ) → IsMember node nodes → Refuses node nodes input.now fault) × IsOfInput fault) }
{
    let Some(digits) = only_line_of(input) else {
        return Err(AnswerError::Line);
    };
    let bytes = bytes_of(alloc, digits)?;
    match decode(&bytes) {
        Ok(frame) => Ok(frame),
        Err(fault) => Err(AnswerError::Frame(fault)),
    }
}

/// Adds a frame's line to the text: its bytes as hexadecimal digits in lower case, and a line feed.
///
/// # Errors
///
/// `Memory`: a prefix of the line may have been added.
fn push_line(text: &mut Vec<u8>, frame: &Frame) -> Result<(), Memory>
    requires { Fits frame.now }
    ensures ok { OnOk result ((bytes : List ℕ) × IsWrittenText bytes frame.now
        × (text.new.items ≡ text.old.items ++ (encode_lower bytes ++ 10 ∷ []))) }
{
    let bytes = encoded(frame);
    let mut room = [0; 2 * MAX_FRAME];
    let digits = &mut room[..2 * bytes.len()];
    hex::encode_to_slice(bytes.as_slice(), digits).unwrap();
    text.extend_from_slice(digits)?;
    text.push(b'\n')?;
    Ok(())
}

/// Returns the lines of the frames of messages that are sent at a clock, in time linear in their number.
///
/// # Errors
///
/// `Memory`: there is none for the lines.
fn lines_of(alloc: Global, clock: u64, sends: &Messages) -> Result<Vec<u8>, Memory>
    requires { All (λ message. Fits (record { clock = clock; message = message })) sends.now.items }
    ensures ok { IfOk result (λ text. AreLines clock sends.now.items text.items) }
{
    let mut text = Vec::new(alloc);
    for &message in sends.as_slice() {
        push_line(&mut text, &Frame { clock, message })?;
    }
    Ok(text)
}

/// Returns what an idle node does when a message comes.
///
/// # Errors
///
/// The first that holds:
///
/// 1. `WrongNode`: the message is for another node.
/// 2. `Stranger`: its sender is the node itself, or there is no such node.
/// 3. `Memory`: there is none for what it sends.
fn reaction_to(alloc: Global, me: Member, message: &Message) -> Result<Reaction, AnswerError>
    ensures ok { IfOk result (λ reaction. Reacts me.node me.nodes message.now reaction.sends.items reaction.entered) }
    ensures addressed { OnOk result (IsForNode me.node me.nodes message.now) }
    ensures err { IfErr result (IsUnwanted me.node me.nodes message.now) }
{
    let mut automaton = Automaton::of(alloc, me, message.name(), 0);
    match automaton.receive(alloc, message) {
        Ok(reaction) => Ok(reaction),
        Err(refused) => Err(refusal_of(refused)),
    }
}

/// Returns the refusal of a frame whose message is not taken. It does not allocate.
fn refusal_of(refused: ReceiveError) -> AnswerError
    ensures { result ≡ of_receive refused }
{
    match refused {
        ReceiveError::WrongNode => AnswerError::WrongNode,
        ReceiveError::Stranger => AnswerError::Stranger,
        ReceiveError::Memory => AnswerError::Memory,
    }
}

/// Returns the text with which an idle node answers an input.
///
/// # Errors
///
/// Those of `frame_in` and `reaction_to`, and then `ClockFull`, if the node's clock would pass 2^62, and `Memory`.
fn answer_to(alloc: Global, me: Member, input: &[u8]) -> Result<Vec<u8>, AnswerError>
    requires { IsMember me.node me.nodes }
    ensures { MatchResult result (λ output. IsAnswered me.node me.nodes input.now output.items)
        (λ fault. Refuses me.node me.nodes input.now fault × IsOfInput fault) }
{
    let frame = frame_in(alloc, input)?;
    let reaction = reaction_to(alloc, me, &frame.message)?;
    if frame.clock == Frame::MAX_CLOCK {
        return Err(AnswerError::ClockFull);
    }
    match lines_of(alloc, frame.clock + 1, &reaction.sends) {
        Ok(lines) => Ok(lines),
        Err(Memory) => Err(AnswerError::Memory),
    }
}

/// Reads one line, a frame of version 1 or 2 in hexadecimal digits, and writes the frames that an idle node sends when
/// it receives that frame, in version 2, in lower case, a line each. The node is number `node` of `nodes`, it has met
/// no number before, and its clock was 0. It takes at most two bytes more than [`MAX_LINE`] from the reader, and no
/// read or write that failed is tried again.
///
/// # Errors
///
/// The first that holds, except that `Memory` may come before any that is after `BadNode`:
///
/// 1. `BadCount`: there are not 1 to 64 nodes.
/// 2. `BadNode`: the node is not 1 to `nodes`.
/// 3. `Read`: the reader failed, before its end and before it gave that many bytes.
/// 4. `Line`: more than [`MAX_LINE`] bytes come before a line feed, or bytes after it.
/// 5. `Hex`: the line is no even number of hexadecimal digits.
/// 6. `Frame`: the bytes are no frame.
/// 7. `WrongNode`: the message is for another node.
/// 8. `Stranger`: the sender is the node itself, or there is no such node.
/// 9. `ClockFull`: the node's clock would pass 2^62.
/// 10. `Memory`: memory ran out.
/// 11. `Write`: the writer failed or took nothing, with bytes left to write. A prefix of the text was written.
///
/// After each of the others the writer is as before, and after `BadCount` and `BadNode` the reader is too.
pub fn answer<R: Read, W: Write>(
    alloc: Global,
    node: u16,
    nodes: u16,
    reader: &mut R,
    writer: &mut W,
) -> Result<(), AnswerError>
    ensures { ComesTo node nodes (R.remaining reader.old) (R.remaining reader.new) (W.contents writer.old)
        (W.contents writer.new) (reader.new ≡ reader.old) (writer.new ≡ writer.old) result }
{
    let me = member_of(node, nodes)?;
    let input = read_up_to(alloc, reader, MAX_LINE + 2)?;
    let output = answer_to(alloc, me, &input)?;
    match write_out(writer, &output) {
        Ok(()) => Ok(()),
        Err(_) => Err(AnswerError::Write),
    }
}

/// Answers the reader's frame for this node of this many.
pub fn respond<R: Read, W: Write>(
    alloc: Global,
    node: u16,
    nodes: u16,
    reader: &mut R,
    writer: &mut W,
) -> CommandOutcome
    ensures does { Does (Task.Answer node nodes) (R.remaining reader.old) (R.remaining reader.new)
        (W.contents writer.old) (W.contents writer.new) result.status }
    // Numbers of no node are refused before anything is read.
    ensures unread { ¬ IsMember node nodes → reader.new ≡ reader.old }
{
    match answer(alloc, node, nodes, reader, writer) {
        Ok(()) => ALL_DONE,
        Err(fault) => refuse(writer, CommandRefusal::Answer(fault)),
    }
}
