//! The text of a status, for the sink of messages.
ghost use Rattle.std.specs.Prelude.{◌≡◌, ◌≤◌, [], ◌∷◌, ◌++◌, map, codes};
ghost use Rattle.spec_run.specs.End as run;
ghost use Rattle.spec_run.specs.End.{message, why_text};
ghost use Rattle.spec_run.specs.Scene.{TookText};
ghost use Rattle.mrs_walk.specs.Faults as schema;
ghost use Rattle.release_opening.specs.Documents.{which_of};
ghost use Rattle.mrs_query.specs.Runs.{told_as};
ghost use Rattle.mrs_query.specs.Texts.{joined};
ghost use Rattle.mrs_query.specs.Wrote.{Wrote, member_of};

use crate::ended::Ended;
use crate::parts::write_parts;
use crate::status::{QuestionFault, Status};
use itoa::Buffer;
use mrs_io::{Failed, Sink, write_whole};
use mrs_schema::{SchemaFault, Why};
use release_opening::{DocFault, Which};

/// What a status names.
fn which_text(which: Which) -> &'static [u8]
    ensures { result.now ≡ run.which_text (which_of which) }
{
    match which {
        Which::Insns => b"insns",
        Which::Features => b"features",
        Which::Log => b"log",
        Which::Input => b"input",
    }
}

/// The word for a reason, behind which a missing member's name stands.
fn reason_word(why: &Why) -> &'static [u8]
    ensures { result.now ++ member_of (schema.why_of why.now) ≡ why_text (schema.why_of why.now) }
{
    match why {
        Why::Missing(_) => b"missing:",
        Why::UnlistedKind => b"kind",
        Why::WrongShape => b"shape",
        Why::BadPattern(_) => b"pattern",
        Why::BadRange => b"range",
        Why::BadName => b"name",
        Why::Doubled => b"doubled",
        Why::TooMany => b"many",
        Why::NoSet => b"no-set",
    }
}

/// The name of the member that is missing, if one is.
fn missing_member(why: &Why) -> &[u8]
    ensures { result.now ≡ member_of (schema.why_of why.now) }
{
    match why {
        Why::Missing(member) => member.as_str().as_bytes(),
        _ => b"",
    }
}

/// Writes the text of refused words.
fn write_usage<E: Sink>(err: &mut E, place: u64) -> Result<(), Failed>
    ensures { Wrote (E.writing err.old) (E.writing err.new) (message (run.Usage place)) result }
{
    write_parts(
        err,
        &[
            b"usage ".as_slice(),
            Buffer::new().format(place).as_bytes(),
            b"\n".as_slice(),
        ],
    )
}

/// Writes the text of a document without a JSON reading.
fn write_no_json<E: Sink>(err: &mut E, which: Which) -> Result<(), Failed>
    ensures { Wrote (E.writing err.old) (E.writing err.new) (message (run.Document (which_of which) run.Json)) result }
{
    write_parts(
        err,
        &[
            b"document ".as_slice(),
            which_text(which),
            b" json\n".as_slice(),
        ],
    )
}

/// Writes the text of a log that is not as demanded at a byte.
fn write_syntax<E: Sink>(err: &mut E, which: Which, at: u64) -> Result<(), Failed>
    ensures { Wrote (E.writing err.old) (E.writing err.new) (message (run.Document (which_of which) (run.Syntax at))) result }
{
    write_parts(
        err,
        &[
            b"document ".as_slice(),
            which_text(which),
            b" syntax ".as_slice(),
            Buffer::new().format(at).as_bytes(),
            b"\n".as_slice(),
        ],
    )
}

/// The parts of the text of a document's fault.
fn fault_parts<'a>(
    which: &'a [u8],
    reason: &'a [u8],
    member: &'a [u8],
    path: &'a [u8],
) -> [&'a [u8]; 8]
    ensures { joined (map (λ part. part.now) result) ≡ codes "document " ++ (which.now ++ (32 ∷ (reason.now ++ (member.now ++ (32 ∷ (path.now ++ 10 ∷ [])))))) }
{
    [
        b"document ".as_slice(),
        which,
        b" ".as_slice(),
        reason,
        member,
        b" ".as_slice(),
        path,
        b"\n".as_slice(),
    ]
}

/// Writes the text of a document's first fault: the reason, and the JSON Pointer of its place.
fn write_fault<E: Sink>(err: &mut E, which: Which, fault: &SchemaFault) -> Result<(), Failed>
    ensures { Wrote (E.writing err.old) (E.writing err.new) (message (run.Document (which_of which) (run.Schema (schema.fault_of fault.now)))) result }
{
    let parts = fault_parts(
        which_text(which),
        reason_word(&fault.why),
        missing_member(&fault.why),
        fault.path.as_str().as_bytes(),
    );
    write_parts(err, parts.as_slice())
}

/// Writes a word, what it is about, and the end of the line.
fn write_two<E: Sink>(err: &mut E, first: &[u8], second: &[u8]) -> Result<(), Failed>
    ensures { Wrote (E.writing err.old) (E.writing err.new) (first.now ++ (second.now ++ 10 ∷ [])) result }
{
    write_parts(err, &[first, second, b"\n".as_slice()])
}

/// Writes the text of a log.
fn write_log<E: Sink>(err: &mut E, text: &[u8]) -> Result<(), Failed>
    ensures text { Wrote (E.writing err.old) (E.writing err.new) text.now result }
    ensures quiet { text.now ≡ [] → err.new ≡ err.old }
{
    write_whole(err, text)
}

/// Writes the text of a pin, by its number, that names no boolean parameter.
fn write_no_feature<E: Sink>(err: &mut E, pin: u32) -> Result<(), Failed>
    ensures { Wrote (E.writing err.old) (E.writing err.new) (message (run.Question (run.NoFeature pin))) result }
{
    write_two(err, b"feature ", Buffer::new().format(pin).as_bytes())
}

/// Writes the text of a refused line: its number, the place of a byte in it, and the reason.
fn write_line<E: Sink>(err: &mut E, line: u64, at: u32, reason: &[u8]) -> Result<(), Failed>
    ensures { Wrote (E.writing err.old) (E.writing err.new) (message (run.Question (run.Line line at reason.now))) result }
{
    write_parts(
        err,
        &[
            b"line ".as_slice(),
            Buffer::new().format(line).as_bytes(),
            b" ".as_slice(),
            Buffer::new().format(at).as_bytes(),
            b" ".as_slice(),
            reason,
            b"\n".as_slice(),
        ],
    )
}

/// Writes the text of an end that has one.
fn write_message<E: Sink>(err: &mut E, ended: &Ended) -> Result<(), Failed>
    ensures text { Wrote (E.writing err.old) (E.writing err.new) (message (told_as ended.now)) result }
    ensures quiet { message (told_as ended.now) ≡ [] → err.new ≡ err.old }
{
    match &ended.status {
        Status::Done | Status::Ragged { rest: _ } | Status::NoMemory => Ok(()),
        Status::Usage { place } => write_usage(err, *place),
        Status::Document {
            which,
            fault: DocFault::Json,
        } => write_no_json(err, *which),
        Status::Document {
            which,
            fault: DocFault::Schema(fault),
        } => write_fault(err, *which, fault),
        Status::Document {
            which,
            fault: DocFault::Log { at },
        } => write_syntax(err, *which, *at),
        Status::Refuted { steps: _ } => write_log(err, &ended.text),
        Status::Question {
            fault: QuestionFault::NoFeature { pin },
        } => write_no_feature(err, *pin),
        Status::Question {
            fault: QuestionFault::NoLeaf,
        } => write_two(err, b"leaf", b""),
        Status::Question {
            fault: QuestionFault::Line { line, fault },
        } => write_line(err, *line, fault.at, &ended.text),
        Status::ReadFault { which } => write_two(err, b"read ", which_text(*which)),
        Status::WriteFault => write_two(err, b"write out", b""),
        Status::Limit { which } => write_two(err, b"limit ", which_text(*which)),
    }
}

/// Writes the text of an end. A sink that fails has taken a part of it.
pub(crate) fn tell<E: Sink>(err: &mut E, ended: &Ended)
    ensures text { TookText (E.writing err.old)
        (E.writing err.new) (message (told_as ended.now)) }
    ensures count { (E.writing err.old).faults ≤ (E.writing err.new).faults }
    ensures quiet { message (told_as ended.now) ≡ [] → err.new ≡ err.old }
{
    let _ = write_message(err, ended);
}
