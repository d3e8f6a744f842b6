//! The line of an answer, into the caller's line buffer.

ghost use Rattle.std.specs.Prelude.{◌≡◌, ◌≤◌, true, [], ◌∷◌, length, is_ok, decimal};
ghost use Rattle.lines.specs.Writes.{room, Wrote};
ghost use Rattle.lines.specs.Lines.{dotted, spaced, refused, parts, line, line_answer, line_buffer, FitsLaw};

use crate::answer::Answer;
use crate::writer::LineWriter;
use address::Ipv4;
use rules::Refusal;

/// How long a line buffer has to be: no line is longer.
const LONGEST_LINE: usize = 40;

#[tactic(auto, using(crate::proofs::Sizes::number_short, crate::proofs::Writes::room_left))]
fn write_refusal(line: &mut LineWriter, refusal: Refusal)
    requires { 6 ≤ room line.old }
    ensures wrote { Wrote line.old (spaced (refused refusal)) line.new }
    ensures short { length (spaced (refused refusal)) ≤ 6 }
{
    line.bytes(b" no");
    line.number(b' ', u64::from(refusal.number()));
}

#[tactic(auto, using(crate::proofs::Writes::room_left))]
fn write_rule(line: &mut LineWriter, start: Ipv4, finish: Ipv4, hop: u16)
    requires { 38 ≤ room line.old }
    ensures wrote { Wrote line.old (spaced (dotted start.value ∷ dotted finish.value ∷ decimal hop ∷ [])) line.new }
    ensures short { length (spaced (dotted start.value ∷ dotted finish.value ∷ decimal hop ∷ [])) ≤ 38 }
{
    line.address(start);
    line.address(finish);
    line.number(b' ', u64::from(hop));
}

#[tactic(auto, using(crate::proofs::Writes::room_left))]
fn write_parts(line: &mut LineWriter, answer: Answer)
    requires { 38 ≤ room line.old }
    ensures wrote { Wrote line.old (spaced (parts answer)) line.new }
    ensures short { length (spaced (parts answer)) ≤ 38 }
{
    match answer {
        Answer::Added(Ok(())) | Answer::Removed(Ok(())) => line.bytes(b" ok"),
        Answer::Found(Ok((start, finish, hop))) => write_rule(line, start, finish, hop),
        Answer::Committed(Ok(count)) => {
            line.bytes(b" ok");
            line.size(count);
        }
        Answer::Added(Err(refusal))
        | Answer::Removed(Err(refusal))
        | Answer::Found(Err(refusal))
        | Answer::Committed(Err(refusal)) => write_refusal(line, refusal),
        Answer::Fault { refusal, place } => {
            write_refusal(line, refusal);
            line.size(place);
        }
    }
}

/// Writes the answer's line to the front of the buffer, and tells its length; the bytes behind it keep what they held.
/// Refuses `ShortBuffer` if the buffer is shorter than 40 bytes, and then writes nothing.
#[tactic(auto, using(crate::proofs::Fits::line_fits))]
pub fn write_line(answer: Answer, out: &mut [u8]) -> Result<usize, Refusal>
    ensures answer { result ≡ line_answer out.old answer }
    ensures after { out.new ≡ line_buffer out.old answer }
    ensures short { is_ok result ≡ true → length (line answer) ≤ 40 }
    ensures fits { FitsLaw }
{
    if out.len() < LONGEST_LINE {
        return Err(Refusal::ShortBuffer);
    }
    let mut line = LineWriter::new(out);
    line.byte(answer.letter());
    write_parts(&mut line, answer);
    line.byte(b'\n');
    Ok(line.len())
}
