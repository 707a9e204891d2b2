// What every load begins with: the length of a text and its first line are judged, and give the record of an M line, or a
// refusal.
#![tactic(auto)]

ghost use Rattle.std.specs.Prelude.{◌≡◌, true, List, ℕ, length, Err};
ghost use Rattle.model.specs.Record.{lent};
ghost use Rattle.model.specs.Load.{machine_of_header, header_in_range, judge_header};
ghost use Rattle.machine_record.specs.Struct.{record_of};
ghost use Rattle.header.specs.Loading.{loading_of, headed};

use causes::Cause;
use labels::Bits;
use machine_record::Machine;
use model::Pair;
use model::format::Line;
use model::judging::Header;
use model::numbers::LONGEST_TEXT;
use verdicts::header_verdict;

// A load that is refused: why, and on which line, or 0 where that is no line's. How wide a line's number is goes by how long
// a text may be.
#[derive(Clone, Copy)]
pub struct Refusal<L> {
    pub cause: Cause,
    pub line: L,
}

// The same refusal where a line's number is wider.
impl From<Refusal<u32>> for Refusal<u64> {
    ghost from_gives = { λ narrow wide. wide ≡ narrow };

    fn from(refusal: Refusal<u32>) -> Refusal<u64> {
        Refusal {
            cause: refusal.cause,
            line: refusal.line as u64,
        }
    }
}

// A refusal.
fn refused(cause: Cause, line: u32) -> Result<Machine, Refusal<u32>>
    ensures { result ≡ Err (record { cause = cause; line = line }) }
{
    Err(Refusal { cause, line })
}

// The machine of an M line.
#[tactic(auto, using(texts::proofs::Ranges::header_range))]
fn machine_of(header: Header) -> Machine
    requires { header_in_range header ≡ true }
    ensures { record_of result ≡ machine_of_header header }
{
    let pair = Pair {
        pc: header.p as Bits,
        timing: header.t as Bits,
    };
    let errorpc = header.errorpc as u32;
    let pc = header.pc as u32;
    Machine::blank(header.size as u32, errorpc, pc, pair, header.limit as u32)
}

// A text of so many bytes that begins with this line, loaded with so many lent words and labels up to that line: the record
// of an M line that passes its tests, or a refusal.
#[tactic(auto, unfolding(model::specs::Load::judge_header, model::specs::Load::judge_m))]
pub fn load_header(
    bytes: usize,
    first: Line,
    words: usize,
    labels: usize,
) -> Result<Machine, Refusal<u32>>
    ensures { (w l : List ℕ) → length w ≡ words → length l ≡ labels → loading_of result w l ≡ headed (judge_header bytes first (lent w l)) (lent w l) }
{
    let well_sized = (1 <= bytes) & (bytes <= LONGEST_TEXT);
    if !well_sized {
        return refused(Cause::TextLength, 0);
    }
    let Line::M(size, errorpc, pc, p, t, limit) = first else {
        return refused(Cause::MalformedLine, 1);
    };
    let header = Header {
        size,
        errorpc,
        pc,
        p,
        t,
        limit,
    };
    if let Err(cause) = header_verdict(header, words, labels) {
        return refused(cause, 1);
    }
    Ok(machine_of(header))
}
