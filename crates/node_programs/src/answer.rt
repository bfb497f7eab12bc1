//! The program `answer`: one operator, which the first line makes and each other line sends a packet.

ghost use Rattle.std.specs.Prelude.{◌≡◌, ◌≢◌, ◌++◌, ◌∷◌, ℕ, List, [], Option, None, Some, Ok, Err, true};
ghost use Rattle.std.specs.Prelude.{IfOk, IfErr, OnErr, OnOk, codes, string_bytes};
ghost use Rattle.json_text.specs.Fault.{Fails};
ghost use Rattle.ocpi_json.specs.Packets.{packet_in};
ghost use Rattle.ocpi_json.specs.SiteLines.{site_in};
ghost use Rattle.ocpi_types.specs.declared.site.SiteLine.{SiteLine as SiteLineOf};
ghost use Rattle.node_programs.specs.Answer.{Answering, EndGives, LineGives, PacketTurn, SiteTurn, made_by};
ghost use Rattle.line_runs.specs.Run.{Begins, Outputs, ReadsFewLines, StopsReading};
ghost use Rattle.line_runs.specs.declared.run.Turn.{Turn as TurnOf};

use line_runs::{AnswerLines, LineReader, Ran, RunFault, Turn, run_whole};
use node_steps::NodeFault;
use ocpi_json::{JsonFault, Scratch, read_packet, read_site};
use ocpi_text::Moment;
use ocpi_types::Packet;
use operator_core::Operator;
use program_lines::{refuse, write_packets};
use std::alloc::{AllocError, Global};
use std::io::{BufRead, Write};
use std::marker::Model;
use tables::HashSeed;

/// The operator of a site line, and the moment of that line, at which each packet comes.
pub struct Running {
    at: Moment,
    operator: Operator,
}

/// What a derive would do, in a function of its own: so it is proved once, and not in each function that drops an
/// operator. A call of `drop` is proved in a fortieth of the time that a field takes which a pattern passes over.
impl Drop for Running {
    fn drop(self) {
        let Running { at: _, operator } = self;
        drop(operator);
    }
}

impl Model for Running {
    ghost use Rattle.std.specs.Coded.{codes};
    ghost use Rattle.std.specs.FinMap as map;
    ghost use Rattle.node_programs.specs.Answer.{Answering};

    ghost Value = { Answering };

    ghost coded = { Prim.hlevel (codes, map.code) };

    ghost view = { λ r. record { at = r.at; operator = r.operator.state } };
}

impl Running {
    /// The operator.
    pub fn into_operator(self) -> Operator
        ensures { result.state ≡ self.operator }
    {
        let Running { at: _, operator } = self;
        operator
    }

    ghost use Rattle.ocpi_types.specs.declared.rows.Change.{Change as ChangeOf};
    ghost use Rattle.operator_steps.specs.Faults.{IsDue};
    ghost use Rattle.operator_steps.specs.Steps.{OperatorStep};
    ghost use Rattle.node_programs.specs.Answer.{out_with};

    /// A packet comes to the operator, and what it sends is answered. Nobody asks for the rows that change, so they are
    /// not copied. A refusal changes nothing and sends nothing.
    fn on_packet(&mut self, packet: &Packet) -> Result<Vec<Packet>, NodeFault>
        ensures step { IfOk result (λ sent. (changes : List ChangeOf) × OperatorStep self.old.operator self.old.at packet.now (out_with self.new.operator changes sent.items)) }
        ensures fault { IfErr result (IsDue self.old.operator self.old.at packet.now) }
        ensures err { OnErr result (self.new ≡ self.old) }
        ensures at { self.new.at ≡ self.old.at }
    {
        let plan = self.operator.plan_packet(self.at, packet)?;
        self.operator.make_room(&plan)?;
        Ok(self.operator.apply(plan))
    }
}

/// What the lines so far have made: an operator, from the first on.
#[derive(Drop)]
struct Program {
    alloc: Global,
    seed: HashSeed,
    scratch: Scratch,
    running: Option<Running>,
}

impl Model for Program {
    ghost use Rattle.std.specs.Coded.{codes};
    ghost use Rattle.std.specs.FinMap as map;
    ghost use Rattle.std.specs.Prelude.{Option};
    ghost use Rattle.node_programs.specs.Answer.{Answering};

    ghost Value = { Option Answering };

    ghost coded = { Prim.hlevel (codes, map.code) };

    ghost view = { λ a. a.running };
}

impl Program {
    fn new(alloc: Global, seed: HashSeed) -> Program
        ensures { result ≡ None }
    {
        Program {
            alloc,
            seed,
            scratch: Scratch::new(alloc),
            running: None,
        }
    }

    /// The operator as the lines left it.
    fn close(self) -> Option<Running>
        ensures { result ≡ self }
    {
        let Program {
            alloc: _,
            seed: _,
            scratch,
            running,
        } = self;
        drop(scratch);
        running
    }
}

impl AnswerLines for Program {
    ghost use Rattle.node_programs.specs.AnswerCut.{cut_alike};

    ghost line_gives = { LineGives };

    ghost end_gives = { EndGives };

    fn answer_line(&mut self, line: &[u8], output: &mut String) -> Result<Turn, AllocError> {
        match &mut self.running {
            None => {}
            Some(running) => {
                return answer_packet(self.alloc, &mut self.scratch, running, line, output);
            }
        }
        answer_site(
            self.alloc,
            self.seed,
            &mut self.scratch,
            &mut self.running,
            line,
            output,
        )
    }

    fn answer_end(&self, output: &mut String) -> Result<Ran, AllocError> {
        match &self.running {
            None => {
                refuse(output, JsonFault::Syntax)?;
                Ok(Ran::WithRefusals)
            }
            Some(_) => Ok(Ran::Whole),
        }
    }

    ghost cut_alike = { cut_alike };
}

/// The operator of a site line, at the moment of that line.
fn open(
    alloc: Global,
    seed: HashSeed,
    scratch: &mut Scratch,
    line: &[u8],
) -> Result<Running, JsonFault>
    ensures ok { IfOk result (λ r. (site : SiteLineOf) × (site_in line.now ≡ Ok site) × (r ≡ made_by site)) }
    ensures err { IfErr result (λ fault. Fails fault (site_in line.now)) }
{
    let site = read_site(alloc, scratch, line)?;
    let at = site.at;
    let operator = Operator::new(alloc, seed, site)?;
    Ok(Running { at, operator })
}

/// Makes the operator of a site line, where there is none.
fn answer_site(
    alloc: Global,
    seed: HashSeed,
    scratch: &mut Scratch,
    running: &mut Option<Running>,
    line: &[u8],
    output: &mut String,
) -> Result<Turn, AllocError>
    requires { running.old ≡ None }
    ensures ok { IfOk result (λ turn. (out : List ℕ) × (string_bytes output.new ≡ string_bytes output.old ++ out)
        × SiteTurn line.now turn out running.new) }
    ensures err { IfErr result (λ _. (turn : TurnOf) × (out : List ℕ) × SiteTurn line.now turn out running.new) }
{
    match open(alloc, seed, scratch, line) {
        Ok(opened) => {
            *running = Some(opened);
            Ok(Turn::Taken)
        }
        Err(fault) => {
            refuse(output, fault)?;
            Ok(Turn::Ended)
        }
    }
}

/// Hands a packet that was read to the operator, and writes what it sends.
fn answer_read(
    alloc: Global,
    running: &mut Running,
    packet: &Packet,
    output: &mut String,
) -> Result<Turn, AllocError>
    ensures ok { IfOk result (λ turn. (out : List ℕ) × (string_bytes output.new ≡ string_bytes output.old ++ out)
        × ((line : List ℕ) → packet_in line ≡ Ok packet.now → PacketTurn running.old line turn out (Some running.new))) }
    ensures err { IfErr result (λ _. (turn : TurnOf) × (out : List ℕ)
        × ((line : List ℕ) → packet_in line ≡ Ok packet.now → PacketTurn running.old line turn out (Some running.new))) }
{
    match running.on_packet(packet) {
        Ok(sent) => {
            write_packets(alloc, sent.as_slice(), output)?;
            Ok(Turn::Taken)
        }
        Err(fault) => {
            refuse(output, fault)?;
            Ok(Turn::Refused)
        }
    }
}

/// Reads a line's packet and hands it to the operator.
fn answer_packet(
    alloc: Global,
    scratch: &mut Scratch,
    running: &mut Running,
    line: &[u8],
    output: &mut String,
) -> Result<Turn, AllocError>
    ensures ok { IfOk result (λ turn. (out : List ℕ) × (string_bytes output.new ≡ string_bytes output.old ++ out)
        × PacketTurn running.old line.now turn out (Some running.new)) }
    ensures err { IfErr result (λ _. (turn : TurnOf) × (out : List ℕ) × PacketTurn running.old line.now turn out (Some running.new)) }
{
    match read_packet(alloc, scratch, line) {
        Ok(packet) => answer_read(alloc, running, &packet, output),
        Err(fault) => {
            refuse(output, fault)?;
            Ok(Turn::Refused)
        }
    }
}

/// Answers the packets of an input as one operator. The first line that holds something is a site line, and each other
/// a packet at its moment; each packet that the operator sends is one line. A line that is refused is written as
/// `refused`, its number and its name, changes nothing, and the next follows; a refused or absent site line ends the
/// run.
///
/// Where the run was not stopped, what is written is the output of the input. Where it was stopped, what is written is
/// a beginning of that: by a failed read or too many reads, what exactly the lines that were read whole give. At most
/// 1,000,000,000 lines are read. What was answered is flushed before each read that may wait, and at the end. `left`
/// gets the operator as the run left it, where there was a site line.
pub fn run_answer<R: BufRead, W: Write>(
    alloc: Global,
    seed: HashSeed,
    input: &mut LineReader<R>,
    writer: &mut W,
    left: &mut Option<Running>,
) -> Result<Ran, RunFault>
    ensures output { IfOk result (λ ran. Outputs LineGives EndGives None (R.Read.remaining input.old.reader) ran
        (W.contents writer.old) (W.contents writer.new) left.new) }
    ensures begun { IfErr result (λ fault. Begins LineGives EndGives None (R.Read.remaining input.old.reader)
        (W.contents writer.old) (W.contents writer.new) left.new) }
    ensures stopped { IfErr result (λ fault. fault ≢ RunFault.WriteFailed → StopsReading LineGives None fault
        (R.Read.remaining input.old.reader) (R.Read.remaining input.new.reader)
        (W.contents writer.old) (W.contents writer.new) left.new) }
    ensures failed { result ≡ Err RunFault.ReadFailed → input.new.failed ≡ true }
    ensures reads { ReadsFewLines (R.Read.remaining input.old.reader) (R.Read.remaining input.new.reader) }
{
    let mut answering = Program::new(alloc, seed);
    let ran = run_whole(alloc, &mut answering, input, writer);
    *left = answering.close();
    ran
}
