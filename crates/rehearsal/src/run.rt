// A script's calls, made on one job.
ghost use Rattle.std.specs.Prelude.{◌≡◌, if◌then◌else◌, Ok, Err, IfOk, string_bytes};
ghost use Rattle.std.specs.Result.{result_map_both};
ghost use Rattle.drive.specs.declared.calls.Value.TheVariants.{Nothing};
ghost use Rattle.hosts.specs.declared.child.End.TheVariants.{Exited};
ghost use Rattle.hosts.specs.declared.child.Life.TheVariants as Life;
ghost use Rattle.supervisor.specs.declared.errors.Refusal.TheVariants.{Unknown};
ghost use Rattle.supervisor.specs.Job as Spec;
ghost use Rattle.rehearsal.specs.Plays.{beginning, make_job, new_state, play, tell_event};
ghost use Rattle.rehearsal.specs.View.{answer_end, play_end, state_of};
ghost use Rattle.rehearsal.specs.Printed.{text_from};

use crate::line::Line;
use crate::print::write_line;
use drive::calls::{Done, Value};
use drive::runs;
use drive::runs::known;
use foreground::absent::AbsentTerminal;
use host::journal::Record;
use hosts::simulated::SimulatedHost;
use std::alloc::{AllocError, Global};
use supervisor::errors::Refusal;
use supervisor::job::{Job, LEAST_PLACES};

const PROGRAM: u8 = 1;

#[derive(Drop)]
pub struct Rehearsal {
    job: Job,
    host: SimulatedHost,
    terminal: AbsentTerminal,
    sheet: [Record; LEAST_PLACES],
}

// Where nothing living has that number, the child is unknown.
fn if_living(living: bool) -> Result<Value, Refusal>
    ensures { result ≡ (if living then Ok Nothing else Err Unknown) }
{
    living.then_some(Value::Nothing).ok_or(Refusal::Unknown)
}

impl Rehearsal {
    // With options and mask 0.
    pub(crate) fn new() -> Rehearsal
        ensures { state_of result ≡ beginning }
    {
        let Ok(made) = Rehearsal::with(0, 0) else {
            unreachable!()
        };
        made
    }

    // Bits of the mask above 31 name no signal.
    fn with(options: u8, mask: u64) -> Result<Rehearsal, Refusal>
        ensures { result_map_both state_of (λ refusal. refusal) result
            ≡ result_map_both (new_state mask) (λ refusal. refusal) (Spec.make 1 options) }
    {
        let job = Job::new(PROGRAM, options)?;
        let host = SimulatedHost::new((mask & 0xffff_ffff) as u32, job.command().options);
        Ok(Rehearsal {
            job,
            host,
            terminal: AbsentTerminal::new(),
            sheet: [Record::BLANK; LEAST_PLACES],
        })
    }

    fn make(&mut self, options: u64, mask: u64) -> Result<Value, Refusal>
        ensures { answer_end result self.new
            ≡ make_job (state_of self.old) mask (Spec.make 1 options) }
    {
        let options = u8::try_from(options).map_err(|_| Refusal::Number)?;
        *self = Rehearsal::with(options, mask)?;
        Ok(Value::Nothing)
    }

    fn exit(&mut self, child: u64, code: u8) -> Result<Value, Refusal>
        ensures { answer_end result self.new
            ≡ tell_event (state_of self.old) child (Life.Ended (Exited code)) }
    {
        if_living(self.host.exit(known(child)?, code))
    }

    fn stop(&mut self, child: u64) -> Result<Value, Refusal>
        ensures { answer_end result self.new ≡ tell_event (state_of self.old) child Life.Stopped }
    {
        if_living(self.host.stop(known(child)?))
    }

    // Does what one line says, which was read from a text, and so is no closure.
    fn play(&mut self, line: Line) -> Done
        ensures { play_end result self.new ≡ play (state_of self.old) line }
    {
        match line {
            Line::Make { options, mask } => self.make(options, mask).into(),
            Line::Call(call) => runs::make(
                &mut self.job,
                &mut self.host,
                &mut self.terminal,
                &mut self.sheet,
                call,
            ),
            Line::Exit { child, code } => self.exit(child, code).into(),
            Line::Stop { child } => self.stop(child).into(),
        }
    }

    // Makes the calls of the lines, in order, and gives the text of their answers.
    pub(crate) fn perform(&mut self, heap: Global, lines: &[Line]) -> Result<String, AllocError>
        ensures { IfOk result (λ text.
            string_bytes text ≡ text_from 1 lines.now (state_of self.old)) }
    {
        let mut text = String::new(heap);
        for (i, line) in lines.iter().enumerate() {
            let done = self.play(*line);
            write_line(&mut text, i + 1, line.letter(), done, &self.sheet)?;
        }
        Ok(text)
    }
}
