// One method for each call of a step: it asks, and records the call with its answer. A generic one would take what is asked and
// what is recorded as closures, which its contract had to tie to the call, and would be no shorter where it is called.
ghost use Rattle.host.specs.Calls as Calls;
ghost use Rattle.host.specs.Journal as Journal;
ghost use Rattle.task.specs.Performs.{AsksHost, AsksTerminal, Records, HasRoom};

use crate::step::Step;
use host::command::SpawnOptions;
use host::fault::Fault;
use host::journal::{Answer, CallKind, Record};
use host::process::Host;
use host::state::{CommandState, ProcessEnd};
use host::terminal::Terminal;

impl<H: Host, T: Terminal> Step<'_, H, T> {
    // Records a call and its answer in the next place of the sheet.
    fn record(&mut self, call: CallKind, child: u32, number: u32, answer: Answer)
        requires { HasRoom 1 self.old }
        ensures { Records (Journal.journal_record call child number answer) self.old self.new }
    {
        self.sheet[self.used] = Record {
            call,
            child,
            number,
            answer,
        };
        self.used += 1;
    }

    pub(crate) fn spawn(
        &mut self,
        program: u8,
        options: SpawnOptions,
        way: u8,
        time: u64,
    ) -> Result<u32, Fault>
        requires { HasRoom 1 self.old }
        ensures { AsksHost H.Host T.Terminal (Calls.spawn program options way time)
            self.old result self.new }
    {
        let reply = self.host.spawn(program, options, way, time);
        let answer = reply.map_or_else(Answer::Fault, Answer::Child);
        self.record(CallKind::Spawn, 0, u32::from(way), answer);
        reply
    }

    pub(crate) fn poll(&mut self, child: u32) -> Result<Option<ProcessEnd>, Fault>
        requires { HasRoom 1 self.old }
        ensures { AsksHost H.Host T.Terminal (Calls.poll child) self.old result self.new }
    {
        let reply = self.host.poll(child);
        let answer = reply.map_or_else(Answer::Fault, |end| {
            end.map_or(Answer::Nothing, Answer::End)
        });
        self.record(CallKind::Poll, child, 0, answer);
        reply
    }

    pub(crate) fn wait(&mut self, child: u32) -> Result<ProcessEnd, Fault>
        requires { HasRoom 1 self.old }
        ensures { AsksHost H.Host T.Terminal (Calls.wait child) self.old result self.new }
    {
        let reply = self.host.wait(child);
        let answer = reply.map_or_else(Answer::Fault, Answer::End);
        self.record(CallKind::Wait, child, 0, answer);
        reply
    }

    pub(crate) fn kill(&mut self, child: u32) -> Result<(), Fault>
        requires { HasRoom 1 self.old }
        ensures { AsksHost H.Host T.Terminal (Calls.kill child) self.old result self.new }
    {
        let reply = self.host.kill(child);
        self.record(CallKind::Kill, child, 0, reply.into());
        reply
    }

    pub(crate) fn signal(&mut self, child: u32, signal: u8) -> Result<(), Fault>
        requires { HasRoom 1 self.old }
        ensures { AsksHost H.Host T.Terminal (Calls.signal child signal) self.old result self.new }
    {
        let reply = self.host.signal(child, signal);
        self.record(CallKind::Signal, child, u32::from(signal), reply.into());
        reply
    }

    pub(crate) fn cont(&mut self, child: u32) -> Result<(), Fault>
        requires { HasRoom 1 self.old }
        ensures { AsksHost H.Host T.Terminal (Calls.cont child) self.old result self.new }
    {
        let reply = self.host.cont(child);
        self.record(CallKind::Cont, child, 0, reply.into());
        reply
    }

    pub(crate) fn let_go(&mut self, child: u32)
        requires { HasRoom 1 self.old }
        ensures { AsksHost H.Host T.Terminal (Calls.let_go child) self.old tt self.new }
    {
        self.host.let_go(child);
        self.record(CallKind::LetGo, child, 0, Answer::Nothing);
    }

    pub(crate) fn hook(
        &mut self,
        number: u8,
        state: CommandState,
        previous: Option<CommandState>,
    ) -> Result<SpawnOptions, Fault>
        requires { HasRoom 1 self.old }
        ensures { AsksHost H.Host T.Terminal (Calls.hook number state previous)
            self.old result self.new }
    {
        let reply = self.host.hook(number, state, previous);
        let answer = reply.map_or_else(Answer::Fault, Answer::Options);
        self.record(CallKind::Hook, 0, u32::from(number), answer);
        reply
    }

    pub(crate) fn routine(
        &mut self,
        number: u8,
        state: CommandState,
        previous: Option<CommandState>,
    ) -> Result<(), Fault>
        requires { HasRoom 1 self.old }
        ensures { AsksHost H.Host T.Terminal (Calls.routine number state previous)
            self.old result self.new }
    {
        let reply = self.host.routine(number, state, previous);
        self.record(CallKind::Routine, 0, u32::from(number), reply.into());
        reply
    }

    pub(crate) fn tell(&mut self, handler: u8, fault: Fault) -> Result<(), Fault>
        requires { HasRoom 1 self.old }
        ensures { AsksHost H.Host T.Terminal (Calls.tell handler fault) self.old result self.new }
    {
        let reply = self.host.tell(handler, fault);
        self.record(CallKind::Tell, 0, u32::from(fault.code), reply.into());
        reply
    }

    pub(crate) fn owner(&mut self) -> Option<u32>
        requires { HasRoom 1 self.old }
        ensures { AsksTerminal H.Host T.Terminal Calls.owner self.old result self.new }
    {
        let reply = self.terminal.owner();
        let answer = reply.map_or(Answer::Nothing, Answer::Group);
        self.record(CallKind::Owner, 0, 0, answer);
        reply
    }

    pub(crate) fn acquire(&mut self, group: u32) -> Result<(), Fault>
        requires { HasRoom 1 self.old }
        ensures { AsksTerminal H.Host T.Terminal (Calls.acquire group) self.old result self.new }
    {
        let reply = self.terminal.acquire(group);
        self.record(CallKind::Acquire, 0, group, reply.into());
        reply
    }

    pub(crate) fn release(&mut self)
        requires { HasRoom 1 self.old }
        ensures { AsksTerminal H.Host T.Terminal Calls.release self.old tt self.new }
    {
        self.terminal.release();
        self.record(CallKind::Release, 0, 0, Answer::Nothing);
    }
}
