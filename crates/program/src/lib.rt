// What every program shares: how it was called, what it reads and writes, what it says of a failure, and how it ends.
#![tactic(auto)]

mod reads;
mod reasons;
mod stops;
#[cfg(test)]
mod tests;
mod writes;

ghost use Rattle.std.specs.Prelude.{◌≡◌, ◌≤◌, IfOk, IfErr};
ghost use Rattle.io.specs.Counts.{IsPrefixLen};

pub use reads::read_whole;
use reasons::reason;
pub use reasons::{EBADF, EILSEQ};
use std::env::{Env, FillError};
use std::fmt::{Display, Write as _};
use std::io;
use std::io::Write as _;
pub use stops::Stop;
use text::Line;
pub use writes::Stream;

// How a program ends: what it was asked was accepted and its answer is written whole; or it was refused, stopped or too long; or the program
// was called wrongly, or its input or output failed.
#[derive(Clone, Copy)]
pub enum End {
    Accepted,
    Refused,
    Failed,
}

// What a program says of itself: how it is called, how many arguments it takes at least and at most, what it says where there are fewer, where there
// are more, and where one is wrong; what it does; and where it says that a table is refused or too long.
#[derive(Clone, Copy)]
pub struct About<'a> {
    pub name: &'a str,
    pub usage: &'a str,
    pub fewest: usize,
    pub most: usize,
    pub missing: &'a str,
    pub superfluous: &'a str,
    pub wrong: &'a str,
    pub help: &'a str,
    pub refusals: Stream,
}

// What a program says that takes no argument.
pub const NO_ARGUMENT: About<'static> = About {
    name: "",
    usage: "",
    fewest: 0,
    most: 0,
    missing: "",
    superfluous: "it takes no argument",
    wrong: "",
    help: "",
    refusals: Stream::Output,
};

// A program as it was called: its name, and the number of the file that its status goes to.
#[derive(Clone, Copy)]
pub struct Program<'a> {
    rt: &'a HostRuntime,
    name: Line,
    status: Option<u16>,
}

// The most bytes of an argument that is a word, and of one that is a number or a path.
const WORD: usize = 4096;

pub const LONGEST: usize = 65536;

// The most bytes that a table has: 32 inputs, 1,024 gates and 32 outputs.
pub const MOST_BYTES: usize = 8704;

// What standard error says where a write did not succeed.
const UNWRITTEN: &str = "the output could not be written whole";

// The end of each program's help.
const STATUSES: &str =
    "Status, by run and by what install puts elsewhere: 0 accepted and written whole; 1 refused, stopped or too long;\n2 bad usage, or input or output that failed.\n";

// The file that a text of the form --status=N names.
fn file_named(text: &[u8]) -> Option<u16> {
    let number = text::number_of(text.strip_prefix(b"--status=")?)?;
    u16::try_from(number).ok()
}

// Puts argument i at the start of the buffer, and answers its length, 0 where there is none or the buffer is shorter.
fn argument_at(rt: &HostRuntime, i: usize, buffer: &mut [u8]) -> usize
    ensures { IsPrefixLen result buffer.new }
{
    rt.arg(i, buffer).unwrap_or(0)
}

// The file that the first argument asks the status to be written to. No program has another use for such an argument. Not inlined, as all that has room for
// a word or a path: so that room is off the stack again when the work begins, and there only while it is used.
#[inline(never)]
fn status_file(rt: &HostRuntime) -> Option<u16> {
    let mut word = [0u8; WORD];
    let len = argument_at(rt, 1, &mut word);
    file_named(&word[..len])
}

// What follows a write.
fn written(write: io::Result<()>) -> Result<(), Stop>
    ensures { IfErr result (λ stop. stop ≡ Stop.Unwritten) }
{
    write.or(Err(Stop::Unwritten))
}

// A line with a text, cut where the line is full.
fn line<D: Display + Drop>(text: D) -> Result<Line, Stop>
    ensures { IfErr result (λ stop. stop ≡ Stop.Unwritten) }
{
    let mut line = Line::empty();
    write!(line, "{text}").or(Err(Stop::Unwritten))?;
    Ok(line)
}

// What a program does that was called rightly.
pub trait Work: Copy {
    // Gives the program's answer, and says how it ends; or what keeps it from its answer.
    fn answer(self, program: Program<'_>) -> Result<End, Stop>;
}

// Runs a program's work where it was called rightly, says what keeps it from its answer, and writes the status where it was asked for.
pub fn run_work<W: Work>(rt: &HostRuntime, about: About<'_>, work: W) {
    let program = Program {
        rt,
        name: Line::empty().word(about.name.as_bytes()),
        status: status_file(rt),
    };
    let end = match program.answer(about, work) {
        Ok(end) => end,
        Err(stop) => program.say(about, stop),
    };
    program.end(end);
}

// The same where the work is a closure, which may hold what cannot be copied, and keep the program. It asks of its caller that the closure can be called.
pub fn run<'a, W: FnOnce(Program<'a>) -> Result<End, Stop> + Drop>(
    rt: &'a HostRuntime,
    about: About<'_>,
    work: W,
)
    requires { W.IsAlwaysCallable work }
{
    let program = Program {
        rt,
        name: Line::empty().word(about.name.as_bytes()),
        status: status_file(rt),
    };
    let end = match program.answer_by(about, work) {
        Ok(end) => end,
        Err(stop) => program.say(about, stop),
    };
    program.end(end);
}

impl<'a> Program<'a> {
    // What the program reads and writes with.
    pub fn rt(self) -> &'a HostRuntime {
        self.rt
    }

    // Helps where that is asked for, looks at how many arguments there are, and does the work. Not inlined, so that what the work held is off the stack
    // before it is said how it ended.
    #[inline(never)]
    fn answer<W: Work>(self, about: About<'_>, work: W) -> Result<End, Stop> {
        if self.asked_for_help() {
            return self.help(about);
        }
        let count = self.arguments();
        if count < about.fewest {
            return Err(Stop::Missing);
        }
        if about.most < count {
            return Err(Stop::Superfluous);
        }
        work.answer(self)
    }

    // The same where the work is a closure.
    #[inline(never)]
    fn answer_by<W: FnOnce(Program<'a>) -> Result<End, Stop> + Drop>(
        self,
        about: About<'_>,
        work: W,
    ) -> Result<End, Stop>
        requires callable { W.IsAlwaysCallable work }
    {
        if self.asked_for_help() {
            return self.help(about);
        }
        let count = self.arguments();
        if count < about.fewest {
            return Err(Stop::Missing);
        }
        if about.most < count {
            return Err(Stop::Superfluous);
        }
        work(self)
    }

    // The first of its own arguments.
    fn first(self) -> usize {
        match self.status {
            Some(_) => 2,
            None => 1,
        }
    }

    // How many arguments of its own the program has.
    pub fn arguments(self) -> usize {
        let mut none = [0u8; 1];
        let first = self.first();
        for i in first..usize::MAX {
            if let Err(FillError::NotPresent) = self.rt.arg(i, &mut none) {
                return i - first;
            }
        }
        0
    }

    // Puts its first own argument at the start of the buffer, and answers its length, 0 where the buffer is shorter.
    pub fn argument(self, buffer: &mut [u8]) -> usize
        ensures { IsPrefixLen result buffer.new }
    {
        argument_at(self.rt, self.first(), buffer)
    }

    // The number that its first own argument spells.
    pub fn number(self) -> Result<u32, Stop>
        ensures { IfErr result (λ stop. stop ≡ Stop.Wrong) }
    {
        let mut word = [0u8; LONGEST];
        let len = self.argument(&mut word);
        text::number_of(&word[..len]).ok_or(Stop::Wrong)
    }

    // Its only argument is --help.
    #[inline(never)]
    fn asked_for_help(self) -> bool {
        let mut word = [0u8; WORD];
        let len = self.argument(&mut word);
        self.arguments() == 1 && &word[..len] == b"--help".as_slice()
    }

    // Prints how the program is called, what it does, and its statuses.
    fn help(self, about: About<'_>) -> Result<End, Stop> {
        let About { usage, help, .. } = about;
        written(write!(self.rt.stdout(), "{usage}\n\n{help}{STATUSES}"))?;
        Ok(End::Accepted)
    }

    // Reads a table from standard input. A byte after the most that a table has shows that the input is longer.
    pub fn read_table(self, buffer: &mut [u8; MOST_BYTES]) -> Result<usize, Stop>
        ensures { IfOk result (λ used. used ≤ MOST_BYTES) }
    {
        let mut stdin = self.rt.stdin();
        let used = read_whole(&mut stdin, buffer).map_err(Stop::Unread)?;
        if used == MOST_BYTES {
            let more = read_whole(&mut stdin, &mut [0u8; 1]).map_err(Stop::Unread)?;
            if 0 < more {
                return Err(Stop::TooLong);
            }
        }
        Ok(used)
    }

    // Writes the first bytes of a buffer to standard output, or all where it has fewer.
    pub fn write_first(self, count: usize, buffer: &[u8]) -> Result<(), Stop>
        ensures { IfErr result (λ stop. stop ≡ Stop.Unwritten) }
    {
        let bytes = buffer.get(..count).unwrap_or(buffer);
        written(Stream::Output.write(self.rt, bytes))
    }

    // Ends a line and writes it.
    pub fn put(self, stream: Stream, line: Line) -> Result<(), Stop>
        ensures { IfErr result (λ stop. stop ≡ Stop.Unwritten) }
    {
        written(stream.write(self.rt, line.word(b"\n").as_bytes()))
    }

    // Writes a line with a text to standard output.
    pub fn println<D: Display + Drop>(self, text: D) -> Result<(), Stop>
        ensures { IfErr result (λ stop. stop ≡ Stop.Unwritten) }
    {
        self.put(Stream::Output, line(text)?)
    }

    // Writes a line with a text to standard error.
    pub fn eprintln<D: Display + Drop>(self, text: D) -> Result<(), Stop>
        ensures { IfErr result (λ stop. stop ≡ Stop.Unwritten) }
    {
        self.put(Stream::Error, line(text)?)
    }

    // Says what keeps the program from its answer, and how it ends.
    fn say(self, about: About<'_>, stop: Stop) -> End {
        let About { usage, .. } = about;
        match stop {
            Stop::Missing => self.misused(about.missing, usage),
            Stop::Superfluous => self.misused(about.superfluous, usage),
            Stop::Wrong => self.misused(about.wrong, usage),
            Stop::Unread(error) => self.failed(format_args!(
                "standard input could not be read: {}",
                reason(error)
            )),
            Stop::ScriptUnread(error) => self.script_unread(error, usage),
            Stop::Unwritten => self.failed(UNWRITTEN),
            Stop::TooLong => self.refused(about.refusals, Line::empty().word(b"too long")),
            Stop::Refused(refusal) => self.refused(about.refusals, Line::empty().refused(refusal)),
        }
    }

    // Says what is wrong with the call, and how the program is called.
    fn misused(self, wrong: &str, usage: &str) -> End {
        self.failed(format_args!("{wrong}; call it as: {usage}"))
    }

    // Says that a table is refused, and why.
    fn refused(self, stream: Stream, why: Line) -> End {
        match self.put(stream, why) {
            Ok(()) => End::Refused,
            Err(_) => self.failed(UNWRITTEN),
        }
    }

    // Says on standard error what went wrong.
    pub fn failed<D: Display + Drop>(self, wrong: D) -> End
        ensures { result ≡ End.Failed }
    {
        let mut line = self.line();
        let _ = write!(line, "{wrong}");
        let _ = self.put(Stream::Error, line);
        End::Failed
    }

    // A line that begins with the program's name.
    fn line(self) -> Line {
        let name = self.name;
        name.word(b": ")
    }

    // Says why the script that the argument names could not be read, and how the program is called. In the path a question mark stands for a byte that
    // would end the line, or that a terminal would obey; each byte is written by itself, so that one that cannot be written keeps back no other. Not
    // inlined, so that no other program has room for a path on its stack.
    #[inline(never)]
    fn script_unread(self, error: io::Error, usage: &str) -> End {
        let mut word = [0u8; LONGEST];
        let len = self.argument(&mut word);
        let _ = Stream::Error.write(self.rt, self.line().word(b"the script ").as_bytes());
        for byte in &word[..len] {
            let shown = if byte.is_ascii_control() { b'?' } else { *byte };
            let _ = Stream::Error.write(self.rt, &[shown]);
        }
        let why = reason(error);
        let _ = self.eprintln(format_args!(" could not be read: {why}; call it as: {usage}"));
        End::Failed
    }

    // Writes the status where it was asked for: the program's last word.
    fn end(self, end: End) {
        let status = match end {
            End::Accepted => b"0",
            End::Refused => b"1",
            End::Failed => b"2",
        };
        if let Some(number) = self.status {
            let _ = writes::write_numbered(self.rt, number, status);
        }
    }
}
