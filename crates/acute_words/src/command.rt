// The commands.

/// Where frames are read from, or written to.
#[derive(Clone, Copy)]
pub enum Channel<'a> {
    /// Standard input, or standard output.
    Standard,
    /// The file of a name.
    File(&'a str),
}

/// The files of a program.
#[derive(Clone, Copy)]
pub struct Program<'a> {
    /// The program's file.
    pub file: &'a str,
    /// The file of the list of its shelf, if it has one.
    pub shelf: Option<&'a str>,
}

/// Loads a program and runs it.
#[derive(Clone, Copy)]
pub struct Run<'a> {
    /// The program.
    pub program: Program<'a>,
    /// How many applications the run may make.
    pub steps: u64,
    /// Where it receives from, if it has an input.
    pub input: Option<Channel<'a>>,
    /// Where it sends to, if it has a channel.
    pub output: Option<Channel<'a>>,
}

/// Makes a program.
#[derive(Clone, Copy)]
pub struct Make {
    /// The seed of the numbers that are drawn for it.
    pub seed: u64,
    /// How many modules it has, from 1 to `MOST_MODULES`.
    pub modules: u32,
    /// Whether it is run, in place of printed.
    pub runs: bool,
}

/// Loads programs, each by itself, and says whether they are accepted.
#[derive(Drop)]
pub struct Check<'a> {
    /// The programs' files, of which there is at least one and at most `MOST_CHECKED`.
    pub files: Vec<&'a str>,
    /// The file of the list of their shelf, if they have one.
    pub shelf: Option<&'a str>,
}

/// Loads programs and runs them one after the other; each reads what the one before it sent.
#[derive(Drop)]
pub struct Chain<'a> {
    /// The programs' files, of which there is at least one and at most `MOST_CHAINED`.
    pub files: Vec<&'a str>,
    /// The file of the list of their shelf, if they have one.
    pub shelf: Option<&'a str>,
    /// How many applications each of them may make.
    pub steps: u64,
}

/// Loads a program and says of each frame of a channel whether it would take it at a type.
#[derive(Clone, Copy)]
pub struct Audit<'a> {
    /// The program.
    pub program: Program<'a>,
    /// The channel's file.
    pub channel: &'a str,
    /// The text of the type.
    pub ty: &'a str,
}

/// Starts a tool as the sender of a program, and runs another program on what it sends.
#[derive(Clone, Copy)]
pub struct Pipe<'a> {
    /// The file of the tool.
    pub tool: &'a str,
    /// The file of the program that it is to run.
    pub sender: &'a str,
    /// The program that receives what that sends.
    pub receiver: Program<'a>,
    /// How many applications the receiver may make.
    pub steps: u64,
    /// The number of applications as it was written, if it was.
    pub written: Option<&'a str>,
}

/// What the words of a command line ask for.
#[derive(Drop)]
pub enum Command<'a> {
    /// To run a program.
    Run(Run<'a>),
    /// To print the names of a program's definitions.
    Names(Program<'a>),
    /// To print a program's code.
    Code(Program<'a>),
    /// To make a program, and to print it or to run it.
    Make(Make),
    /// To check programs.
    Check(Check<'a>),
    /// To run programs in a chain.
    Chain(Chain<'a>),
    /// To say which frames of a channel a program would take.
    Audit(Audit<'a>),
    /// To start a sender, and to run a program on what it sends.
    Pipe(Pipe<'a>),
}
