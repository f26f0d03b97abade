//! What a command line asks for.
ghost use Rattle.std.specs.Prelude.{◌≡◌};

use thiserror::Error;

/// What the program is to do.
#[derive(Clone, Copy, Drop)]
pub enum Job {
    /// Run a set-up and compare its replies with what it expects.
    Check,
    /// Run a set-up and tell what each call of it changes.
    Trace,
    /// Run a set-up's clients in threads of their own.
    Threads,
    /// Write a set-up of format 1 in format 2.
    Migrate,
    /// Run a set-up and tell why its calls are refused.
    Why,
    /// Run a set-up and tell who reaches what, who can send to whom, and what a revoke would destroy.
    Audit,
    /// Run a set-up and tell what its threads can never get.
    Ever,
    /// Run a set-up and tell whether the part of one thread is kept from that of another.
    Never,
    /// Run a set-up and write a policy that its layout keeps.
    Draft,
    /// Run a set-up and write calls after which it has happened between two threads.
    How,
    /// Run a set-up and hold its layout to a policy.
    Policy,
    /// Run a set-up's clients in every order of their calls.
    Explore,
    /// Run a set-up and tell what is derived from what.
    Tree,
    /// Write a set-up to start from.
    New,
    /// Run a set-up and tell which of its expectations are met, and no reply.
    Marks,
    /// Run a set-up and write it again with the reply to each call as what the call expects.
    Record,
    /// Write a set-up of a layout.
    Import,
}

/// What the options of a command line give; `None` where an option is not there.
#[derive(Clone, Copy, Default, Drop)]
pub struct Options<'a> {
    /// Whether `--strict` is there: of `check`, a call that is refused and of which nothing is expected counts as not met; of `import`, a
    /// layout is refused if what may carry authority is left out of it or assumed.
    pub strict: bool,
    /// Whether `--quiet` of `check` is there: of one file is told what is told of each of several.
    pub quiet: bool,
    /// `--call` of `why`: the call that is told of, from 1.
    pub call: Option<u64>,
    /// `--after` of `tree`, the audits and what tells of all calls to come: how many calls are made.
    pub after: Option<u64>,
    /// `--slot` of `audit`: a slot, by its address or by a name.
    pub slot: Option<&'a str>,
    /// FROM,TO of `never` and `how`: two threads, with a comma between them.
    pub from_to: Option<&'a str>,
    /// `--how` of `policy`: the number of a breach, from 1. Calls are asked for by which it happens.
    pub breach: Option<u64>,
    /// Whether `--message`, `--hold` and `--loss` of `how` are there: what is to happen.
    pub message: bool,
    pub hold: bool,
    pub loss: bool,
    /// `--badge` of `how`: the badge of the message.
    pub badge: Option<u64>,
    /// `--by` of `never` and `how`: the endpoints by which the parts may have to do with each other, with commas between them.
    pub by: Option<&'a str>,
    /// `--without` of `audit`, `ever`, `never`, `draft` and `how`: the threads that are trusted to make no more calls, with commas
    /// between them.
    pub without: Option<&'a str>,
    /// `--messages` of `ever`, `never` and `draft`: the threads that are trusted to go on to send and receive, and to do nothing
    /// else, with commas between them.
    pub messages: Option<&'a str>,
    /// POLICY of `policy`: the name of a file, to whose policy the layout is held.
    pub policy: Option<&'a str>,
    /// Whether `--names` is there: objects are told by their names, in place of their addresses.
    pub names: bool,
    /// `--first` of `explore` and `threads`: how many calls are made before the clients begin.
    pub first: Option<u64>,
    /// `--states` of `explore`: the most states that are kept; of `how` and `policy`: the most copies of the kernel that are tried.
    pub states: Option<u64>,
    /// `--witness` of `explore`: the order whose set-up is written, by the report's name of what it tells.
    pub witness: Option<&'a str>,
    /// Whether `--ends` of `explore` is there: clients that share nothing are explored group by group.
    pub ends: bool,
    /// Whether `--ways` of `trace` is there: of each call is told the way of each of its words, in bits.
    pub ways: bool,
    /// Whether `--dot` of `tree` is there: a graph is asked for.
    pub dot: bool,
    /// `--profile` of `new`: the machine.
    pub profile: Option<&'a str>,
    /// `--threads` of `new`: how many threads a boot makes.
    pub threads: Option<u64>,
    /// `--endpoints` of `new`: how many endpoints a boot makes.
    pub endpoints: Option<u64>,
    /// `--untyped` of `new`: the base and the bits of each untyped region, with a colon between them, and commas between the
    /// regions.
    pub untyped: Option<&'a str>,
    /// `--shrink` of `import`: the bits to which larger untyped regions that cover nothing are cut.
    pub shrink: Option<u64>,
    /// Whether `--listing` of `import` or of `policy` is there: what was read of the layout, or of the policy, is asked for.
    pub listing: bool,
    /// Whether `--cdl` of `import` is there: the capDL text is asked for that the layout becomes.
    pub cdl: bool,
    /// `--of` of `marks`: the name of a file, whose set-up has the questions.
    pub of: Option<&'a str>,
    /// Whether `--flows` of `import` is there: each object that a kernel here lacks counts.
    pub flows: bool,
    /// Whether `--plain` of `import` is there: such objects do not count in a `.system` file.
    pub plain: bool,
    /// `--rights` of `import`: `all` or `least`.
    pub rights: Option<&'a str>,
}

/// A command line that was taken: what to do, by which options, and with which file or files; without a file, with standard
/// input.
#[derive(Drop)]
pub struct Line<'a> {
    /// Whether a command is named.
    pub names_command: bool,
    /// What to do: what the command says, and where none is named, a check.
    pub job: Job,
    /// What the options say.
    pub options: Options<'a>,
    /// The file's name; the first one's, where there are several.
    pub file: Option<&'a str>,
    /// The names of all files that are to be checked or marked, where there is more than one or `--of` is there; else nothing.
    pub several: Vec<&'a str>,
}

/// Why a command line is not taken.
#[derive(Debug, Drop, Error)]
pub enum LineFault {
    /// It asks for help, or for the version, whose text this is.
    #[error("{0}")]
    Help(String),
    /// It is none that the program takes.
    #[error("command line refused")]
    Refused,
    /// Words of it do not go together; the text says which.
    #[error("command line refused")]
    Conflict(&'static str),
    /// Memory ran out.
    #[error("out of memory")]
    Memory,
}

impl Options<'_> {
    ghost use Rattle.command_line.specs.CommandLine.{takes_least as takes_least_definition};

    /// Whether `--rights least` is there.
    pub fn takes_least(&self) -> bool
        ensures { result ≡ takes_least_definition self.now }
    {
        match self.rights {
            Some(rights) => rights == "least",
            None => false,
        }
    }
}

impl LineFault {
    ghost use Rattle.command_line.specs.Statuses.{line_status};

    /// The program's exit status after this fault: 0 after help, 4 after a refusal or a conflict, 3 where memory ran out.
    pub fn status(&self) -> u8
        ensures { result ≡ line_status self.now }
    {
        match self {
            LineFault::Help(_) => 0,
            LineFault::Refused => 4,
            LineFault::Conflict(_) => 4,
            LineFault::Memory => 3,
        }
    }
}

impl Job {
    ghost use Rattle.command_line.specs.CommandLine.{job_named};

    /// The job that a subcommand's name stands for.
    pub(crate) fn named(name: &str) -> Option<Job>
        ensures { result ≡ job_named name.now }
    {
        if name == "check" {
            Some(Job::Check)
        } else if name == "trace" {
            Some(Job::Trace)
        } else if name == "threads" {
            Some(Job::Threads)
        } else if name == "migrate" {
            Some(Job::Migrate)
        } else if name == "why" {
            Some(Job::Why)
        } else if name == "audit" {
            Some(Job::Audit)
        } else if name == "ever" {
            Some(Job::Ever)
        } else if name == "never" {
            Some(Job::Never)
        } else if name == "draft" {
            Some(Job::Draft)
        } else if name == "how" {
            Some(Job::How)
        } else if name == "policy" {
            Some(Job::Policy)
        } else if name == "explore" {
            Some(Job::Explore)
        } else if name == "tree" {
            Some(Job::Tree)
        } else if name == "new" {
            Some(Job::New)
        } else if name == "marks" {
            Some(Job::Marks)
        } else if name == "record" {
            Some(Job::Record)
        } else if name == "import" {
            Some(Job::Import)
        } else {
            None
        }
    }
}
