//! The commands, and the options of each.
use Files::{AfterPolicy, AfterThreads, One, Several, Zero};
use Takes::{Nothing, Number, Text};

/// What stands behind an option's name.
#[derive(Clone, Copy)]
pub enum Takes {
    Nothing,
    /// A number, which the help calls N.
    Number,
    /// A text, which the help calls by this.
    Text(&'static str),
}

/// An option: its long name, what stands behind that, and what the help says.
#[derive(Clone, Copy)]
pub struct OptionRow(pub &'static str, pub Takes, pub &'static str);

/// What a command takes by its place on the line: files, and what stands before them.
#[derive(Clone, Copy)]
pub enum Files {
    Zero,
    One,
    Several,
    /// FROM,TO, and then one.
    AfterThreads,
    /// POLICY, and then one.
    AfterPolicy,
}

/// A command: its name, its files, what the help says, and its options in the order of the help.
#[derive(Clone, Copy)]
pub struct CommandRow {
    pub name: &'static str,
    pub files: Files,
    pub about: &'static str,
    pub options: &'static [OptionRow],
}

/// Options of several commands.
#[rattlefmt::skip]
const NAMES: OptionRow = OptionRow("names", Nothing, "Show names instead of addresses");

#[rattlefmt::skip]
const FIRST: OptionRow = OptionRow("first", Number, "Make the first N calls before the clients begin [default: 0]");

#[rattlefmt::skip]
const AFTER: OptionRow = OptionRow("after", Number, "Make only the first N calls");

#[rattlefmt::skip]
const WITHOUT: OptionRow = OptionRow("without", Text("WHO"), "Trust these threads, with commas between them, to make no more calls");

#[rattlefmt::skip]
const MESSAGES: OptionRow = OptionRow("messages", Text("WHO"), "Trust these threads to go on to send and receive, and to do nothing else");

#[rattlefmt::skip]
const BY: OptionRow = OptionRow("by", Text("E"), "Allow these endpoints, with commas between them");

/// The commands, in the order of the help.
#[rattlefmt::skip]
pub const COMMANDS: [CommandRow; 17] = [
    CommandRow { name: "check", files: Several, about: "Run a set-up and print its report", options: &[
        OptionRow("strict", Nothing, "End with status 1 also if a call is refused and has no expectation"),
        OptionRow("quiet", Nothing, "Print one line and a summary, also of one file"),
        NAMES,
    ] },
    CommandRow { name: "marks", files: Several, about: "Run a set-up and print which of its expectations are met, and no reply", options: &[
        OptionRow("of", Text("EXERCISE"), "Mark the files by the questions of this one, and print a table"),
    ] },
    CommandRow { name: "record", files: One, about: "Run a set-up and print it with the reply to each call as what the call expects", options: &[] },
    CommandRow { name: "trace", files: One, about: "Run a set-up and print what each of its calls changed", options: &[
        OptionRow("ways", Nothing, "Show the way of each word of a call in bits"),
        NAMES,
    ] },
    CommandRow { name: "migrate", files: One, about: "Print a set-up of format 1 as one of format 2", options: &[] },
    CommandRow { name: "threads", files: One, about: "Run each client of a set-up in a thread of its own and print what was done, in order", options: &[FIRST, NAMES] },
    CommandRow { name: "why", files: One, about: "Run a set-up and print why its calls are refused", options: &[
        OptionRow("call", Number, "Show only call N"),
        NAMES,
    ] },
    CommandRow { name: "audit", files: One, about: "Run a set-up and print who reaches what, who can send to whom, and what a revoke would destroy", options: &[
        AFTER,
        OptionRow("slot", Text("S"), "Show what a revoke of slot S, an address or a name, would change"),
        WITHOUT,
        NAMES,
    ] },
    CommandRow { name: "ever", files: One, about: "Run a set-up and print what its threads can never get, whatever they call", options: &[
        AFTER,
        WITHOUT,
        MESSAGES,
        NAMES,
    ] },
    CommandRow { name: "never", files: AfterThreads, about: "Run a set-up and print whether FROM's part can never get what TO's part has, nor send to it", options: &[
        AFTER,
        WITHOUT,
        MESSAGES,
        BY,
        NAMES,
    ] },
    CommandRow { name: "draft", files: One, about: "Run a set-up and print a policy that its layout keeps", options: &[
        AFTER,
        WITHOUT,
        MESSAGES,
    ] },
    CommandRow { name: "how", files: AfterThreads, about: "Run a set-up and print calls after which it has happened from FROM to TO, as a set-up", options: &[
        AFTER,
        WITHOUT,
        BY,
        OptionRow("message", Nothing, "Have a message of FROM's delivered to TO [the default]"),
        OptionRow("hold", Nothing, "Have FROM get a word for TO's control block"),
        OptionRow("loss", Nothing, "Have a delete or a revoke of FROM's take something of TO's"),
        OptionRow("badge", Number, "Have a message with badge N delivered, 0 for none"),
        OptionRow("states", Number, "Try at most N copies of the kernel [default: 2000]"),
    ] },
    CommandRow { name: "policy", files: AfterPolicy, about: "Run a set-up and print whether its layout keeps to a policy, whatever its threads call", options: &[
        AFTER,
        OptionRow("listing", Nothing, "Print only what was read of the policy"),
        OptionRow("how", Number, "Print calls by which breach N happens, as a set-up"),
        OptionRow("states", Number, "With --how: try at most N copies of the kernel [default: 2000]"),
    ] },
    CommandRow { name: "explore", files: One, about: "Run the clients of a set-up in every order of their calls and print what can happen", options: &[
        FIRST,
        OptionRow("states", Number, "Keep at most N states [default: 100000]"),
        OptionRow("witness", Text("WHICH"), "Print the set-up of one order: I.J of answer J of call I, or stuck.J"),
        OptionRow("ends", Nothing, "Explore clients separately if they share no thread and no endpoint"),
        NAMES,
    ] },
    CommandRow { name: "tree", files: One, about: "Run a set-up and print each slot below the one that it is derived from", options: &[
        AFTER,
        OptionRow("dot", Nothing, "Print a graph in Graphviz's language DOT"),
        NAMES,
    ] },
    CommandRow { name: "new", files: Zero, about: "Print a set-up to start from, with names for all that it has", options: &[
        OptionRow("profile", Text("PROFILE"), "Make it for this machine, wide or narrow [default: wide]"),
        OptionRow("threads", Number, "Make N threads [default: 2]"),
        OptionRow("endpoints", Number, "Make N endpoints [default: 1]"),
        OptionRow("untyped", Text("BASE:BITS"), "Make these untyped regions, with commas between them"),
    ] },
    CommandRow { name: "import", files: One, about: "Read a layout as capDL text or a .system file and print a set-up whose calls make it", options: &[
        OptionRow("shrink", Number, "Cut untyped regions that cover nothing to N bits"),
        OptionRow("listing", Nothing, "Print only what was read of the layout"),
        OptionRow("cdl", Nothing, "Print the capDL text that the layout becomes"),
        OptionRow("flows", Nothing, "Model shared memory, signals, replies and Grant too [the default of a .system file]"),
        OptionRow("plain", Nothing, "Leave out of a .system file what a set-up lacks"),
        OptionRow("rights", Text("RIGHTS"), "Take these if a .system file says no rights: all or least [default: all]"),
        OptionRow("strict", Nothing, "Refuse a layout if what may carry authority is left out of it or assumed"),
    ] },
];
