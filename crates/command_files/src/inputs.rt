//! The inputs that a command line can name.
ghost use Rattle.std.specs.Prelude.{◌≡◌, ℕ, List, false, IfOk, IfErr};

use command_check::CountedText;
use command_core::Source;

/// Where the bytes of a set-up can come from: standard input, and files by their names.
pub trait Inputs {
    /// Standard input.
    type Standard: Source + Drop;

    /// A file.
    type File: Source + Drop;

    /// Why a file could not be opened.
    type Fault: Drop;

    /// It is standard input, of which nothing was read yet.
    ghost is_standard: { Self → Self.Standard → Type 0 };

    /// It is the file of that name, of which nothing was read yet.
    ghost is_file: { Self → List ℕ → Self.File → Type 0 };

    /// It is why the file of that name could not be opened.
    ghost is_fault: { Self → List ℕ → Self.Fault → Type 0 };

    /// Standard input.
    fn standard(&self) -> Self::Standard
        ensures standard { is_standard self.now result }
        ensures unfailed { Self.Standard.failed result ≡ false };

    /// Opens the file of that name.
    fn open(&self, name: &str) -> Result<Self::File, Self::Fault>
        ensures file { IfOk result (is_file self.now name.now) }
        ensures unfailed { IfOk result (λ file. Self.File.failed file ≡ false) }
        ensures fault { IfErr result (is_fault self.now name.now) };
}

/// The input with which a job was done.
#[derive(Drop)]
pub enum Used<S, F, E> {
    /// Standard input.
    Standard(S),
    /// The file that the line names.
    File(F),
    /// None, since the file that the line names could not be opened.
    Unopened(E),
    /// None, since the job reads nothing.
    Nothing,
}

/// Who hears of each file, when it was checked or could not be read.
pub trait Listener<S, F, E> {
    /// Hears of the file of that name: from what it was read, and the text that `check` writes for it, with the count of its
    /// expectations; no text if it could not be read.
    fn hear(&self, name: &str, input: &Used<S, F, E>, found: Option<&CountedText>);
}
