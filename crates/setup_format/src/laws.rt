//! A law of reading. Nothing is done.
ghost use Rattle.std.specs.Prelude.{ℕ, List};
ghost use Rattle.setup_format.specs.Laws.{ReadsItsSetup};

/// What a text is read as, with its table and its names, is the set-up that it is read as, and is refused if that is, for the
/// same fault. So the names of a set-up that is accepted are always read.
pub fn what_is_read_is_the_set_up()
    ensures { (bytes : List ℕ) → ReadsItsSetup bytes }
{}
