//! A law of the names in the text, over the definitions alone. Nothing is done.
ghost use Rattle.std.specs.Prelude.{◌≡◌, ℕ, Ok, Some, slice_get};
ghost use Rattle.toml.specs.Data.{Members};
ghost use Rattle.setup_format.specs.Setups.{read_of};
ghost use Rattle.setup_format.specs.Views.{CallView, ReadView};
ghost use Rattle.command_why.specs.Tables.{call_table};
ghost use Rattle.command_why.specs.Meanings.{MeanTheirWords};

/// Of a set-up that is read, each name that the text has beside a value of a call is one of the set-up's names, and stands
/// for that value: so of the thread, and of each key.
pub fn names_mean_the_values_beside_them()
    ensures { (table : Members) (read : ReadView) (i : ℕ) (call : CallView)
        → read_of table ≡ Ok read → slice_get read.setup.calls i ≡ Some call
        → MeanTheirWords read.names (call_table table i) call.call }
{}
