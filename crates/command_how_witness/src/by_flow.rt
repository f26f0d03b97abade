//! What flows exclude of a witness.
ghost use Rattle.std.specs.Prelude.{◌≡◌, true, false, IfOk};
ghost use Rattle.query_flow.specs.Excluded.{is_number_listed};
ghost use Rattle.command_how_witness.specs.Witness.{asking_of};
ghost use Rattle.command_how_witness.specs.Excluded.{IsOutsideFlow};

use crate::asked::{Asked, Happening};
use cap_core::Profile;
use command_parts::is_in;
use ipc_core::MakeWaiters;
use kernel_core::Kernel;
use query_flow::{changes_none, names_none, passes_none};
use slot_core::{DerivationStore, MakeStore};
use std::alloc::{AllocError, Global};

fn is_free(trusted: &[u64], thread: u64) -> bool
    ensures { result ≡ true → is_number_listed trusted.now thread ≡ false }
{
    !is_in(trusted, thread)
}

/// Whether flows say that it can't happen from the state of a kernel, whatever parts there are.
pub fn is_excluded_by_flow<P: Profile, S: MakeStore<P> + DerivationStore<P>, W: MakeWaiters<P>>(
    alloc: Global,
    kernel: &Kernel<P, S, W>,
    asked: &Asked<'_>,
) -> Result<bool, AllocError>
    ensures { IfOk result (λ is. is ≡ true → IsOutsideFlow P.profile (asking_of asked.now) kernel.now asked.now.what) }
{
    let (without, from, to) = (asked.without, asked.from, asked.to);
    match asked.what {
        Happening::Message => {
            let is = passes_none::<P, S, W>(alloc, kernel, without, asked.by, from, to)?;
            Ok(is)
        }
        Happening::Hold => {
            let is = names_none::<P, S, W>(alloc, kernel, without, from, to)?;
            Ok(is)
        }
        Happening::Loss => {
            let is = changes_none::<P, S, W>(alloc, kernel, without, from)?;
            Ok(is && is_free(without, to))
        }
    }
}
