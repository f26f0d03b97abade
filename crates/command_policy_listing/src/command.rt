//! What a policy means in a set-up, as the answer of a command.
ghost use Rattle.std.specs.Prelude.{◌≡◌, IfOk};

use crate::listing::listing_text;
use cap_core::Profile;
use command_check::Command;
use command_core::{Answer, Verdict};
use command_policy::{HeldTo, Judging};
use ipc_core::{MakeWaiters, SaveWaiters};
use setup_format::ReadSetup;
use slot_core::{DerivationStore, MakeStore, SaveStore};
use std::alloc::{AllocError, Global};

/// What was read of a policy, which is given by its bytes; so many calls are made, where the command line says so.
#[derive(Clone, Copy, Drop)]
pub struct Listing<'a> {
    pub policy: &'a [u8],
    pub after: Option<u64>,
}

impl Command for Listing<'_> {
    ghost use Rattle.command_policy_listing.specs.Listed.{IsPolicyListing};

    ghost answers = { λ listing. IsPolicyListing listing.policy.now listing.after };

    fn answer<P: Profile, S: SaveStore<P> + DerivationStore<P>, W: SaveWaiters<P>>(
        &self,
        alloc: Global,
        read: &ReadSetup,
    ) -> Result<Answer, AllocError> {
        let held = HeldTo {
            policy: self.policy,
            after: self.after,
        };
        match held.judged::<P, S, W>(alloc, read)? {
            Judging::Answered(answer) => Ok(answer),
            Judging::Done { judged, made, .. } => {
                let text = listing_text(alloc, judged.held(), &read.setup, made)?;
                Ok(Answer::new(alloc, text, Verdict::AllMet))
            }
        }
    }
}
