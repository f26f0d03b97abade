//! The checks of a send and of a receive.
#![tactic(auto, using(crate::proofs::Answering::answering_then))]

ghost use Rattle.std.specs.Prelude.{◌≡◌};
ghost use Rattle.kernel_abstract.specs.Reasons.{answering};
ghost use Rattle.kernel_abstract.specs.Decode.{right_bit, service_in as service_of, checked_send, checked_receive};

use crate::failure::Failure;
use bitflags::Flags;
use cap_core::{Cap, Kind, Message, Rights};
use kernel_abstract::invocation::{Invocation, Service};
use kernel_abstract::reason::{Held, Reason, Right};

#[inline(always)]
pub fn check_send<F: Failure>(held: Held, message: Message, block: bool) -> Result<Invocation, F>
    ensures { result ≡ answering F.of (checked_send held.slot held.cap message block) }
{
    let service = service_in::<F>(held, Right::Write)?;
    Ok(Invocation::Send {
        service,
        message,
        block,
    })
}

#[inline(always)]
pub fn check_receive<F: Failure>(held: Held, block: bool) -> Result<Invocation, F>
    ensures { result ≡ answering F.of (checked_receive held.slot held.cap block) }
{
    let service = service_in::<F>(held, Right::Read)?;
    Ok(Invocation::Receive { service, block })
}

#[inline(always)]
fn bits(right: Right) -> Rights
    ensures { result.0 ≡ right_bit right }
{
    match right {
        Right::Write => Rights::WRITE,
        Right::Read => Rights::READ,
    }
}

/// What a send or a receive may use of the invoked capability: an endpoint, with the right that it needs.
#[inline(always)]
fn service_in<F: Failure>(held: Held, needed: Right) -> Result<Service, F>
    ensures { result ≡ answering F.of (service_of needed held.slot held.cap) }
{
    let wanted = Kind::Endpoint;
    match held.cap {
        Cap::Null => {
            let slot = held.slot;
            Err(F::because(Reason::NoCapability { slot, wanted }))
        }
        Cap::Endpoint {
            base,
            badge,
            rights,
        } => {
            if rights.contains(bits(needed)) {
                Ok(Service {
                    endpoint: base,
                    badge,
                })
            } else {
                Err(F::because(Reason::NoRight {
                    found: held,
                    needed,
                }))
            }
        }
        _ => Err(F::because(Reason::OtherKind {
            found: held,
            wanted,
        })),
    }
}
