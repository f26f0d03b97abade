//! The test: each case shares a kernel under a name of its own, over the linked forms and over rows.
ghost use Rattle.std.specs.Prelude.{◌≡◌, ◌<◌};
ghost use Rattle.cap_core.specs.declared.profile.ProfileName.TheVariants as Name;
ghost use Rattle.kernel_abstract.specs.Plan.{IsPlan};
ghost use Rattle.kernel_abstract.specs.Boot.{boot};
ghost use Rattle.kernel_abstract.specs.State.{shown};

use crate::crowd::{Crowd, EIGHT_AT_ONCE, ONE_FINDS_IT_FULL, SECOND_FIRST, crowd_comes_out};
use crate::looks::{ONE_CALL, Script, TWO_CLIENTS, follow_and_settle, one_client_missing};
use crate::observed::calls_under_looks;
use crate::setup::{begin, plan};
use cap_core::Wide;
use ipc_core::{LinkedWaiters, MakeWaiters, RowWaiters};
use kernel_core::BootPlan;
use kernel_shared::{Naming, StartFault};
use slot_core::{LinkedStore, MakeStore, RowStore};
use std::alloc::Global;
use std::marker::Brand;
use std::sync::Wait;
use std::sync::ledger::Blank;
use std::test::Fail;
use std::thread::Threads;

/// What is played with the shared kernel.
#[derive(Clone, Copy)]
enum Case {
    Followed(Script),
    OneClientMissing,
    Driven(Crowd),
    UnderLooks,
}

/// How many steps of a case came out as they should.
fn play<
    N: Naming + Send + Sync,
    S: MakeStore<Wide> + Send + Sync,
    W: MakeWaiters<Wide> + Send + Sync,
    R: Threads + Wait + Sync,
>(
    rt: &R,
    alloc: Global,
    blank: Blank,
    plan: &BootPlan,
    clients: u32,
    limit: u32,
    case: Case,
) -> Result<usize, StartFault>
    requires name { blank.name ≡ N.name }
    requires parts { (blank.parts ≡ N.parts) × (blank.parts ≡ clients) }
    requires plan { IsPlan Name.Wide plan.now }
    requires profile { N.profile ≡ Name.Wide }
    requires start { N.start ≡ boot Name.Wide plan.now }
    requires opening { N.opening ≡ shown (boot Name.Wide plan.now) }
    requires limit { N.limit ≡ limit }
{
    let (shared, all) = begin::<N, S, W, R>(rt, alloc, blank, plan, clients, limit)?;
    Ok(match case {
        Case::Followed(script) => follow_and_settle(rt, shared, all, script),
        Case::OneClientMissing => one_client_missing(rt, shared, all) as usize,
        Case::Driven(crowd) => crowd_comes_out(rt, alloc, shared, all, crowd) as usize,
        Case::UnderLooks => calls_under_looks(rt, alloc, plan, shared, all) as usize,
    })
}

/// How many steps of a case came out as they should, over a pair of stores.
fn play_over<
    S: MakeStore<Wide> + Send + Sync,
    W: MakeWaiters<Wide> + Send + Sync,
    R: Threads + Wait + Sync,
>(
    rt: &R,
    alloc: Global,
    plan: &BootPlan,
    clients: u32,
    limit: u32,
    case: Case,
) -> Result<usize, StartFault>
    requires { IsPlan Name.Wide plan.now }
{
    let blank = Blank::new(u64::from(clients));
    play::<Brand, S, W, R>(rt, alloc, blank, plan, clients, limit, case)
}

/// The cases, each with its name, so many clients, a limit, and how many of its steps come out.
const CASES: [(&str, Case, u32, u32, usize); 7] = [
    ("one call", Case::Followed(ONE_CALL), 1, 1, 6),
    ("two clients", Case::Followed(TWO_CLIENTS), 2, 4, 14),
    ("one client missing", Case::OneClientMissing, 2, 4, 1),
    ("second first", Case::Driven(SECOND_FIRST), 2, 2, 1),
    ("eight at once", Case::Driven(EIGHT_AT_ONCE), 8, 16, 1),
    (
        "one finds it full",
        Case::Driven(ONE_FINDS_IT_FULL),
        2,
        3,
        1,
    ),
    ("under looks", Case::UnderLooks, 10, 8000, 1),
];

/// Whether a case comes out with so many steps over a pair of stores.
fn comes_out<
    S: MakeStore<Wide> + Send + Sync,
    W: MakeWaiters<Wide> + Send + Sync,
    R: Threads + Wait + Sync,
>(
    rt: &R,
    alloc: Global,
    plan: &BootPlan,
    case: Case,
    clients: u32,
    limit: u32,
    steps: usize,
) -> bool
    requires { IsPlan Name.Wide plan.now }
{
    matches!(play_over::<S, W, R>(rt, alloc, plan, clients, limit, case), Ok(right) if right == steps)
}

/// Each case comes out with so many steps, over the linked forms and over rows.
#[test]
fn cases_come_out(rt: HostRuntime) -> Result<(), Fail> {
    let plan = plan(&rt, rt.alloc())?;
    for place in 0..CASES.len() {
        let (name, case, clients, limit, steps) = CASES[place];
        let is_over_links = comes_out::<LinkedStore<Wide>, LinkedWaiters<Wide>, _>(
            &rt,
            rt.alloc(),
            &plan,
            case,
            clients,
            limit,
            steps,
        );
        assert!(rt; is_over_links, "{name}, linked");
        let is_over_rows = comes_out::<RowStore<Wide>, RowWaiters<Wide>, _>(
            &rt,
            rt.alloc(),
            &plan,
            case,
            clients,
            limit,
            steps,
        );
        assert!(rt; is_over_rows, "{name}, rows");
    }
    Ok(())
}
