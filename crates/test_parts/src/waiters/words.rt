//! What a waiting thread and a role say, and the laws, called once each.
use crate::waiters::steps::message;
use cap_core::Badge;
use ipc_core::{Role, Waiter, law};
use std::test::Fail;

#[test]
fn waiters_have_their_thread_and_role(rt: HostRuntime) -> Result<(), Fail> {
    let sender = Waiter::Sender {
        thread: 2048,
        badge: Badge(5),
        message: message(1),
    };
    let receiver = Waiter::Receiver { thread: 4096 };
    for (waiter, thread, role, badge, named) in [
        (sender, 2048, Role::Sending(64), 5, true),
        (sender, 2048, Role::Sending(64), 0, false),
        (receiver, 4096, Role::Receiving(64), 5, false),
    ] {
        assert!(rt; waiter.thread() == thread && waiter.role_at(64) == role);
        assert!(rt; waiter.is_sender_with(Badge(badge)) == named && role.endpoint() == 64);
    }
    law::each_pair_is_delivered_once();
    law::pairs_go_on_standing();
    law::emptied_endpoint_starts_anew();
    Ok(())
}
