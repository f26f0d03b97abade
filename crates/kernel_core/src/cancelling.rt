//! Threads that wait no more: suspended, resumed, or with their sends cancelled.
ghost use Rattle.std.specs.Prelude.{◌≡◌};
ghost use Rattle.kernel_abstract.specs.declared.call.Reply.TheVariants.{Done};
ghost use Rattle.kernel_abstract.specs.Private.Effects.{IsLiveEndpoint};
ghost use Rattle.kernel_abstract.specs.Private.Endings.{after_suspend, after_resume, after_cancel_badge};
ghost use Rattle.kernel_abstract.specs.Private.Invocations.{IsLiveThread};

use crate::kernel::Kernel;
use cap_core::{Badge, Profile};
use ipc_core::Waiters;
use kernel_abstract::call::Reply;
use kernel_abstract::invocation::Service;
use slot_core::CapStore;

impl<P: Profile, S: CapStore<P>, W: Waiters<P>> Kernel<P, S, W> {
    /// Suspends a thread: it waits no more, and is inactive.
    pub(crate) fn suspend(&mut self, thread: u64) -> Reply
        requires { IsLiveThread self.old.derivations thread }
        ensures reply { result ≡ Done }
        ensures after { self.new ≡ after_suspend self.old thread }
    {
        self.threads.stop(thread, true);
        Reply::Done
    }

    /// Resumes a thread: it waits no more, and is ready.
    pub(crate) fn resume(&mut self, thread: u64) -> Reply
        requires { IsLiveThread self.old.derivations thread }
        ensures reply { result ≡ Done }
        ensures after { self.new ≡ after_resume self.old thread }
    {
        self.threads.stop(thread, false);
        Reply::Done
    }

    /// Cancels the sends that wait on an endpoint with a badge. The badge 0 names none.
    pub(crate) fn cancel_badged(&mut self, service: Service) -> Reply
        requires { IsLiveEndpoint self.old service.endpoint }
        ensures reply { result ≡ Done }
        ensures after { self.new ≡ after_cancel_badge self.old service.endpoint service.badge }
    {
        let Service { endpoint, badge } = service;
        if badge != Badge(0) {
            self.threads.waiters.cancel_badge(endpoint, badge);
        }
        Reply::Done
    }
}
