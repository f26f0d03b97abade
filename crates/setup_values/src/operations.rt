//! The operations that a call may name: how each is spelt, and which keys its call has.
ghost use Rattle.std.specs.Prelude.{◌≡◌, map, find, option_copied};
ghost use Rattle.std.specs.Str.{bytes_eq};
ghost use Rattle.setup_values.specs.Operations as spec;

/// The name of an operation.
#[derive(Clone, Copy)]
pub enum OpName {
    Retype,
    CapCopy,
    CapMint,
    CapMove,
    CapMutate,
    CapDelete,
    CapRevoke,
    CancelBadged,
    Send,
    NbSend,
    Recv,
    NbRecv,
    SetSpace,
    Suspend,
    Resume,
}

impl OpName {
    /// Every operation, in the order in which a message lists them.
    pub const ALL: [OpName; 15] = [
        OpName::Send,
        OpName::NbSend,
        OpName::Recv,
        OpName::NbRecv,
        OpName::Retype,
        OpName::CapCopy,
        OpName::CapMint,
        OpName::CapMove,
        OpName::CapMutate,
        OpName::CapDelete,
        OpName::CapRevoke,
        OpName::CancelBadged,
        OpName::SetSpace,
        OpName::Suspend,
        OpName::Resume,
    ];

    /// The text that names it in a set-up, a report and a trace.
    pub fn text(self) -> &'static str
        ensures { result.now ≡ spec.op_text self }
    {
        match self {
            OpName::Retype => "retype",
            OpName::CapCopy => "copy",
            OpName::CapMint => "mint",
            OpName::CapMove => "move",
            OpName::CapMutate => "mutate",
            OpName::CapDelete => "delete",
            OpName::CapRevoke => "revoke",
            OpName::CancelBadged => "cancel_badged",
            OpName::Send => "send",
            OpName::NbSend => "nbsend",
            OpName::Recv => "recv",
            OpName::NbRecv => "nbrecv",
            OpName::SetSpace => "set_space",
            OpName::Suspend => "suspend",
            OpName::Resume => "resume",
        }
    }

    /// The operation that a text names.
    #[tactic(auto, unfolding(crate::specs::Operations::op_named))]
    pub fn named(text: &str) -> Option<OpName>
        ensures { result ≡ spec.op_named text.now }
    {
        first_named(&OpName::ALL, text).copied()
    }

    /// The keys of a call of it, in the order in which a message lists them: those of every call, and then its words.
    #[rattlefmt::skip]
    pub fn keys(self) -> &'static [&'static str]
        ensures { map (λ k. k.now) result.now ≡ spec.call_keys self }
    {
        match self {
            OpName::Retype => &[
                "thread", "op", "client", "expect", "cap", "kind", "size_bits", "root", "index", "depth", "offset", "count",
            ],
            OpName::CapCopy => &[
                "thread", "op", "client", "expect", "cap", "index", "depth", "src_root", "src_index", "src_depth", "rights",
            ],
            OpName::CapMint => &[
                "thread", "op", "client", "expect", "cap", "index", "depth", "src_root", "src_index", "src_depth", "rights", "word",
            ],
            OpName::CapMove => &[
                "thread", "op", "client", "expect", "cap", "index", "depth", "src_root", "src_index", "src_depth",
            ],
            OpName::CapMutate => &[
                "thread", "op", "client", "expect", "cap", "index", "depth", "src_root", "src_index", "src_depth", "word",
            ],
            OpName::CapDelete | OpName::CapRevoke | OpName::CancelBadged => &[
                "thread", "op", "client", "expect", "cap", "index", "depth",
            ],
            OpName::Send | OpName::NbSend => &["thread", "op", "client", "expect", "cap", "label", "words"],
            OpName::Recv | OpName::NbRecv | OpName::Suspend | OpName::Resume => &[
                "thread", "op", "client", "expect", "cap",
            ],
            OpName::SetSpace => &["thread", "op", "client", "expect", "cap", "root", "word"],
        }
    }
}

/// The first of some operations that a text names.
fn first_named<'o>(ops: &'o [OpName], text: &str) -> Option<&'o OpName>
    ensures { option_copied result ≡ find (λ op. bytes_eq (spec.op_text op) text.now) ops.now }
{
    for op in ops {
        if op.text() == text {
            return Some(op);
        }
    }
    None
}
