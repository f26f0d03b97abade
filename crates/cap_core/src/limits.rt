//! The bounds of what a simulation may be asked for. They are this project's profile, and the same for every word size.
ghost use Rattle.std.specs.Prelude.{◌≡◌};
ghost use Rattle.cap_core.specs.Limits.{min_memory_bits, max_memory_bits, min_root_radix, max_root_radix, min_boot_threads, max_boot_threads, max_boot_endpoints, max_boot_untypeds, max_message_words, max_clients, max_history_limit, max_retype_count};

/// The fewest bits of the simulated memory's size in bytes.
pub const MIN_MEMORY_BITS: u32 = 12;

/// The most bits of the simulated memory's size in bytes.
pub const MAX_MEMORY_BITS: u32 = 20;

/// The least radix of the root CNode.
pub const MIN_ROOT_RADIX: u32 = 1;

/// The greatest radix of the root CNode.
pub const MAX_ROOT_RADIX: u32 = 12;

/// The fewest threads that a boot makes.
pub const MIN_BOOT_THREADS: u32 = 1;

/// The most threads that a boot makes.
pub const MAX_BOOT_THREADS: u32 = 64;

/// The most endpoints that a boot makes.
pub const MAX_BOOT_ENDPOINTS: u32 = 256;

/// The most untyped regions that a boot hands out.
pub const MAX_BOOT_UNTYPEDS: u32 = 64;

/// The most words of a message.
pub const MAX_MESSAGE_WORDS: usize = 4;

/// The most clients that make a simulation's calls.
pub const MAX_CLIENTS: u32 = 8;

/// The most entries of a history.
pub const MAX_HISTORY_LIMIT: u32 = 65536;

/// The most objects that one retype makes.
pub const MAX_RETYPE_COUNT: u64 = 256;

/// Each limit of the code is that of the definitions, which the rules read.
pub fn limits_are_those_of_the_definitions()
    ensures least_memory { MIN_MEMORY_BITS ≡ min_memory_bits }
    ensures most_memory { MAX_MEMORY_BITS ≡ max_memory_bits }
    ensures least_radix { MIN_ROOT_RADIX ≡ min_root_radix }
    ensures most_radix { MAX_ROOT_RADIX ≡ max_root_radix }
    ensures least_threads { MIN_BOOT_THREADS ≡ min_boot_threads }
    ensures most_threads { MAX_BOOT_THREADS ≡ max_boot_threads }
    ensures endpoints { MAX_BOOT_ENDPOINTS ≡ max_boot_endpoints }
    ensures untypeds { MAX_BOOT_UNTYPEDS ≡ max_boot_untypeds }
    ensures words { MAX_MESSAGE_WORDS ≡ max_message_words }
    ensures clients { MAX_CLIENTS ≡ max_clients }
    ensures history { MAX_HISTORY_LIMIT ≡ max_history_limit }
    ensures retype { MAX_RETYPE_COUNT ≡ max_retype_count }
{}
