//! The stored set-up and its report, and the set-up on standard input.
use command_check::{INPUT_LIMIT, ReaderSource, read_below};
use std::io::Input;

pub const SETUP: &[u8] = b"\
    format = 1\n\
    memory_bits = 16\n\
    root_radix = 4\n\
    threads = 2\n\
    endpoints = 1\n\
    [[untyped]]\n\
    base = 16384\n\
    bits = 12\n\
    [[call]]\n\
    thread = 2048\n\
    op = \"send\"\n\
    cap = 4\n\
    label = 7\n\
    words = [1, 2]\n\
    [[call]]\n\
    thread = 4096\n\
    op = \"recv\"\n\
    cap = 4\n\
    expect = \"delivered 6144 from 2048\"\n";

pub const REPORT: &[u8] = b"\
    1 2048 send: waiting\n\
    2 4096 recv: delivered 6144 from 2048 to 4096 badge 0 label 7 words 1 2 [met]\n\
    thread 2048 ready\n\
    thread 4096 ready inbox badge 0 label 7 words 1 2\n\
    endpoint 6144 idle\n\
    slot 32 cnode 0 radix 4 guard 0 size 60 children\n\
    slot 64 tcb 2048\n\
    slot 96 tcb 4096\n\
    slot 128 endpoint 6144 badge 0 rights wrgp\n\
    slot 160 untyped 16384 bits 12 free 0\n\
    slot 2048 cnode 0 radix 4 guard 0 size 60\n\
    slot 4096 cnode 0 radix 4 guard 0 size 60\n\
    expected 1 of 1\n";

/// The bytes of standard input.
pub fn input<R: Input + AllocGlobal>(rt: &R) -> anyhow::Result<Vec<u8>> {
    Ok(read_below(rt.alloc(), &mut ReaderSource::new(rt.reader()), INPUT_LIMIT)?)
}
