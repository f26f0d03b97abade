//! All that a source holds, and a whole text to a sink.
ghost use Rattle.std.specs.Prelude.{◌≡◌, ◌≢◌, ◌⊎◌, ◌<◌, true, false, length, IfOk, IfErr, OnErr, OnOk};
ghost use Rattle.std.specs.Io.KnownBytes.{IsAtEnd};
ghost use Rattle.command_core.specs.Devices.{Gave, GaveAsMany, Took, TookFront};

use crate::fault::RunFault;
use crate::sink::Sink;
use crate::source::Source;
use std::alloc::Global;

/// How many bytes a read asks for.
const PIECE_LENGTH: usize = 4096;

/// Reads to the end of the source.
///
/// # Errors
/// `Reading` if a read failed, or if `limit` bytes came without an end; `Memory`.
pub fn read_below<S: Source>(
    alloc: Global,
    source: &mut S,
    limit: usize,
) -> Result<Vec<u8>, RunFault>
    requires { S.failed source.old ≡ false }
    ensures all { IfOk result (λ bytes. Gave S.left S.given source.old source.new bytes.items) }
    ensures end { OnOk result (IsAtEnd (S.left source.new)) }
    ensures short { IfOk result (λ bytes. length bytes.items < limit) }
    ensures reading { result ≡ Err RunFault.Reading
        → (S.failed source.new ≡ true) ⊎ GaveAsMany S.left S.given source.old source.new limit }
    ensures marked { S.failed source.new ≡ true → result ≡ Err RunFault.Reading }
    ensures never_writing { IfErr result (λ fault. fault ≢ RunFault.Writing) }
    ensures never_thread { IfErr result (λ fault. fault ≢ RunFault.Thread) }
{
    let mut bytes = Vec::new(alloc);
    let mut piece = [0u8; PIECE_LENGTH];
    while bytes.len() < limit {
        let room = PIECE_LENGTH.min(limit - bytes.len());
        let Ok(n) = source.read(&mut piece[..room]) else {
            return Err(RunFault::Reading);
        };
        if n == 0 {
            return Ok(bytes);
        }
        if bytes.extend_from_slice(&piece[..n]).is_err() {
            return Err(RunFault::Memory);
        }
    }
    Err(RunFault::Reading)
}

/// Writes the whole text.
///
/// # Errors
/// `Writing` if a write failed or took no byte; the sink has then taken a front of the text.
pub fn write_all<K: Sink>(sink: &mut K, text: &[u8]) -> Result<(), RunFault>
    requires { K.failed sink.old ≡ false }
    ensures all { OnOk result (Took K.taken K.written sink.old sink.new text.now) }
    ensures front { OnErr result (TookFront K.taken K.written sink.old sink.new text.now) }
    ensures writing { IfErr result (λ fault. fault ≡ RunFault.Writing) }
    ensures ok { OnOk result (K.failed sink.new ≡ false) }
    ensures err { OnErr result (K.failed sink.new ≡ true) }
{
    let mut rest = text;
    while !rest.is_empty() {
        match sink.write(rest) {
            Ok(n) => {
                let (_, after) = rest.split_at(n);
                rest = after;
            }
            Err(_) => return Err(RunFault::Writing),
        }
    }
    Ok(())
}
