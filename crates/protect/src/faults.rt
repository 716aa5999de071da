//! What an ask raises that gets no page (Power ISA, Book III, chapter 6). Which bits tell what is this machine's own choice.

ghost use Rattle.std.specs.Prelude.{◌≡◌, ◌+◌, ◌^◌, ◌≤◌};
ghost use Rattle.journal_core.specs.Faults as faults;

use journal_core::{AccessKind, Ask, Cause, Denial, FaultKind};

/// Bit 33: there is no entry; bit 44: the tree has a form that this machine does not have.
pub fn kind_bits(kind: FaultKind) -> u64
    ensures value { result ≡ faults.kind_bits kind }
    ensures small { result ≤ 2 ^ 30 }
{
    match kind {
        FaultKind::Missing => 1 << (63 - 33),
        FaultKind::Unsupported => 1 << (63 - 44),
    }
}

/// Bit 35: not to be fetched; bit 36: not permitted; bit 45: not marked.
pub fn denial_bits(denial: Denial) -> u64
    ensures value { result ≡ faults.denial_bits denial }
    ensures small { result ≤ 2 ^ 30 }
{
    match denial {
        Denial::Execute | Denial::Guarded => 1 << (63 - 35),
        Denial::Privilege | Denial::Read | Denial::Write => 1 << (63 - 36),
        Denial::Referenced | Denial::Changed => 1 << (63 - 45),
    }
}

/// Bit 38: the instruction stores.
fn store_bits(access: AccessKind) -> u64
    ensures value { result ≡ faults.store_bits access }
    ensures small { result ≤ 2 ^ 25 }
{
    match access {
        AccessKind::Fetch | AccessKind::Load => 0,
        AccessKind::Store => 1 << (63 - 38),
    }
}

/// The cause where a process's tables give no page: why, and on the data side the effective address.
pub fn process_fault(ask: &Ask, why: u64) -> Cause
    requires { why ≤ 2 ^ 30 + 2 ^ 17 }
    ensures { result ≡ faults.process_fault ask.now why }
{
    if ask.access == AccessKind::Fetch {
        return Cause::InstStorage { bits: why };
    }
    Cause::DataStorage {
        dar: ask.ea,
        dsisr: (why + store_bits(ask.access)) as u32,
    }
}

/// The cause where a partition's tables give no page for a guest real address: why, this address without its 12 low bits,
/// and on the data side the effective address.
pub fn partition_fault(ask: &Ask, why: u64, gra: u64) -> Cause
    requires { why ≤ 2 ^ 30 + 2 ^ 17 }
    ensures { result ≡ faults.partition_fault ask.now why gra }
{
    let asdr = gra / 4096 * 4096;
    if ask.access == AccessKind::Fetch {
        return Cause::HypInstStorage { bits: why, asdr };
    }
    Cause::HypDataStorage {
        hdar: ask.ea,
        hdsisr: (why + store_bits(ask.access)) as u32,
        asdr,
    }
}

/// The cause where the address is in no segment.
pub fn segment_fault(ask: &Ask) -> Cause
    ensures { result ≡ faults.segment_fault ask.now }
{
    if ask.access == AccessKind::Fetch {
        Cause::InstSegment
    } else {
        Cause::DataSegment { dar: ask.ea }
    }
}
