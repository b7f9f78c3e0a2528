ghost use Rattle.std.specs.Prelude.{◌≡◌};
ghost use Rattle.reg_model.specs.declared.start.StartFault.TheVariants.{NoMemory as start_no_memory};
ghost use Rattle.reg_model.specs.Limits.{IsInRange};
ghost use Rattle.reg_model.specs.Opening.{IsOpening};
ghost use Rattle.reg_model.specs.Registry.{start_refusal};

use crate::carried::Carried;
use crate::sizes::Sizes;
use iscc_header::NoMemory;
use std::alloc::{AllocError, AllocFailed};

/// Why a round can't start: the first of these that applies.
#[derive(Clone, Copy, Debug, PartialEq, Eq)]
pub enum StartFault {
    /// More declarations are carried than there are entries.
    TooSmall { live: u64, entries: u32 },
    /// The last id of the round would be 2^34 or more.
    IdsSpent { base: u64, log: u32 },
    NoMemory,
}

impl From<AllocError> for StartFault {
    ghost from_gives = { λ _ e. e ≡ start_no_memory };

    fn from(_: AllocError) -> StartFault {
        StartFault::NoMemory
    }
}

/// Why a round of these sizes can't begin with what is carried, if it can't though there is memory.
pub fn start_fault(sizes: &Sizes, carried: &Carried) -> Option<StartFault>
    ensures fault { result ≡ start_refusal sizes.now carried.now }
    ensures sizes { IsInRange sizes.now }
    ensures carried { IsOpening carried.now }
{
    let live = carried.list().len() as u64;
    let base = carried.base();
    if live > sizes.entries() as u64 {
        return Some(StartFault::TooSmall {
            live,
            entries: sizes.entries(),
        });
    }
    if base + sizes.log() as u64 > 1 << 34 {
        return Some(StartFault::IdsSpent {
            base,
            log: sizes.log(),
        });
    }
    None
}
