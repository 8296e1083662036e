// The answers as C sees them. The record is the same for C.
#![tactic(auto)]

ghost use Rattle.std.specs.Prelude.{◌≡◌};
ghost use Rattle.c_records.specs.Promise.{freshened_of, placed_of, measured_of, asked_of, weighed_of, saved_of, audited_of};

use store::record::{Answered, Placement, Store};
use store_audit::audit::Audited;

// What Fresh gives back. A refusal is its number, 0 where there is none, here and below.
// Kept: these records are what C reads (include/zdd.h), so a refusal is a number with 0 for none, the value beside it is 0
// where it is refused, and those of Size, the sums and Save differ in the name of a field.
#[repr(C)]
#[derive(Clone, Copy)]
pub struct CFreshened {
    pub store: Store,
    pub refusal: u32,
}

// What a call that places a family gives back; the handle and the number added are 0 where it is refused.
#[repr(C)]
#[derive(Clone, Copy)]
pub struct CPlaced {
    pub store: Store,
    pub refusal: u32,
    pub handle: u32,
    pub added: u32,
}

// What Size gives back; the size is 0 where it is refused.
#[repr(C)]
#[derive(Clone, Copy)]
pub struct CMeasured {
    pub store: Store,
    pub refusal: u32,
    pub size: u64,
}

// What Has gives back; no where it is refused.
#[repr(C)]
#[derive(Clone, Copy)]
pub struct CAsked {
    pub store: Store,
    pub refusal: u32,
    pub member: bool,
}

// What a sum of weights gives back; the sum is 0 where it is refused.
#[repr(C)]
#[derive(Clone, Copy)]
pub struct CWeighed {
    pub store: Store,
    pub refusal: u32,
    pub sum: u64,
}

// What Save gives back; the length is 0 where it is refused.
#[repr(C)]
#[derive(Clone, Copy)]
pub struct CSaved {
    pub store: Store,
    pub refusal: u32,
    pub length: usize,
}

// What Audit gives back.
#[repr(C)]
#[derive(Clone, Copy)]
pub struct CAudited {
    pub store: Store,
    pub sound: bool,
}

// What Fresh gave.
impl From<Answered<()>> for CFreshened {
    ghost from_gives = { λ behind given. given ≡ freshened_of behind };

    fn from(behind: Answered<()>) -> CFreshened {
        let store = behind.store;
        match behind.answer {
            Ok(()) => CFreshened { store, refusal: 0 },
            Err(refusal) => CFreshened {
                store,
                refusal: refusal.into(),
            },
        }
    }
}

// What a call that places a family gave.
impl From<Answered<Placement>> for CPlaced {
    ghost from_gives = { λ behind given. given ≡ placed_of behind };

    fn from(behind: Answered<Placement>) -> CPlaced {
        let store = behind.store;
        match behind.answer {
            Ok(Placement { handle, added }) => CPlaced {
                store,
                refusal: 0,
                handle,
                added,
            },
            Err(refusal) => CPlaced {
                store,
                refusal: refusal.into(),
                handle: 0,
                added: 0,
            },
        }
    }
}

// What Size gave.
impl From<Answered<u64>> for CMeasured {
    ghost from_gives = { λ behind given. given ≡ measured_of behind };

    fn from(behind: Answered<u64>) -> CMeasured {
        let store = behind.store;
        match behind.answer {
            Ok(size) => CMeasured {
                store,
                refusal: 0,
                size,
            },
            Err(refusal) => CMeasured {
                store,
                refusal: refusal.into(),
                size: 0,
            },
        }
    }
}

// What Has gave.
impl From<Answered<bool>> for CAsked {
    ghost from_gives = { λ behind given. given ≡ asked_of behind };

    fn from(behind: Answered<bool>) -> CAsked {
        let store = behind.store;
        match behind.answer {
            Ok(member) => CAsked {
                store,
                refusal: 0,
                member,
            },
            Err(refusal) => CAsked {
                store,
                refusal: refusal.into(),
                member: false,
            },
        }
    }
}

// What a sum of weights gave.
impl From<Answered<u64>> for CWeighed {
    ghost from_gives = { λ behind given. given ≡ weighed_of behind };

    fn from(behind: Answered<u64>) -> CWeighed {
        let store = behind.store;
        match behind.answer {
            Ok(sum) => CWeighed {
                store,
                refusal: 0,
                sum,
            },
            Err(refusal) => CWeighed {
                store,
                refusal: refusal.into(),
                sum: 0,
            },
        }
    }
}

// What Save gave.
impl From<Answered<usize>> for CSaved {
    ghost from_gives = { λ behind given. given ≡ saved_of behind };

    fn from(behind: Answered<usize>) -> CSaved {
        let store = behind.store;
        match behind.answer {
            Ok(length) => CSaved {
                store,
                refusal: 0,
                length,
            },
            Err(refusal) => CSaved {
                store,
                refusal: refusal.into(),
                length: 0,
            },
        }
    }
}

// What Audit gave.
impl From<Audited> for CAudited {
    ghost from_gives = { λ behind given. given ≡ audited_of behind };

    fn from(behind: Audited) -> CAudited {
        CAudited {
            store: behind.store,
            sound: behind.sound,
        }
    }
}
